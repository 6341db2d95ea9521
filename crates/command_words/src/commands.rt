//! The commands, as `clap` reads their words.
ghost use Rattle.std.specs.Prelude.{◌≡◌, map, string_bytes, false, codes, IfOk, OnOk, IsErrOf};
ghost use Rattle.clap.specs.Words.{app_of, found_of, matches_of, rows_of, rule_of, with_rule, IsParsedFrom};
ghost use Rattle.command_words.specs.Commands as commands;
ghost use Rattle.command_words.specs.Refusals.{refused_by};

use crate::WordsFault;
use clap::error::ErrorKind;
use clap::{Arg, ArgAction, ArgMatches, Command};
use std::alloc::{AllocError, Global};

/// A word that has to be there.
fn needed<'a>(alloc: Global, id: &'a str) -> Arg<'a>
    ensures rule { rule_of result ≡ commands.needed id.entry.now }
    ensures local { result.global ≡ false }
{
    Arg::new(alloc, id).required(true).action(ArgAction::Set)
}

/// An option with a value.
fn optional<'a>(alloc: Global, id: &'a str) -> Arg<'a>
    ensures rule { rule_of result ≡ commands.optional id.entry.now }
    ensures local { result.global ≡ false }
{
    Arg::new(alloc, id).long(id)
}

fn plain<'a>(alloc: Global, name: &'a str) -> Command<'a>
    ensures { app_of result ≡ commands.plain name.entry.now }
{
    Command::new(alloc, name).disable_help_flag(true)
}

/// The command with the options of a run.
fn with_options<'a>(alloc: Global, command: Command<'a>) -> Result<Command<'a>, AllocError>
    ensures { IfOk result (λ with. app_of with ≡ commands.with_options (app_of command.entry)) }
{
    let with = command
        .arg(optional(alloc, "input"))?
        .arg(optional(alloc, "steps"))?
        .arg(optional(alloc, "turns"))?
        .arg(optional(alloc, "allocs"))?;
    Ok(with)
}

/// The command `NAME FILE`.
pub(crate) fn file_command<'a>(alloc: Global, name: &'a str) -> Result<Command<'a>, AllocError>
    ensures { IfOk result (λ command. app_of command ≡ commands.file_app name.entry.now) }
{
    let command = plain(alloc, name).arg(needed(alloc, "FILE"))?;
    Ok(command)
}

/// The command `NAME FILE`, with options.
pub(crate) fn run_command<'a>(alloc: Global, name: &'a str) -> Result<Command<'a>, AllocError>
    ensures { IfOk result (λ command. app_of command ≡ commands.run_app name.entry.now) }
{
    with_options(alloc, file_command(alloc, name)?)
}

/// The command `NAME FILE WORD`, with options.
pub(crate) fn word_command<'a>(
    alloc: Global,
    name: &'a str,
    id: &'a str,
) -> Result<Command<'a>, AllocError>
    ensures { IfOk result (λ command. app_of command ≡ commands.word_app name.entry.now id.entry.now) }
{
    let command = file_command(alloc, name)?.arg(needed(alloc, id))?;
    with_options(alloc, command)
}

/// The command `load SEED SIZE`.
pub(crate) fn load_command<'a>(alloc: Global) -> Result<Command<'a>, AllocError>
    ensures { IfOk result (λ command. app_of command ≡ commands.load_app) }
{
    let command = plain(alloc, "load").arg(needed(alloc, "SEED"))?;
    let command = command.arg(needed(alloc, "SIZE"))?;
    Ok(command)
}

/// What clap makes of the words of a simple command, its name among them.
pub(crate) fn matched<'a>(
    command: Command<'a>,
    words: &'a [String],
) -> Result<ArgMatches<'a>, WordsFault>
    requires { commands.IsReadable (app_of command) }
    ensures taken { OnOk result (commands.Takes (app_of command.entry)
        (map string_bytes words.entry.now)) }
    ensures refused { IsErrOf result WordsFault.Refused
        → ¬ commands.Takes (app_of command.entry) (map string_bytes words.entry.now) }
    ensures rows { IfOk result (λ matches. rows_of (found_of matches)
        ≡ matches_of (app_of command.entry) (map string_bytes words.entry.now)) }
    ensures parsed { IfOk result (λ matches. IsParsedFrom command.entry matches) }
{
    match command.try_get_matches_from(words) {
        Ok(matches) => Ok(matches),
        Err(error) => Err(fault_of(error.kind())),
    }
}

/// Why words ask for nothing, where clap answers with an error of this kind.
fn fault_of(kind: ErrorKind) -> WordsFault
    ensures { result ≡ refused_by kind }
{
    match kind {
        ErrorKind::OutOfMemory => WordsFault::NoMemory,
        _ => WordsFault::Refused,
    }
}
