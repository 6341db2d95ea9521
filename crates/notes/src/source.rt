//! The text that notes show.
ghost use Rattle.std.specs.Prelude.{◌≡◌, ◌++◌, OnOk, IfOk, slice_get, string_bytes};
ghost use Rattle.std.specs.Option.{option_copied};
ghost use Rattle.notes.specs.Meaning.{source_meant, listing_meant};
ghost use Rattle.notes.specs.Sources as sources;

use crate::colours::{Colour, push_painted};
use crate::entries::{entered, entry_place};
use bsan_ids::NoMemory;
use excerpt::{excerpt, from_in_line};
use history::{Entry, ThreadLog};
use ir_ast::Function;
use std::alloc::{AllocError, Global};

/// A text as notes show it.
#[derive(Clone, Copy)]
pub struct Source<'a> {
    /// The name that stands before each line and column.
    pub name: &'a str,
    /// Its bytes.
    pub text: &'a [u8],
    /// Whether notes on it are in colours.
    pub colours: bool,
}

/// A program's text, the place in it of each instruction, in the order of their numbers, the program's functions, and the
/// threads of a run.
#[derive(Clone, Copy)]
pub struct Listing<'a> {
    pub source: Source<'a>,
    pub places: &'a [u32],
    pub functions: &'a [Function],
    pub threads: &'a [ThreadLog],
}

fn place_of(places: &[u32], number: u32) -> Option<u32>
    ensures { result ≡ slice_get places.now number }
{
    places.get(number as usize).copied()
}

/// Adds the excerpt of a place in the text, where one is given.
fn push_excerpt(
    alloc: Global,
    source: &Source<'_>,
    at: Option<u32>,
    notes: &mut Vec<u8>,
) -> Result<(), NoMemory>
    ensures { OnOk result (notes.new.items ≡ notes.old.items ++ sources.excerpt_at (source_meant source.now) at) }
{
    if let Some(at) = at {
        notes.extend_from_slice(&excerpt(alloc, source.name, source.text, at as usize)?)?;
    }
    Ok(())
}

/// Adds the excerpt of an instruction, where there is one of this number.
pub fn push_instruction(
    alloc: Global,
    listing: &Listing<'_>,
    number: u32,
    notes: &mut Vec<u8>,
) -> Result<(), NoMemory>
    ensures { OnOk result (notes.new.items ≡ notes.old.items ++ sources.instruction (listing_meant listing.now) number) }
{
    push_excerpt(
        alloc,
        &listing.source,
        place_of(listing.places, number),
        notes,
    )
}

/// Adds the line of what was found.
pub fn push_heading(source: &Source<'_>, line: &[u8], notes: &mut Vec<u8>) -> Result<(), NoMemory>
    ensures { OnOk result (notes.new.items ≡ notes.old.items ++ sources.heading (source_meant source.now) line.now) }
{
    push_painted(source.colours, Colour::Red, from_in_line(line, 0), notes)?;
    notes.push(b'\n')?;
    Ok(())
}

/// Adds what a note begins with.
pub fn push_note_label(source: &Source<'_>, notes: &mut Vec<u8>) -> Result<(), NoMemory>
    ensures { OnOk result (notes.new.items ≡ notes.old.items ++ sources.note_label (source_meant source.now)) }
{
    push_painted(source.colours, Colour::Green, b"note: ", notes)
}

/// The function at whose entry a step is a borrow, if it is one.
fn entered_by<'a>(listing: &Listing<'a>, step: &Entry) -> Option<&'a Function>
    ensures { option_copied result ≡ sources.entered_by (listing_meant listing.now) step.now }
{
    entered(listing.functions, place_of(listing.places, step.site), step)
}

fn place_in(
    alloc: Global,
    listing: &Listing<'_>,
    step: &Entry,
    function: Option<&Function>,
) -> Result<Option<u32>, NoMemory>
    ensures { IfOk result (λ at. at ≡ sources.place_in (listing_meant listing.now) step.now (option_copied function.entry)) }
{
    match function {
        Some(function) => Ok(Some(entry_place(alloc, listing.threads, function, step)?)),
        None => Ok(place_of(listing.places, step.site)),
    }
}

/// Adds the excerpt of what a step stands for: of the parameter that is borrowed at a function's entry, and else of the
/// instruction.
pub fn push_shown(
    alloc: Global,
    listing: &Listing<'_>,
    step: &Entry,
    notes: &mut Vec<u8>,
) -> Result<(), NoMemory>
    ensures { OnOk result (notes.new.items ≡ notes.old.items ++ sources.shown (listing_meant listing.now) step.now) }
{
    let at = place_in(alloc, listing, step, entered_by(listing, step))?;
    push_excerpt(alloc, &listing.source, at, notes)
}

fn push_whereabouts(function: Option<&Function>, notes: &mut Vec<u8>) -> Result<(), NoMemory>
    ensures { OnOk result (notes.new.items ≡ notes.old.items ++ sources.whereabouts (option_copied function.entry)) }
{
    match function {
        Some(function) => {
            notes.extend_from_slice(b" at the entry of @")?;
            notes.extend_from_slice(function.name.name.as_slice())?;
        }
        None => notes.extend_from_slice(b" here")?,
    }
    Ok(())
}

fn by_line(alloc: Global, step: &Entry) -> Result<String, AllocError>
    ensures { IfOk result (λ line. string_bytes line ≡ sources.by_line step.now) }
{
    let thread = step.thread.0;
    let stamp = step.stamp.0;
    format!(in alloc; " by thread {thread}, step {stamp}\n")
}

fn push_step_line(
    alloc: Global,
    listing: &Listing<'_>,
    what: &str,
    step: &Entry,
    notes: &mut Vec<u8>,
) -> Result<(), NoMemory>
    ensures { OnOk result (notes.new.items ≡ notes.old.items ++ sources.step_line (listing_meant listing.now) what.now step.now) }
{
    notes.extend_from_slice(what.as_bytes())?;
    push_whereabouts(entered_by(listing, step), notes)?;
    notes.extend_from_slice(by_line(alloc, step)?.as_bytes())?;
    Ok(())
}

/// Adds a note of what was done at a step, with the excerpt of what the step stands for.
pub fn push_note(
    alloc: Global,
    listing: &Listing<'_>,
    what: &str,
    step: &Entry,
    notes: &mut Vec<u8>,
) -> Result<(), NoMemory>
    ensures { OnOk result (notes.new.items ≡ notes.old.items ++ sources.note (listing_meant listing.now) what.now step.now) }
{
    push_note_label(&listing.source, notes)?;
    push_step_line(alloc, listing, what, step, notes)?;
    push_shown(alloc, listing, step, notes)
}

/// Adds a sentence of help, and an empty line.
pub fn push_help(source: &Source<'_>, help: &str, notes: &mut Vec<u8>) -> Result<(), NoMemory>
    ensures { OnOk result (notes.new.items ≡ notes.old.items ++ sources.help_line (source_meant source.now) help.now) }
{
    push_painted(source.colours, Colour::Cyan, b"help: ", notes)?;
    notes.extend_from_slice(help.as_bytes())?;
    notes.extend_from_slice(b"\n\n")?;
    Ok(())
}
