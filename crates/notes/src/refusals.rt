//! Notes on texts that aren't read, and on programs that aren't verified.
ghost use Rattle.std.specs.Prelude.{◌≡◌, IfOk, string_bytes};
ghost use Rattle.notes.specs.Meaning.{source_meant};
ghost use Rattle.notes.specs.Refusals as refusals;

use crate::help::{fault_help, rule_help};
use crate::source::{Source, push_heading, push_help};
use bsan_ids::NoMemory;
use excerpt::excerpt;
use ir_reader::ReadFault;
use ir_rules::Rule;
use std::alloc::{AllocError, Global};

fn place_of(fault: ReadFault) -> u32
    ensures { result ≡ refusals.place_of fault }
{
    match fault {
        ReadFault::TooLarge { at }
        | ReadFault::BadByte { at }
        | ReadFault::IntToPtr { at }
        | ReadFault::Unexpected { at }
        | ReadFault::NumberTooLarge { at } => at,
        ReadFault::NoMemory => 0,
    }
}

fn refusal_line(alloc: Global, fault: ReadFault) -> Result<String, AllocError>
    ensures { IfOk result (λ line. string_bytes line ≡ refusals.refusal_line fault) }
{
    format!(in alloc; "not read: {fault}\n")
}

/// The note on a refusal of a text: its line, the excerpt of its place, and a sentence of help.
pub fn refusal_note(
    alloc: Global,
    source: &Source<'_>,
    fault: ReadFault,
) -> Result<Vec<u8>, NoMemory>
    ensures { IfOk result (λ note. note.items ≡ refusals.refusal_note (source_meant source.now) fault) }
{
    let at = place_of(fault) as usize;
    let mut note = Vec::new(alloc);
    push_heading(source, refusal_line(alloc, fault)?.as_bytes(), &mut note)?;
    note.extend_from_slice(&excerpt(alloc, source.name, source.text, at)?)?;
    push_help(source, fault_help(source.text, fault), &mut note)?;
    Ok(note)
}

fn rule_line(alloc: Global, rule: Rule, at: u32) -> Result<String, AllocError>
    ensures { IfOk result (λ line. string_bytes line ≡ refusals.rule_line rule at) }
{
    format!(in alloc; "not verified: {rule} at {at}\n")
}

/// The note on a rule that is broken at a place of a text: its line, the excerpt of the place, and a sentence of help.
pub fn rule_note(
    alloc: Global,
    source: &Source<'_>,
    rule: Rule,
    at: u32,
) -> Result<Vec<u8>, NoMemory>
    ensures { IfOk result (λ note. note.items ≡ refusals.rule_note (source_meant source.now) rule at) }
{
    let mut note = Vec::new(alloc);
    push_heading(source, rule_line(alloc, rule, at)?.as_bytes(), &mut note)?;
    note.extend_from_slice(&excerpt(alloc, source.name, source.text, at as usize)?)?;
    push_help(source, rule_help(rule), &mut note)?;
    Ok(note)
}
