//! Notes on threads that trapped, or that reached a limit.
ghost use Rattle.std.specs.Prelude.{◌≡◌, ◌++◌, IfOk, OnOk, find, string_bytes};
ghost use Rattle.std.specs.List.{flat_map};
ghost use Rattle.std.specs.Option.{option_copied};
ghost use Rattle.report.specs.Violation.{IsDescribable};
ghost use Rattle.report.specs.Violation as lines;
ghost use Rattle.report.specs.End as ends;
ghost use Rattle.report.specs.Words as words;
ghost use Rattle.notes.specs.Meaning.{listing_meant};
ghost use Rattle.notes.specs.Traps as traps;

use crate::causes::push_freed;
use crate::made::{number_of, steps_on};
use crate::source::{
    Listing, push_heading, push_help, push_instruction, push_note, push_note_label,
};
use bsan_ids::NoMemory;
use history::{End, Entry, Plain, Request, RunRecord, ThreadLog, Trap};
use report::what;
use std::alloc::{AllocError, Global};

fn trap_name(trap: Trap) -> &'static str
    ensures { result.now ≡ words.trap_name trap }
{
    match trap {
        Trap::DivZero => "DivZero",
        Trap::ShiftTooFar => "ShiftTooFar",
        Trap::NoAllocation => "NoAllocation",
        Trap::OutOfBounds => "OutOfBounds",
        Trap::Freed => "Freed",
        Trap::BadFree => "BadFree",
        Trap::BadSize => "BadSize",
        Trap::AllocLimit { .. } => "AllocLimit",
        Trap::ThreadLimit { .. } => "ThreadLimit",
        Trap::DepthLimit => "DepthLimit",
        Trap::Unreachable => "Unreachable",
    }
}

fn trap_help(trap: Trap) -> &'static str
    ensures { result.now ≡ traps.trap_help trap }
{
    match trap {
        Trap::DivZero => "the divisor is 0; test it before the division",
        Trap::ShiftTooFar => {
            "a shift is by fewer bits than its type has; test the distance before the shift"
        }
        Trap::NoAllocation => {
            "no allocation was made there; the pointer is null or made from other bytes, or it was moved in front of the first allocation"
        }
        Trap::OutOfBounds => {
            "not all of these bytes lie in the allocation; an offset just below 4294967296 is one in front of the next allocation"
        }
        Trap::Freed => "the allocation was freed before; use it before the free, or free it later",
        Trap::BadFree => {
            "only a pointer to the first byte of what `malloc` made is freed; what `alloca` made ends with its function"
        }
        Trap::BadSize => {
            "an allocation has one byte at least, and not too many; ask for another size"
        }
        Trap::AllocLimit { .. } => {
            "the run made as many allocations as it may; free doesn't lower their number, and the option --allocs sets another limit"
        }
        Trap::ThreadLimit { .. } => {
            "the run started as many threads as it may; let fewer threads do the work"
        }
        Trap::DepthLimit => {
            "too many calls stand one inside the other; end the recursion earlier, or make it a loop"
        }
        Trap::Unreachable => {
            "the program says that this instruction is never reached; see which branch leads to it"
        }
    }
}

fn end_words(alloc: Global, last: u32, end: End) -> Result<String, AllocError>
    ensures { IfOk result (λ text. string_bytes text ≡ ends.end_text last end) }
{
    match end {
        End::Returned { value, .. } => format!(in alloc; " returned {value}"),
        End::Trapped(trap) => {
            let name = trap_name(trap);
            format!(in alloc; " trapped: {name} at instruction {last}")
        }
        End::StepLimit(stamp) => {
            let stamp = stamp.0;
            format!(in alloc; " reached the step limit with stamp {stamp}")
        }
        End::TurnLimit => format!(in alloc; " reached the turn limit"),
        End::NoMemory => format!(in alloc; " found no memory"),
        End::ChildEnded(child) => {
            let number = child.0;
            format!(in alloc; " ended with thread {number}")
        }
    }
}

fn ending_help(end: End) -> &'static str
    ensures { result.now ≡ traps.ending_help end }
{
    match end {
        End::Trapped(trap) => trap_help(trap),
        End::StepLimit(_) => "see whether this loop ends; the option --steps sets another limit",
        End::TurnLimit => {
            "see whether this loop ends, or waits for a thread that the schedule leaves out; the option --turns sets another limit"
        }
        _ => "",
    }
}

/// The line of a thread's end, as the report has it.
fn end_line(alloc: Global, log: &ThreadLog) -> Result<String, AllocError>
    ensures { IfOk result (λ line. string_bytes line ≡ ends.end_line log.now) }
{
    let thread = log.number.0;
    let end = end_words(alloc, log.last, log.end)?;
    format!(in alloc; "thread {thread}{end}\n")
}

fn is_refused(step: &Entry) -> bool
    ensures { result ≡ traps.is_refused step.now }
{
    matches!(step.reply.plain, Plain::Trapped(_))
}

fn is_making(step: &Entry) -> bool
    ensures { result ≡ traps.is_making step.now }
{
    matches!(step.request, Request::Make { .. }) && !is_refused(step)
}

fn is_freeing(step: &Entry) -> bool
    ensures { result ≡ traps.is_freeing step.now }
{
    matches!(step.request, Request::Free { .. }) && !is_refused(step)
}

/// The step that was refused.
fn refused_among(steps: &[Entry]) -> Option<&Entry>
    ensures { option_copied result ≡ find traps.is_refused steps.now }
{
    steps.iter().find(|step| is_refused(step))
}

/// The step that made the allocation.
fn making_among(steps: &[Entry]) -> Option<&Entry>
    ensures { option_copied result ≡ find traps.is_making steps.now }
{
    steps.iter().find(|step| is_making(step))
}

/// The step that freed the allocation.
fn freeing_among(steps: &[Entry]) -> Option<&Entry>
    ensures { option_copied result ≡ find traps.is_freeing steps.now }
{
    steps.iter().find(|step| is_freeing(step))
}

fn made_size(request: &Request) -> u32
    ensures { result ≡ traps.made_size request.now }
{
    match request {
        Request::Make { size, .. } => *size,
        _ => 0,
    }
}

fn sized_phrase(alloc: Global, step: &Entry) -> Result<String, AllocError>
    ensures { IfOk result (λ what. string_bytes what ≡ traps.sized_phrase step.now) }
{
    let number = number_of(step.alloc);
    let size = made_size(&step.request);
    format!(in alloc; "allocation {number}, of {size} bytes, was made")
}

fn push_sized(
    alloc: Global,
    listing: &Listing<'_>,
    step: Option<&Entry>,
    notes: &mut Vec<u8>,
) -> Result<(), NoMemory>
    ensures { OnOk result (notes.new.items ≡ notes.old.items ++ traps.sized_note (listing_meant listing.now) (option_copied step.entry)) }
{
    let Some(step) = step else {
        return Ok(());
    };
    let what = sized_phrase(alloc, step)?;
    push_note(alloc, listing, what.as_str(), step, notes)
}

fn is_operation(request: &Request) -> bool
    ensures { result ≡ lines.is_operation request.now }
{
    !matches!(
        request,
        Request::Make { .. }
            | Request::Print { .. }
            | Request::Host { .. }
            | Request::Spawn { .. }
            | Request::Join { .. }
    )
}

fn is_describable(step: &Entry) -> bool
    ensures { result ≡ traps.is_describable step.now }
{
    is_operation(&step.request) && step.alloc.is_some()
}

fn refused_start(alloc: Global, step: &Entry) -> Result<String, AllocError>
    ensures { IfOk result (λ start. string_bytes start ≡ traps.refused_start step.now) }
{
    let stamp = step.stamp.0;
    let number = number_of(step.alloc);
    format!(in alloc; "step {stamp} on allocation {number} was refused: ")
}

fn push_refused_line(alloc: Global, step: &Entry, notes: &mut Vec<u8>) -> Result<(), NoMemory>
    requires { IsDescribable step.now }
    ensures { OnOk result (notes.new.items ≡ notes.old.items ++ traps.refused_line step.now) }
{
    notes.extend_from_slice(refused_start(alloc, step)?.as_bytes())?;
    notes.extend_from_slice(&what(alloc, step, true)?)?;
    notes.push(b'\n')?;
    Ok(())
}

/// Adds the note of what a step asked, where that is an operation on an allocation.
fn push_asked(
    alloc: Global,
    listing: &Listing<'_>,
    step: &Entry,
    notes: &mut Vec<u8>,
) -> Result<(), NoMemory>
    ensures { OnOk result (notes.new.items ≡ notes.old.items ++ traps.asked_note (listing_meant listing.now) step.now) }
{
    if !is_describable(step) {
        return Ok(());
    }
    push_note_label(&listing.source, notes)?;
    push_refused_line(alloc, step, notes)
}

/// Adds the notes of where an allocation was made and freed. The steps are those on it.
fn push_life(
    alloc: Global,
    listing: &Listing<'_>,
    steps: &[Entry],
    notes: &mut Vec<u8>,
) -> Result<(), NoMemory>
    ensures { OnOk result (notes.new.items ≡ notes.old.items ++ traps.life_notes (listing_meant listing.now) steps.now) }
{
    push_sized(alloc, listing, making_among(steps), notes)?;
    push_freed(alloc, listing, freeing_among(steps), notes)
}

/// Adds the notes of a step that was refused, where one is given.
fn push_refused(
    alloc: Global,
    listing: &Listing<'_>,
    kept: &RunRecord,
    step: Option<&Entry>,
    notes: &mut Vec<u8>,
) -> Result<(), NoMemory>
    ensures { OnOk result (notes.new.items ≡ notes.old.items ++ traps.refused_notes (listing_meant listing.now) kept.now (option_copied step.entry)) }
{
    let Some(step) = step else {
        return Ok(());
    };
    push_asked(alloc, listing, step, notes)?;
    let steps = steps_on(kept.allocs.as_slice(), step.alloc);
    push_life(alloc, listing, steps, notes)
}

fn push_ended(
    alloc: Global,
    listing: &Listing<'_>,
    kept: &RunRecord,
    log: &ThreadLog,
    notes: &mut Vec<u8>,
) -> Result<(), NoMemory>
    ensures { OnOk result (notes.new.items ≡ notes.old.items ++ traps.ended_note (listing_meant listing.now) kept.now log.now) }
{
    push_heading(&listing.source, end_line(alloc, log)?.as_bytes(), notes)?;
    push_instruction(alloc, listing, log.last, notes)?;
    let refused = refused_among(log.entries.as_slice());
    push_refused(alloc, listing, kept, refused, notes)?;
    push_help(&listing.source, ending_help(log.end), notes)?;
    Ok(())
}

/// Adds the notes on how a thread ended, where it trapped or reached a limit.
fn push_trap(
    alloc: Global,
    listing: &Listing<'_>,
    kept: &RunRecord,
    log: &ThreadLog,
    notes: &mut Vec<u8>,
) -> Result<(), NoMemory>
    ensures { OnOk result (notes.new.items ≡ notes.old.items ++ traps.trap_note (listing_meant listing.now) kept.now log.now) }
{
    match log.end {
        End::Trapped(_) | End::StepLimit(_) | End::TurnLimit => {
            push_ended(alloc, listing, kept, log, notes)
        }
        _ => Ok(()),
    }
}

/// Adds the notes on these threads of a run, in their order: for each that trapped or reached a limit how it ended, with the
/// excerpt of its instruction; the step that was refused, and where its allocation was made and freed; and a sentence of help.
pub fn push_traps(
    alloc: Global,
    listing: &Listing<'_>,
    kept: &RunRecord,
    logs: &[ThreadLog],
    notes: &mut Vec<u8>,
) -> Result<(), NoMemory>
    ensures { OnOk result (notes.new.items ≡ notes.old.items ++ flat_map (traps.trap_note (listing_meant listing.now) kept.now) logs.now) }
{
    for log in logs {
        push_trap(alloc, listing, kept, log, notes)?;
    }
    Ok(())
}
