//! The notes on all that a call can find in a text.
ghost use Rattle.std.specs.Prelude.{◌≡◌, ◌<◌, ◌^◌, IfOk, length};
ghost use Rattle.explain.specs.Explanations.{AreHistories};
ghost use Rattle.ir_reader.specs.Readings.{IsRefusal};
ghost use Rattle.notes.specs.Meaning.{source_meant};
ghost use Rattle.notes.specs.Whole.{AreNotes};
ghost use Rattle.notes.specs.Whole as whole;

use crate::races::push_races;
use crate::refusals::{refusal_note, rule_note};
use crate::source::{Listing, Source};
use crate::violations::run_notes;
use bsan_ids::NoMemory;
use excerpt::instruction_places;
use explain::explain;
use history::RunRecord;
use ir_ast::HostTable;
use ir_reader::{ReadFault, read};
use ir_rules::Verified;
use ir_verify::{VerifyFault, verify};
use race_check::Race;
use std::alloc::Global;

/// The notes on the run of a verified program, and on these races of it.
fn accepted_notes(
    alloc: Global,
    source: &Source<'_>,
    verified: &Verified,
    kept: &RunRecord,
    races: &[Race],
) -> Result<Vec<u8>, NoMemory>
    requires { AreHistories kept.now.allocs }
    ensures { IfOk result (λ notes. whole.AreRunNotes (whole.listing_of (source_meant source.now) verified.now.program kept.now) kept.now races.now notes.items) }
{
    let places = instruction_places(alloc, verified.program())?;
    let listing = Listing {
        source: *source,
        places: &places,
        functions: verified.program().functions.as_slice(),
        threads: kept.threads.as_slice(),
    };
    let list = explain(alloc, kept)?;
    let mut notes = run_notes(alloc, &listing, kept, &list)?;
    push_races(alloc, &listing, races, &mut notes)?;
    Ok(notes)
}

/// The note on a refusal of a text.
fn unread_note(alloc: Global, source: &Source<'_>, fault: ReadFault) -> Result<Vec<u8>, NoMemory>
    requires { IsRefusal source.now.text.now fault }
    ensures { IfOk result (λ note. whole.IsUnreadNote (source_meant source.now) fault note.items) }
{
    match fault {
        ReadFault::NoMemory => Err(NoMemory),
        _ => refusal_note(alloc, source, fault),
    }
}

/// The notes on what a call finds in a text: on the refusal of the text; or on the first rule that is broken in its program
/// for this table of host functions; or on the run of the program, of which this is the record, and on these races of it.
///
/// To each first violation of the run, in the order of the report, its line; the excerpt of its instruction, or of the
/// parameter that is borrowed at a function's entry; where the allocation was made; what a step counts as that neither reads
/// nor writes by its name; where the allocation was made that the pointer may use, where it is another; where the node was made
/// that denies the step, and what gave it its state, or where the allocation was freed before; where the node was made through
/// which the step was asked, where that is another; and a sentence of help, by the kind of the borrow that denies the step and
/// by what gave it its state. Then where each thread trapped that did. To each race what its two steps did, their excerpts and a
/// sentence of help. To a refusal and to a broken rule the excerpt of the place and a sentence of help.
///
/// In the record the log of each allocation is a legal history. The table has fewer than 2^32 functions.
///
/// # Errors
///
/// `NoMemory`: out of memory.
pub fn notes_of(
    alloc: Global,
    source: &Source<'_>,
    hosts: &HostTable,
    kept: &RunRecord,
    races: &[Race],
) -> Result<Vec<u8>, NoMemory>
    requires histories { AreHistories kept.now.allocs }
    requires few_hosts { length hosts.now.entries < 2 ^ 32 }
    ensures { IfOk result (λ notes. AreNotes (source_meant source.now) hosts.now kept.now races.now notes.items) }
{
    let program = match read(alloc, source.text) {
        Ok(program) => program,
        Err(fault) => return unread_note(alloc, source, fault),
    };
    match verify(alloc, program, hosts) {
        Ok(verified) => accepted_notes(alloc, source, &verified, kept, races),
        Err(VerifyFault::Refused { rule, at }) => rule_note(alloc, source, rule, at),
        Err(VerifyFault::NoMemory) => Err(NoMemory),
    }
}
