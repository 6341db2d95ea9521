//! Notes on the violations of a run, and on how its threads ended.
ghost use Rattle.std.specs.Prelude.{◌≡◌, ◌++◌, All, IfOk, OnOk, string_bytes};
ghost use Rattle.std.specs.List.{flat_map};
ghost use Rattle.std.specs.Option.{option_copied};
ghost use Rattle.explain.specs.Explanations.{AreExplained, AreHistories};
ghost use Rattle.explain.specs.Text.{IsWritable};
ghost use Rattle.notes.specs.Made.{used_prov};
ghost use Rattle.notes.specs.Meaning.{listing_meant, source_meant};
ghost use Rattle.notes.specs.Violations as violations;

use crate::causes::push_causes;
use crate::help::verdict_help;
use crate::made::{
    kind_of, make_among, number_of, push_allocation, push_node, retag_among, steps_on, used_prov,
};
use crate::source::{
    Listing, Source, push_heading, push_help, push_note, push_note_label, push_shown,
};
use crate::traps::push_traps;
use bsan_ids::{AllocNo, NoMemory, Tag};
use eager_tree::Violation;
use explain::Explained;
use history::{AllocLog, Entry, Request, RunRecord, Verdict};
use report::violation_line;
use std::alloc::{AllocError, Global};

/// The node that denies a step.
fn denying_node(verdict: &Verdict) -> Option<Tag>
    ensures { result ≡ violations.denying_node verdict.now }
{
    match verdict {
        Verdict::Violated(Violation::Denied { node, .. } | Violation::StrongFree { node, .. }) => {
            Some(*node)
        }
        _ => None,
    }
}

/// The node through whose pointer a step was asked.
fn used_node(request: &Request) -> Option<Tag>
    ensures { result ≡ violations.used_node request.now }
{
    Some(used_prov(request)?.tag)
}

/// The second of two nodes, where it is another than the first.
fn other_node(first: Option<Tag>, second: Option<Tag>) -> Option<Tag>
    ensures { result ≡ violations.other_node first second }
{
    match (first, second) {
        (Some(first), Some(second)) if first.0 == second.0 => None,
        _ => second,
    }
}

/// The retag of the node through which a step was asked, where another node or none denies it.
fn user<'a>(steps: &'a [Entry], step: &Entry) -> Option<&'a Entry>
    ensures { option_copied result ≡ violations.user steps.now step.now }
{
    let node = denying_node(&step.reply.verdict);
    retag_among(steps, other_node(node, used_node(&step.request)))
}

fn request_of(step: Option<&Entry>) -> Option<&Request>
    ensures { option_copied result ≡ violations.request_of (option_copied step.entry) }
{
    Some(&step?.request)
}

fn help_for(explained: &Explained) -> &'static str
    ensures { result.now ≡ violations.help_for explained.now }
{
    let asked = &explained.violation;
    let kind = kind_of(explained.maker.as_ref());
    let change = request_of(explained.changer.as_ref());
    verdict_help(&asked.reply.verdict, &asked.request, kind, change)
}

fn counts_phrase(request: &Request) -> &'static str
    ensures { result.now ≡ violations.counts_phrase request.now }
{
    match request {
        Request::Free { stack: false, .. } => "a free counts as a write of all bytes\n",
        Request::Free { stack: true, .. } => {
            "a function's return frees what it allocated on its stack, and a free counts as a write of all bytes\n"
        }
        Request::Retag { .. } => "a borrow counts as a read of its bytes\n",
        Request::EndProtector { .. } => {
            "the end of a protector counts as a write of what was written through its pointer, and as a read of what was read\n"
        }
        _ => "",
    }
}

fn push_phrase(source: &Source<'_>, phrase: &str, notes: &mut Vec<u8>) -> Result<(), NoMemory>
    ensures { OnOk result (notes.new.items ≡ notes.old.items ++ violations.phrase_note (source_meant source.now) phrase.now) }
{
    if phrase.is_empty() {
        return Ok(());
    }
    push_note_label(source, notes)?;
    notes.extend_from_slice(phrase.as_bytes())?;
    Ok(())
}

/// Adds the note of what a step counts as that a node denies.
fn push_counts(source: &Source<'_>, step: &Entry, notes: &mut Vec<u8>) -> Result<(), NoMemory>
    ensures { OnOk result (notes.new.items ≡ notes.old.items
        ++ violations.counts_note (source_meant source.now) step.now.reply.verdict step.now.request) }
{
    match step.reply.verdict {
        Verdict::Violated(Violation::Denied { .. }) => {
            push_phrase(source, counts_phrase(&step.request), notes)
        }
        _ => Ok(()),
    }
}

fn owner_phrase(alloc: Global, step: &Entry) -> Result<String, AllocError>
    ensures { IfOk result (λ what. string_bytes what ≡ violations.owner_phrase step.now) }
{
    let number = number_of(step.alloc);
    format!(in alloc; "allocation {number}, which the pointer may use, was made")
}

fn push_making(
    alloc: Global,
    listing: &Listing<'_>,
    step: Option<&Entry>,
    notes: &mut Vec<u8>,
) -> Result<(), NoMemory>
    ensures { OnOk result (notes.new.items ≡ notes.old.items ++ violations.making_note (listing_meant listing.now) (option_copied step.entry)) }
{
    let Some(step) = step else {
        return Ok(());
    };
    let what = owner_phrase(alloc, step)?;
    push_note(alloc, listing, what.as_str(), step, notes)
}

/// The number of the allocation that the pointer may use through which a step was asked.
fn owner_of(request: &Request) -> Option<AllocNo>
    ensures { result ≡ violations.alloc_of (used_prov request.now) }
{
    Some(used_prov(request)?.alloc)
}

/// Adds the note of where the allocation was made that a stranger may use.
fn push_owner(
    alloc: Global,
    listing: &Listing<'_>,
    logs: &[AllocLog],
    step: &Entry,
    notes: &mut Vec<u8>,
) -> Result<(), NoMemory>
    ensures { OnOk result (notes.new.items ≡ notes.old.items
        ++ violations.owner_note (listing_meant listing.now) logs.now step.now.reply.verdict step.now.request) }
{
    match step.reply.verdict {
        Verdict::Violated(Violation::Stranger) => {
            let steps = steps_on(logs, owner_of(&step.request));
            push_making(alloc, listing, make_among(steps), notes)
        }
        _ => Ok(()),
    }
}

/// Adds the notes of what a step counts as, and of where the allocation was made that its pointer may use instead.
fn push_asked(
    alloc: Global,
    listing: &Listing<'_>,
    logs: &[AllocLog],
    step: &Entry,
    notes: &mut Vec<u8>,
) -> Result<(), NoMemory>
    ensures { OnOk result (notes.new.items ≡ notes.old.items ++ violations.asked_notes (listing_meant listing.now) logs.now step.now) }
{
    push_counts(&listing.source, step, notes)?;
    push_owner(alloc, listing, logs, step, notes)
}

/// Adds the notes of a violation in one of these logs.
fn push_violation(
    alloc: Global,
    listing: &Listing<'_>,
    logs: &[AllocLog],
    explained: &Explained,
    notes: &mut Vec<u8>,
) -> Result<(), NoMemory>
    requires { IsWritable explained.now }
    ensures { OnOk result (notes.new.items ≡ notes.old.items ++ violations.violation_in (listing_meant listing.now) logs.now explained.now) }
{
    let violation = &explained.violation;
    let steps = steps_on(logs, violation.alloc);
    push_heading(&listing.source, &violation_line(alloc, violation)?, notes)?;
    push_shown(alloc, listing, violation, notes)?;
    push_allocation(alloc, listing, make_among(steps), notes)?;
    push_asked(alloc, listing, logs, violation, notes)?;
    push_causes(alloc, listing, explained, notes)?;
    push_node(alloc, listing, "was made", user(steps, violation), notes)?;
    push_help(&listing.source, help_for(explained), notes)?;
    Ok(())
}

/// Adds the notes of violations, in their order.
fn push_violations(
    alloc: Global,
    listing: &Listing<'_>,
    logs: &[AllocLog],
    list: &[Explained],
    notes: &mut Vec<u8>,
) -> Result<(), NoMemory>
    requires { All IsWritable list.now }
    ensures { OnOk result (notes.new.items ≡ notes.old.items ++ flat_map (violations.violation_in (listing_meant listing.now) logs.now) list.now) }
{
    for explained in list {
        push_violation(alloc, listing, logs, explained, notes)?;
    }
    Ok(())
}

/// The notes on a run, with the explanations of its first violations: for each in the order of the report its line, the
/// excerpt of its instruction, where the allocation was made, where the node was made that denies the step and since when
/// it has its state, where the node was made that was used instead, and a sentence of help; then for each thread that
/// trapped or reached a limit where it did, what was refused, where the allocation was made and freed, and a sentence of help.
pub fn run_notes(
    alloc: Global,
    listing: &Listing<'_>,
    kept: &RunRecord,
    list: &[Explained],
) -> Result<Vec<u8>, NoMemory>
    requires histories { AreHistories kept.now.allocs }
    requires list { AreExplained kept.now list.now }
    ensures { IfOk result (λ notes. notes.items ≡ violations.run_notes (listing_meant listing.now) kept.now list.now) }
{
    let mut notes = Vec::new(alloc);
    push_violations(alloc, listing, kept.allocs.as_slice(), list, &mut notes)?;
    push_traps(alloc, listing, kept, kept.threads.as_slice(), &mut notes)?;
    Ok(notes)
}
