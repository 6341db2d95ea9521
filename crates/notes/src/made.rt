//! Where an allocation and its nodes were made.
ghost use Rattle.std.specs.Prelude.{◌≡◌, ◌==◌, ◌++◌, IfOk, OnOk, find, string_bytes};
ghost use Rattle.std.specs.Option.{option_copied};
ghost use Rattle.history.specs.Histories.{is_make_step};
ghost use Rattle.history.specs.Restriction.{number_of};
ghost use Rattle.notes.specs.Meaning.{listing_meant};
ghost use Rattle.notes.specs.Made as made;

use crate::source::{Listing, push_note};
use bsan_ids::{AllocNo, NoMemory, Prov, Tag};
use history::{AllocLog, Entry, Request};
use perm_table::RetagKind;
use std::alloc::{AllocError, Global};

/// What the pointer may use through which a step was asked.
pub fn used_prov(request: &Request) -> Option<Prov>
    ensures { result ≡ made.used_prov request.now }
{
    match request {
        Request::Load { prov, .. }
        | Request::Store { prov, .. }
        | Request::Modify { prov, .. }
        | Request::CmpXchg { prov, .. }
        | Request::CopyOut { prov, .. }
        | Request::CopyIn { prov, .. }
        | Request::Retag { prov, .. }
        | Request::Free { prov, .. } => *prov,
        _ => None,
    }
}

fn log_of(logs: &[AllocLog], number: AllocNo) -> Option<&AllocLog>
    ensures { option_copied result ≡ find (λ log. log.number.0 == number.0) logs.now }
{
    logs.iter().find(|log| log.number.0 == number.0)
}

fn steps_of(log: Option<&AllocLog>) -> &[Entry]
    ensures { result.now ≡ made.steps_of (option_copied log.entry) }
{
    match log {
        Some(log) => log.entries.as_slice(),
        None => &[],
    }
}

/// The steps on the allocation of this number; none where there is no log of it.
pub fn steps_on(logs: &[AllocLog], number: Option<AllocNo>) -> &[Entry]
    ensures { result.now ≡ made.steps_on logs.now number }
{
    match number {
        Some(number) => steps_of(log_of(logs, number)),
        None => &[],
    }
}

fn is_make(step: &Entry) -> bool
    ensures { result ≡ is_make_step step.now }
{
    matches!(step.request, Request::Make { .. })
}

/// The step that made the allocation.
pub fn make_among(steps: &[Entry]) -> Option<&Entry>
    ensures { option_copied result ≡ find is_make_step steps.now }
{
    steps.iter().find(|step| is_make(step))
}

fn is_retag(request: &Request) -> bool
    ensures { result ≡ made.is_retag request.now }
{
    matches!(request, Request::Retag { .. })
}

fn is_retag_of(node: Tag, step: &Entry) -> bool
    ensures { result ≡ made.is_retag_of node step.now }
{
    matches!(step.request, Request::Retag { .. }) && step.stamp.0 == node.0
}

fn retag_of(steps: &[Entry], node: Tag) -> Option<&Entry>
    ensures { option_copied result ≡ find (made.is_retag_of node) steps.now }
{
    steps.iter().find(|step| is_retag_of(node, step))
}

/// The retag that made a node. The allocation's own node was made by none.
pub fn retag_among(steps: &[Entry], node: Option<Tag>) -> Option<&Entry>
    ensures { option_copied result ≡ made.retag_among steps.now node }
{
    match node {
        Some(node) => retag_of(steps, node),
        None => None,
    }
}

/// The kind of the retag that a step is.
pub fn kind_of(step: Option<&Entry>) -> Option<RetagKind>
    ensures { result ≡ made.kind_of (option_copied step.entry) }
{
    match step?.request {
        Request::Retag { kind, .. } => Some(kind),
        _ => None,
    }
}

fn kind_phrase(kind: Option<RetagKind>) -> &'static str
    ensures { result.now ≡ made.kind_phrase kind }
{
    match kind {
        Some(RetagKind::Mut) => "a mutable reference",
        Some(RetagKind::Cell) => "a mutable reference to a cell",
        Some(RetagKind::Shr) => "a shared reference",
        Some(RetagKind::ShrCell) => "a shared reference to a cell",
        Some(RetagKind::Boxed) => "a box",
        None => "a reference",
    }
}

/// The number of an allocation; 0 where there is none.
pub fn number_of(number: Option<AllocNo>) -> u32
    ensures { result ≡ number_of number }
{
    match number {
        Some(number) => number.0,
        None => 0,
    }
}

fn allocation_phrase(alloc: Global, step: &Entry) -> Result<String, AllocError>
    ensures { IfOk result (λ what. string_bytes what ≡ made.allocation_phrase step.now) }
{
    let number = number_of(step.alloc);
    let node = step.stamp.0;
    format!(in alloc; "allocation {number}, with its own node {node}, was made")
}

/// Adds the note of where an allocation was made, where that is given.
pub fn push_allocation(
    alloc: Global,
    listing: &Listing<'_>,
    step: Option<&Entry>,
    notes: &mut Vec<u8>,
) -> Result<(), NoMemory>
    ensures { OnOk result (notes.new.items ≡ notes.old.items ++ made.allocation_note (listing_meant listing.now) (option_copied step.entry)) }
{
    let Some(step) = step else {
        return Ok(());
    };
    let what = allocation_phrase(alloc, step)?;
    push_note(alloc, listing, what.as_str(), step, notes)
}

fn node_phrase(alloc: Global, was: &str, step: &Entry) -> Result<String, AllocError>
    ensures { IfOk result (λ what. string_bytes what ≡ made.node_phrase was.now step.now) }
{
    let node = step.stamp.0;
    let kind = kind_phrase(kind_of(Some(step)));
    format!(in alloc; "node {node}, {kind}, {was}")
}

fn push_retag(
    alloc: Global,
    listing: &Listing<'_>,
    was: &str,
    step: &Entry,
    notes: &mut Vec<u8>,
) -> Result<(), NoMemory>
    ensures { OnOk result (notes.new.items ≡ notes.old.items ++ made.retag_note (listing_meant listing.now) was.now step.now) }
{
    if !is_retag(&step.request) {
        return Ok(());
    }
    let what = node_phrase(alloc, was, step)?;
    push_note(alloc, listing, what.as_str(), step, notes)
}

/// Adds the note of where a retag made a node, where that is given.
pub fn push_node(
    alloc: Global,
    listing: &Listing<'_>,
    was: &str,
    step: Option<&Entry>,
    notes: &mut Vec<u8>,
) -> Result<(), NoMemory>
    ensures { OnOk result (notes.new.items ≡ notes.old.items ++ made.node_note (listing_meant listing.now) was.now (option_copied step.entry)) }
{
    match step {
        Some(step) => push_retag(alloc, listing, was, step, notes),
        None => Ok(()),
    }
}
