//! What led to each violation.
ghost use Rattle.std.specs.Prelude.{◌≡◌, ◌<◌, ◌==◌, All, IfOk, MatchOption, false, find, length, map, position, slice_index_or, take, true};
ghost use Rattle.std.specs.List.{filter_map};
ghost use Rattle.std.specs.Option.{option_copied, option_map};
ghost use Rattle.history.specs.declared.entry.Entry.{Entry};
ghost use Rattle.history.specs.Histories.{IsHistory, is_make_step};
ghost use Rattle.history.specs.Records.{first_violation, violates};
ghost use Rattle.explain.specs.Explanations.{AreExplained, AreHistories, IsExplainedBy, IsExplainedIn};
ghost use Rattle.explain.specs.Replays as replays;
ghost use Rattle.explain.specs.Searches.{IsFoundFor};

use crate::explained::Explained;
use crate::last_change::last_change;
use crate::replay::frees;
use bsan_ids::{Copied, NoMemory, Tag};
use eager_tree::Violation;
use history::{AllocLog, Entry, Request, RunRecord, Verdict};
use std::alloc::Global;

fn violates(entry: &Entry) -> bool
    ensures { result ≡ violates entry.now }
{
    matches!(entry.reply.verdict, Verdict::Violated(_))
}

fn is_make(entry: &Entry) -> bool
    ensures { result ≡ is_make_step entry.now }
{
    matches!(entry.request, Request::Make { .. })
}

/// The entry that made a node, whose tag is the entry's stamp.
fn maker(before: &[Entry], node: Tag) -> Option<&Entry>
    ensures { option_copied result ≡ find (λ e. e.stamp.0 == node.0) before.now }
{
    before.iter().find(|entry| entry.stamp.0 == node.0)
}

/// The entry that freed the allocation.
fn freer(before: &[Entry]) -> Option<&Entry>
    ensures { option_copied result ≡ find replays.frees before.now }
{
    before.iter().find(|entry| frees(entry))
}

/// The entry that made the allocation.
fn making(before: &[Entry]) -> Option<&Entry>
    ensures { option_copied result ≡ find is_make_step before.now }
{
    before.iter().find(|entry| is_make(entry))
}

fn copied(told: Option<&Entry>) -> Result<Option<Entry>, NoMemory>
    ensures { IfOk result (λ copy. copy ≡ option_copied told.entry) }
{
    match told {
        Some(entry) => Ok(Some(entry.copy()?)),
        None => Ok(None),
    }
}

/// A violation with copies of these causes.
fn with_causes(
    violation: &Entry,
    maker: Option<&Entry>,
    changer: Option<&Entry>,
) -> Result<Explained, NoMemory>
    ensures { IfOk result (λ x. x ≡ record { violation = violation.now; maker = option_copied maker.entry; changer = option_copied changer.entry }) }
{
    Ok(Explained {
        violation: violation.copy()?,
        maker: copied(maker)?,
        changer: copied(changer)?,
    })
}

/// The violation of the entry at a place of the log, which names a node and a byte, with the maker of
/// the node and the last change of its state.
fn explain_node(
    alloc: Global,
    log: &AllocLog,
    at: usize,
    node: Tag,
    offset: u32,
) -> Result<Explained, NoMemory>
    requires history { IsHistory log.now.number.0 log.now.entries }
    requires at { at < length log.now.entries }
    requires first { All (λ e. violates e ≡ false) (take at log.now.entries) }
    ensures { IfOk result (IsFoundFor log.now at node offset) }
{
    let entries = log.entries.as_slice();
    let changer = last_change(alloc, log, at, node, offset)?;
    with_causes(&entries[at], maker(&entries[..at], node), changer)
}

/// Explains the violation of the entry at a place of the log, before which none violates.
fn explain_at(alloc: Global, log: &AllocLog, at: usize) -> Result<Explained, NoMemory>
    requires history { IsHistory log.now.number.0 log.now.entries }
    requires at { at < length log.now.entries }
    requires violates { (d : Entry) → violates (slice_index_or log.now.entries at d) ≡ true }
    requires first { All (λ e. violates e ≡ false) (take at log.now.entries) }
    ensures violation { IfOk result (λ x. (d : Entry) → x.violation ≡ slice_index_or log.now.entries at d) }
    ensures explained { IfOk result (IsExplainedBy log.now) }
{
    let entries = log.entries.as_slice();
    let violation = &entries[at];
    let before = &entries[..at];
    match violation.reply.verdict {
        Verdict::Violated(Violation::Denied { offset, node, .. }) => {
            explain_node(alloc, log, at, node, offset)
        }
        Verdict::Violated(Violation::StrongFree { offset, node, .. }) => {
            explain_node(alloc, log, at, node, offset)
        }
        Verdict::Violated(Violation::Freed) => with_causes(violation, None, freer(before)),
        Verdict::Violated(Violation::OutOfRange) => with_causes(violation, making(before), None),
        Verdict::Violated(Violation::Stranger) => with_causes(violation, None, None),
        Verdict::Clean | Verdict::Closed => unreachable!(),
    }
}

/// The place of the first entry that violates the rules.
fn first_place(entries: &[Entry]) -> Option<usize>
    ensures { result ≡ position violates entries.now }
{
    entries.iter().position(violates)
}

/// Explains the first violation of a log, where there is one.
fn explain_log(alloc: Global, log: &AllocLog) -> Result<Option<Explained>, NoMemory>
    requires { IsHistory log.now.number.0 log.now.entries }
    ensures violation { IfOk result (λ found. option_map (λ x. x.violation) found ≡ first_violation log.now) }
    ensures explained { IfOk result (λ found. MatchOption found (Unit {0}) (IsExplainedBy log.now)) }
{
    match first_place(log.entries.as_slice()) {
        Some(at) => Ok(Some(explain_at(alloc, log, at)?)),
        None => Ok(None),
    }
}

/// Explains the first violation of each log that has one, in the order of the logs.
fn explain_logs(alloc: Global, logs: &[AllocLog]) -> Result<Vec<Explained>, NoMemory>
    requires { AreHistories logs.now }
    ensures violations { IfOk result (λ list. map (λ x. x.violation) list.items ≡ filter_map first_violation logs.now) }
    ensures each { IfOk result (λ list. All (IsExplainedIn logs.now) list.items) }
{
    let mut list = Vec::new(alloc);
    for log in logs {
        if let Some(explained) = explain_log(alloc, log)? {
            list.push(explained)?;
        }
    }
    Ok(list)
}

/// The first violation on each allocation of a run, in the order of their stamps, each with the steps
/// that led to it. The log of each allocation has to be a legal history.
///
/// # Errors
///
/// `NoMemory`: out of memory.
pub fn explain(alloc: Global, kept: &RunRecord) -> Result<Vec<Explained>, NoMemory>
    requires { AreHistories kept.now.allocs }
    ensures { IfOk result (λ list. AreExplained kept.now list.items) }
{
    let mut list = explain_logs(alloc, kept.allocs.as_slice())?;
    list.sort_by_key(|explained| explained.violation.stamp.0)?;
    Ok(list)
}
