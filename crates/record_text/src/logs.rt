//! The allocation logs, made of the threads' logs.
ghost use Rattle.std.specs.Prelude.{◌≡◌, ◌↔◌, [], IsTrue, ◌≤◌, ◌<◌, ◌+◌, ◌^◌, ◌++◌, IfOk, OnOk, filter, nat_lt, not};
ghost use Rattle.std.specs.List.{flat_map};
ghost use Rattle.history.specs.Restriction.{names, of_alloc};
ghost use Rattle.record_text.specs.Texts.{all_by_stamp, kept_log, logs_from, alloc_logs};
ghost use Rattle.record_text.specs.Halves.{is_below};

use bsan_ids::{AllocNo, ListOf, NoMemory};
use history::{AllocLog, Entry, ThreadLog, append_copies, sort_by_stamp};
use std::alloc::Global;

fn all_by_stamp(alloc: Global, threads: &[ThreadLog]) -> Result<Vec<Entry>, NoMemory>
    ensures { IfOk result (λ v. v.items ≡ all_by_stamp threads.now) }
{
    let mut entries = Vec::new(alloc);
    for log in threads {
        append_copies(&mut entries, log.entries.as_slice())?;
    }
    sort_by_stamp(&mut entries)?;
    Ok(entries)
}

/// Whether the entry is on an allocation of a number below this one.
fn is_below(entry: &Entry, number: u32) -> bool
    ensures { result ≡ is_below number entry.now }
{
    match entry.alloc {
        Some(alloc) => alloc.0 < number,
        None => false,
    }
}

/// The entries on allocations of a number below this one, and the others.
fn halves(
    alloc: Global,
    entries: Vec<Entry>,
    number: u32,
) -> Result<(Vec<Entry>, Vec<Entry>), NoMemory>
    ensures lower { IfOk result (λ x. x.0.items ≡ filter (is_below number) entries.items) }
    ensures upper { IfOk result (λ x. x.1.items ≡ filter (λ e. not (is_below number e)) entries.items) }
{
    let mut lower = Vec::new(alloc);
    let mut upper = Vec::new(alloc);
    for entry in entries {
        if is_below(&entry, number) {
            lower.push(entry)?;
        } else {
            upper.push(entry)?;
        }
    }
    Ok((lower, upper))
}

/// Whether the entry is on the allocation of this number.
fn is_on(entry: &Entry, number: AllocNo) -> bool
    ensures { result ≡ names number entry.now.alloc }
{
    match entry.alloc {
        Some(alloc) => alloc.0 == number.0,
        None => false,
    }
}

/// The entries on the allocation of this number.
fn entries_on(alloc: Global, entries: Vec<Entry>, number: AllocNo) -> Result<Vec<Entry>, NoMemory>
    ensures { IfOk result (λ own. own.items ≡ of_alloc number entries.items) }
{
    let mut own = Vec::new(alloc);
    for entry in entries {
        if is_on(&entry, number) {
            own.push(entry)?;
        }
    }
    Ok(own)
}

/// Appends the log of an allocation, if it has an entry.
fn append_log(
    logs: &mut ListOf<AllocLog>,
    number: AllocNo,
    entries: Vec<Entry>,
) -> Result<(), NoMemory>
    ensures { OnOk result (logs.new ≡ logs.old ++ kept_log (record { number = number; entries = entries.items }) entries.items) }
{
    if entries.is_empty() {
        return Ok(());
    }
    logs.push(AllocLog {
        number,
        entries: ListOf::from_vec(entries),
    })
}

/// Whether there is no entry.
fn is_none(entries: &Vec<Entry>) -> bool
    ensures { IsTrue result ↔ (entries.now.items ≡ []) }
{
    entries.is_empty()
}

/// Appends the logs of `count` allocations from `first` on, of those that have an entry.
#[tactic(auto, using(crate::proofs::AllocLogs::logs_zero, crate::proofs::AllocLogs::logs_none, crate::proofs::AllocLogs::logs_one))]
fn append_logs(
    alloc: Global,
    logs: &mut ListOf<AllocLog>,
    entries: Vec<Entry>,
    first: u32,
    count: u64,
) -> Result<(), NoMemory>
    requires { first + count ≤ 2 ^ 32 }
    ensures { OnOk result (logs.new ≡ logs.old ++ logs_from entries.items first count) }
{
    if count == 0 {
        return Ok(());
    }
    if is_none(&entries) {
        return Ok(());
    }
    if count == 1 {
        let number = AllocNo(first);
        let own = entries_on(alloc, entries, number)?;
        return append_log(logs, number, own);
    }
    let half = count / 2;
    let middle = first + half as u32;
    let (lower, upper) = halves(alloc, entries, middle)?;
    append_logs(alloc, logs, lower, first, half)?;
    append_logs(alloc, logs, upper, middle, count - half)
}

/// The logs of `count` allocations from the number `first` on, of those on which there is an entry: each has its entries in
/// their order.
///
/// # Errors
///
/// `NoMemory`: out of memory.
pub fn logs_from(
    alloc: Global,
    entries: Vec<Entry>,
    first: u32,
    count: u64,
) -> Result<ListOf<AllocLog>, NoMemory>
    requires { first + count ≤ 2 ^ 32 }
    ensures { IfOk result (λ logs. logs ≡ logs_from entries.items first count) }
{
    let mut logs = ListOf::new(alloc);
    append_logs(alloc, &mut logs, entries, first, count)?;
    Ok(logs)
}

/// The restrictions of all entries to the allocations from 1 to the limit, of those that have an
/// entry, in stamp order.
///
/// # Errors
///
/// `NoMemory`: out of memory.
pub fn alloc_logs(
    alloc: Global,
    limit: u32,
    threads: &[ThreadLog],
) -> Result<ListOf<AllocLog>, NoMemory>
    ensures { IfOk result (λ logs. logs ≡ alloc_logs limit threads.now) }
{
    let entries = all_by_stamp(alloc, threads)?;
    logs_from(alloc, entries, 1, u64::from(limit))
}
