//! The counters of a record against its logs.
ghost use Rattle.std.specs.Prelude.{◌≡◌, ◌↔◌, ◌+◌, ◌++◌, ◌^◌, ◌<◌, ◌≤◌, ℕ, IfOk, IsPermutation, IsTrue, OnOk, count_by, length};
ghost use Rattle.std.specs.List.{flat_map};
ghost use Rattle.history.specs.Histories.{is_make_step};
ghost use Rattle.history.specs.declared.entry.Entry.{Entry};
ghost use Rattle.runs.specs.Merge.{merged};
ghost use Rattle.runs.specs.Right.{alloc_limit_of, alloc_numbers, asks_make, asks_spawn, beyond, beyond_of, counting_from, is_spawn, made_by, spawned_by_reply, thread_limit_of, thread_numbers, HasCounts, StandsAsking};
ghost use Rattle.source_sem.specs.Source.{Setting, Source, source};
ghost use Rattle.record_file.specs.Counts.{AreAllocs, AreStamps, AreThreads, IsCount};

use crate::numbers::{differ_within, follow};
use bsan_ids::{Limits, NoMemory};
use history::{End, Entry, Plain, Request, RunRecord, ThreadLog, Trap};
use std::alloc::Global;

/// Of how many logs the thread stands where it asks a Make, and of how many it asks a Spawn.
#[derive(Clone, Copy)]
pub(crate) struct Asking {
    pub makes: usize,
    pub spawns: usize,
}

fn push_beyond(stamps: &mut Vec<u64>, end: End) -> Result<(), NoMemory>
    ensures { OnOk result (stamps.new.items ≡ stamps.old.items ++ beyond_of end) }
{
    if let End::StepLimit(stamp) = end {
        stamps.push(stamp.0)?;
    }
    Ok(())
}

/// The stamps above the limit that ended threads, in the order of their logs.
fn stamps_beyond(alloc: Global, logs: &[ThreadLog]) -> Result<Vec<u64>, NoMemory>
    ensures { IfOk result (λ stamps. stamps.items ≡ beyond logs.now) }
{
    let mut stamps = Vec::new(alloc);
    for log in logs {
        push_beyond(&mut stamps, log.end)?;
    }
    Ok(stamps)
}

fn push_made(numbers: &mut Vec<u64>, plain: &Plain) -> Result<(), NoMemory>
    ensures { OnOk result (numbers.new.items ≡ numbers.old.items ++ made_by plain.now) }
{
    if let Plain::Made(number) = plain {
        numbers.push(u64::from(number.0))?;
    }
    Ok(())
}

fn push_alloc_limit(numbers: &mut Vec<u64>, end: End) -> Result<(), NoMemory>
    ensures { OnOk result (numbers.new.items ≡ numbers.old.items ++ alloc_limit_of end) }
{
    if let End::Trapped(Trap::AllocLimit { drawn }) = end {
        numbers.push(drawn)?;
    }
    Ok(())
}

fn push_allocs(numbers: &mut Vec<u64>, log: &ThreadLog) -> Result<(), NoMemory>
    ensures { OnOk result (numbers.new.items ≡ numbers.old.items ++ alloc_numbers log.now) }
{
    for entry in log.entries.as_slice() {
        push_made(numbers, &entry.reply.plain)?;
    }
    push_alloc_limit(numbers, log.end)
}

/// The allocation numbers that replies and ends name.
fn allocs_named(alloc: Global, logs: &[ThreadLog]) -> Result<Vec<u64>, NoMemory>
    ensures { IfOk result (λ numbers. numbers.items ≡ flat_map alloc_numbers logs.now) }
{
    let mut numbers = Vec::new(alloc);
    for log in logs {
        push_allocs(&mut numbers, log)?;
    }
    Ok(numbers)
}

fn push_spawned(numbers: &mut Vec<u64>, plain: &Plain) -> Result<(), NoMemory>
    ensures { OnOk result (numbers.new.items ≡ numbers.old.items ++ spawned_by_reply plain.now) }
{
    if let Plain::Spawned(number) = plain {
        numbers.push(u64::from(number.0))?;
    }
    Ok(())
}

fn push_thread_limit(numbers: &mut Vec<u64>, end: End) -> Result<(), NoMemory>
    ensures { OnOk result (numbers.new.items ≡ numbers.old.items ++ thread_limit_of end) }
{
    if let End::Trapped(Trap::ThreadLimit { drawn }) = end {
        numbers.push(drawn)?;
    }
    Ok(())
}

fn push_threads(numbers: &mut Vec<u64>, log: &ThreadLog) -> Result<(), NoMemory>
    ensures { OnOk result (numbers.new.items ≡ numbers.old.items ++ thread_numbers log.now) }
{
    for entry in log.entries.as_slice() {
        push_spawned(numbers, &entry.reply.plain)?;
    }
    push_thread_limit(numbers, log.end)
}

/// The thread numbers that replies and ends name.
fn threads_named(alloc: Global, logs: &[ThreadLog]) -> Result<Vec<u64>, NoMemory>
    ensures { IfOk result (λ numbers. numbers.items ≡ flat_map thread_numbers logs.now) }
{
    let mut numbers = Vec::new(alloc);
    for log in logs {
        push_threads(&mut numbers, log)?;
    }
    Ok(numbers)
}

fn is_make(entry: &Entry) -> bool
    ensures { result ≡ is_make_step entry.now }
{
    matches!(entry.request, Request::Make { .. })
}

fn is_spawn(entry: &Entry) -> bool
    ensures { result ≡ is_spawn entry.now }
{
    matches!(entry.request, Request::Spawn { .. })
}

fn makes(entries: &[Entry]) -> usize
    ensures count { result ≡ count_by is_make_step entries.now }
    ensures few { result ≤ length entries.now }
{
    let mut count = 0;
    for entry in entries {
        if is_make(entry) {
            count += 1;
        }
    }
    count
}

fn spawns(entries: &[Entry]) -> usize
    ensures count { result ≡ count_by is_spawn entries.now }
    ensures few { result ≤ length entries.now }
{
    let mut count = 0;
    for entry in entries {
        if is_spawn(entry) {
            count += 1;
        }
    }
    count
}

/// Whether so many numbers may have been drawn: one for each of these entries, and one for each log that asks for one.
fn is_drawn(drawn: u64, entries: usize, asking: usize) -> bool
    ensures { IsTrue result ↔ (drawn ≤ entries + asking) }
{
    u128::from(drawn) <= entries as u128 + asking as u128
}

/// Whether the stamps that ended threads are those above the limit, each once, after a full merge.
fn are_beyond(stamps: Vec<u64>, steps: u64, entries: usize) -> bool
    requires { steps < 2 ^ 63 }
    ensures { IsTrue result ↔ (IsPermutation stamps.items (counting_from (steps + 1) (length stamps.items)) × (0 < length stamps.items → entries ≡ steps)) }
{
    let full = stamps.is_empty() || entries as u64 == steps;
    follow(stamps, steps + 1) && full
}

/// Whether so many stamps were drawn: those of all entries, and those that ended threads.
fn are_stamps(
    alloc: Global,
    logs: &[ThreadLog],
    entries: &[Entry],
    steps: u64,
    drawn: u64,
) -> Result<bool, NoMemory>
    requires entries { entries.now ≡ merged logs.now }
    requires limit { steps < 2 ^ 63 }
    ensures { IfOk result (λ holds. IsTrue holds ↔ AreStamps steps logs.now drawn) }
{
    let stamps = stamps_beyond(alloc, logs)?;
    let count = entries.len() as u128 + stamps.len() as u128;
    Ok(u128::from(drawn) == count && are_beyond(stamps, steps, entries.len()))
}

/// Whether so many allocation numbers were drawn, where so many logs stand asking for one.
fn are_allocs(
    alloc: Global,
    logs: &[ThreadLog],
    entries: &[Entry],
    asking: usize,
    drawn: u64,
) -> Result<bool, NoMemory>
    requires { entries.now ≡ merged logs.now }
    ensures { IfOk result (λ holds. IsTrue holds ↔ AreAllocs asking logs.now drawn) }
{
    let numbers = allocs_named(alloc, logs)?;
    Ok(is_drawn(drawn, makes(entries), asking) && differ_within(numbers, drawn))
}

/// Whether so many thread numbers were drawn, where so many logs stand asking for one.
fn are_threads(
    alloc: Global,
    logs: &[ThreadLog],
    entries: &[Entry],
    asking: usize,
    drawn: u64,
) -> Result<bool, NoMemory>
    requires { entries.now ≡ merged logs.now }
    ensures { IfOk result (λ holds. IsTrue holds ↔ AreThreads asking logs.now drawn) }
{
    let numbers = threads_named(alloc, logs)?;
    Ok(is_drawn(drawn, spawns(entries), asking) && differ_within(numbers, drawn))
}

fn all_hold(stamps: bool, allocs: bool, threads: bool) -> bool
    ensures { IsTrue result ↔ (IsTrue stamps × IsTrue allocs × IsTrue threads) }
{
    stamps && allocs && threads
}

/// Whether the counters are those of the logs, of which so many stand asking for a number.
pub(crate) fn has_counts(
    alloc: Global,
    kept: &RunRecord,
    entries: &[Entry],
    limits: &Limits,
    asking: Asking,
) -> Result<bool, NoMemory>
    requires entries { entries.now ≡ merged kept.now.threads }
    requires limits { limits.now.steps < 2 ^ 63 }
    ensures { IfOk result (λ holds. (x : Setting) (starts : ℕ → Source)
        → IsCount (StandsAsking (source x) asks_make limits.now starts) kept.now.threads asking.makes
        → IsCount (StandsAsking (source x) asks_spawn limits.now starts) kept.now.threads asking.spawns
        → IsTrue holds ↔ HasCounts (source x) limits.now starts kept.now.threads kept.now.words) }
{
    let logs = kept.threads.as_slice();
    let words = kept.words;
    let stamps = are_stamps(alloc, logs, entries, limits.steps, words.stamps)?;
    let allocs = are_allocs(alloc, logs, entries, asking.makes, words.allocs)?;
    let threads = are_threads(alloc, logs, entries, asking.spawns, words.threads)?;
    Ok(all_hold(stamps, allocs, threads))
}
