//! Which thread started which.
ghost use Rattle.std.specs.Prelude.{◌≡◌, ◌↔◌, ◌<◌, ◌≤◌, ℕ, IfOk, IsTrue, Some, true, length, slice_get, vec_len};
ghost use Rattle.runs.specs.Right.{HasThreads, NumbersRiseFrom};
ghost use Rattle.record_file.specs.Family.{IsFirstRight, MarksLog, MarksOne};

use crate::logs::{log_of, numbers_rise};
use bsan_ids::{NoMemory, ThreadNo};
use history::{Entry, Plain, Request, ThreadLog};
use std::alloc::Global;

/// Whether a log is that of a child of this parent, in this function.
fn is_child_of(child: &ThreadLog, parent: ThreadNo, function: u32) -> bool
    ensures { IsTrue result ↔ ((child.now.parent ≡ Some parent) × (child.now.entry_function ≡ function)) }
{
    child.parent == Some(parent) && child.entry_function == function
}

/// Marks the thread that the entry starts, whose parent is this thread; `false` where it has no log, is another's child or of
/// another function, or is marked already. Thread 0 needs no mark.
fn mark(logs: &[ThreadLog], started: &mut Vec<bool>, parent: ThreadNo, entry: &Entry) -> bool
    requires rise { NumbersRiseFrom 0 logs.now }
    requires len { vec_len started.old ≡ length logs.now }
    ensures len { vec_len started.new ≡ length logs.now }
    ensures marks { MarksOne result logs.now parent started.old.items entry.now started.new.items }
{
    let Request::Spawn { function } = entry.request else {
        return true;
    };
    let Plain::Spawned(number) = entry.reply.plain else {
        return false;
    };
    let Some(at) = log_of(logs, number) else {
        return false;
    };
    if number.0 == 0 {
        return true;
    }
    if !is_child_of(&logs[at], parent, function) || started[at] {
        return false;
    }
    started[at] = true;
    true
}

/// The same for all entries of a thread's log.
fn mark_all(
    logs: &[ThreadLog],
    started: &mut Vec<bool>,
    parent: ThreadNo,
    entries: &[Entry],
) -> bool
    requires rise { NumbersRiseFrom 0 logs.now }
    requires len { vec_len started.old ≡ length logs.now }
    ensures len { vec_len started.new ≡ length logs.now }
    ensures marks { MarksLog result logs.now parent started.old.items entries.now started.new.items }
{
    for entry in entries {
        if !mark(logs, started, parent, entry) {
            return false;
        }
    }
    true
}

/// Whether the first log is that of thread 0, in this function and without a parent.
fn begins_right(main: u32, logs: &[ThreadLog]) -> bool
    ensures { IsTrue result ↔ IsFirstRight main logs.now }
{
    match logs.first() {
        Some(log) => log.number.0 == 0 && log.parent.is_none() && log.entry_function == main,
        None => false,
    }
}

/// Whether all are marked but the first.
fn all_marked(started: &[bool]) -> bool
    ensures { IsTrue result ↔ ((at : ℕ) → 1 ≤ at → at < length started.now → slice_get started.now at ≡ Some true) }
{
    for at in 1..started.len() {
        if !started[at] {
            return false;
        }
    }
    true
}

/// Whether the threads of the logs have started each other, the first of them in function `main`.
///
/// # Errors
///
/// `NoMemory`: out of memory.
pub(crate) fn has_threads(alloc: Global, main: u32, logs: &[ThreadLog]) -> Result<bool, NoMemory>
    ensures { IfOk result (λ holds. IsTrue holds ↔ HasThreads main logs.now) }
{
    if !numbers_rise(logs) || !begins_right(main, logs) {
        return Ok(false);
    }
    let mut started = vec![in alloc; false; logs.len()]?;
    for log in logs {
        if !mark_all(logs, &mut started, log.number, log.entries.as_slice()) {
            return Ok(false);
        }
    }
    Ok(all_marked(&started))
}
