//! The merge of a record's logs.
ghost use Rattle.std.specs.Prelude.{◌≡◌, ◌↔◌, IfOk, IsTrue};
ghost use Rattle.runs.specs.Merge.{all_entries, merged};
ghost use Rattle.runs.specs.Right.{Numbered};

use bsan_ids::NoMemory;
use history::{Entry, ThreadLog, append_copies, sort_by_stamp};
use std::alloc::Global;

fn entries_of(alloc: Global, logs: &[ThreadLog]) -> Result<Vec<Entry>, NoMemory>
    ensures { IfOk result (λ entries. entries.items ≡ all_entries logs.now) }
{
    let mut entries = Vec::new(alloc);
    for log in logs {
        append_copies(&mut entries, log.entries.as_slice())?;
    }
    Ok(entries)
}

/// The entries of all logs by their stamps.
///
/// # Errors
///
/// `NoMemory`: out of memory.
pub(crate) fn merge(alloc: Global, logs: &[ThreadLog]) -> Result<Vec<Entry>, NoMemory>
    ensures { IfOk result (λ entries. entries.items ≡ merged logs.now) }
{
    let mut entries = entries_of(alloc, logs)?;
    sort_by_stamp(&mut entries)?;
    Ok(entries)
}

/// Whether the first entry has the stamp 1, and each other one the next stamp.
pub(crate) fn is_numbered(entries: &[Entry]) -> bool
    ensures { IsTrue result ↔ Numbered 1 entries.now }
{
    let mut next = 1;
    for entry in entries {
        if entry.stamp.0 != next {
            return false;
        }
        next += 1;
    }
    true
}
