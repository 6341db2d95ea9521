//! Entries by the numbers of their allocations.
ghost use Rattle.std.specs.Prelude.{◌≡◌, ◌≤◌, ◌+◌, ◌^◌, IfOk};
ghost use Rattle.history.specs.declared.entry.Entry.{Entry};
ghost use Rattle.record_text.specs.Texts.{logs_from};
ghost use Rattle.runs.specs.Parts.{Has};
ghost use Rattle.record_file.specs.ByNumber.{IsSmall};

use bsan_ids::{AllocNo, ListOf, NoMemory};
use history::{AllocLog, Entry, append_copies};
use record_text::logs_from;
use std::alloc::Global;

/// The logs of `count` allocations from `first` on, of those on which there is an entry.
///
/// # Errors
///
/// `NoMemory`: out of memory.
pub(crate) fn logs_on(
    alloc: Global,
    entries: &[Entry],
    first: u32,
    count: u64,
) -> Result<ListOf<AllocLog>, NoMemory>
    requires { first + count ≤ 2 ^ 32 }
    ensures { IfOk result (λ logs. logs ≡ logs_from entries.now first count) }
{
    let mut copies = Vec::new(alloc);
    append_copies(&mut copies, entries)?;
    logs_from(alloc, copies, first, count)
}

/// A log names allocations by numbers of 32 bits.
fn is_small(number: Option<AllocNo>)
    ensures { IsSmall (2 ^ 32) number }
{
    if let Some(number) = number {
        let _ = number.0;
    }
}

/// So do all entries.
pub(crate) fn are_small(entries: &[Entry])
    ensures { (e : Entry) → Has entries.now e → IsSmall (2 ^ 32) e.alloc }
{
    for entry in entries {
        is_small(entry.alloc);
    }
}
