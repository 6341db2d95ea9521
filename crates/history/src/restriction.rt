//! The entries of one thread.
ghost use Rattle.std.specs.Prelude.{◌≡◌, IfOk};
ghost use Rattle.history.specs.Restriction.{of_thread as entries_of};

use crate::entry::Entry;
use bsan_ids::{Copied, NoMemory, ThreadNo};
use std::alloc::Global;

/// Copies of the entries that this thread made, in their order.
///
/// # Errors
///
/// `NoMemory`: out of memory.
pub fn of_thread(alloc: Global, entries: &[Entry], thread: ThreadNo) -> Result<Vec<Entry>, NoMemory>
    ensures { IfOk result (λ part. part.items ≡ entries_of thread entries.now) }
{
    let mut part = Vec::new(alloc);
    for entry in entries {
        if entry.thread == thread {
            part.push(entry.copy()?)?;
        }
    }
    Ok(part)
}
