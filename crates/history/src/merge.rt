//! Entries in the order of their stamps.
ghost use Rattle.std.specs.Prelude.{◌≡◌, ◌++◌, take, vec_len, IfOk, OnOk, OnErr};
ghost use Rattle.history.specs.Merge.{CanMerge, IsMerge, by_stamp};

use crate::entry::Entry;
use bsan_ids::{Copied, NoMemory};

fn push_copies(into: &mut Vec<Entry>, entries: &[Entry]) -> Result<(), NoMemory>
    ensures grown { OnOk result (into.new.items ≡ into.old.items ++ entries.now) }
    ensures kept { take (vec_len into.old) into.new.items ≡ into.old.items }
{
    for entry in entries {
        into.push(entry.copy()?)?;
    }
    Ok(())
}

/// Appends copies of these entries.
///
/// # Errors
///
/// `NoMemory`: out of memory; then `into` is as before.
pub fn append_copies(into: &mut Vec<Entry>, entries: &[Entry]) -> Result<(), NoMemory>
    ensures grown { OnOk result (into.new.items ≡ into.old.items ++ entries.now) }
    ensures kept { OnErr result (into.new.items ≡ into.old.items) }
{
    let before = into.len();
    let pushed = push_copies(into, entries);
    if pushed.is_err() {
        into.truncate(before);
    }
    pushed
}

/// Puts the entries in the order of their stamps.
///
/// # Errors
///
/// `NoMemory`: out of memory; then the entries are as before.
pub fn sort_by_stamp(entries: &mut Vec<Entry>) -> Result<(), NoMemory>
    ensures sorted { OnOk result (entries.new.items ≡ by_stamp entries.old.items) }
    ensures kept { OnErr result (entries.new.items ≡ entries.old.items) }
{
    entries.sort_by_key(|entry| entry.stamp.0)?;
    Ok(())
}

/// Merges copies of `more` into the entries. Both lists are in the order of their stamps, and have
/// no stamp in common; so is what `into` then holds.
///
/// # Errors
///
/// `NoMemory`: out of memory; then `into` is as before.
#[tactic(auto, using(crate::proofs::Distinct::merges))]
pub fn merge_by_stamp(into: &mut Vec<Entry>, more: &[Entry]) -> Result<(), NoMemory>
    requires { CanMerge into.old.items more.now }
    ensures merged { OnOk result (into.new.items ≡ by_stamp (into.old.items ++ more.now)) }
    ensures order { OnOk result (IsMerge (into.old.items ++ more.now) into.new.items) }
    ensures kept { OnErr result (into.new.items ≡ into.old.items) }
{
    let len = into.len();
    append_copies(into, more)?;
    let sorted = sort_by_stamp(into);
    if sorted.is_err() {
        into.truncate(len);
    }
    sorted
}
