//! The entries of a run in stamp order, and the first violation on each allocation.
ghost use Rattle.std.specs.Prelude.{◌≡◌, IfOk};
ghost use Rattle.std.specs.List.{flat_map, filter_map, list_any};
ghost use Rattle.std.specs.Option.{option_copied};
ghost use Rattle.history.specs.Merge.{IsMerge};
ghost use Rattle.history.specs.Records.{HasDistinctStamps, thread_entries, first_found, violates, has_violation, first_violation};
ghost use Rattle.history.specs.Records as records;

use crate::entry::{Entry, Verdict};
use crate::log::{AllocLog, ThreadLog};
use crate::merge::{append_copies, sort_by_stamp};
use crate::record::RunRecord;
use bsan_ids::{Copied, ListOf, NoMemory};

fn is_violation(entry: &Entry) -> bool
    ensures { result ≡ violates entry.now }
{
    matches!(entry.reply.verdict, Verdict::Violated(_))
}

impl AllocLog {
    /// Whether a step on the allocation broke the aliasing rules.
    pub fn has_violation(&self) -> bool
        ensures { result ≡ has_violation self.now }
    {
        self.entries.as_slice().iter().any(is_violation)
    }

    /// The first step on the allocation that broke the aliasing rules.
    pub fn first_violation(&self) -> Option<&Entry>
        ensures { option_copied result ≡ first_violation self.now }
    {
        self.entries
            .as_slice()
            .iter()
            .find(|entry| is_violation(entry))
    }
}

fn entries_of(logs: &ListOf<ThreadLog>) -> Result<Vec<Entry>, NoMemory>
    ensures { IfOk result (λ v. v.items ≡ flat_map (λ log. log.entries) logs.now) }
{
    let mut entries = logs.fresh().into_vec();
    for log in logs.as_slice() {
        append_copies(&mut entries, log.entries.as_slice())?;
    }
    Ok(entries)
}

fn violations_of(logs: &ListOf<AllocLog>) -> Result<Vec<Entry>, NoMemory>
    ensures { IfOk result (λ v. v.items ≡ filter_map first_violation logs.now) }
{
    let mut found = logs.fresh().into_vec();
    for log in logs.as_slice() {
        if let Some(entry) = log.first_violation() {
            found.push(entry.copy()?)?;
        }
    }
    Ok(found)
}

impl RunRecord {
    /// The entries of all threads in the order of their stamps, of which none may stand twice.
    ///
    /// # Errors
    ///
    /// `NoMemory`: out of memory.
    pub fn merged(&self) -> Result<Vec<Entry>, NoMemory>
        requires { HasDistinctStamps self.now }
        ensures merged { IfOk result (λ v. v.items ≡ records.merged self.now) }
        ensures order { IfOk result (λ v. IsMerge (thread_entries self.now) v.items) }
    {
        let mut entries = entries_of(&self.threads)?;
        sort_by_stamp(&mut entries)?;
        Ok(entries)
    }

    /// The first entry of each allocation whose step broke the aliasing rules, in the order of
    /// their stamps, of which none may stand twice.
    ///
    /// # Errors
    ///
    /// `NoMemory`: out of memory.
    pub fn first_violations(&self) -> Result<Vec<Entry>, NoMemory>
        requires { HasDistinctStamps self.now }
        ensures found { IfOk result (λ v. v.items ≡ records.first_violations self.now) }
        ensures order { IfOk result (λ v. IsMerge (first_found self.now) v.items) }
    {
        let mut found = violations_of(&self.allocs)?;
        sort_by_stamp(&mut found)?;
        Ok(found)
    }
}
