//! Whether the merge of a record's logs is a run.
ghost use Rattle.std.specs.Prelude.{◌≡◌, ◌↔◌, ◌^◌, IfOk, IsTrue};
ghost use Rattle.runs.specs.Right.{Numbered};
ghost use Rattle.record_file.specs.Merging.{AreHistories, IsGoodMerge};

use crate::by_number::{are_small, logs_on};
use crate::legal::are_legal;
use crate::merge::is_numbered;
use crate::order::come_in_turn;
use bsan_ids::{Limits, NoMemory};
use history::Entry;
use ir_ast::HostTable;
use std::alloc::Global;

/// How many numbers of 32 bits there are.
const NUMBERS: u64 = 0x1_0000_0000;

/// Whether the entries of each number are a legal history, of so many numbers.
fn are_histories(alloc: Global, entries: &[Entry], numbers: u64) -> Result<bool, NoMemory>
    requires stamps { Numbered 1 entries.now }
    requires numbers { numbers ≡ 2 ^ 32 }
    ensures { IfOk result (λ holds. IsTrue holds ↔ AreHistories entries.now) }
{
    are_small(entries);
    let logs = logs_on(alloc, entries, 0, numbers)?;
    are_legal(alloc, logs.as_slice())
}

/// Whether the stamps are those from 1 on, within the limit, and the entries are in order and make histories.
///
/// # Errors
///
/// `NoMemory`: out of memory.
pub(crate) fn is_good_merge(
    alloc: Global,
    limits: &Limits,
    hosts: &HostTable,
    entries: &[Entry],
) -> Result<bool, NoMemory>
    ensures { IfOk result (λ holds. IsTrue holds ↔ IsGoodMerge limits.now hosts.now entries.now) }
{
    if !is_numbered(entries) || entries.len() as u64 > limits.steps {
        return Ok(false);
    }
    if !come_in_turn(alloc, limits, hosts, entries)? {
        return Ok(false);
    }
    are_histories(alloc, entries, NUMBERS)
}
