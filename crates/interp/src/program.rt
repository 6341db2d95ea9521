//! A whole run.
ghost use Rattle.std.specs.Prelude.{◌≡◌, IfOk, IsPermutation, OnOk, OnErr};
ghost use Rattle.std.specs.List.Sorted.{IsNonDecreasingBy};
ghost use Rattle.alloc_space.specs.Spaces.{AreCountable};
ghost use Rattle.history.specs.Records.{empty_record};
ghost use Rattle.source_sem.specs.Records.{IsRightRecord};
ghost use Rattle.instr_sound.specs.Mains.{IsMain};
ghost use Rattle.interp.specs.Wholes.{number_of_log};

use crate::boxed::Boxed;
use crate::run::run_thread;
use alloc_space::Space;
use bsan_ids::{Limits, ListOf, NoMemory, ThreadNo};
use history::{RunRecord, ThreadLog};
use hosts::Hosts;
use instr_sound::Thread;
use outside_io::Gate;
use run_memory::logs_of;
use run_record::ThreadTree;
use std::alloc::Global;
use std::sync::Wait;
use std::thread::Threads;

// The logs of a tree, in the order of their numbers.
fn ordered_logs(alloc: Global, tree: ThreadTree) -> Result<ListOf<ThreadLog>, NoMemory>
    ensures same { IfOk result (IsPermutation tree) }
    ensures ordered { IfOk result (IsNonDecreasingBy number_of_log) }
{
    let mut logs = Vec::new(alloc);
    tree.into_logs(&mut logs)?;
    logs.sort_by_key(|log| log.number.0)?;
    Ok(ListOf::from_vec(logs))
}

// The record of a run from this thread on.
fn whole_run<T: Thread + Send, R: Threads + Wait + Sync, G: Gate + Sync>(
    rt: &R,
    alloc: Global,
    function: u32,
    machine: T,
    limits: &Limits,
    gate: &G,
    hosts: &Hosts,
) -> Result<RunRecord, NoMemory>
    requires main { IsMain T.setting T.state hosts.now.table function machine }
    requires limits { AreCountable limits.now }
    ensures { IfOk result (IsRightRecord (T.setting machine).program (T.setting machine).input hosts.now.table limits.now) }
{
    let (space, desk) = Space::new(alloc, limits)?;
    let main = ThreadNo(0);
    let (tree, desk) = run_thread(
        rt, alloc, &space, desk, function, machine, main, None, limits, gate, hosts,
    );
    let (words, states) = space.finish(desk)?;
    Ok(RunRecord {
        threads: ordered_logs(alloc, tree)?,
        allocs: logs_of(alloc, states)?,
        words,
    })
}

/// Runs a program, each thread that is started on a native thread of its own, or, where the system
/// refuses that, on the native thread of its parent; and fills the record, which it empties first. It
/// may wait.
///
/// The program is accepted with the table of `hosts`, `function` is the number of its main, and the
/// machine stands at main's beginning, without arguments.
///
/// # Errors
///
/// `NoMemory`: out of memory for the allocations or for the record; then the record is empty. A
/// thread that is itself out of memory ends so.
pub fn run_program<T: Thread + Send, R: Threads + Wait + Sync, G: Gate + Sync>(
    rt: &R,
    alloc: Global,
    function: u32,
    machine: T,
    limits: &Limits,
    gate: &G,
    hosts: &Hosts,
    kept: &mut RunRecord,
) -> Result<(), NoMemory>
    requires main { IsMain T.setting T.state hosts.now.table function machine }
    requires limits { AreCountable limits.now }
    ensures right { OnOk result (IsRightRecord (T.setting machine).program (T.setting machine).input hosts.now.table limits.now kept.new) }
    ensures empty { OnErr result (kept.new ≡ empty_record) }
{
    kept.clear();
    let boxed = Boxed::new(alloc, machine)?;
    *kept = whole_run(rt, alloc, function, boxed, limits, gate, hosts)?;
    Ok(())
}
