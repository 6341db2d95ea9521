//! All picks of a replay.
ghost use Rattle.std.specs.Prelude.{◌≡◌, ◌≤◌, IfOk, OnOk, OnErr, length, map};
ghost use Rattle.history.specs.Records.{empty_record};
ghost use Rattle.instr_sound.specs.Mains.{IsMain};
ghost use Rattle.core_model.specs.Fibers.{all_seen, seen};
ghost use Rattle.core_model.specs.Kept.{seen_log, seen_logs, seen_record, Replayed};
ghost use Rattle.core_model.specs.Running.{AreLimits, IsUnderWay};
ghost use Rattle.core_model.specs.Replays.{PlaysAll, PlaysRest};

use crate::fiber::Fiber;
use crate::run::{Pick, Run, pick_thread};
use bsan_ids::{Limits, ListOf, NoMemory, ThreadNo};
use history::{End, RunRecord, ThreadLog};
use hosts::Hosts;
use instr_sound::Thread;
use run_memory::RunMemory;
use std::alloc::Global;

/// Picks the threads of a schedule in its order.
fn play_schedule<T: Thread>(run: &mut Run<T>, schedule: &[ThreadNo], limits: &Limits, hosts: &Hosts)
    requires { IsUnderWay limits.now hosts.now.table (all_seen T.setting T.state run.old.fibers.items) run.old.memory }
    ensures { PlaysAll limits.now hosts.now.table (all_seen T.setting T.state run.old.fibers.items) run.old.memory (map (λ n. n.0) schedule.now) (all_seen T.setting T.state run.new.fibers.items) run.new.memory }
{
    for number in schedule {
        pick_thread(run, *number, limits, hosts);
    }
}

/// Picks the least thread that can go on, until all have ended.
fn play_rest<T: Thread>(run: &mut Run<T>, limits: &Limits, hosts: &Hosts)
    requires { IsUnderWay limits.now hosts.now.table (all_seen T.setting T.state run.old.fibers.items) run.old.memory }
    ensures { PlaysRest limits.now hosts.now.table (all_seen T.setting T.state run.old.fibers.items) run.old.memory (all_seen T.setting T.state run.new.fibers.items) run.new.memory }
{
    let mut at = 0_u32;
    while (at as usize) < run.fibers.len() {
        match pick_thread(run, ThreadNo(at), limits, hosts) {
            Pick::Rests => at += 1,
            Pick::Stepped => {}
            Pick::Ended => at = 0,
        }
    }
}

/// The log of a thread that has ended.
fn log_of<T: Thread>(fiber: Fiber<T>, number: ThreadNo) -> ThreadLog
    ensures { result ≡ seen_log number.0 (seen T.setting T.state fiber) }
{
    let instructions = fiber.thread.instructions();
    let last = fiber.thread.site();
    ThreadLog {
        number,
        parent: fiber.parent,
        entry_function: fiber.function,
        entries: ListOf::from_vec(fiber.entries),
        instructions,
        last,
        end: fiber.end.unwrap_or(End::NoMemory),
    }
}

/// The logs of all threads.
fn logs_of<T: Thread>(alloc: Global, fibers: Vec<Fiber<T>>) -> Result<ListOf<ThreadLog>, NoMemory>
    requires { length fibers.items ≤ 1024 }
    ensures { IfOk result (λ logs. logs ≡ seen_logs 0 (all_seen T.setting T.state fibers.items)) }
{
    let mut logs = ListOf::new(alloc);
    for fiber in fibers {
        let number = ThreadNo(logs.len() as u32);
        logs.push(log_of(fiber, number))?;
    }
    Ok(logs)
}

/// The record of a run whose threads have all ended.
fn record_of<T: Thread>(alloc: Global, run: Run<T>) -> Result<RunRecord, NoMemory>
    requires { length run.fibers.items ≤ 1024 }
    ensures { IfOk result (λ kept. kept ≡ seen_record (all_seen T.setting T.state run.fibers.items) run.memory) }
{
    let Run { fibers, memory } = run;
    let words = memory.words();
    let threads = logs_of(alloc, fibers)?;
    let allocs = memory.into_logs(alloc)?;
    Ok(RunRecord {
        threads,
        allocs,
        words,
    })
}

/// The run of all threads on this native thread: those that the schedule names in its order, and then always the least
/// one that can go on, until all have ended. `main` is thread 0 before its first instruction, and `function` the number
/// of its function. The record is emptied first, and then filled with that of the run.
///
/// # Errors
///
/// `NoMemory`: out of memory for the list of threads or for the record, which is then empty. A thread that is out of
/// memory has ended by this.
pub fn replay<T: Thread>(
    alloc: Global,
    function: u32,
    main: T,
    schedule: &[ThreadNo],
    limits: &Limits,
    hosts: &Hosts,
    kept: &mut RunRecord,
) -> Result<(), NoMemory>
    requires main { IsMain T.setting T.state hosts.now.table function main }
    requires limits { AreLimits limits.now }
    ensures ok { OnOk result (Replayed (T.setting main).program (T.setting main).input hosts.now.table limits.now (map (λ n. n.0) schedule.now) kept.new) }
    ensures err { OnErr result (kept.new ≡ empty_record) }
{
    *kept = RunRecord::new(alloc);
    let mut fibers = Vec::new(alloc);
    fibers.push(Fiber {
        parent: None,
        function,
        thread: main,
        entries: Vec::new(alloc),
        end: None,
    })?;
    let mut run = Run {
        fibers,
        memory: RunMemory::new(alloc, limits),
    };
    play_schedule(&mut run, schedule, limits, hosts);
    play_rest(&mut run, limits, hosts);
    *kept = record_of(alloc, run)?;
    Ok(())
}
