//! Whether each log is a run of its thread.
ghost use Rattle.std.specs.Prelude.{◌≡◌, ◌↔◌, ◌≤◌, ◌++◌, ◌∷◌, [], IfOk, IsTrue, OnOk, length};
ghost use Rattle.std.specs.Option.{option_map};
ghost use Rattle.runs.specs.Right.{HasThreads};
ghost use Rattle.record_file.specs.Reaching.{AllStand, AreAllRuns, ComesOn, HasCome, RunsReached, main_in, others, so_many};

use crate::counters::Asking;
use crate::feed::Child;
use crate::joins::are_joined_right;
use crate::logs::log_of;
use crate::run::run_log;
use bsan_ids::{Limits, NoMemory, ThreadNo};
use history::ThreadLog;
use source_machine::SourceMachine;
use std::alloc::Global;

/// Where the thread of a log stands: whether it asks a Make there, or a Spawn.
#[derive(Clone, Copy)]
pub(crate) struct Standing {
    pub makes: bool,
    pub spawns: bool,
}

/// Adds the children that are not thread 0 to the threads that wait.
fn wait_for<'p>(waiting: &mut Vec<Child<'p>>, children: Vec<Child<'p>>) -> Result<(), NoMemory>
    ensures { OnOk result (waiting.new.items ≡ waiting.old.items ++ others children.entry.items) }
{
    for child in children {
        if child.number.0 != 0 {
            waiting.push(child)?;
        }
    }
    Ok(())
}

/// Runs the log of a thread that waits. `false` where it is no run of it.
fn run_child<'p>(
    standing: &mut Vec<Option<Standing>>,
    waiting: &mut Vec<Child<'p>>,
    main: u32,
    limits: &Limits,
    logs: &[ThreadLog],
    mut child: Child<'p>,
) -> Result<bool, NoMemory>
    requires threads { HasThreads main logs.now }
    requires come { HasCome child.machine.setting limits.now main logs.now standing.old.items (waiting.old.items ++ child ∷ []) }
    ensures { IfOk result (λ holds. ComesOn holds child.entry.machine.setting limits.now main logs.now standing.old.items standing.new.items waiting.new.items) }
{
    let alloc = *waiting.allocator();
    let Some(at) = log_of(logs, child.number) else {
        return Ok(false);
    };
    if standing[at].is_some() {
        return Ok(false);
    }
    let Some(ran) = run_log(alloc, &mut child.machine, limits, &logs[at])? else {
        return Ok(false);
    };
    wait_for(waiting, ran.children)?;
    standing[at] = Some(Standing {
        makes: ran.asks_make,
        spawns: ran.asks_spawn,
    });
    Ok(true)
}

/// Whether each log was run.
fn all_ran(standing: &[Option<Standing>]) -> bool
    ensures { IsTrue result ↔ AllStand standing.now }
{
    for stands in standing {
        if stands.is_none() {
            return false;
        }
    }
    true
}

/// Of how many logs the thread stands where it asks a Make.
fn asking_makes(standing: &[Option<Standing>]) -> usize
    ensures count { result ≡ so_many (λ a. a.makes) standing.now }
    ensures few { result ≤ length standing.now }
{
    let mut count = 0;
    for stands in standing {
        if stands.is_some_and(|a| a.makes) {
            count += 1;
        }
    }
    count
}

/// Of how many logs the thread stands where it asks a Spawn.
fn asking_spawns(standing: &[Option<Standing>]) -> usize
    ensures count { result ≡ so_many (λ a. a.spawns) standing.now }
    ensures few { result ≤ length standing.now }
{
    let mut count = 0;
    for stands in standing {
        if stands.is_some_and(|a| a.spawns) {
            count += 1;
        }
    }
    count
}

/// Runs the logs of all threads that are reached from main; `None` where one is no run of its thread. It runs each log once.
fn run_reached<'p>(
    alloc: Global,
    machine: SourceMachine<'p>,
    main: u32,
    limits: &Limits,
    logs: &[ThreadLog],
) -> Result<Option<Vec<Option<Standing>>>, NoMemory>
    requires threads { HasThreads main logs.now }
    requires begins { machine.thread ≡ main_in machine.setting main }
    ensures { IfOk result (λ found. RunsReached (option_map (λ v. v.items) found) machine.entry.setting limits.now main logs.now) }
{
    let mut standing = vec![in alloc; None; logs.len()]?;
    let mut waiting = Vec::new(alloc);
    waiting.push(Child {
        number: ThreadNo(0),
        machine,
    })?;
    while let Some(child) = waiting.pop() {
        if !run_child(&mut standing, &mut waiting, main, limits, logs, child)? {
            return Ok(None);
        }
    }
    Ok(Some(standing))
}

/// Whether each log is a run of its thread, which stands at its beginning, and of how many the thread stands where it asks for
/// a number; `None` where they aren't all runs. The threads started each other.
///
/// # Errors
///
/// `NoMemory`: out of memory.
pub(crate) fn has_runs<'p>(
    alloc: Global,
    machine: SourceMachine<'p>,
    main: u32,
    limits: &Limits,
    logs: &[ThreadLog],
) -> Result<Option<Asking>, NoMemory>
    requires threads { HasThreads main logs.now }
    requires begins { machine.thread ≡ main_in machine.setting main }
    ensures { IfOk result (λ found. AreAllRuns found machine.entry.setting limits.now main logs.now) }
{
    if !are_joined_right(logs) {
        return Ok(None);
    }
    let Some(standing) = run_reached(alloc, machine, main, limits, logs)? else {
        return Ok(None);
    };
    if !all_ran(&standing) {
        return Ok(None);
    }
    Ok(Some(Asking {
        makes: asking_makes(&standing),
        spawns: asking_spawns(&standing),
    }))
}
