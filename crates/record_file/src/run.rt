//! One log against its thread.
ghost use Rattle.std.specs.Prelude.{◌≡◌, ◌↔◌, ◌≤◌, ℕ, All, IfOk, IsTrue, MatchOption, true};
ghost use Rattle.history.specs.declared.ask.Ask.TheVariants as asks;
ghost use Rattle.history.specs.declared.entry.Entry.{Entry};
ghost use Rattle.runs.specs.Right.{asks_make, asks_spawn};
ghost use Rattle.runs.specs.Stamps.{RisesFrom};
ghost use Rattle.runs.specs.Threads.{DrewBeyond, EndsAs, AsksStep, TrapsAs};
ghost use Rattle.source_sem.specs.Source.{source, source_ask};
ghost use Rattle.runs.specs.Tree.{children_of};
ghost use Rattle.record_file.specs.AsWritten.{StampsRise};
ghost use Rattle.record_file.specs.Feeding.{AreOf, IsNoRun, IsRun, numbers};

use crate::feed::{Child, come_to, feed_all};
use bsan_ids::{Limits, NoMemory, ThreadNo};
use history::{Ask, End, Entry, MachineEnd, ThreadLog, Trap};
use source_machine::SourceMachine;
use std::alloc::Global;

/// A log that is a run of its thread, if the threads that it starts begin as these: whether its thread stands where it
/// asks a Make, or a Spawn.
#[derive(Drop)]
pub(crate) struct Ran<'p> {
    pub children: Vec<Child<'p>>,
    pub asks_make: bool,
    pub asks_spawn: bool,
}

fn are_own(entries: &[Entry], number: ThreadNo) -> bool
    ensures { IsTrue result ↔ All (λ e. e.thread ≡ number) entries.now }
{
    for entry in entries {
        if entry.thread != number {
            return false;
        }
    }
    true
}

/// Whether the stamps rise, the first of them above 0.
fn rise(entries: &[Entry]) -> bool
    ensures { IsTrue result ↔ RisesFrom 0 entries.now }
{
    let mut last = 0;
    for entry in entries {
        if entry.stamp.0 <= last {
            return false;
        }
        last = entry.stamp.0;
    }
    true
}

/// Whether the stamps rise along each log.
pub(crate) fn stamps_rise(logs: &[ThreadLog]) -> bool
    ensures { IsTrue result ↔ StampsRise logs.now }
{
    for log in logs {
        if !rise(log.entries.as_slice()) {
            return false;
        }
    }
    true
}

fn is_step(ask: &Ask) -> bool
    ensures { IsTrue result ↔ AsksStep ask.now }
{
    !matches!(ask, Ask::Turn | Ask::Ended(_))
}

fn is_make(ask: &Ask) -> bool
    ensures { result ≡ asks_make ask.now }
{
    matches!(ask, Ask::Make { .. })
}

fn is_spawn(ask: &Ask) -> bool
    ensures { result ≡ asks_spawn ask.now }
{
    matches!(ask, Ask::Spawn { .. })
}

/// Whether a thread that asks this drew a number above its limit that the trap names.
fn drew_beyond(limits: &Limits, ask: &Ask, trap: Trap) -> bool
    ensures { IsTrue result ↔ DrewBeyond limits.now ask.now trap }
{
    match trap {
        Trap::AllocLimit { drawn } => is_make(ask) && u64::from(limits.allocs) < drawn,
        Trap::ThreadLimit { drawn } => is_spawn(ask) && 1023 < drawn,
        _ => false,
    }
}

/// Whether the thread that asks this has ended so.
fn has_ended(ask: &Ask, end: MachineEnd) -> bool
    ensures { IsTrue result ↔ (ask.now ≡ asks.Ended end) }
{
    match ask {
        Ask::Ended(other) => *other == end,
        _ => false,
    }
}

/// Whether the thread ends so where it stands.
fn ends_as(machine: &SourceMachine, ask: &Ask, limits: &Limits, end: End) -> bool
    requires { ask.now ≡ source_ask machine.now.setting machine.now.thread }
    ensures { IsTrue result ↔ EndsAs (source machine.now.setting) limits.now machine.now.thread end }
{
    let may = !machine.begins() || machine.instructions() < limits.turns;
    match end {
        End::Returned { value, carried } => {
            has_ended(ask, MachineEnd::Returned { value, carried }) && may
        }
        End::Trapped(trap) => {
            (has_ended(ask, MachineEnd::Trapped(trap)) || drew_beyond(limits, ask, trap)) && may
        }
        End::StepLimit(stamp) => is_step(ask) && limits.steps < stamp.0 && may,
        End::TurnLimit => machine.begins() && machine.instructions() == limits.turns,
        End::NoMemory => true,
        End::ChildEnded(child) => matches!(ask, Ask::Join { child: asked } if *asked == child)
            && may,
    }
}

/// Runs a log against its thread, which stands at its beginning; `None` where the log is no run of it. The thread then
/// stands where the log ends.
///
/// # Errors
///
/// `NoMemory`: out of memory.
pub(crate) fn run_log<'p>(
    alloc: Global,
    machine: &mut SourceMachine<'p>,
    limits: &Limits,
    log: &ThreadLog,
) -> Result<Option<Ran<'p>>, NoMemory>
    ensures children { IfOk result (λ ran. MatchOption ran (Unit {0}) (λ r. AreOf machine.old.setting r.children.items)) }
    ensures numbers { IfOk result (λ ran. MatchOption ran (Unit {0}) (λ r. numbers r.children.items ≡ children_of log.now)) }
    ensures ran { IfOk result (λ ran. MatchOption ran (IsNoRun machine.old.setting limits.now machine.old.thread log.now) (λ r. IsRun machine.old.setting limits.now machine.old.thread log.now r.children.items r.asks_make r.asks_spawn)) }
{
    let entries = log.entries.as_slice();
    if !are_own(entries, log.number) {
        return Ok(None);
    }
    let Some(children) = feed_all(alloc, machine, limits.turns, entries)? else {
        return Ok(None);
    };
    if !come_to(machine, limits.turns, log.instructions)? || machine.site() != log.last {
        return Ok(None);
    }
    let ask = machine.ask()?;
    if !ends_as(machine, &ask, limits, log.end) {
        return Ok(None);
    }
    Ok(Some(Ran {
        children,
        asks_make: is_make(&ask),
        asks_spawn: is_spawn(&ask),
    }))
}
