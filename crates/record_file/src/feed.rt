//! A thread that is fed the entries of its log.
ghost use Rattle.std.specs.Prelude.{◌≡◌, ◌↔◌, ℕ, [], ◌++◌, ◌∷◌, Some, IfOk, OnOk, IsTrue, MatchOption};
ghost use Rattle.history.specs.Replies.{Answers};
ghost use Rattle.source_sem.specs.Source.{source_ask, source_child};
ghost use Rattle.runs.specs.Parts.{child_of};
ghost use Rattle.record_file.specs.Feeding.{AreOf, ComesTo, FeedsOne, Refuses, Settled, TakesAll, TurnsOn, numbers, starts_of};
ghost use Rattle.runs.specs.Tree.{started_by};
ghost use Rattle.record_file.specs.Starting.{HasStarted};

use crate::asked::is_answered;
use crate::fitting::does_fit;
use bsan_ids::{NoMemory, ThreadNo};
use history::{Ask, Entry, Plain, Request};
use source_machine::SourceMachine;
use std::alloc::Global;

/// A thread that was started, at its beginning.
#[derive(Drop)]
pub(crate) struct Child<'p> {
    pub number: ThreadNo,
    pub machine: SourceMachine<'p>,
}

/// Makes the local turns up to the next step or end, and answers what the thread asks there; `None` where an instruction
/// would begin at the limit.
fn settle(machine: &mut SourceMachine, turns: u64) -> Result<Option<Ask>, NoMemory>
    ensures setting { OnOk result (machine.new.setting ≡ machine.old.setting) }
    ensures settled { IfOk result (λ a. Settled machine.old.setting turns machine.old.thread machine.new.thread a) }
{
    loop {
        if machine.begins() && machine.instructions() >= turns {
            return Ok(None);
        }
        match machine.ask()? {
            Ask::Turn => {
                machine.prepare()?;
                machine.turn();
            }
            step => return Ok(Some(step)),
        }
    }
}

/// Adds the thread that the entry starts, if it starts one.
fn start_child<'p>(
    machine: &SourceMachine<'p>,
    entry: &Entry,
    children: &mut Vec<Child<'p>>,
) -> Result<(), NoMemory>
    requires asks { Answers (source_ask machine.now.setting machine.now.thread) entry.now }
    ensures { OnOk result (HasStarted machine.now.setting (child_of entry.now) (source_child machine.now.setting machine.now.thread) children.old.items children.new.items) }
{
    if let (Request::Spawn { .. }, Plain::Spawned(number)) = (&entry.request, &entry.reply.plain) {
        children.push(Child {
            number: *number,
            machine: machine.child()?,
        })?;
    }
    Ok(())
}

/// Whether the thread, after its local turns, asks for the entry at its site, and its reply fits. If so it has gone on with
/// it, and the thread that it starts is added.
fn feed<'p>(
    machine: &mut SourceMachine<'p>,
    turns: u64,
    entry: &Entry,
    children: &mut Vec<Child<'p>>,
) -> Result<bool, NoMemory>
    requires { AreOf machine.old.setting children.old.items }
    ensures setting { OnOk result (machine.new.setting ≡ machine.old.setting) }
    ensures children { OnOk result (AreOf machine.old.setting children.new.items) }
    ensures numbers { IfOk result (λ taken. IsTrue taken → numbers children.new.items ≡ numbers children.old.items ++ started_by (child_of entry.now)) }
    ensures fed { IfOk result (λ taken. FeedsOne taken machine.old.setting turns machine.old.thread entry.now children.old.items machine.new.thread children.new.items) }
{
    let Some(ask) = settle(machine, turns)? else {
        return Ok(false);
    };
    if machine.site() != entry.site || !is_answered(&ask, entry) {
        return Ok(false);
    }
    if !does_fit(machine.join_type(), entry) {
        return Ok(false);
    }
    start_child(machine, entry, children)?;
    machine.prepare()?;
    machine.answer(entry);
    Ok(true)
}

/// Feeds the thread its entries, and answers the threads that they start; `None` where it asks otherwise.
pub(crate) fn feed_all<'p>(
    alloc: Global,
    machine: &mut SourceMachine<'p>,
    turns: u64,
    entries: &[Entry],
) -> Result<Option<Vec<Child<'p>>>, NoMemory>
    ensures setting { OnOk result (machine.new.setting ≡ machine.old.setting) }
    ensures children { IfOk result (λ children. MatchOption children (Unit {0}) (λ c. AreOf machine.old.setting c.items)) }
    ensures numbers { IfOk result (λ children. MatchOption children (Unit {0}) (λ c. numbers c.items ≡ starts_of entries.now)) }
    ensures fed { IfOk result (λ children. MatchOption children (Refuses machine.old.setting turns machine.old.thread entries.now) (λ c. TakesAll machine.old.setting turns machine.old.thread entries.now machine.new.thread c.items)) }
{
    let mut children = Vec::new(alloc);
    for entry in entries {
        if !feed(machine, turns, entry, &mut children)? {
            return Ok(None);
        }
    }
    Ok(Some(children))
}

/// Whether the thread does a local turn next, within the limit. If so it has made it.
fn turn_on(machine: &mut SourceMachine, turns: u64) -> Result<bool, NoMemory>
    ensures setting { OnOk result (machine.new.setting ≡ machine.old.setting) }
    ensures turned { IfOk result (λ turned. TurnsOn turned machine.old.setting turns machine.old.thread machine.new.thread) }
{
    if machine.begins() && machine.instructions() >= turns {
        return Ok(false);
    }
    match machine.ask()? {
        Ask::Turn => {
            machine.prepare()?;
            machine.turn();
            Ok(true)
        }
        _ => Ok(false),
    }
}

/// Whether the thread comes to this count of instructions by local turns. If so it has made them.
pub(crate) fn come_to(machine: &mut SourceMachine, turns: u64, count: u64) -> Result<bool, NoMemory>
    ensures setting { OnOk result (machine.new.setting ≡ machine.old.setting) }
    ensures comes { IfOk result (λ comes. ComesTo comes machine.old.setting turns machine.old.thread count machine.new.thread) }
{
    while machine.instructions() < count {
        if !turn_on(machine, turns)? {
            return Ok(false);
        }
    }
    Ok(machine.instructions() == count)
}
