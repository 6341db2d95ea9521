//! A started thread with its log, and one step of it.
ghost use Rattle.std.specs.Prelude.{◌≡◌, ◌<◌, [], IfOk, OnOk, None, vec_len, vec_capacity};
ghost use Rattle.runs.specs.Threads.{AsksStep};
ghost use Rattle.source_sem.specs.Source.{source_ask, source_fits};
ghost use Rattle.thread_machine.specs.Views.{IsSpawn};
ghost use Rattle.core_model.specs.Steps.{HasNumbers, IsAllowed, AsksHostOf, IsJoined};
ghost use Rattle.core_model.specs.Fibers.{seen, first_seen, unboxed, IsReady, StartsChild, Takes, GivesFitting};

use crate::step::make_step;
use bsan_ids::{NoMemory, ThreadNo};
use history::{Ask, End, Entry};
use hosts::Hosts;
use instr_sound::Thread;
use run_memory::{RunMemory, Step};
use std::alloc::Global;

/// A started thread, with its log so far: its entries, and its end once it has ended.
#[derive(Drop)]
pub(crate) struct Fiber<T> {
    pub parent: Option<ThreadNo>,
    pub function: u32,
    pub thread: T,
    pub entries: Vec<Entry>,
    pub end: Option<End>,
}

/// What a step of a thread came to.
#[derive(Drop)]
pub(crate) enum Took<T> {
    /// The step was made. It started this thread, if it is a spawn. A thread is large, and most steps start none.
    Stepped(Option<Box<Fiber<T>>>),
    /// The thread has ended.
    Ended,
}

/// The child that a thread starts in a function.
fn start_child<T: Thread>(
    alloc: Global,
    thread: &T,
    number: ThreadNo,
    function: u32,
) -> Result<Box<Fiber<T>>, NoMemory>
    requires { IsSpawn (source_ask (T.setting thread.now) (T.state thread.now)) }
    ensures { IfOk result (λ child. seen T.setting T.state child.value ≡ first_seen (T.setting thread.now) (T.state thread.now) number function) }
{
    let child = Fiber {
        parent: Some(number),
        function,
        thread: thread.child()?,
        entries: Vec::new(alloc),
        end: None,
    };
    Ok(Box::new(alloc, child)?)
}

/// The child that a thread asks to start, if it asks that.
fn child_of<T: Thread>(
    alloc: Global,
    thread: &T,
    number: ThreadNo,
    ask: &Ask,
) -> Result<Option<Box<Fiber<T>>>, NoMemory>
    requires { ask.now ≡ source_ask (T.setting thread.now) (T.state thread.now) }
    ensures { IfOk result (λ child. StartsChild T.setting T.state (T.setting thread.now) (T.state thread.now) number ask.now (unboxed child)) }
{
    match ask {
        Ask::Spawn { function } => Ok(Some(start_child(alloc, thread, number, *function)?)),
        _ => Ok(None),
    }
}

/// For how many more entries memory is taken at once, where a log has no room. A log that grows is copied, so it grows
/// fast while it is small.
fn more_entries(len: usize) -> usize
    ensures { 0 < result }
{
    if len < 4096 { 3 * len + 16 } else { len }
}

impl<T: Thread> Fiber<T> {
    /// Takes the memory for one more entry and for the next part of the thread.
    fn make_room(&mut self) -> Result<(), NoMemory>
        ensures seen { seen T.setting T.state self.new ≡ seen T.setting T.state self.old }
        ensures ready { OnOk result (IsReady T.prepared self.new) }
    {
        if self.entries.len() == self.entries.capacity() {
            self.entries.reserve(more_entries(self.entries.len()))?;
        }
        self.thread.prepare()?;
        Ok(())
    }

    /// Makes the step that the thread asks for, after all memory for it was taken. `joined` is the end of the child where
    /// it asks to join one.
    pub fn step(
        &mut self,
        memory: &mut RunMemory,
        hosts: &Hosts,
        number: ThreadNo,
        joined: Option<End>,
        ask: Ask,
    ) -> Took<T>
        requires asks { ask ≡ source_ask (T.setting self.old.thread) (T.state self.old.thread) }
        requires step { AsksStep ask }
        requires room { HasNumbers memory.old.words }
        requires allowed { IsAllowed ask }
        requires hosts { AsksHostOf hosts.now.table ask }
        requires joined { IsJoined ask joined }
        requires fitting { GivesFitting (T.setting self.old.thread) (T.state self.old.thread) memory.old hosts.now.table number joined ask }
        ensures { Takes T.setting T.state (seen T.setting T.state self.old) memory.old hosts.now.table number joined ask (seen T.setting T.state self.new) memory.new result }
    {
        let alloc = *self.entries.allocator();
        let child = match child_of(alloc, &self.thread, number, &ask) {
            Ok(child) => child,
            Err(NoMemory) => return self.end_in_step(End::NoMemory),
        };
        match self.make_room() {
            Ok(()) => {}
            Err(NoMemory) => return self.end_in_step(End::NoMemory),
        }
        match make_step(memory, hosts, number, self.thread.site(), joined, ask) {
            Step::Ends(why) => self.end_in_step(why),
            Step::Done(entry) => {
                self.thread.answer(&entry);
                self.entries.push_reserved(entry);
                Took::Stepped(child)
            }
        }
    }

    fn end_in_step(&mut self, why: End) -> Took<T>
        ensures ended { result ≡ Took.Ended }
        ensures seen { seen T.setting T.state self.new ≡ record (seen T.setting T.state self.old) { «end» = Some why } }
    {
        self.finish(why);
        Took::Ended
    }

    /// Ends the thread.
    pub fn finish(&mut self, why: End)
        ensures { seen T.setting T.state self.new ≡ record (seen T.setting T.state self.old) { «end» = Some why } }
    {
        self.end = Some(why);
    }
}
