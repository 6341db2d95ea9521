//! A native thread between its steps.
ghost use Rattle.std.specs.Prelude.{◌≡◌, ℕ, ◌+◌, ◌<◌, ◌≤◌, ◌≢◌, Option, Some, None, All, IfOk, IfErr, IfSome, IfNone, true, vec_len, vec_capacity, slice_index_or};
ghost use Rattle.history.specs.declared.ask.Ask.TheVariants.{Spawn, Join};
ghost use Rattle.history.specs.declared.log.ThreadLog.{ThreadLog as Log};
ghost use Rattle.history.specs.declared.log.End.TheVariants.{Returned};
ghost use Rattle.runs.specs.Parts.{Has};
ghost use Rattle.runs.specs.Threads.{AsksSpawn};
ghost use Rattle.runs.specs.Tree.{HasStopped};
ghost use Rattle.runs.specs.Machine.{MayGoOn};
ghost use Rattle.source_sem.specs.Source.{source, source_ask};
ghost use Rattle.alloc_space.specs.Spaces.{AreCountable};
ghost use Rattle.interp.specs.Answers.{IsAnswer};
ghost use Rattle.interp.specs.Advanced.{Advanced, IsOngoing};
ghost use Rattle.interp.specs.Came.{AsksPlainly};
ghost use Rattle.interp.specs.Desks.{Over, IsReady};
ghost use Rattle.interp.specs.Running.{view_of, below_of, own_roots_of, IsGoing, IsThere, GoesOn, HasEnded, CameTo, Waits, IsReserved, IsSameThread, IsBegun, IsFirst, IsPromiseOf};
ghost use Rattle.interp.specs.Views.{child_view};

use crate::calls::HostCalls;
use crate::child::{Begun, Child, TreeOf};
use crate::step::{Came, step};
use alloc_space::{Desk, Space, Stepped};
use bsan_ids::{ListOf, NoMemory, Prov, ThreadNo};
use history::{Ask, End, Entry, Plain, Reply, Request, ThreadLog, Trap, Verdict};
use instr_sound::{Thread, end_by, settle};
use ir_ast::HostTable;
use outside_io::Gate;
use run_record::ThreadTree;
use std::alloc::Global;
use std::snapshot::Snapshot;
use std::sync::Wait;
use std::thread::{PromisedHandle, Threads};

/// A thread that runs: its machine, its desk and its log so far; the children that it started and
/// has not joined, and the trees of those that it joined.
#[derive(Drop)]
pub struct Running<T: Thread> {
    pub number: ThreadNo,
    pub function: u32,
    pub machine: T,
    pub desk: Desk,
    pub entries: Vec<Entry>,
    pub kids: Vec<Child<T>>,
    pub trees: Vec<ThreadTree>,
    /// The machine and the desk with which it began, and the table of host functions.
    pub began: Snapshot<T>,
    pub start: Snapshot<Desk>,
    pub hosts: Snapshot<HostTable>,
}

/// What a thread has come to.
#[derive(Drop)]
pub(crate) enum Advance<T> {
    On,
    Ended(End),
    Begun(Begun<T>),
}

impl<T: Thread> Running<T> {
    // A step that the thread asks for, and that starts and joins no other.
    fn make_step<R: Wait, G: Gate, H: HostCalls>(
        &mut self,
        rt: &R,
        space: &Space,
        gate: &G,
        hosts: &H,
        ask: Ask,
    ) -> Option<End>
        requires on { GoesOn T.setting T.state space.now self.old }
        requires hosts { self.old.hosts.value ≡ H.table hosts.now }
        requires countable { AreCountable space.now.limits }
        requires asks { ask ≡ source_ask (T.setting self.old.machine) (T.state self.old.machine) }
        requires may { MayGoOn (source (T.setting self.old.machine)) space.now.limits.turns (T.state self.old.machine) }
        requires step { AsksPlainly ask }
        ensures came { CameTo T.setting T.state space.now result self.new }
        ensures same { IsSameThread self.old self.new }
        ensures later { result ≡ None → (self.old.desk.view.seen < self.new.desk.view.seen) × (self.new.desk.view.seen ≤ space.now.limits.steps) }
    {
        if self.entries.reserve(1).is_err() {
            return Some(End::NoMemory);
        }
        if self.machine.prepare().is_err() {
            return Some(End::NoMemory);
        }
        let site = self.machine.site();
        match step(
            rt,
            space,
            &mut self.desk,
            gate,
            hosts,
            self.number,
            site,
            ask,
        ) {
            Came::Done(entry) => {
                self.machine.answer(&entry);
                self.entries.push_reserved(entry);
                None
            }
            Came::Over(end) => Some(end),
        }
    }

    // One more entry, or the end; or the thread asks to start or to join another.
    fn go_on<R: Wait, G: Gate, H: HostCalls>(
        &mut self,
        rt: &R,
        space: &Space,
        gate: &G,
        hosts: &H,
    ) -> Result<Option<End>, Ask>
        requires on { GoesOn T.setting T.state space.now self.old }
        requires hosts { self.old.hosts.value ≡ H.table hosts.now }
        ensures came { IfOk result (λ r. CameTo T.setting T.state space.now r self.new) }
        ensures same_thread { IsSameThread self.old self.new }
        ensures later { result ≡ Ok None → (self.old.desk.view.seen < self.new.desk.view.seen) × (self.new.desk.view.seen ≤ space.now.limits.steps) }
        ensures on { IfErr result (λ a. GoesOn T.setting T.state space.now self.new) }
        ensures waits { IfErr result (λ a. Waits T.setting T.state space.now a self.new) }
        ensures same { IfErr result (λ a. self.new.desk ≡ self.old.desk) }
    {
        let limits = space.limits();
        let ask = match settle(&mut self.machine, limits.turns) {
            Ok(ask) => ask,
            Err(why) => return Ok(Some(why)),
        };
        match ask {
            Ask::Turn => unreachable!(),
            Ask::Ended(end) => Ok(Some(end_by(end))),
            Ask::Spawn { function } => Err(Ask::Spawn { function }),
            Ask::Join { child } => Err(Ask::Join { child }),
            step => Ok(self.make_step(rt, space, gate, hosts, step)),
        }
    }

    // The memory for a child, and its machine.
    fn reserve_child(&mut self) -> Result<T, NoMemory>
        requires asks { AsksSpawn (source_ask (T.setting self.old.machine) (T.state self.old.machine)) }
        ensures same { IsReserved T.setting T.state self.old self.new }
        ensures entry_room { IfOk result (λ c. vec_len self.new.entries < vec_capacity self.new.entries) }
        ensures kid_room { IfOk result (λ c. vec_len self.new.kids < vec_capacity self.new.kids) }
        ensures tree_room { IfOk result (λ c. vec_len self.new.trees + (vec_len self.new.kids + 1) ≤ vec_capacity self.new.trees) }
        ensures prepared { IfOk result (λ c. T.prepared self.new.machine) }
        ensures child { IfOk result (λ c. view_of T.setting T.state c ≡ child_view (view_of T.setting T.state self.old.machine)) }
    {
        self.entries.reserve(1)?;
        self.kids.reserve(1)?;
        self.trees.reserve(self.kids.len() + 1)?;
        self.machine.prepare()?;
        self.machine.child()
    }

    // The Spawn step: the child's number and the step's stamp are drawn once all memory is there, and
    // its desk is split off after the step.
    fn begin_child(&mut self, space: &Space, function: u32) -> Result<Begun<T>, End>
        requires on { GoesOn T.setting T.state space.now self.old }
        requires asks { source_ask (T.setting self.old.machine) (T.state self.old.machine) ≡ Spawn function }
        requires may { MayGoOn (source (T.setting self.old.machine)) space.now.limits.turns (T.state self.old.machine) }
        ensures begun { IfOk result (λ b. IsBegun T.setting T.state space.now b self.new) }
        ensures ended { IfErr result (λ e. HasEnded T.setting T.state space.now e self.new) }
        ensures same { IsSameThread self.old self.new }
        ensures later { IfOk result (λ b. (self.old.desk.view.seen < self.new.desk.view.seen) × (self.new.desk.view.seen ≤ space.now.limits.steps)) }
    {
        let Ok(machine) = self.reserve_child() else {
            return Err(End::NoMemory);
        };
        let name = match space.number_thread(&mut self.desk) {
            Ok(name) => name,
            Err(limit) => return Err(End::Trapped(Trap::ThreadLimit { drawn: limit.0 })),
        };
        let site = self.machine.site();
        let reply = Reply {
            plain: Plain::Spawned(name),
            carried: None,
            verdict: Verdict::Clean,
        };
        match space.note(
            &mut self.desk,
            self.number,
            site,
            Request::Spawn { function },
            reply,
        ) {
            Stepped::Done(entry) => {
                self.machine.answer(&entry);
                self.entries.push_reserved(entry);
                let desk = space.split(&mut self.desk, name);
                Ok(Begun {
                    number: name,
                    function,
                    machine,
                    desk,
                })
            }
            Stepped::StepLimit(stamp) => Err(End::StepLimit(stamp)),
            Stepped::NoMemory => unreachable!(),
        }
    }

    // Where the child of this number is among those that were not joined.
    fn place_of_kid(&self, child: ThreadNo) -> Option<usize>
        ensures some { IfSome result (λ at. (at < vec_len self.now.kids) × ((d : Child T) → (slice_index_or self.now.kids.items at d).number ≡ child)) }
        ensures none { IfNone result (All (λ (c : Child T). c.number ≢ child) self.now.kids.items) }
    {
        for at in 0..self.kids.len() {
            if self.kids[at].number == child {
                return Some(at);
            }
        }
        None
    }

    // How the child of this number ended, if its desk was joined.
    fn end_of_root(&self, child: ThreadNo) -> Option<End>
        ensures some { IfSome result (λ end. (log : Log) × Has (own_roots_of T.setting T.state self.now) log × (log.number ≡ child) × (log.«end» ≡ end)) }
        ensures none { IfNone result ((log : Log) → Has (own_roots_of T.setting T.state self.now) log → log.number ≢ child) }
    {
        for at in 0..self.trees.len() {
            let log = &self.trees[at].log;
            if log.number == child {
                return Some(log.end);
            }
        }
        None
    }

    // Waits for the answer of the child at this place, and joins its desk: its tree stands behind
    // those of the children that were joined before.
    fn join_kid<R: Threads + Wait>(&mut self, rt: &R, space: &Space, at: usize)
        requires there { IsThere T.setting T.state space.now self.old }
        requires place { at < vec_len self.old.kids }
        ensures going { (over : Over) → IsGoing T.setting T.state space.now over self.old → IsGoing T.setting T.state space.now over self.new }
        ensures ready { IsReady space.now.limits self.old.desk.view → IsReady space.now.limits self.new.desk.view }
        ensures below { (c : ThreadNo) → HasStopped (below_of T.setting T.state self.old) c → HasStopped (below_of T.setting T.state self.new) c }
        ensures root { (d : Child T) → (log : Log) × Has (own_roots_of T.setting T.state self.new) log × (log.number ≡ (slice_index_or self.old.kids.items at d).number) }
        ensures machine { self.new.machine ≡ self.old.machine }
        ensures same { IsSameThread self.old self.new }
        ensures later { self.old.desk.view.seen ≤ self.new.desk.view.seen }
        ensures fewer { vec_len self.new.kids + 1 ≡ vec_len self.old.kids }
    {
        let kid = self.kids.remove(at);
        let (kid_tree, kid_desk) = kid.into_handle().join(rt);
        space.join(&mut self.desk, kid_desk);
        self.trees.push_reserved(kid_tree);
    }

    // The Join step of a child that has returned, or the end.
    fn note_join(
        &mut self,
        space: &Space,
        child: ThreadNo,
        value: u64,
        carried: Option<Prov>,
    ) -> Option<End>
        requires on { GoesOn T.setting T.state space.now self.old }
        requires asks { source_ask (T.setting self.old.machine) (T.state self.old.machine) ≡ Join child }
        requires may { MayGoOn (source (T.setting self.old.machine)) space.now.limits.turns (T.state self.old.machine) }
        requires root { (log : Log) × Has (own_roots_of T.setting T.state self.old) log × (log.number ≡ child) × (log.«end» ≡ Returned value carried) }
        ensures came { CameTo T.setting T.state space.now result self.new }
        ensures same { IsSameThread self.old self.new }
        ensures later { result ≡ None → (self.old.desk.view.seen < self.new.desk.view.seen) × (self.new.desk.view.seen ≤ space.now.limits.steps) }
    {
        if self.entries.reserve(1).is_err() {
            return Some(End::NoMemory);
        }
        if self.machine.prepare().is_err() {
            return Some(End::NoMemory);
        }
        let site = self.machine.site();
        let reply = Reply {
            plain: Plain::Value(value),
            carried,
            verdict: Verdict::Clean,
        };
        match space.note(
            &mut self.desk,
            self.number,
            site,
            Request::Join { child },
            reply,
        ) {
            Stepped::Done(entry) => {
                self.machine.answer(&entry);
                self.entries.push_reserved(entry);
                None
            }
            Stepped::StepLimit(stamp) => Some(End::StepLimit(stamp)),
            Stepped::NoMemory => unreachable!(),
        }
    }

    // How a child ended whose desk was joined.
    fn known_end(&self, child: ThreadNo) -> End
        requires { (log : Log) × Has (own_roots_of T.setting T.state self.now) log × (log.number ≡ child) }
        ensures { (log : Log) × Has (own_roots_of T.setting T.state self.now) log × (log.number ≡ child) × (log.«end» ≡ result) }
    {
        match self.end_of_root(child) {
            Some(end) => end,
            None => unreachable!(),
        }
    }

    // Waits for the end of a child, where its desk was not joined yet.
    fn await_child<R: Threads + Wait>(&mut self, rt: &R, space: &Space, child: ThreadNo) -> End
        requires on { GoesOn T.setting T.state space.now self.old }
        requires asks { source_ask (T.setting self.old.machine) (T.state self.old.machine) ≡ Join child }
        ensures on { GoesOn T.setting T.state space.now self.new }
        ensures machine { self.new.machine ≡ self.old.machine }
        ensures same { IsSameThread self.old self.new }
        ensures later { self.old.desk.view.seen ≤ self.new.desk.view.seen }
        ensures root { (log : Log) × Has (own_roots_of T.setting T.state self.new) log × (log.number ≡ child) × (log.«end» ≡ result) }
    {
        match self.place_of_kid(child) {
            Some(at) => {
                self.join_kid(rt, space, at);
                self.known_end(child)
            }
            None => self.known_end(child),
        }
    }

    // The join of a child: the Join step where it has returned, and else the end.
    fn join_step<R: Threads + Wait>(
        &mut self,
        rt: &R,
        space: &Space,
        child: ThreadNo,
    ) -> Option<End>
        requires on { GoesOn T.setting T.state space.now self.old }
        requires waits { Waits T.setting T.state space.now (Join child) self.old }
        ensures came { CameTo T.setting T.state space.now result self.new }
        ensures same { IsSameThread self.old self.new }
        ensures later { result ≡ None → (self.old.desk.view.seen < self.new.desk.view.seen) × (self.new.desk.view.seen ≤ space.now.limits.steps) }
    {
        match self.await_child(rt, space, child) {
            End::Returned { value, carried } => { self.note_join(space, child, value, carried) }
            _ => Some(End::ChildEnded(child)),
        }
    }

    // A step, a child that is to be started, or the end.
    fn advance<R: Threads + Wait, G: Gate, H: HostCalls>(
        &mut self,
        rt: &R,
        space: &Space,
        gate: &G,
        hosts: &H,
    ) -> Advance<T>
        requires on { GoesOn T.setting T.state space.now self.old }
        requires hosts { self.old.hosts.value ≡ H.table hosts.now }
        ensures came { Advanced T.setting T.state space.now result self.new }
        ensures same { IsSameThread self.old self.new }
        ensures later { IsOngoing result → (self.old.desk.view.seen < self.new.desk.view.seen) × (self.new.desk.view.seen ≤ space.now.limits.steps) }
    {
        match self.go_on(rt, space, gate, hosts) {
            Ok(None) => Advance::On,
            Ok(Some(end)) => Advance::Ended(end),
            Err(Ask::Spawn { function }) => match self.begin_child(space, function) {
                Ok(begun) => Advance::Begun(begun),
                Err(end) => Advance::Ended(end),
            },
            Err(Ask::Join { child }) => match self.join_step(rt, space, child) {
                None => Advance::On,
                Some(end) => Advance::Ended(end),
            },
            Err(_) => unreachable!(),
        }
    }

    // Goes on until a child is to be started, or to the end. A function of its own, so that what a step takes of the native stack is
    // given back before a child runs there.
    #[inline(never)]
    pub(crate) fn run_on<R: Threads + Wait, G: Gate, H: HostCalls>(
        &mut self,
        rt: &R,
        space: &Space,
        gate: &G,
        hosts: &H,
    ) -> Result<Begun<T>, End>
        requires on { GoesOn T.setting T.state space.now self.old }
        requires hosts { self.old.hosts.value ≡ H.table hosts.now }
        ensures begun { IfOk result (λ b. IsBegun T.setting T.state space.now b self.new) }
        ensures ended { IfErr result (λ e. HasEnded T.setting T.state space.now e self.new) }
        ensures later { IfOk result (λ b. (self.old.desk.view.seen < self.new.desk.view.seen) × (self.new.desk.view.seen ≤ space.now.limits.steps)) }
        ensures same { IsSameThread self.old self.new }
    {
        loop {
            match self.advance(rt, space, gate, hosts) {
                Advance::On => {}
                Advance::Ended(end) => return Err(end),
                Advance::Begun(begun) => return Ok(begun),
            }
        }
    }

    // Joins the desks of all children that are still out.
    #[inline(never)]
    pub(crate) fn join_all<R: Threads + Wait>(&mut self, rt: &R, space: &Space, why: End)
        requires ended { HasEnded T.setting T.state space.now why self.old }
        ensures ended { HasEnded T.setting T.state space.now why self.new }
        ensures none { vec_len self.new.kids ≡ 0 }
        ensures same { IsSameThread self.old self.new }
    {
        while !self.kids.is_empty() {
            self.join_kid(rt, space, 0);
        }
    }

    /// A thread that has not begun.
    pub(crate) fn new<H: HostCalls>(
        alloc: Global,
        space: &Space,
        hosts: &H,
        function: u32,
        machine: T,
        desk: Desk,
        number: ThreadNo,
    ) -> Running<T>
        requires first { IsFirst T.setting T.state space.now (H.table hosts.now) number function machine desk }
        ensures on { GoesOn T.setting T.state space.now result }
        ensures same { (result.number ≡ number) × (result.function ≡ function) × (result.began.value ≡ machine) × (result.start.value ≡ desk) × (result.hosts.value ≡ (H.table hosts.now)) }
    {
        let _ = space;
        let began = Snapshot::of(&machine);
        let start = Snapshot::of(&desk);
        Running {
            number,
            function,
            machine,
            desk,
            entries: Vec::new(alloc),
            kids: Vec::new(alloc),
            trees: Vec::new(alloc),
            began,
            start,
            hosts: Snapshot::of(hosts.table()),
        }
    }

    /// Keeps the handle of a child that was started.
    pub(crate) fn keep(
        &mut self,
        space: &Space,
        begun: &Snapshot<Begun<T>>,
        number: ThreadNo,
        handle: PromisedHandle<(ThreadTree, Desk), TreeOf<T>>,
    )
        requires begun { IsBegun T.setting T.state space.now begun.now.value self.old }
        requires promise { IsPromiseOf T.setting T.state space.now self.old.hosts.value self.old.number begun.now.value handle.promise }
        requires number { number ≡ begun.now.value.number }
        ensures on { GoesOn T.setting T.state space.now self.new }
        ensures desk { self.new.desk ≡ self.old.desk }
        ensures same { IsSameThread self.old self.new }
    {
        let _ = space;
        let _ = begun;
        self.kids.push_reserved(Child { number, handle });
    }

    /// Takes in what a child answers that was run here.
    pub(crate) fn take_in(
        &mut self,
        space: &Space,
        begun: &Snapshot<Begun<T>>,
        tree: ThreadTree,
        desk: Desk,
    )
        requires begun { IsBegun T.setting T.state space.now begun.now.value self.old }
        requires answer { IsAnswer space.now.limits self.old.hosts.value begun.now.value.number (Some self.old.number) begun.now.value.function (view_of T.setting T.state begun.now.value.machine) begun.now.value.desk tree desk }
        ensures on { GoesOn T.setting T.state space.now self.new }
        ensures later { self.old.desk.view.seen ≤ self.new.desk.view.seen }
        ensures same { IsSameThread self.old self.new }
    {
        let _ = begun;
        space.join(&mut self.desk, desk);
        self.trees.push_reserved(tree);
    }

    /// Its tree and its desk, once all children are joined.
    #[inline(never)]
    pub(crate) fn into_answer(
        self,
        space: &Space,
        parent: Option<ThreadNo>,
        why: End,
    ) -> (ThreadTree, Desk)
        requires ended { HasEnded T.setting T.state space.now why self }
        requires none { vec_len self.kids ≡ 0 }
        ensures { IsAnswer space.now.limits self.hosts.value self.number parent self.function (view_of T.setting T.state self.began.value) self.start.value result.0 result.1 }
    {
        let _ = space;
        let Running {
            number,
            function,
            machine,
            desk,
            entries,
            kids,
            trees,
            began: _,
            start: _,
            hosts: _,
        } = self;
        drop(kids);
        let log = ThreadLog {
            number,
            parent,
            entry_function: function,
            entries: ListOf::from_vec(entries),
            instructions: machine.instructions(),
            last: machine.site(),
            end: why,
        };
        (ThreadTree::new(log, trees), desk)
    }
}
