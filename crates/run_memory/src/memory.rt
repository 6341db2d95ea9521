//! The allocations of a run on one native thread.
ghost use Rattle.std.specs.Prelude.{◌≡◌, ◌+◌, ◌<◌, ◌≤◌, ◌^◌, [], IsTrue, OnOk, true, false, IfOk};
ghost use Rattle.history.specs.Histories.{HasBytes, fits, is_make};
ghost use Rattle.history.specs.declared.entry.Request.TheVariants as request;
ghost use Rattle.run_memory.specs.Memory.{none_drawn, Asks, Makes, Records, Starts, named_from};

pub use crate::states::Step;
use crate::states::{Origin, draw_stamp, logs_of, make_next, step_aside, step_at};
use alloc_state::AllocState;
use bsan_ids::{AllocNo, Counters, Limits, ListOf, NoMemory, ThreadNo};
use history::{AllocLog, End, Entry, Plain, Reply, Request, Trap, Verdict};
use ir_ast::Place;
use std::alloc::Global;
use std::marker::Model;

/// The most threads that a run may start besides main.
const THREADS: u64 = 1023;

/// The allocations of a run on one native thread, and how many stamps, allocation numbers and thread numbers it drew.
///
/// Each step's memory is taken before its numbers are drawn. A state is made for each number up to the greatest that a
/// step named.
#[derive(Drop)]
pub struct RunMemory {
    limits: Limits,
    states: Vec<AllocState>,
    words: Counters,
}

impl Model for RunMemory {
    ghost use Rattle.run_memory.specs.Memory.{Memory};
    ghost use Rattle.run_memory.specs.States.{IsTable, memory_in};

    ghost Value = { Memory };

    ghost view = { λ m. memory_in m.limits m.words m.states.items };

    ghost invariant = { λ m. IsTable m.limits m.words m.states.items };
}

impl RunMemory {
    /// Nothing is made and nothing drawn.
    pub fn new(alloc: Global, limits: &Limits) -> RunMemory
        ensures { result ≡ record { limits = limits.now; logs = []; words = none_drawn } }
    {
        RunMemory {
            limits: *limits,
            states: Vec::new(alloc),
            words: Counters {
                stamps: 0,
                allocs: 0,
                threads: 0,
            },
        }
    }

    /// How many numbers were drawn.
    pub fn words(&self) -> Counters
        ensures { result ≡ self.now.words }
    {
        self.words
    }

    /// A request to an allocation. The entries on 0 and on numbers above the limit aren't kept, and such a number was
    /// never made.
    pub fn ask(&mut self, thread: ThreadNo, site: u32, number: AllocNo, request: Request) -> Step
        requires room { self.old.words.stamps + 1 < 2 ^ 64 }
        requires fitting { IsTrue (fits request) }
        requires bytes { HasBytes request }
        requires other { is_make request ≡ false }
        ensures { Asks self.old thread site number request self.new result }
    {
        let limits = self.limits;
        let origin = Origin { thread, site };
        if number.0 == 0 || limits.allocs < number.0 {
            let alloc = *self.states.allocator();
            return step_aside(
                alloc,
                number,
                &mut self.words,
                limits.steps,
                origin,
                request,
            );
        }
        step_at(
            &mut self.states,
            &mut self.words,
            limits,
            origin,
            number,
            request,
        )
    }

    /// Makes the next allocation.
    pub fn make(&mut self, thread: ThreadNo, site: u32, size: u32, place: Place) -> Step
        requires stamps { self.old.words.stamps + 1 < 2 ^ 64 }
        requires allocs { self.old.words.allocs + 1 < 2 ^ 64 }
        requires fitting { IsTrue (fits (request.Make size place)) }
        ensures { Makes self.old thread site size place self.new result }
    {
        let limits = self.limits;
        let origin = Origin { thread, site };
        make_next(
            &mut self.states,
            &mut self.words,
            limits,
            origin,
            size,
            place,
        )
    }

    /// A step that asks no allocation, with the reply that the run gives it. It takes no memory.
    pub fn note(&mut self, thread: ThreadNo, site: u32, request: Request, reply: Reply) -> Step
        requires { self.old.words.stamps + 1 < 2 ^ 64 }
        ensures { Records self.old thread site request reply self.new result }
    {
        match draw_stamp(&mut self.words, self.limits.steps) {
            Ok(stamp) => Step::Done(Entry {
                thread,
                stamp,
                site,
                alloc: None,
                request,
                reply,
            }),
            Err(stamp) => Step::Ends(End::StepLimit(stamp)),
        }
    }

    /// Starts the next thread. It takes no memory.
    pub fn spawn(&mut self, thread: ThreadNo, site: u32, function: u32) -> Step
        requires stamps { self.old.words.stamps + 1 < 2 ^ 64 }
        requires threads { self.old.words.threads + 1 < 2 ^ 64 }
        ensures { Starts self.old thread site function self.new result }
    {
        let next = self.words.threads + 1;
        self.words.threads = next;
        if THREADS < next {
            return Step::Ends(End::Trapped(Trap::ThreadLimit { drawn: next }));
        }
        let reply = Reply {
            plain: Plain::Spawned(ThreadNo(next as u32)),
            carried: None,
            verdict: Verdict::Clean,
        };
        self.note(thread, site, Request::Spawn { function }, reply)
    }

    /// The logs of the allocations that an entry names, in the order of their numbers.
    ///
    /// # Errors
    ///
    /// `NoMemory`: out of memory.
    pub fn into_logs(self, alloc: Global) -> Result<ListOf<AllocLog>, NoMemory>
        ensures { IfOk result (λ logs. logs ≡ named_from 1 self.logs) }
    {
        logs_of(alloc, self.states)
    }
}
