//! One stamped step.
ghost use Rattle.std.specs.Prelude.{◌≡◌, ℕ, ◌≤◌, ◌<◌, All, IsTrue, Some, None, true, false};
ghost use Rattle.history.specs.Histories.{fits, is_make, HasBytes};
ghost use Rattle.turn_lock.specs.Plays.{IsFresh};
ghost use Rattle.alloc_space.specs.Steps.{IsStepped, IsNoted, has_slot};

use crate::space::{Desk, Space};
use alloc_state::AllocState;
use bsan_ids::{AllocNo, Copied, NoMemory, Stamp, ThreadNo};
use history::{Entry, Reply, Request};
use outside_io::{Gate, Point};
use std::sync::Wait;

/// What a step came to.
#[derive(Drop)]
pub enum Stepped {
    /// The step was made: its entry.
    Done(Entry),
    /// The stamp that was drawn is above the step limit, and no step was made.
    StepLimit(Stamp),
    /// Out of memory, before a stamp was drawn.
    NoMemory,
}

impl Copied for Stepped {
    fn copy(&self) -> Result<Stepped, NoMemory> {
        Ok(match self {
            Stepped::Done(entry) => Stepped::Done(entry.copy()?),
            Stepped::StepLimit(stamp) => Stepped::StepLimit(*stamp),
            Stepped::NoMemory => Stepped::NoMemory,
        })
    }
}

impl Space {
    // A step on a number with a slot, under its turn: memory, then the stamp, then the answer.
    pub(crate) fn step_inside<R: Wait, G: Gate>(
        &self,
        rt: &R,
        desk: &mut Desk,
        gate: &G,
        thread: ThreadNo,
        site: u32,
        alloc: AllocNo,
        request: Request,
    ) -> Stepped
        requires own { desk.old.table ≡ self.now.table }
        requires idle { desk.old.view.turn ≡ None }
        requires room { All (λ n. n ≤ self.now.limits.steps) desk.old.view.stamps.own }
        requires slot { (1 ≤ alloc.0) × (alloc.0 ≤ self.now.limits.allocs) }
        requires fitting { IsTrue (fits request) }
        requires bytes { HasBytes request }
        requires fresh { is_make request ≡ true → IsFresh desk.old.view alloc.0 }
        ensures { IsStepped self.now.limits thread site alloc request desk.old desk.new result }
    {
        let limit = self.limits.steps;
        let mut state = self.turns.take(rt, desk, alloc);
        gate.at(thread.0, Point::Inside(alloc.0));
        if state.prepare(&request).is_err() {
            self.turns.give(desk, alloc, state);
            return Stepped::NoMemory;
        }
        let stamp = self.turns.draw_stamp(desk);
        if stamp.0 > limit {
            self.turns.give(desk, alloc, state);
            return Stepped::StepLimit(stamp);
        }
        let entry = state.commit(thread, stamp, site, request);
        self.turns.give(desk, alloc, state);
        Stepped::Done(entry)
    }

    // A step on a number that can't be made: it is answered as one that is not made, and not kept.
    fn step_outside(
        &self,
        desk: &mut Desk,
        thread: ThreadNo,
        site: u32,
        alloc: AllocNo,
        request: Request,
    ) -> Stepped
        requires own { desk.old.table ≡ self.now.table }
        requires idle { desk.old.view.turn ≡ None }
        requires room { All (λ n. n ≤ self.now.limits.steps) desk.old.view.stamps.own }
        requires no_slot { has_slot self.now.limits.allocs alloc.0 ≡ false }
        requires fitting { IsTrue (fits request) }
        requires bytes { HasBytes request }
        requires other { is_make request ≡ false }
        ensures { IsStepped self.now.limits thread site alloc request desk.old desk.new result }
    {
        let limit = self.limits.steps;
        let mut state = AllocState::unmade(self.alloc, alloc);
        if state.prepare(&request).is_err() {
            return Stepped::NoMemory;
        }
        let drawn = self.turns.draw_stamp(desk);
        if drawn.0 > limit {
            return Stepped::StepLimit(drawn);
        }
        Stepped::Done(state.commit(thread, drawn, site, request))
    }

    /// Makes the step of a request to the allocation of this number: takes its turn and the memory
    /// for the step, draws the stamp, answers, and gives the turn back. The request fits and is no
    /// Make. The desk holds no turn, and drew no stamp above the limit itself.
    ///
    /// Of a number that can't be made, 0 or above the limit, the entry is not kept, and the reply is
    /// that of a number that is not made.
    pub fn step<R: Wait, G: Gate>(
        &self,
        rt: &R,
        desk: &mut Desk,
        gate: &G,
        thread: ThreadNo,
        site: u32,
        alloc: AllocNo,
        request: Request,
    ) -> Stepped
        requires own { desk.old.table ≡ self.now.table }
        requires idle { desk.old.view.turn ≡ None }
        requires room { All (λ n. n ≤ self.now.limits.steps) desk.old.view.stamps.own }
        requires fitting { IsTrue (fits request) }
        requires bytes { HasBytes request }
        requires other { is_make request ≡ false }
        ensures { IsStepped self.now.limits thread site alloc request desk.old desk.new result }
    {
        if 1 <= alloc.0 && alloc.0 <= self.limits.allocs {
            self.step_inside(rt, desk, gate, thread, site, alloc, request)
        } else {
            self.step_outside(desk, thread, site, alloc, request)
        }
    }

    /// Makes the stamped entry of a step that asks no allocation: a print, a host call, a spawn or a
    /// join. It takes no memory. The desk holds no turn, and drew no stamp above the limit itself.
    pub fn note(
        &self,
        desk: &mut Desk,
        thread: ThreadNo,
        site: u32,
        request: Request,
        reply: Reply,
    ) -> Stepped
        requires own { desk.old.table ≡ self.now.table }
        requires idle { desk.old.view.turn ≡ None }
        requires room { All (λ n. n ≤ self.now.limits.steps) desk.old.view.stamps.own }
        ensures { IsNoted self.now.limits thread site request reply desk.old desk.new result }
    {
        let limit = self.limits.steps;
        let drawn = self.turns.draw_stamp(desk);
        if drawn.0 > limit {
            return Stepped::StepLimit(drawn);
        }
        Stepped::Done(Entry {
            thread,
            stamp: drawn,
            site,
            alloc: None,
            request,
            reply,
        })
    }
}
