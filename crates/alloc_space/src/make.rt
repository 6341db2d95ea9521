//! The Make of an allocation.
ghost use Rattle.std.specs.Prelude.{◌≡◌, ℕ, ◌≤◌, ◌<◌, All, Some, None, true, false};
ghost use Rattle.alloc_space.specs.Steps.{IsMade};

use crate::space::{Desk, Space};
use crate::step::Stepped;
use bsan_ids::{AllocNo, Copied, NoMemory, Stamp, ThreadNo};
use history::{Entry, Request};
use ir_ast::Place;
use outside_io::Gate;
use std::sync::Wait;

/// What a Make came to.
#[derive(Drop)]
pub enum Made {
    /// The allocation was made: the entry of its Make.
    Done(Entry),
    /// The allocation number that was drawn is above the limit. No stamp was drawn.
    AllocLimit(u64),
    /// The stamp that was drawn is above the step limit. The number that was drawn is at most its
    /// limit, and stays drawn.
    StepLimit(Stamp),
    /// Out of memory, before a stamp was drawn; an allocation number may have been drawn.
    NoMemory,
}

impl Copied for Made {
    fn copy(&self) -> Result<Made, NoMemory> {
        Ok(match self {
            Made::Done(entry) => Made::Done(entry.copy()?),
            Made::AllocLimit(drawn) => Made::AllocLimit(*drawn),
            Made::StepLimit(stamp) => Made::StepLimit(*stamp),
            Made::NoMemory => Made::NoMemory,
        })
    }
}

impl Space {
    /// Draws the next allocation number and makes it, `size` bytes, 1 to 1,048,576. The desk holds no
    /// turn, and drew no stamp and no allocation number above their limits itself.
    pub fn make<R: Wait, G: Gate>(
        &self,
        rt: &R,
        desk: &mut Desk,
        gate: &G,
        thread: ThreadNo,
        site: u32,
        size: u32,
        place: Place,
    ) -> Made
        requires own { desk.old.table ≡ self.now.table }
        requires idle { desk.old.view.turn ≡ None }
        requires room { All (λ n. n ≤ self.now.limits.steps) desk.old.view.stamps.own }
        requires numbers { All (λ n. n ≤ self.now.limits.allocs) desk.old.view.allocs.own }
        requires size { (1 ≤ size) × (size ≤ 1048576) }
        ensures { IsMade self.now.limits thread site size place desk.old desk.new result }
    {
        let limit = self.limits.allocs;
        let drawn = self.turns.draw_alloc(desk);
        if drawn > u64::from(limit) {
            return Made::AllocLimit(drawn);
        }
        let request = Request::Make { size, place };
        match self.step_inside(rt, desk, gate, thread, site, AllocNo(drawn as u32), request) {
            Stepped::Done(entry) => Made::Done(entry),
            Stepped::StepLimit(stamp) => Made::StepLimit(stamp),
            Stepped::NoMemory => Made::NoMemory,
        }
    }
}
