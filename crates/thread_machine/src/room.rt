//! The memory that a thread takes before a part of an instruction.
ghost use Rattle.std.specs.Prelude.{◌≡◌, ◌≤◌, OnOk};
ghost use Rattle.thread_machine.specs.Ready.{HasSpare, IsReady};

use crate::calls::Spare;
use crate::starts::new_spare;
use crate::state::ThreadState;
use bsan_ids::NoMemory;
use ir_ast::Place;
use perm_table::Guard;
use target_code::{Line, Target};

impl<'p> ThreadState<'p> {
    /// Takes the memory that a call of a function needs, and keeps what was made for it in `spare`. The thread stays as
    /// it was, whatever is answered.
    ///
    /// # Errors
    ///
    /// `NoMemory`: out of memory.
    fn make_call_room(
        &mut self,
        target: &'p Target,
        function: u32,
        spare: &mut Option<Spare<'p>>,
    ) -> Result<(), NoMemory>
        ensures thread { self.new.thread ≡ self.old.thread }
        ensures width { self.new.width ≡ self.old.width }
        ensures room { OnOk result (1 ≤ self.new.room.callers) }
        ensures spare { OnOk result (HasSpare target.now self.old.width function spare.new) }
    {
        let alloc = *self.callers.allocator();
        self.callers.reserve(1)?;
        *spare = Some(new_spare(alloc, target, function, self.row.width())?);
        Ok(())
    }

    /// Takes the memory that the next part needs, and keeps in `spare` what was made for a call. The thread stays as it
    /// was, whatever is answered.
    ///
    /// # Errors
    ///
    /// `NoMemory`: out of memory, or the count of instructions can't rise.
    pub fn make_room(
        &mut self,
        target: &'p Target,
        spare: &mut Option<Spare<'p>>,
    ) -> Result<(), NoMemory>
        ensures thread { self.new.thread ≡ self.old.thread }
        ensures width { self.new.width ≡ self.old.width }
        ensures ready { OnOk result (IsReady target.now self.new spare.new) }
    {
        if self.count == u64::MAX {
            return Err(NoMemory);
        }
        match self.top.next_line() {
            Some(Line::Call { function }) => self.make_call_room(target, *function, spare)?,
            Some(
                Line::Make {
                    place: Place::Stack,
                    ..
                },
            ) => self.owned.reserve_stack()?,
            Some(
                Line::Retag {
                    guard: Guard::Weak | Guard::Strong,
                    ..
                },
            ) => self.owned.reserve_protector()?,
            Some(Line::Spawn { .. }) => self.owned.reserve_child()?,
            Some(Line::CheckCopy { .. }) => {
                let alloc = *self.callers.allocator();
                self.copying.reserve(alloc)?;
            }
            _ => {}
        }
        Ok(())
    }
}
