//! A thread's machine on the heap.
ghost use Rattle.std.specs.Prelude.{◌≡◌, IfOk};

use bsan_ids::NoMemory;
use history::{Ask, Entry, MachineEnd};
use instr_sound::Thread;
use std::alloc::Global;
use std::marker::Model;

/// A machine in a box, which contracts see as the machine itself.
///
/// A native thread hands its machine on by value, and where the system refuses threads all those below it run on one
/// native stack: a box keeps the machines off that stack.
#[derive(Drop)]
pub(crate) struct Boxed<T: Thread> {
    alloc: Global,
    machine: Box<T>,
}

impl<T: Thread> Model for Boxed<T> {
    ghost Value = { T };

    ghost view = { λ b. b.machine.value };
}

impl<T: Thread> Boxed<T> {
    /// Puts a machine into a box.
    ///
    /// # Errors
    ///
    /// `NoMemory`: out of memory.
    pub(crate) fn new(alloc: Global, machine: T) -> Result<Boxed<T>, NoMemory>
        ensures { IfOk result (λ b. b ≡ machine) }
    {
        let machine = Box::new(alloc, machine)?;
        Ok(Boxed { alloc, machine })
    }
}

impl<T: Thread> Thread for Boxed<T> {
    ghost setting = { λ b. T.setting b };

    ghost state = { λ b. T.state b };

    ghost prepared = { λ b. T.prepared b };

    fn begins(&self) -> bool {
        self.machine.begins()
    }

    fn instructions(&self) -> u64 {
        self.machine.instructions()
    }

    fn site(&self) -> u32 {
        self.machine.site()
    }

    fn ask(&self) -> Result<Ask, NoMemory> {
        self.machine.ask()
    }

    fn ended(&self) -> Option<MachineEnd> {
        self.machine.ended()
    }

    fn prepare(&mut self) -> Result<(), NoMemory> {
        self.machine.prepare()
    }

    fn turn(&mut self) {
        self.machine.turn();
    }

    fn answer(&mut self, entry: &Entry) {
        self.machine.answer(entry);
    }

    fn child(&self) -> Result<Boxed<T>, NoMemory> {
        Boxed::new(self.alloc, self.machine.child()?)
    }
}
