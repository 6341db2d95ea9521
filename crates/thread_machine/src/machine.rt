//! One thread over target code.
ghost use Rattle.std.specs.Prelude.{◌≡◌, ◌<◌, length, IfOk, OnErr, OnOk, IsTrue, true, false};
ghost use Rattle.history.specs.declared.ask.Ask.TheVariants as asked;
ghost use Rattle.history.specs.Replies.{Answers};
ghost use Rattle.thread_parts.specs.Fits.{ReplyFits};
ghost use Rattle.thread_parts.specs.Asks.{AsksAllocation};
ghost use Rattle.thread_machine.specs.Thread.{row_of, thread_answer, thread_ask, thread_begins, thread_child, thread_site, thread_start, thread_turn};
ghost use Rattle.thread_machine.specs.Views.{FitsTarget, IsSpawn, ended_by, setting};

use crate::calls::Spare;
use crate::row::ArgRow;
use crate::starts::first_state;
use crate::state::ThreadState;
use crate::width::target_width;
use bsan_ids::NoMemory;
use history::{Arg, Ask, Entry, MachineEnd};
use std::alloc::Global;
use std::marker::Model;
use target_code::{Line, Target};

/// One thread over target code.
///
/// Contracts see the code with the input, the thread, and whether there is memory for its next part.
#[derive(Drop)]
pub struct Machine<'p> {
    target: &'p Target,
    input: &'p [u8],
    state: ThreadState<'p>,
    spare: Option<Spare<'p>>,
    prepared: bool,
}

impl<'p> Model for Machine<'p> {
    ghost use Rattle.std.specs.Prelude.{◌≡◌, true};
    ghost use Rattle.thread_machine.specs.Views.{MachineView};
    ghost use Rattle.thread_machine.specs.Ready.{IsReady, IsWide};

    ghost Value = { MachineView };

    ghost view = { λ m. record { setting = record { target = m.target.now; input = m.input.now }; thread = m.state.thread; prepared = m.prepared } };

    ghost invariant = { λ m. IsWide m.target.now m.state × (m.prepared ≡ true → IsReady m.target.now m.state m.spare) };
}

impl<'p> Machine<'p> {
    /// A thread at the beginning of a function, with this row of arguments. `width` is enough for each row that the
    /// code writes.
    ///
    /// # Errors
    ///
    /// `NoMemory`: out of memory.
    #[tactic(auto, using(crate::proofs::Beginning::fits_first, crate::proofs::Beginning::started))]
    fn begin(
        alloc: Global,
        target: &'p Target,
        function: u32,
        row: ArgRow,
        width: usize,
        input: &'p [u8],
    ) -> Result<Machine<'p>, NoMemory>
        requires { FitsTarget width target.now }
        ensures { IfOk result (λ m. m ≡ record { setting = setting target.now input.now; thread = thread_start (setting target.now input.now) function row.row; prepared = false }) }
    {
        let mut state = first_state(alloc, target, function, row, width)?;
        state.go_on(input);
        Ok(Machine {
            target,
            input,
            state,
            spare: None,
            prepared: false,
        })
    }

    /// A thread at the beginning of a function that is there, with these arguments.
    ///
    /// # Errors
    ///
    /// `NoMemory`: out of memory.
    pub fn start(
        alloc: Global,
        target: &'p Target,
        function: u32,
        args: &[Arg],
        input: &'p [u8],
    ) -> Result<Machine<'p>, NoMemory>
        requires there { function < length target.now.functions }
        ensures { IfOk result (λ m. m ≡ record { setting = setting target.now input.now; thread = thread_start (setting target.now input.now) function (row_of args.now); prepared = false }) }
    {
        let row = ArgRow::of_args(alloc, args)?;
        let width = target_width(target);
        Machine::begin(alloc, target, function, row, width, input)
    }

    /// What the thread does next.
    ///
    /// # Errors
    ///
    /// `NoMemory`: out of memory for a piece that a copy writes. It comes only where an allocation is addressed.
    pub fn ask(&self) -> Result<Ask, NoMemory>
        ensures asks { IfOk result (λ a. a ≡ thread_ask self.now.setting self.now.thread) }
        ensures refused { OnErr result (AsksAllocation (thread_ask self.now.setting self.now.thread)) }
    {
        self.state.ask(self.target.version)
    }

    /// How the thread has ended, if it does nothing more. It takes no memory.
    pub fn ended(&self) -> Option<MachineEnd>
        ensures { result ≡ ended_by (thread_ask self.now.setting self.now.thread) }
    {
        self.state.ended(self.target.version)
    }

    /// Whether an instruction would begin.
    pub fn begins(&self) -> bool
        ensures { result ≡ thread_begins self.now.thread }
    {
        self.state.over.is_none() && !self.state.begun
    }

    /// Of how many instructions the first part is done.
    pub fn instructions(&self) -> u64
        ensures { result ≡ self.now.thread.count }
    {
        self.state.count
    }

    /// The number of the instruction to which the next part belongs, or of the one that ended the thread.
    pub fn site(&self) -> u32
        ensures { result ≡ thread_site self.now.thread }
    {
        self.state.top.site
    }

    /// Takes the memory that the next `turn` or `answer` needs.
    ///
    /// # Errors
    ///
    /// `NoMemory`: out of memory, or the count of instructions can't rise. The machine is as before.
    pub fn prepare(&mut self) -> Result<(), NoMemory>
        ensures ok { OnOk result (self.new ≡ record self.old { prepared = true }) }
        ensures err { OnErr result (self.new ≡ self.old) }
    {
        if !self.prepared {
            self.state.make_room(self.target, &mut self.spare)?;
            self.prepared = true;
        }
        Ok(())
    }

    /// Does one local instruction, where the thread asks for one and was prepared.
    pub fn turn(&mut self)
        requires asks { thread_ask self.old.setting self.old.thread ≡ asked.Turn }
        requires prepared { IsTrue self.old.prepared }
        ensures { self.new ≡ record self.old { thread = thread_turn self.old.setting self.old.thread; prepared = false } }
    {
        self.prepared = false;
        self.state.turn(self.target, self.input, &mut self.spare);
    }

    /// Goes on with the reply to what the thread asks, where it was prepared.
    #[tactic(auto, using(crate::proofs::Replying::has_number))]
    pub fn answer(&mut self, entry: &Entry)
        requires asks { Answers (thread_ask self.old.setting self.old.thread) entry.now }
        requires fits { ReplyFits None entry.now entry.now.request }
        requires prepared { IsTrue self.old.prepared }
        ensures { self.new ≡ record self.old { thread = thread_answer self.old.setting self.old.thread entry.now.reply; prepared = false } }
    {
        self.prepared = false;
        self.state.answer(self.input, &entry.reply);
    }

    /// The thread that a spawn starts, with the row of arguments and their provenances, where the thread asks for one.
    ///
    /// # Errors
    ///
    /// `NoMemory`: out of memory.
    #[tactic(auto, using(crate::proofs::Beginning::child_at, crate::proofs::Beginning::child_else, crate::proofs::Beginning::child_end))]
    pub fn child(&self) -> Result<Machine<'p>, NoMemory>
        requires { IsSpawn (thread_ask self.now.setting self.now.thread) }
        ensures { IfOk result (λ m. m ≡ record self.now { thread = thread_child self.now.setting self.now.thread; prepared = false }) }
    {
        let alloc = *self.state.callers.allocator();
        let width = self.state.row.width();
        match self.state.top.next_line() {
            Some(Line::Spawn { function, .. }) => {
                let row = self.state.row.copy()?;
                Machine::begin(alloc, self.target, *function, row, width, self.input)
            }
            _ => {
                let row = ArgRow::new(alloc, 0)?;
                Machine::begin(alloc, self.target, 0, row, width, self.input)
            }
        }
    }
}
