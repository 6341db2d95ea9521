//! What a runner of threads asks of one thread, and that the machine over target code gives it.
ghost use Rattle.std.specs.Prelude.{◌≡◌, IfOk, OnOk, OnErr, IsTrue};
ghost use Rattle.history.specs.declared.ask.Ask.TheVariants as asked;
ghost use Rattle.history.specs.Replies.{Answers};
ghost use Rattle.instr_sound.specs.Sound.{AskFits, text_of};
ghost use Rattle.source_sem.specs.Source.{Setting, Source, source_ask, source_begins, source_site, source_turn, source_answer, source_child, source_fits};
ghost use Rattle.thread_parts.specs.Asks.{AsksAllocation};
ghost use Rattle.thread_machine.specs.Views.{IsSpawn, ended_by};

use crate::sound::SoundMachine;
use bsan_ids::NoMemory;
use history::{Ask, Entry, MachineEnd};

/// One thread of a program. It asks, and goes on, as the thread over the text does.
///
/// Contracts see its setting, which never changes: the program, its input and the names of its host functions. They
/// see its state, and whether there is memory for its next part.
pub trait Thread: Drop {
    ghost setting: { Self → Setting };

    ghost state: { Self → Source };

    ghost prepared: { Self → Type 0 };

    /// Whether an instruction would begin.
    fn begins(&self) -> bool
        ensures { result ≡ source_begins (state self.now) };

    /// Of how many instructions the first part is done.
    fn instructions(&self) -> u64
        ensures { result ≡ (state self.now).count };

    /// The number of the instruction to which the next part belongs, or of the one that ended the thread.
    fn site(&self) -> u32
        ensures { result ≡ source_site (state self.now) };

    /// What it does next.
    ///
    /// # Errors
    ///
    /// `NoMemory`: out of memory for a piece that a copy writes. It comes only where an allocation is addressed.
    fn ask(&self) -> Result<Ask, NoMemory>
        ensures asks { IfOk result (λ a. a ≡ source_ask (setting self.now) (state self.now)) }
        ensures fits { IfOk result AskFits }
        ensures refused { OnErr result (AsksAllocation (source_ask (setting self.now) (state self.now))) };

    /// How it has ended, if it does nothing more. It takes no memory.
    fn ended(&self) -> Option<MachineEnd>
        ensures { result ≡ ended_by (source_ask (setting self.now) (state self.now)) };

    /// Takes the memory that the next `turn` or `answer` needs.
    ///
    /// # Errors
    ///
    /// `NoMemory`: out of memory. The thread stands where it stood.
    fn prepare(&mut self) -> Result<(), NoMemory>
        ensures setting { setting self.new ≡ setting self.old }
        ensures state { state self.new ≡ state self.old }
        ensures prepared { OnOk result (prepared self.new) };

    /// Does one local instruction, where it asks for one and was prepared.
    fn turn(&mut self)
        requires asks { source_ask (setting self.old) (state self.old) ≡ asked.Turn }
        requires prepared { prepared self.old }
        ensures setting { setting self.new ≡ setting self.old }
        ensures state { state self.new ≡ source_turn (setting self.old) (state self.old) };

    /// Goes on with the reply to what it asks, where it was prepared.
    fn answer(&mut self, entry: &Entry)
        requires asks { Answers (source_ask (setting self.old) (state self.old)) entry.now }
        requires fits { source_fits (setting self.old) (state self.old) entry.now }
        requires prepared { prepared self.old }
        ensures setting { setting self.new ≡ setting self.old }
        ensures state { state self.new ≡ source_answer (setting self.old) (state self.old) entry.now.reply };

    /// The thread that a spawn starts, with its arguments, where it asks for one.
    ///
    /// # Errors
    ///
    /// `NoMemory`: out of memory.
    fn child(&self) -> Result<Self, NoMemory>
        requires { IsSpawn (source_ask (setting self.now) (state self.now)) }
        ensures setting { IfOk result (λ child. setting child ≡ setting self.now) }
        ensures state { IfOk result (λ child. state child ≡ source_child (setting self.now) (state self.now)) };
}

impl Thread for SoundMachine<'_> {
    ghost setting = { λ m. text_of m };

    ghost state = { λ m. m.state };

    ghost prepared = { λ m. IsTrue m.machine.prepared };

    fn begins(&self) -> bool {
        SoundMachine::begins(self)
    }

    fn instructions(&self) -> u64 {
        SoundMachine::instructions(self)
    }

    fn site(&self) -> u32 {
        SoundMachine::site(self)
    }

    fn ask(&self) -> Result<Ask, NoMemory> {
        SoundMachine::ask(self)
    }

    fn ended(&self) -> Option<MachineEnd> {
        SoundMachine::ended(self)
    }

    fn prepare(&mut self) -> Result<(), NoMemory> {
        SoundMachine::prepare(self)
    }

    fn turn(&mut self) {
        SoundMachine::turn(self);
    }

    fn answer(&mut self, entry: &Entry) {
        SoundMachine::answer(self, entry);
    }

    fn child(&self) -> Result<Self, NoMemory> {
        SoundMachine::child(self)
    }
}
