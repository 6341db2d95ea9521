//! A machine that goes on as the thread over the text does.
ghost use Rattle.std.specs.Prelude.{◌≡◌, ◌<◌, length, IfOk, OnErr, OnOk, IsTrue, true};
ghost use Rattle.history.specs.declared.ask.Ask.TheVariants as asked;
ghost use Rattle.history.specs.Replies.{Answers};
ghost use Rattle.instrument.specs.Translation.{translation};
ghost use Rattle.source_sem.specs.Source.{source_ask, source_begins, source_fits, source_site};
ghost use Rattle.thread_parts.specs.Asks.{AsksAllocation};
ghost use Rattle.thread_machine.specs.Thread.{thread_ask};
ghost use Rattle.thread_machine.specs.Views.{IsSpawn, ended_by};

use crate::text::{TextCall, TextStep, TextThread};
use bsan_ids::NoMemory;
use history::{Arg, Ask, Entry, MachineEnd};
use ir_rules::Verified;
use std::alloc::Global;
use std::marker::Model;
use target_code::Target;
use thread_machine::Machine;

/// A machine over the target code of a verified program.
///
/// Contracts see the program, the machine, and the state of the thread over the text that the machine simulates.
/// That state takes no memory.
#[derive(Drop)]
pub struct SoundMachine<'p> {
    program: &'p Verified,
    input: &'p [u8],
    machine: Machine<'p>,
    text: TextThread,
}

impl<'p> Model for SoundMachine<'p> {
    ghost use Rattle.std.specs.Prelude.{◌≡◌};
    ghost use Rattle.instr_sound.specs.Sound.{IsSound, SoundView, sound_view};

    ghost Value = { SoundView };

    ghost view = { λ m. sound_view m.program.now m.machine m.text.state };

    ghost invariant = { λ m. IsSound (sound_view m.program.now m.machine m.text.state) × (m.input.now ≡ m.machine.setting.input) };
}

impl<'p> SoundMachine<'p> {
    ghost use Rattle.instr_sound.specs.Sound.{AskFits, IsSound, answered, begun, started, text_of, turned};

    /// A thread at the beginning of a function that is there, with these arguments. The target code is what `instrument`
    /// gives of the program.
    ///
    /// # Errors
    ///
    /// `NoMemory`: out of memory.
    pub fn start(
        alloc: Global,
        program: &'p Verified,
        target: &'p Target,
        function: u32,
        args: &[Arg],
        input: &'p [u8],
    ) -> Result<SoundMachine<'p>, NoMemory>
        requires code { target.now ≡ translation program.now.hosts.entries program.now.program }
        requires there { function < length program.now.program.functions }
        ensures { IfOk result (λ m. m ≡ begun program.now target.now input.now function args.now) }
    {
        let machine = Machine::start(alloc, target, function, args, input)?;
        let step = TextStep::Start { function, args };
        let call = TextCall {
            program,
            input,
            step,
        };
        let text = TextThread::new().then(&call);
        Ok(SoundMachine {
            program,
            input,
            machine,
            text,
        })
    }

    /// What holds of it: the program is accepted, the target code is its translation, and the machine simulates
    /// the thread over the text. It does nothing.
    pub fn soundness(&self)
        ensures { IsSound self.now }
    {
        let _ = &self.machine;
    }

    /// The machine that it holds.
    pub fn machine(&self) -> &Machine<'p>
        ensures { result.now ≡ self.now.machine }
    {
        &self.machine
    }

    /// What the thread does next.
    ///
    /// # Errors
    ///
    /// `NoMemory`: out of memory for a piece that a copy writes. It comes only where an allocation is addressed.
    pub fn ask(&self) -> Result<Ask, NoMemory>
        ensures source { IfOk result (λ a. a ≡ source_ask (text_of self.now) self.now.state) }
        ensures target { IfOk result (λ a. a ≡ thread_ask self.now.machine.setting self.now.machine.thread) }
        ensures fits { IfOk result AskFits }
        ensures refused { OnErr result (AsksAllocation (source_ask (text_of self.now) self.now.state)) }
    {
        self.machine.ask()
    }

    /// How the thread has ended, if it does nothing more. It takes no memory.
    pub fn ended(&self) -> Option<MachineEnd>
        ensures { result ≡ ended_by (source_ask (text_of self.now) self.now.state) }
    {
        self.machine.ended()
    }

    /// Whether an instruction would begin.
    pub fn begins(&self) -> bool
        ensures { result ≡ source_begins self.now.state }
    {
        self.machine.begins()
    }

    /// Of how many instructions the first part is done.
    pub fn instructions(&self) -> u64
        ensures { result ≡ self.now.state.count }
    {
        self.machine.instructions()
    }

    /// The number of the instruction to which the next part belongs, or of the one that ended the thread.
    pub fn site(&self) -> u32
        ensures { result ≡ source_site self.now.state }
    {
        self.machine.site()
    }

    /// Takes the memory that the next `turn` or `answer` needs.
    ///
    /// # Errors
    ///
    /// `NoMemory`: out of memory, or the count of instructions can't rise. The machine is as before.
    pub fn prepare(&mut self) -> Result<(), NoMemory>
        ensures ok { OnOk result (self.new ≡ record self.old { machine = record self.old.machine { prepared = true } }) }
        ensures err { OnErr result (self.new ≡ self.old) }
    {
        self.machine.prepare()
    }

    /// Does one local instruction, where the thread asks for one and was prepared.
    pub fn turn(&mut self)
        requires asks { source_ask (text_of self.old) self.old.state ≡ asked.Turn }
        requires prepared { IsTrue self.old.machine.prepared }
        ensures { self.new ≡ turned self.old }
    {
        self.machine.turn();
        let call = TextCall {
            program: self.program,
            input: self.input,
            step: TextStep::Turn,
        };
        self.text = self.text.then(&call);
    }

    /// Goes on with the reply to what the thread asks, where it was prepared.
    pub fn answer(&mut self, entry: &Entry)
        requires asks { Answers (source_ask (text_of self.old) self.old.state) entry.now }
        requires fits { source_fits (text_of self.old) self.old.state entry.now }
        requires prepared { IsTrue self.old.machine.prepared }
        ensures { self.new ≡ answered self.old entry.now }
    {
        self.machine.answer(entry);
        let call = TextCall {
            program: self.program,
            input: self.input,
            step: TextStep::Answer(&entry.reply),
        };
        self.text = self.text.then(&call);
    }

    /// The thread that a spawn starts, with its arguments, where the thread asks for one.
    ///
    /// # Errors
    ///
    /// `NoMemory`: out of memory.
    pub fn child(&self) -> Result<SoundMachine<'p>, NoMemory>
        requires { IsSpawn (source_ask (text_of self.now) self.now.state) }
        ensures { IfOk result (λ m. m ≡ started self.now) }
    {
        let machine = self.machine.child()?;
        let call = TextCall {
            program: self.program,
            input: self.input,
            step: TextStep::Child,
        };
        let text = self.text.then(&call);
        Ok(SoundMachine {
            program: self.program,
            input: self.input,
            machine,
            text,
        })
    }
}
