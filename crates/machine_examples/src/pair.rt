//! One thread as all three machines run it.
ghost use Rattle.std.specs.Prelude.{◌≡◌, ◌<◌, length, true, IfOk, IsTrue, OnOk};
ghost use Rattle.history.specs.Replies.{Answers};
ghost use Rattle.instr_sound.specs.Sound.{text_of};
ghost use Rattle.instrument.specs.Translation.{translation};
ghost use Rattle.runs.specs.Threads.{AsksSpawn};
ghost use Rattle.source_sem.specs.Source.{source_ask, source_fits};
ghost use Rattle.thread_machine.specs.Views.{IsSpawn};

use crate::answering::{does_fit, is_answered, is_end, is_spawn};
use history::{Arg, Ask, Entry, MachineEnd};
use instr_sound::SoundMachine;
use ir_rules::Verified;
use source_machine::SourceMachine;
use std::alloc::Global;
use std::test::Fail;
use target_code::Target;

/// A thread over the text, and the same thread over target code. The second holds a machine of its own.
#[derive(Drop)]
pub struct Pair<'p> {
    pub source: SourceMachine<'p>,
    pub sound: SoundMachine<'p>,
}

impl<'p> Pair<'p> {
    /// A thread at the beginning of a function, with these arguments.
    pub fn start(
        alloc: Global,
        program: &'p Verified,
        target: &'p Target,
        function: u32,
        args: &[Arg],
    ) -> Result<Pair<'p>, Fail>
        requires code { target.now ≡ translation program.now.hosts.entries program.now.program }
        requires there { function < length program.now.program.functions }
    {
        Ok(Pair {
            source: SourceMachine::start(alloc, program, function, args, &[])?,
            sound: SoundMachine::start(alloc, program, target, function, args, &[])?,
        })
    }

    /// Whether all machines are at the same site and have begun as many instructions.
    fn is_alike(&self) -> bool {
        let (source, sound, target) = (&self.source, &self.sound, self.sound.machine());
        source.site() == sound.site()
            && source.site() == target.site()
            && source.begins() == sound.begins()
            && source.begins() == target.begins()
            && source.instructions() == sound.instructions()
            && source.instructions() == target.instructions()
    }

    /// Does the local instructions that come next, as all machines ask, and stops at the first other part.
    pub fn turn_on(&mut self) -> Result<(), Fail> {
        for _ in 0..64 {
            if !self.is_alike() {
                return Err(Fail::new("alike"));
            }
            self.source.prepare()?;
            self.sound.prepare()?;
            let target = self.sound.machine().ask()?;
            match (self.source.ask()?, self.sound.ask()?, target) {
                (Ask::Turn, Ask::Turn, Ask::Turn) => {
                    self.source.turn();
                    self.sound.turn();
                }
                _ => return Ok(()),
            }
        }
        Err(Fail::new("turns"))
    }

    /// Whether all machines ask for an entry.
    fn asks_for(&self, entry: &Entry) -> Result<bool, Fail>
        ensures source { IfOk result (λ b. IsTrue b → Answers (source_ask self.now.source.setting self.now.source.thread) entry.now) }
        ensures sound { IfOk result (λ b. IsTrue b → Answers (source_ask (text_of self.now.sound) self.now.sound.state) entry.now) }
    {
        let source = is_answered(&self.source.ask()?, entry);
        let sound = is_answered(&self.sound.ask()?, entry);
        let target = is_answered(&self.sound.machine().ask()?, entry);
        Ok(source && sound && target)
    }

    /// Takes the memory that the next part needs.
    fn prepare(&mut self) -> Result<(), Fail>
        ensures source { OnOk result (self.new.source ≡ record self.old.source { prepared = true }) }
        ensures sound { OnOk result (IsTrue self.new.sound.machine.prepared) }
    {
        self.source.prepare()?;
        self.sound.prepare()?;
        Ok(())
    }

    /// Goes on with the reply of an entry for which the machines ask.
    fn answer(&mut self, entry: &Entry)
        requires source { Answers (source_ask self.old.source.setting self.old.source.thread) entry.now }
        requires sound { Answers (source_ask (text_of self.old.sound) self.old.sound.state) entry.now }
        requires source_fits { source_fits self.old.source.setting self.old.source.thread entry.now }
        requires sound_fits { source_fits (text_of self.old.sound) self.old.sound.state entry.now }
        requires source_prepared { self.old.source.prepared ≡ true }
        requires sound_prepared { IsTrue self.old.sound.machine.prepared }
    {
        self.source.answer(entry);
        self.sound.answer(entry);
    }

    /// Goes on with the reply of an entry, where all machines ask for the entry at its site. Answers whether they do.
    pub fn feed(&mut self, entry: &Entry) -> Result<bool, Fail> {
        self.prepare()?;
        let is_there = self.is_alike() && self.source.site() == entry.site;
        let is_asked = self.asks_for(entry)?;
        if is_there && is_asked && does_fit(entry) {
            self.answer(entry);
            return Ok(true);
        }
        Ok(false)
    }

    /// Whether a thread is to be started.
    fn asks_spawn(&self) -> Result<bool, Fail>
        ensures source { IfOk result (λ b. IsTrue b → AsksSpawn (source_ask self.now.source.setting self.now.source.thread)) }
        ensures sound { IfOk result (λ b. IsTrue b → IsSpawn (source_ask (text_of self.now.sound) self.now.sound.state)) }
    {
        let source = is_spawn(&self.source.ask()?);
        let sound = is_spawn(&self.sound.ask()?);
        Ok(source && sound)
    }

    /// The thread that a spawn starts, where that is asked.
    pub fn child(&self) -> Result<Pair<'p>, Fail> {
        if !self.asks_spawn()? {
            return Err(Fail::new("spawn"));
        }
        Ok(Pair {
            source: self.source.child()?,
            sound: self.sound.child()?,
        })
    }

    /// Whether all machines say that the thread returned this value.
    pub fn has_returned(&self, value: u64) -> Result<bool, Fail> {
        let carried = None;
        let end = MachineEnd::Returned { value, carried };
        let source = is_end(&self.source.ask()?, end);
        let sound = is_end(&self.sound.ask()?, end);
        let target = is_end(&self.sound.machine().ask()?, end);
        Ok(source && sound && target)
    }
}
