//! The source machine.
ghost use Rattle.std.specs.Prelude.{◌≡◌, true, false, IfOk, OnOk, OnErr};
ghost use Rattle.history.specs.Replies.{Answers};
ghost use Rattle.runs.specs.Threads.{AsksSpawn};
ghost use Rattle.thread_parts.specs.Asks.{AsksAllocation};
ghost use Rattle.source_sem.specs.Starting.{setting_of};
ghost use Rattle.source_sem.specs.Source.{frames_type, source_answer, source_ask, source_begins, source_child, source_fits, source_site, source_start, source_turn};

use crate::ahead::Lookahead;
use crate::frame::Frame;
use crate::text::Text;
use crate::tops::{
    count_if, is_ready, join_type, prepare_top, reply_flow, settle, spawned, top_ask,
};
use crate::turns::frame_turn;
use bsan_ids::{Copied, NoMemory};
use history::{Arg, Ask, Entry, MachineEnd, Trap};
use ir_ast::Ty;
use ir_rules::Verified;
use std::alloc::Global;
use std::marker::Model;

/// One thread over the text of a verified program: registers by name, with a provenance beside each value.
///
/// Contracts see its `setting`, which is the program with its input and the names of its host functions, its `thread`,
/// the state of the source thread, and whether all memory is `prepared` that it needs to go on.
#[derive(Drop)]
pub struct SourceMachine<'p> {
    text: Text<'p>,
    top: Option<Frame<'p>>,
    callers: Vec<Frame<'p>>,
    ahead: Lookahead<'p>,
    over: MachineEnd,
    last: u32,
    count: u64,
    started: Vec<u32>,
    prepared: bool,
}

impl<'p> Model for SourceMachine<'p> {
    ghost use Rattle.std.specs.Prelude.{reverse};
    ghost use Rattle.source_machine.specs.Running.{Running};

    ghost Value = { Running };

    ghost use Rattle.source_machine.specs.Ready.{IsKept};
    ghost use Rattle.source_machine.specs.Threads.{callers_in, frames_above};

    ghost view = { λ m. record {
      setting = m.text;
      thread = record { frames = frames_above m.top (callers_in m.callers.items); over = m.over; last = m.last; count = m.count; started = reverse m.started.items };
      prepared = m.prepared;
    } };

    ghost invariant = { λ m. IsKept m.text m.top m.callers m.ahead m.started m.count m.prepared };
}

/// A thread that begins in the function of this number, with these arguments.
fn begin<'p>(
    alloc: Global,
    text: Text<'p>,
    function: u32,
    row: &[Arg],
) -> Result<SourceMachine<'p>, NoMemory>
    requires { text.tracked ≡ true }
    ensures { IfOk result (λ m. m ≡ record { setting = text.entry; thread = source_start text.entry function row.now; prepared = false }) }
{
    let top = Frame::new(alloc, &text, function, row)?;
    Ok(SourceMachine {
        text,
        top: Some(top),
        callers: Vec::new(alloc),
        ahead: Lookahead {
            row: Vec::new(alloc),
            block: None,
            number: 0,
            callee: None,
        },
        over: MachineEnd::Trapped(Trap::Unreachable),
        last: 0,
        count: 0,
        started: Vec::new(alloc),
        prepared: false,
    })
}

impl<'p> SourceMachine<'p> {
    /// A thread that begins in the function of this number, with these arguments. It costs a pass over the text's
    /// functions and blocks.
    ///
    /// # Errors
    ///
    /// `NoMemory`: out of memory.
    pub fn start(
        alloc: Global,
        program: &'p Verified,
        function: u32,
        args: &[Arg],
        input: &'p [u8],
    ) -> Result<SourceMachine<'p>, NoMemory>
        ensures { IfOk result (λ m. m ≡ record { setting = setting_of program.now.program input.now program.now.hosts; thread = source_start (setting_of program.now.program input.now program.now.hosts) function args.now; prepared = false }) }
    {
        let text = Text::new(alloc, program, input)?;
        begin(alloc, text, function, args)
    }

    /// What the thread asks next.
    ///
    /// # Errors
    ///
    /// `NoMemory`: out of memory for a piece that a copy writes. It comes only where the thread asks an allocation.
    pub fn ask(&self) -> Result<Ask, NoMemory>
        ensures asks { IfOk result (λ a. a ≡ source_ask self.now.setting self.now.thread) }
        ensures refused { OnErr result (AsksAllocation (source_ask self.now.setting self.now.thread)) }
    {
        let alloc = *self.callers.allocator();
        top_ask(
            alloc,
            &self.text,
            &self.top,
            self.callers.len() + 1,
            self.over,
        )
    }

    /// Whether what it asks is the first part of an instruction, or the trap of an instruction of which no part is done.
    pub fn begins(&self) -> bool
        ensures { result ≡ source_begins self.now.thread }
    {
        match &self.top {
            Some(frame) => is_ready(frame),
            None => false,
        }
    }

    /// Takes all memory that the next `turn` or `answer` needs. It changes nothing else.
    ///
    /// # Errors
    ///
    /// `NoMemory`: out of memory; or the count of instructions has no room left.
    pub fn prepare(&mut self) -> Result<(), NoMemory>
        ensures ok { OnOk result (self.new ≡ record self.old { prepared = true }) }
        ensures err { OnErr result (self.new ≡ self.old) }
    {
        if self.prepared {
            return Ok(());
        }
        if self.count == u64::MAX {
            return Err(NoMemory);
        }
        self.callers.reserve(1)?;
        self.started.reserve(1)?;
        let alloc = *self.callers.allocator();
        let depth = self.callers.len() + 1;
        prepare_top(alloc, &self.text, &mut self.top, depth, &mut self.ahead)?;
        self.prepared = true;
        Ok(())
    }

    /// Does one local turn. It takes no memory.
    pub fn turn(&mut self)
        requires { self.old.prepared ≡ true }
        ensures { self.new ≡ record self.old { thread = source_turn self.old.setting self.old.thread; prepared = false } }
    {
        self.prepared = false;
        self.count += 1;
        if let Some(frame) = self.top.take() {
            let flow = frame_turn(&self.text, frame, &mut self.callers, &mut self.ahead);
            settle(flow, &mut self.top, &mut self.over, &mut self.last);
        }
    }

    /// Goes on with an entry's reply. It takes no memory.
    pub fn answer(&mut self, entry: &Entry)
        requires asks { Answers (source_ask self.old.setting self.old.thread) entry.now }
        requires fits { source_fits self.old.setting self.old.thread entry.now }
        requires prepared { self.old.prepared ≡ true }
        ensures { self.new ≡ record self.old { thread = source_answer self.old.setting self.old.thread entry.now.reply; prepared = false } }
    {
        self.prepared = false;
        if let Some(frame) = self.top.take() {
            self.count = count_if(self.count, is_ready(&frame));
            let callers = &mut self.callers;
            let flow = reply_flow(&self.text, frame, callers, &mut self.started, &entry.reply);
            settle(flow, &mut self.top, &mut self.over, &mut self.last);
        }
    }

    /// The thread that a spawn starts, with its arguments.
    ///
    /// # Errors
    ///
    /// `NoMemory`: out of memory.
    pub fn child(&self) -> Result<SourceMachine<'p>, NoMemory>
        requires { AsksSpawn (source_ask self.now.setting self.now.thread) }
        ensures { IfOk result (λ m. m ≡ record { setting = self.now.setting; thread = source_child self.now.setting self.now.thread; prepared = false }) }
    {
        let alloc = *self.callers.allocator();
        let (function, row) = spawned(alloc, &self.text, &self.top, self.callers.len() + 1)?;
        begin(alloc, self.text.copy()?, function, &row)
    }

    /// The type that the join names which the thread asks, if it asks one: a fitting reply has a value of this type.
    pub fn join_type(&self) -> Option<Ty>
        ensures { result ≡ frames_type self.now.setting self.now.thread.frames }
    {
        join_type(&self.text, &self.top, self.callers.len() + 1)
    }

    /// How many instructions the thread has begun.
    pub fn instructions(&self) -> u64
        ensures { result ≡ self.now.thread.count }
    {
        self.count
    }

    /// The number of the instruction to which what it asks belongs, and of the one that ended it where it has ended.
    pub fn site(&self) -> u32
        ensures { result ≡ source_site self.now.thread }
    {
        match &self.top {
            Some(frame) => frame.number,
            None => self.last,
        }
    }
}
