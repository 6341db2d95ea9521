//! The newest frame of a thread.
ghost use Rattle.std.specs.Prelude.{◌≡◌, ◌+◌, ◌^◌, ◌≤◌, ◌<◌, ◌∷◌, ℕ, List, None, IfOk, OnErr, OnOk, length, reverse, suc, true, vec_capacity, vec_len};
ghost use Rattle.history.specs.declared.ask.MachineEnd.{MachineEnd};
ghost use Rattle.history.specs.Replies.{trap_of};
ghost use Rattle.runs.specs.Threads.{AsksSpawn};
ghost use Rattle.thread_parts.specs.Asks.{AsksAllocation};
ghost use Rattle.thread_parts.specs.Rooms.{HasRoom};
ghost use Rattle.source_sem.specs.Env.{Env};
ghost use Rattle.source_sem.specs.Source as sem;
ghost use Rattle.source_machine.specs.Parts.{part_in};
ghost use Rattle.source_machine.specs.Doings.{half_in};
ghost use Rattle.source_machine.specs.Fits.{FitsDoing};
ghost use Rattle.source_machine.specs.declared.doing.Doing.TheVariants as doing;
ghost use Rattle.source_machine.specs.Frames.{frame_in};
ghost use Rattle.source_machine.specs.Ready.{HasCopyRoom, IsTopRoomy, part_at};
ghost use Rattle.source_machine.specs.Threads.{callers_in, flow_in, frames_above};

use crate::ahead::{Lookahead, prepare_frame};
use crate::answers::{copying_answer, part_answer};
use crate::bindings::fill;
use crate::doing::Doing;
use crate::flow::{Flow, leave_on, returned_value};
use crate::frame::Frame;
use crate::frame_asks::frame_ask;
use crate::part::{Part, Step};
use crate::text::Text;
use bsan_ids::NoMemory;
use history::{Arg, Ask, MachineEnd, Plain, Reply, Trap};
use ir_ast::{Jump, Ty};
use std::alloc::Global;

/// What a thread asks whose newest frame is this, as one of so many.
///
/// # Errors
///
/// `NoMemory`: out of memory.
pub fn top_ask(
    alloc: Global,
    text: &Text,
    top: &Option<Frame>,
    depth: usize,
    over: MachineEnd,
) -> Result<Ask, NoMemory>
    requires { text.now.tracked ≡ true }
    ensures asks { IfOk result (λ a. (fs : List sem.Frame) → suc (length fs) ≡ depth → a ≡ sem.frames_ask text.now (frames_above top.now fs) over) }
    ensures refused { OnErr result ((fs : List sem.Frame) → suc (length fs) ≡ depth → AsksAllocation (sem.frames_ask text.now (frames_above top.now fs) over)) }
{
    match top {
        Some(frame) => frame_ask(alloc, text, frame, depth),
        None => Ok(Ask::Ended(over)),
    }
}

/// Takes the memory that a thread needs whose newest frame is this, as one of so many.
///
/// # Errors
///
/// `NoMemory`: out of memory.
pub fn prepare_top<'p>(
    alloc: Global,
    text: &Text<'p>,
    top: &mut Option<Frame<'p>>,
    depth: usize,
    ahead: &mut Lookahead<'p>,
) -> Result<(), NoMemory>
    requires { text.now.tracked ≡ true }
    ensures ready { OnOk result (IsTopRoomy text.now depth top.new ahead.new) }
    ensures frames { (fs : List sem.Frame) → frames_above top.new fs ≡ frames_above top.old fs }
{
    match top.take() {
        Some(mut frame) => {
            let outcome = prepare_frame(alloc, text, &mut frame, depth, ahead);
            *top = Some(frame);
            outcome
        }
        None => Ok(()),
    }
}

/// Goes on in this way.
pub fn settle<'p>(
    flow: Flow<'p>,
    top: &mut Option<Frame<'p>>,
    over: &mut MachineEnd,
    last: &mut u32,
)
    requires { top.old ≡ None }
    ensures { (t : sem.Source) (fs : List sem.Frame) (started : List ℕ) → t.over ≡ over.old → t.last ≡ last.old
        → flow_in t flow.entry fs started ≡ record t { frames = frames_above top.new fs; over = over.new; last = last.new; started = started } }
{
    match flow {
        Flow::On(frame) => *top = Some(frame),
        Flow::Over(end, number) => {
            *over = end;
            *last = number;
        }
    }
}

/// Whether the frame's next part is an instruction's first.
pub fn is_ready(frame: &Frame) -> bool
    ensures { result ≡ sem.is_ready (frame_in frame.now).doing }
{
    match frame.doing {
        Doing::Ready => true,
        Doing::Entering(_)
        | Doing::Copying(..)
        | Doing::Waiting(..)
        | Doing::Retagging(..)
        | Doing::Leaving(_) => false,
    }
}

/// A count of instructions, with one more where another begins.
pub fn count_if(count: u64, begins: bool) -> u64
    requires { count + 1 < 2 ^ 64 }
    ensures { (t : sem.Source) → t.count ≡ count → sem.counted_if begins t ≡ record t { count = result } }
{
    if begins { count + 1 } else { count }
}

/// The trap in a reply, if it is one.
fn trap_in(reply: &Plain) -> Option<Trap>
    ensures { result ≡ trap_of reply.now }
{
    match reply {
        Plain::Trapped(trap) => Some(*trap),
        Plain::Made(_)
        | Plain::Value(_)
        | Plain::Copied(_)
        | Plain::Done
        | Plain::Retagged { .. }
        | Plain::Spawned(_) => None,
    }
}

/// The frame whose next instruction is its terminator goes on with a reply.
fn term_answer<'p>(frame: Frame<'p>, callers: &mut Vec<Frame<'p>>) -> Flow<'p>
    ensures { (t : sem.Source) → t.frames ≡ frame_in frame.entry ∷ callers_in callers.old.items
        → sem.term_answer true t (frame_in frame.entry) (callers_in callers.old.items) (frame_in frame.entry).term ≡ flow_in t result (callers_in callers.new.items) t.started }
{
    match frame.jump() {
        Some(Jump::Ret { val, .. }) => {
            let value = returned_value(&frame.registers, val);
            leave_on(frame, callers, value)
        }
        Some(Jump::Br(_) | Jump::CondBr { .. } | Jump::Unreachable) | None => Flow::On(frame),
    }
}

/// The frame, as one of so many, goes on with the reply to a later piece of its copy.
#[tactic(auto, using(crate::proofs::Answering::frame_steps))]
fn piece_answer<'p>(
    text: &Text<'p>,
    frame: &mut Frame<'p>,
    depth: usize,
    pieces: u64,
    read: bool,
    reply: &Reply,
)
    requires tracked { text.now.tracked ≡ true }
    requires doing { frame.old.doing ≡ doing.Copying pieces read }
    requires registers { 1 ≤ frame.old.registers.room }
    requires piece { HasCopyRoom (part_at text.now (frame_in frame.old) depth) frame.old.piece }
    ensures { (t : sem.Source) (fs : List sem.Frame) → t.frames ≡ frame_in frame.old ∷ fs → suc (length fs) ≡ depth
        → sem.copying_answer text.now t (frame_in frame.old) fs (frame_in frame.old).insts (record { pieces = pieces; half = half_in frame.old.piece read }) reply.now ≡ record t { frames = frame_in frame.new ∷ fs } }
{
    match frame.inst() {
        Some(inst) => {
            let part = frame.part(text, depth, inst);
            copying_answer(frame, part, pieces, read, reply);
        }
        None => {}
    }
}

/// The newest frame goes on with a reply that is no trap.
#[tactic(auto, using(crate::proofs::Answering::frame_steps))]
fn frame_answer<'p>(
    text: &Text<'p>,
    mut frame: Frame<'p>,
    callers: &mut Vec<Frame<'p>>,
    started: &mut Vec<u32>,
    reply: &Reply,
) -> Flow<'p>
    requires tracked { text.now.tracked ≡ true }
    requires registers { 1 ≤ frame.registers.room }
    requires owned { HasRoom frame.owned }
    requires started { vec_len started.old < vec_capacity started.old }
    requires piece { HasCopyRoom (part_at text.now (frame_in frame) (vec_len callers.old + 1)) frame.piece }
    requires fits { FitsDoing (frame_in frame).doing (part_at text.now (frame_in frame) (vec_len callers.old + 1)) reply.now.plain }
    ensures { (t : sem.Source) → t.frames ≡ frame_in frame.entry ∷ callers_in callers.old.items → t.started ≡ reverse started.old.items
        → sem.doing_answer text.now t (frame_in frame.entry) (callers_in callers.old.items) (frame_in frame.entry).doing reply.now ≡ flow_in t result (callers_in callers.new.items) (reverse started.new.items) }
{
    match frame.doing {
        Doing::Ready => match frame.inst() {
            Some(inst) => {
                let part = frame.part(text, callers.len() + 1, inst);
                part_answer(&mut frame, started, inst, part, reply);
                Flow::On(frame)
            }
            None => term_answer(frame, callers),
        },
        Doing::Entering(params) => {
            frame.enter_param(params, reply);
            Flow::On(frame)
        }
        Doing::Copying(pieces, read) => {
            let depth = callers.len() + 1;
            piece_answer(text, &mut frame, depth, pieces, read, reply);
            Flow::On(frame)
        }
        Doing::Waiting(..) => Flow::On(frame),
        Doing::Retagging(dest, value, attr) => {
            frame.retag(dest, value, attr, reply);
            Flow::On(frame)
        }
        Doing::Leaving(value) => leave_on(frame, callers, value),
    }
}

/// The newest frame goes on with a reply; a trap ends the thread.
pub fn reply_flow<'p>(
    text: &Text<'p>,
    frame: Frame<'p>,
    callers: &mut Vec<Frame<'p>>,
    started: &mut Vec<u32>,
    reply: &Reply,
) -> Flow<'p>
    requires tracked { text.now.tracked ≡ true }
    requires registers { 1 ≤ frame.registers.room }
    requires owned { HasRoom frame.owned }
    requires started { vec_len started.old < vec_capacity started.old }
    requires piece { HasCopyRoom (part_at text.now (frame_in frame) (vec_len callers.old + 1)) frame.piece }
    requires fits { trap_of reply.now.plain ≡ None → FitsDoing (frame_in frame).doing (part_at text.now (frame_in frame) (vec_len callers.old + 1)) reply.now.plain }
    ensures { (t : sem.Source) → t.frames ≡ frame_in frame.entry ∷ callers_in callers.old.items → t.started ≡ reverse started.old.items
        → sem.frames_answer text.now t (frame_in frame.entry ∷ callers_in callers.old.items) (trap_of reply.now.plain) reply.now ≡ flow_in t result (callers_in callers.new.items) (reverse started.new.items) }
{
    match trap_in(&reply.plain) {
        Some(trap) => Flow::Over(MachineEnd::Trapped(trap), frame.number),
        None => frame_answer(text, frame, callers, started, reply),
    }
}

/// The function that is started by the spawn that is the next instruction of the newest frame, as one of so many, and
/// its arguments.
///
/// # Errors
///
/// `NoMemory`: out of memory.
pub fn spawned(
    alloc: Global,
    text: &Text,
    top: &Option<Frame>,
    depth: usize,
) -> Result<(u32, Vec<Arg>), NoMemory>
    requires { text.now.tracked ≡ true }
    ensures { IfOk result (λ s. (fs : List sem.Frame) (over : MachineEnd) → suc (length fs) ≡ depth → AsksSpawn (sem.frames_ask text.now (frames_above top.now fs) over) → sem.source_start text.now s.0 s.1.items ≡ sem.frames_child text.now (frames_above top.now fs)) }
{
    let mut row = Vec::new(alloc);
    let mut function = 0;
    if let Some(frame) = top {
        if let Some(inst) = frame.inst() {
            if let Part::Steps(Step::Spawns(number, args)) = frame.part(text, depth, inst) {
                fill(&mut row, &frame.registers, args)?;
                function = number;
            }
        }
    }
    Ok((function, row))
}

/// The type that the join names which is the next instruction of the newest frame, as one of so many, if it is one.
#[tactic(auto, using(crate::proofs::Typing::type_steps))]
pub fn join_type(text: &Text, top: &Option<Frame>, depth: usize) -> Option<Ty>
    requires { text.now.tracked ≡ true }
    ensures { (fs : List sem.Frame) → suc (length fs) ≡ depth → result ≡ sem.frames_type text.now (frames_above top.now fs) }
{
    let Some(frame) = top else {
        return None;
    };
    match frame.inst() {
        Some(inst) => part_type(frame.part(text, depth, inst)),
        None => None,
    }
}

/// The type that a part names, if it is a join.
fn part_type(part: Part) -> Option<Ty>
    ensures { (e : Env) → result ≡ sem.part_type (part_in e part.entry) }
{
    match part {
        Part::Joins(_, ty, _) => ty,
        Part::Gives(_)
        | Part::Fails(_)
        | Part::Steps(_)
        | Part::Retags(..)
        | Part::Copies(..)
        | Part::Calls(..) => None,
    }
}
