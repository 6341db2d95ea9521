//! What a frame asks.
ghost use Rattle.std.specs.Prelude.{◌≡◌, IfOk, OnErr, slice_get, true};
ghost use Rattle.ir_ast.specs.Attributes as attributes;
ghost use Rattle.thread_parts.specs.Asks.{AsksAllocation};
ghost use Rattle.source_sem.specs.Source as sem;
ghost use Rattle.source_sem.specs.Source.{to_retag};
ghost use Rattle.source_machine.specs.Doings.{half_in};
ghost use Rattle.source_machine.specs.Frames.{frame_in};

use crate::asks::{copy_in_ask, copy_out_ask, part_ask, retag_ask};
use crate::doing::{Doing, from_step};
use crate::frame::Frame;
use crate::part::Part;
use crate::registers::Registers;
use crate::text::Text;
use bsan_ids::NoMemory;
use history::{Ask, MachineEnd, Trap};
use ir_ast::{Jump, Param};
use perm_table::{Guard, RetagKind};
use std::alloc::Global;

/// What a thread asks that has no instruction to do.
fn nowhere() -> Ask
    ensures { result ≡ sem.nowhere }
{
    Ask::Ended(MachineEnd::Trapped(Trap::Unreachable))
}

/// What guards a parameter while its function runs.
fn guard_of(kind: RetagKind) -> Guard
    ensures { result ≡ attributes.guard_of kind }
{
    match kind {
        RetagKind::Boxed | RetagKind::ShrCell => Guard::Weak,
        RetagKind::Mut | RetagKind::Cell | RetagKind::Shr => Guard::Strong,
    }
}

/// What a frame asks at the end of its block.
#[tactic(auto, using(crate::proofs::Asking::term_steps))]
fn term_ask(frame: &Frame) -> Ask
    ensures { result ≡ sem.term_ask (frame_in frame.now) (frame_in frame.now).term }
{
    match frame.jump() {
        Some(Jump::Br(_) | Jump::CondBr { .. }) => Ask::Turn,
        Some(Jump::Ret { .. }) => match frame.owned.first() {
            Some(ask) => ask,
            None => Ask::Turn,
        },
        Some(Jump::Unreachable) | None => nowhere(),
    }
}

/// What a frame asks that is ready for an instruction, as one of so many frames.
#[tactic(auto, using(crate::proofs::Asking::ready_steps))]
fn ready_ask(text: &Text, frame: &Frame, depth: usize) -> Ask
    requires { text.now.tracked ≡ true }
    ensures { result ≡ sem.ready_ask text.now (frame_in frame.now) depth (frame_in frame.now).insts }
{
    match frame.inst() {
        Some(inst) => part_ask(frame.part(text, depth, inst)),
        None => term_ask(frame),
    }
}

/// What a frame asks that has still to retag these parameters.
fn entering_ask(registers: &Registers, params: &[Param]) -> Ask
    ensures { result ≡ sem.entering_ask registers.now.env (to_retag true params.now) }
{
    match from_step(params) {
        [param, ..] => match param.attr {
            Some(attr) => {
                let pointer = registers.get(param.reg.name.as_slice());
                retag_ask(pointer, attr.kind, guard_of(attr.kind), attr.size)
            }
            None => nowhere(),
        },
        [] => nowhere(),
    }
}

/// What a frame asks in a copy that has come so far.
#[tactic(auto, using(crate::proofs::Asking::copying_steps))]
fn copying_ask(
    alloc: Global,
    text: &Text,
    frame: &Frame,
    depth: usize,
    pieces: u64,
    read: bool,
) -> Result<Ask, NoMemory>
    requires { text.now.tracked ≡ true }
    ensures asks { IfOk result (λ ask. ask ≡ sem.copying_ask text.now (frame_in frame.now) depth (frame_in frame.now).insts (record { pieces = pieces; half = half_in frame.now.piece read })) }
    ensures refused { OnErr result (AsksAllocation (sem.copying_ask text.now (frame_in frame.now) depth (frame_in frame.now).insts (record { pieces = pieces; half = half_in frame.now.piece read }))) }
{
    let Some(inst) = frame.inst() else {
        return Ok(nowhere());
    };
    match frame.part(text, depth, inst) {
        Part::Copies(to, from, len) => {
            if read {
                copy_in_ask(alloc, to, from, len, pieces, &frame.piece)
            } else {
                Ok(copy_out_ask(to, from, len, pieces))
            }
        }
        Part::Gives(_)
        | Part::Fails(_)
        | Part::Steps(_)
        | Part::Retags(..)
        | Part::Calls(..)
        | Part::Joins(..) => Ok(nowhere()),
    }
}

/// What a frame asks, as one of so many frames.
///
/// # Errors
///
/// `NoMemory`: out of memory.
pub fn frame_ask(alloc: Global, text: &Text, frame: &Frame, depth: usize) -> Result<Ask, NoMemory>
    requires { text.now.tracked ≡ true }
    ensures asks { IfOk result (λ ask. ask ≡ sem.doing_ask text.now (frame_in frame.now) depth (frame_in frame.now).doing) }
    ensures refused { OnErr result (AsksAllocation (sem.doing_ask text.now (frame_in frame.now) depth (frame_in frame.now).doing)) }
{
    match frame.doing {
        Doing::Ready => Ok(ready_ask(text, frame, depth)),
        Doing::Entering(params) => Ok(entering_ask(&frame.registers, params)),
        Doing::Copying(pieces, read) => copying_ask(alloc, text, frame, depth, pieces, read),
        Doing::Waiting(..) => Ok(nowhere()),
        Doing::Retagging(_, value, attr) => {
            Ok(retag_ask(value, attr.kind, Guard::Free, attr.size))
        }
        Doing::Leaving(_) => match frame.owned.first() {
            Some(ask) => Ok(ask),
            None => Ok(nowhere()),
        },
    }
}
