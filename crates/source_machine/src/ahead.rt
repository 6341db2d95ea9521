//! What is looked up, and the memory that is taken, before a thread goes on.
ghost use Rattle.std.specs.Prelude.{◌≡◌, None, Some, OnOk, length, slice_get, true};
ghost use Rattle.std.specs.Option.{option_copied};
ghost use Rattle.source_sem.specs.Source as sem;
ghost use Rattle.source_machine.specs.Positions.{IsWithinLimit, params_of};
ghost use Rattle.source_machine.specs.Frames.{frame_in};
ghost use Rattle.source_machine.specs.Ready.{IsJumpReady, IsRoomy, IsPartReady, goal_at};

use crate::bindings::fill;
use crate::frame::Frame;
use crate::operands::operand;
use crate::part::Part;
use crate::text::{Text, find_block};
use bsan_ids::NoMemory;
use history::Arg;
use ir_ast::{Block, Goal, Inst, Jump};
use std::alloc::Global;

/// What is looked up before a thread goes on: for a jump the block to which it goes, the number of that block's first
/// instruction and the values of its parameters; for a call the frame of the function that is called.
#[derive(Drop)]
pub struct Lookahead<'p> {
    pub row: Vec<Arg>,
    pub block: Option<&'p Block>,
    pub number: u32,
    pub callee: Option<Frame<'p>>,
}

/// Where a frame goes whose next instruction is its terminator, if that is a jump.
#[tactic(auto, using(crate::proofs::Going::goal_steps))]
fn goal_of<'p>(frame: &Frame<'p>) -> Option<&'p Goal>
    requires { slice_get (frame_in frame.now).insts 0 ≡ None }
    ensures { option_copied result ≡ goal_at (frame_in frame.now) }
{
    match frame.jump() {
        Some(Jump::Br(goal)) => Some(goal),
        Some(Jump::CondBr { cond, yes, no }) => {
            if operand(&frame.registers, cond).value == 0 {
                Some(no)
            } else {
                Some(yes)
            }
        }
        Some(Jump::Ret { .. } | Jump::Unreachable) | None => None,
    }
}

/// Looks up the block to which a frame goes, and the values of its parameters.
fn look_up<'p>(
    text: &Text<'p>,
    frame: &Frame<'p>,
    goal: &Goal,
    ahead: &mut Lookahead<'p>,
) -> Result<(), NoMemory>
    ensures enters { OnOk result (sem.in_block (frame_in frame.now) (option_copied ahead.new.block) ahead.new.number ahead.new.row.items ≡ sem.goto text.now (frame_in frame.now) goal.now) }
    ensures stands { OnOk result (IsWithinLimit ahead.new.number (option_copied ahead.new.block)) }
{
    match text.function(frame.function) {
        Some(function) => {
            let first = text.first(frame.function, function);
            let blocks = function.blocks.as_slice();
            let (block, number) = find_block(blocks, first, goal.label.name.as_slice());
            fill(&mut ahead.row, &frame.registers, goal.args.as_slice())?;
            ahead.block = block;
            ahead.number = number;
        }
        None => {
            ahead.row.clear();
            ahead.block = None;
            ahead.number = frame.number;
        }
    }
    Ok(())
}

/// How many parameters a block has.
fn param_count(block: Option<&Block>) -> usize
    ensures { result ≡ length (params_of (option_copied block.entry)) }
{
    match block {
        Some(block) => block.params.len(),
        None => 0,
    }
}

/// Takes the memory for the terminator of a frame, if it is a jump.
fn prepare_jump<'p>(
    text: &Text<'p>,
    frame: &mut Frame<'p>,
    ahead: &mut Lookahead<'p>,
) -> Result<(), NoMemory>
    requires { slice_get (frame_in frame.old).insts 0 ≡ None }
    ensures ready { OnOk result (IsJumpReady text.now (frame_in frame.old) frame.new.registers.room (goal_at (frame_in frame.old)) ahead.new) }
    ensures frame { frame_in frame.new ≡ frame_in frame.old }
{
    if let Some(goal) = goal_of(frame) {
        look_up(text, frame, goal, ahead)?;
        frame.registers.reserve(param_count(ahead.block))?;
    }
    Ok(())
}

/// Takes the memory for the next instruction of a frame, as one of so many frames.
#[tactic(auto, using(crate::proofs::Going::ready_steps))]
fn prepare_part<'p>(
    alloc: Global,
    text: &Text<'p>,
    frame: &mut Frame<'p>,
    depth: usize,
    inst: &'p Inst,
    ahead: &mut Lookahead<'p>,
) -> Result<(), NoMemory>
    requires { text.now.tracked ≡ true }
    ensures ready { OnOk result (IsPartReady text.now (Some (sem.op_part text.now (frame_in frame.old).function depth (frame_in frame.old).env inst.now.op)) frame.new.piece ahead.new.callee) }
    ensures frame { frame_in frame.new ≡ frame_in frame.old }
{
    match frame.part(text, depth, inst) {
        Part::Calls(function, args, ..) => {
            fill(&mut ahead.row, &frame.registers, args)?;
            ahead.callee = Some(Frame::new(alloc, text, function, &ahead.row)?);
        }
        Part::Copies(..) => frame.reserve_piece(alloc)?,
        Part::Gives(_) | Part::Fails(_) | Part::Steps(_) | Part::Retags(..) | Part::Joins(..) => {}
    }
    Ok(())
}

/// Takes the memory that a frame, as one of so many frames, needs to go on.
///
/// # Errors
///
/// `NoMemory`: out of memory.
#[tactic(auto, using(crate::proofs::Going::roomy_steps))]
pub fn prepare_frame<'p>(
    alloc: Global,
    text: &Text<'p>,
    frame: &mut Frame<'p>,
    depth: usize,
    ahead: &mut Lookahead<'p>,
) -> Result<(), NoMemory>
    requires { text.now.tracked ≡ true }
    ensures ready { OnOk result (IsRoomy text.now depth frame.new ahead.new) }
    ensures frame { frame_in frame.new ≡ frame_in frame.old }
{
    match frame.inst() {
        Some(inst) => prepare_part(alloc, text, frame, depth, inst, ahead)?,
        None => prepare_jump(text, frame, ahead)?,
    }
    frame.registers.reserve(1)?;
    frame.owned.reserve()
}
