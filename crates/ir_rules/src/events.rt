//! Where a function defines and uses registers, in the order of its text.
ghost use Rattle.std.specs.Prelude.{◌≡◌, ◌++◌, ◌∷◌, [], map, length, OnOk, IfOk};
ghost use Rattle.ir_rules.specs.Occurrences.Event.{uses, defines};
ghost use Rattle.ir_rules.specs.Occurrences.{val_uses, or_none, typed_uses, op_uses, op_gives, goal_uses, jump_uses, param_event, dest_events, inst_events, block_events, function_events, use_at};
ghost use Rattle.std.specs.List.{flat_map};
ghost use Rattle.std.specs.Option.{option_map};
ghost use Rattle.ir_rules.specs.Seen.{seen, event_of, holds_of, Adds, use_of};

use crate::rule::Wanted;
use ir_ast::{Block, Function, Goal, Inst, Jump, Named, Op, Param, Ty, TypedVal, Val, Width};
use std::alloc::{AllocError, Global};

/// What a register holds: a value of this type, or the handle of a thread that runs the named function.
#[derive(Clone, Copy)]
pub enum Held<'a> {
    Value(Ty),
    Handle(&'a [u8]),
}

/// Why a register stands in the text: it is defined there, or used.
#[derive(Clone, Copy)]
pub enum Role<'a> {
    Defines(Held<'a>),
    Uses(Wanted),
}

/// A register where it stands.
#[derive(Clone, Copy)]
pub struct Occurrence<'a> {
    pub register: &'a Named,
    pub role: Role<'a>,
}

fn note_use<'a>(
    events: &mut Vec<Occurrence<'a>>,
    wanted: Wanted,
    register: &'a Named,
) -> Result<(), AllocError>
    ensures { OnOk result (Adds events.old.items events.new.items (map uses (use_of wanted register.now))) }
{
    events.push(Occurrence {
        register,
        role: Role::Uses(wanted),
    })?;
    Ok(())
}

fn note_val<'a>(events: &mut Vec<Occurrence<'a>>, ty: Ty, val: &'a Val) -> Result<(), AllocError>
    ensures { OnOk result (Adds events.old.items events.new.items (map uses (val_uses ty val.now))) }
{
    match val {
        Val::Reg(register) => note_use(events, Wanted::AValue(ty), register),
        Val::Num(_) => Ok(()),
    }
}

fn note_args<'a>(events: &mut Vec<Occurrence<'a>>, args: &'a [TypedVal]) -> Result<(), AllocError>
    ensures { OnOk result (Adds events.old.items events.new.items (map uses (flat_map typed_uses args.now))) }
{
    for arg in args {
        note_val(events, arg.ty, &arg.val)?;
    }
    Ok(())
}

fn note_op<'a>(events: &mut Vec<Occurrence<'a>>, op: &'a Op) -> Result<(), AllocError>
    ensures { OnOk result (Adds events.old.items events.new.items (map uses (op_uses op.now))) }
{
    let pointer = Wanted::AValue(Ty::Ptr);
    let long = Ty::Int(Width::W64);
    match op {
        Op::Const { .. } | Op::Null => Ok(()),
        Op::Make { size, .. } => note_val(events, long, size),
        Op::Gep { ptr, add } => {
            note_use(events, pointer, ptr)?;
            note_val(events, long, add)
        }
        Op::Load { ptr, .. } | Op::Retag { ptr, .. } | Op::PtrToInt { ptr } | Op::Free { ptr } =>
            note_use(events, pointer, ptr),
        Op::Store { ty, val, ptr } => {
            note_val(events, *ty, val)?;
            note_use(events, pointer, ptr)
        }
        Op::Binary { width, a, b, .. } => {
            note_val(events, Ty::Int(*width), a)?;
            note_val(events, Ty::Int(*width), b)
        }
        Op::Compare { ty, a, b, .. } => {
            note_val(events, *ty, a)?;
            note_val(events, *ty, b)
        }
        Op::Select { ty, cond, a, b } => {
            note_val(events, Ty::Int(Width::W8), cond)?;
            note_val(events, *ty, a)?;
            note_val(events, *ty, b)
        }
        Op::Cast { from, val, .. } => note_val(events, Ty::Int(*from), val),
        Op::Input { index } => note_val(events, long, index),
        Op::Modify {
            width,
            ptr,
            val,
            ..
        } => {
            note_use(events, pointer, ptr)?;
            note_val(events, Ty::Int(*width), val)
        }
        Op::CmpXchg {
            width,
            ptr,
            expected,
            val,
        } => {
            note_use(events, pointer, ptr)?;
            note_val(events, Ty::Int(*width), expected)?;
            note_val(events, Ty::Int(*width), val)
        }
        Op::Copy { to, from, len } => {
            note_use(events, pointer, to)?;
            note_use(events, pointer, from)?;
            note_val(events, long, len)
        }
        Op::Print { width, val } => note_val(events, Ty::Int(*width), val),
        Op::Call { args, .. } | Op::Host { args, .. } | Op::Spawn { args, .. } => {
            note_args(events, args.as_slice())
        }
        Op::Join { handle, .. } => note_use(events, Wanted::AHandle, handle),
    }
}

fn note_goal<'a>(events: &mut Vec<Occurrence<'a>>, goal: &'a Goal) -> Result<(), AllocError>
    ensures { OnOk result (Adds events.old.items events.new.items (map uses (goal_uses goal.now))) }
{
    note_args(events, goal.args.as_slice())
}

fn note_jump<'a>(events: &mut Vec<Occurrence<'a>>, jump: &'a Jump) -> Result<(), AllocError>
    ensures { OnOk result (Adds events.old.items events.new.items (map uses (jump_uses jump.now))) }
{
    match jump {
        Jump::Br(goal) => note_goal(events, goal),
        Jump::CondBr { cond, yes, no } => {
            note_val(events, Ty::Int(Width::W8), cond)?;
            note_goal(events, yes)?;
            note_goal(events, no)
        }
        Jump::Ret { val: Some(val), .. } => note_val(events, val.ty, &val.val),
        Jump::Ret { val: None, .. } | Jump::Unreachable => Ok(()),
    }
}

fn held_value<'a>(ty: Option<Ty>) -> Option<Held<'a>>
    ensures { option_map holds_of result ≡ or_none ty }
{
    match ty {
        Some(ty) => Some(Held::Value(ty)),
        None => None,
    }
}

/// What the register of the instruction holds.
fn gives<'a>(op: &'a Op) -> Option<Held<'a>>
    ensures { option_map holds_of result ≡ op_gives op.now }
{
    let ty = match op {
        Op::Const { width, .. }
        | Op::Binary { width, .. }
        | Op::Modify { width, .. }
        | Op::CmpXchg { width, .. } => Ty::Int(*width),
        Op::Null | Op::Make { .. } | Op::Gep { .. } | Op::Retag { .. } => Ty::Ptr,
        Op::Load { ty, .. } | Op::Select { ty, .. } => *ty,
        Op::Compare { .. } => Ty::Int(Width::W8),
        Op::Cast { to, .. } => Ty::Int(*to),
        Op::PtrToInt { .. } | Op::Input { .. } => Ty::Int(Width::W64),
        Op::Host { result, .. } => *result,
        Op::Call { result, .. } | Op::Join { result, .. } => return held_value(*result),
        Op::Spawn { function, .. } => return Some(Held::Handle(function.name.as_slice())),
        Op::Store { .. } | Op::Copy { .. } | Op::Free { .. } | Op::Print { .. } => return None,
    };
    Some(Held::Value(ty))
}

fn note_definition<'a>(
    events: &mut Vec<Occurrence<'a>>,
    register: &'a Named,
    held: Held<'a>,
) -> Result<(), AllocError>
    ensures { OnOk result (Adds events.old.items events.new.items (defines register.now (holds_of held.entry) ∷ [])) }
{
    events.push(Occurrence {
        register,
        role: Role::Defines(held),
    })?;
    Ok(())
}

fn note_dest<'a>(
    events: &mut Vec<Occurrence<'a>>,
    dest: &'a Option<Named>,
    held: Option<Held<'a>>,
) -> Result<(), AllocError>
    ensures { OnOk result (Adds events.old.items events.new.items (dest_events dest.now (option_map holds_of held.entry))) }
{
    match (dest, held) {
        (Some(register), Some(held)) => note_definition(events, register, held),
        _ => Ok(()),
    }
}

fn note_inst<'a>(events: &mut Vec<Occurrence<'a>>, inst: &'a Inst) -> Result<(), AllocError>
    ensures { OnOk result (Adds events.old.items events.new.items (inst_events inst.now)) }
{
    note_op(events, &inst.op)?;
    note_dest(events, &inst.dest, gives(&inst.op))
}

fn note_params<'a>(events: &mut Vec<Occurrence<'a>>, params: &'a [Param]) -> Result<(), AllocError>
    ensures { OnOk result (Adds events.old.items events.new.items (map param_event params.now)) }
{
    for param in params {
        note_definition(events, &param.reg, Held::Value(param.ty))?;
    }
    Ok(())
}

fn note_insts<'a>(events: &mut Vec<Occurrence<'a>>, insts: &'a [Inst]) -> Result<(), AllocError>
    ensures { OnOk result (Adds events.old.items events.new.items (flat_map inst_events insts.now)) }
{
    for inst in insts {
        note_inst(events, inst)?;
    }
    Ok(())
}

/// Appends the occurrences in a block.
pub fn note_block<'a>(events: &mut Vec<Occurrence<'a>>, block: &'a Block) -> Result<(), AllocError>
    ensures { OnOk result (Adds events.old.items events.new.items (block_events block.now)) }
{
    note_params(events, block.params.as_slice())?;
    note_insts(events, block.insts.as_slice())?;
    note_jump(events, &block.term.jump)
}

fn note_blocks<'a>(events: &mut Vec<Occurrence<'a>>, blocks: &'a [Block]) -> Result<(), AllocError>
    ensures { OnOk result (Adds events.old.items events.new.items (flat_map block_events blocks.now)) }
{
    for block in blocks {
        note_block(events, block)?;
    }
    Ok(())
}

/// The occurrences in a function, its parameters first.
pub fn function_occurrences<'a>(
    alloc: Global,
    function: &'a Function,
) -> Result<Vec<Occurrence<'a>>, AllocError>
    ensures { IfOk result (λ v. seen v.items ≡ function_events function.now) }
{
    let mut events = Vec::new(alloc);
    note_params(&mut events, function.params.as_slice())?;
    note_blocks(&mut events, function.blocks.as_slice())?;
    Ok(events)
}
