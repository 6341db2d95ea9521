//! The canonical text of a program.
ghost use Rattle.std.specs.Prelude.{◌≡◌, [], ◌∷◌, ◌++◌, codes, OnOk, IfOk};
ghost use Rattle.std.specs.List.{flat_map};
ghost use Rattle.ir_ast.specs.Tokens.{forms, plain};
ghost use Rattle.ir_ast.specs.Tokens.Form.{word, local, global, comma, close_brace};
ghost use Rattle.ir_ast.specs.Keywords.{type_word, result_word, width_word};
ghost use Rattle.ir_ast.specs.Grammar.{val_form, typed_tokens, next_tokens, values_tokens, args_tokens, goal_tokens, op_tokens, jump_tokens, ret_tokens};
ghost use Rattle.ir_ast.specs.Lines.{attr_tokens, param_tokens, params_tokens, round_params, block_params, label_line, term_line, header_line, first_line, outer};
ghost use Rattle.ir_ast.specs.Texts.{line_text, canonical};
ghost use Rattle.ir_ast.specs.Written.{Adds, AddsText, dest_forms, next_param, inst_text, block_text, function_text};
ghost use Rattle.ir_ast.specs.declared.program.Op.TheVariants.{Retag, Compare, Select, Modify, CmpXchg, Copy};
ghost use Rattle.ir_ast.specs.declared.program.Jump.TheVariants.{CondBr};

use crate::mark::Mark;
use crate::operators::{Cond, ModifyOp};
use crate::program::{
    Block, Function, Goal, Inst, Jump, Named, Op, Param, Program, Term, TypedVal, Val,
};
use crate::types::{Attr, Ty, Width};
use crate::words::{
    cond_word, jump_word, kind_word, modify_word, op_word, result_word, type_word, width_word,
};
use crate::writer::Writer;
use bsan_ids::NoMemory;
use perm_table::RetagKind;
use std::alloc::Global;

fn write_type(to: &mut Writer, ty: Ty) -> Result<(), NoMemory>
    ensures { OnOk result (Adds to.old to.new (word (type_word ty) ∷ [])) }
{
    to.word(type_word(ty).as_bytes())
}

fn write_width(to: &mut Writer, width: Width) -> Result<(), NoMemory>
    ensures { OnOk result (Adds to.old to.new (word (width_word width) ∷ [])) }
{
    to.word(width_word(width).as_bytes())
}

/// A type, or `void`.
fn write_result(to: &mut Writer, ty: Option<Ty>) -> Result<(), NoMemory>
    ensures { OnOk result (Adds to.old to.new (word (result_word ty) ∷ [])) }
{
    to.word(result_word(ty).as_bytes())
}

fn write_register(to: &mut Writer, register: &Named) -> Result<(), NoMemory>
    ensures { OnOk result (Adds to.old to.new (local register.now.name ∷ [])) }
{
    to.local(register.name.as_slice())
}

fn write_function_name(to: &mut Writer, function: &Named) -> Result<(), NoMemory>
    ensures { OnOk result (Adds to.old to.new (global function.now.name ∷ [])) }
{
    to.global(function.name.as_slice())
}

fn write_val(to: &mut Writer, val: &Val) -> Result<(), NoMemory>
    ensures { OnOk result (Adds to.old to.new (val_form val.now ∷ [])) }
{
    match val {
        Val::Reg(register) => write_register(to, register),
        Val::Num(number) => to.number(*number),
    }
}

/// A comma, and then the register.
#[tactic(auto, using(crate::proofs::Adds::adds_steps))]
fn write_next_register(to: &mut Writer, register: &Named) -> Result<(), NoMemory>
    ensures { OnOk result (Adds to.old to.new (comma ∷ local register.now.name ∷ [])) }
{
    to.mark(Mark::Comma)?;
    write_register(to, register)
}

/// A comma, and then the value.
#[tactic(auto, using(crate::proofs::Adds::adds_steps))]
fn write_next_val(to: &mut Writer, val: &Val) -> Result<(), NoMemory>
    ensures { OnOk result (Adds to.old to.new (comma ∷ val_form val.now ∷ [])) }
{
    to.mark(Mark::Comma)?;
    write_val(to, val)
}

#[tactic(auto, using(crate::proofs::Adds::adds_steps))]
fn write_typed(to: &mut Writer, val: &TypedVal) -> Result<(), NoMemory>
    ensures { OnOk result (Adds to.old to.new (forms (typed_tokens val.now))) }
{
    write_type(to, val.ty)?;
    write_val(to, &val.val)
}

/// A comma, and then the value with its type.
#[tactic(auto, using(crate::proofs::Adds::adds_steps))]
fn write_next(to: &mut Writer, val: &TypedVal) -> Result<(), NoMemory>
    ensures { OnOk result (Adds to.old to.new (forms (next_tokens val.now))) }
{
    to.mark(Mark::Comma)?;
    write_typed(to, val)
}

#[tactic(auto, using(crate::proofs::Adds::adds_none))]
fn write_more(to: &mut Writer, vals: &[TypedVal]) -> Result<(), NoMemory>
    ensures { OnOk result (Adds to.old to.new (forms (flat_map next_tokens vals.now))) }
{
    for val in vals {
        write_next(to, val)?;
    }
    Ok(())
}

#[tactic(auto, using(crate::proofs::Adds::adds_steps))]
fn write_values(to: &mut Writer, vals: &[TypedVal]) -> Result<(), NoMemory>
    ensures { OnOk result (Adds to.old to.new (forms (values_tokens vals.now))) }
{
    match vals {
        [] => Ok(()),
        [first, rest @ ..] => {
            write_typed(to, first)?;
            write_more(to, rest)
        }
    }
}

/// The arguments of a call.
fn write_args(to: &mut Writer, args: &[TypedVal]) -> Result<(), NoMemory>
    ensures { OnOk result (Adds to.old to.new (forms (args_tokens args.now))) }
{
    to.mark(Mark::OpenRound)?;
    write_values(to, args)?;
    to.mark(Mark::CloseRound)
}

/// The function that is called, and its arguments.
#[tactic(auto, using(crate::proofs::Adds::adds_next))]
fn write_call(to: &mut Writer, function: &Named, args: &[TypedVal]) -> Result<(), NoMemory>
    ensures { OnOk result (Adds to.old to.new (global function.now.name ∷ forms (args_tokens args.now))) }
{
    write_function_name(to, function)?;
    write_args(to, args)
}

/// The label of a goal, and its arguments if there are any.
#[tactic(auto, using(crate::proofs::Adds::adds_steps))]
fn write_goal(to: &mut Writer, goal: &Goal) -> Result<(), NoMemory>
    ensures { OnOk result (Adds to.old to.new (forms (goal_tokens goal.now))) }
{
    to.word(goal.label.name.as_slice())?;
    match goal.args.as_slice() {
        [] => Ok(()),
        args => write_args(to, args),
    }
}

/// The operands of a retag.
#[tactic(auto, using(crate::proofs::Adds::adds_steps))]
fn write_retag(to: &mut Writer, kind: RetagKind, ptr: &Named, size: u32) -> Result<(), NoMemory>
    ensures { OnOk result (Adds to.old to.new (forms (op_tokens (Retag kind ptr.now size)))) }
{
    to.word(kind_word(kind).as_bytes())?;
    write_register(to, ptr)?;
    to.mark(Mark::Comma)?;
    to.number(u64::from(size))
}

/// The operands of a comparison.
#[tactic(auto, using(crate::proofs::Adds::adds_steps))]
fn write_compare(to: &mut Writer, cond: Cond, ty: Ty, a: &Val, b: &Val) -> Result<(), NoMemory>
    ensures { OnOk result (Adds to.old to.new (forms (op_tokens (Compare cond ty a.now b.now)))) }
{
    to.word(cond_word(cond).as_bytes())?;
    write_type(to, ty)?;
    write_val(to, a)?;
    write_next_val(to, b)
}

/// The operands of a choice between two values.
#[tactic(auto, using(crate::proofs::Adds::adds_steps))]
fn write_select(to: &mut Writer, ty: Ty, cond: &Val, a: &Val, b: &Val) -> Result<(), NoMemory>
    ensures { OnOk result (Adds to.old to.new (forms (op_tokens (Select ty cond.now a.now b.now)))) }
{
    write_type(to, ty)?;
    write_val(to, cond)?;
    write_next_val(to, a)?;
    write_next_val(to, b)
}

/// The operands of a cast.
#[tactic(auto, using(crate::proofs::Adds::adds_steps))]
fn write_cast(to: &mut Writer, from: Width, val: &Val, width: Width) -> Result<(), NoMemory>
    ensures { OnOk result (Adds to.old to.new (word (width_word from) ∷ val_form val.now ∷ word (codes "to") ∷ word (width_word width) ∷ [])) }
{
    write_width(to, from)?;
    write_val(to, val)?;
    to.word(b"to")?;
    write_width(to, width)
}

/// The operands of a read-modify-write.
#[tactic(auto, using(crate::proofs::Adds::adds_steps))]
fn write_modify(
    to: &mut Writer,
    op: ModifyOp,
    width: Width,
    ptr: &Named,
    val: &Val,
) -> Result<(), NoMemory>
    ensures { OnOk result (Adds to.old to.new (forms (op_tokens (Modify op width ptr.now val.now)))) }
{
    to.word(modify_word(op).as_bytes())?;
    write_width(to, width)?;
    write_register(to, ptr)?;
    write_next_val(to, val)
}

/// The operands of a compare-and-exchange.
#[tactic(auto, using(crate::proofs::Adds::adds_steps))]
fn write_cmpxchg(
    to: &mut Writer,
    width: Width,
    ptr: &Named,
    expected: &Val,
    val: &Val,
) -> Result<(), NoMemory>
    ensures { OnOk result (Adds to.old to.new (forms (op_tokens (CmpXchg width ptr.now expected.now val.now)))) }
{
    write_width(to, width)?;
    write_register(to, ptr)?;
    write_next_val(to, expected)?;
    write_next_val(to, val)
}

/// The operands of a copy of memory.
#[tactic(auto, using(crate::proofs::Adds::adds_steps))]
fn write_copy(to: &mut Writer, target: &Named, from: &Named, len: &Val) -> Result<(), NoMemory>
    ensures { OnOk result (Adds to.old to.new (forms (op_tokens (Copy target.now from.now len.now)))) }
{
    write_register(to, target)?;
    write_next_register(to, from)?;
    write_next_val(to, len)
}

/// The tokens of an operation after its first word.
#[tactic(auto, using(crate::proofs::Adds::adds_steps))]
fn write_operands(to: &mut Writer, op: &Op) -> Result<(), NoMemory>
    ensures { OnOk result (Adds to.old to.new (forms (op_tokens op.now))) }
{
    match op {
        Op::Null => Ok(()),
        Op::Const { width, value } => {
            write_width(to, *width)?;
            to.number(*value)
        }
        Op::Make { size: val, .. } | Op::Input { index: val } => write_val(to, val),
        Op::PtrToInt { ptr } | Op::Free { ptr } => write_register(to, ptr),
        Op::Print { width, val } => {
            write_width(to, *width)?;
            write_val(to, val)
        }
        Op::Gep { ptr, add } => {
            write_register(to, ptr)?;
            write_next_val(to, add)
        }
        Op::Load { ty, ptr } => {
            write_type(to, *ty)?;
            write_next_register(to, ptr)
        }
        Op::Store { ty, val, ptr } => {
            write_type(to, *ty)?;
            write_val(to, val)?;
            write_next_register(to, ptr)
        }
        Op::Retag { kind, ptr, size } => write_retag(to, *kind, ptr, *size),
        Op::Copy {
            to: target,
            from,
            len,
        } => write_copy(to, target, from, len),
        Op::Binary { width, a, b, .. } => {
            write_width(to, *width)?;
            write_val(to, a)?;
            write_next_val(to, b)
        }
        Op::Compare { cond, ty, a, b } => write_compare(to, *cond, *ty, a, b),
        Op::Select { ty, cond, a, b } => write_select(to, *ty, cond, a, b),
        Op::Cast {
            from,
            to: width,
            val,
            ..
        } => write_cast(to, *from, val, *width),
        Op::Modify {
            op,
            width,
            ptr,
            val,
        } => write_modify(to, *op, *width, ptr, val),
        Op::CmpXchg {
            width,
            ptr,
            expected,
            val,
        } => write_cmpxchg(to, *width, ptr, expected, val),
        Op::Call {
            result,
            function,
            args,
        } => {
            write_result(to, *result)?;
            write_call(to, function, args.as_slice())
        }
        Op::Host { result, host, args } => {
            write_type(to, *result)?;
            write_call(to, host, args.as_slice())
        }
        Op::Spawn { function, args } => write_call(to, function, args.as_slice()),
        Op::Join { result, handle, .. } => {
            write_result(to, *result)?;
            write_register(to, handle)
        }
    }
}

fn write_cond_br(to: &mut Writer, cond: &Val, first: &Goal, second: &Goal) -> Result<(), NoMemory>
    ensures { OnOk result (Adds to.old to.new (forms (jump_tokens (CondBr cond.now first.now second.now)))) }
{
    write_val(to, cond)?;
    to.mark(Mark::Comma)?;
    write_goal(to, first)?;
    to.mark(Mark::Comma)?;
    write_goal(to, second)
}

fn write_ret(to: &mut Writer, val: &Option<TypedVal>) -> Result<(), NoMemory>
    ensures { OnOk result (Adds to.old to.new (forms (ret_tokens val.now 0))) }
{
    match val {
        Some(val) => write_typed(to, val),
        None => write_result(to, None),
    }
}

/// The tokens of a terminator after its first word.
#[tactic(auto, using(crate::proofs::Adds::adds_ret))]
fn write_jump(to: &mut Writer, jump: &Jump) -> Result<(), NoMemory>
    ensures { OnOk result (Adds to.old to.new (forms (jump_tokens jump.now))) }
{
    match jump {
        Jump::Br(goal) => write_goal(to, goal),
        Jump::CondBr { cond, yes, no } => write_cond_br(to, cond, yes, no),
        Jump::Ret { val, .. } => write_ret(to, val),
        Jump::Unreachable => Ok(()),
    }
}

#[tactic(auto, using(crate::proofs::Adds::line_steps))]
fn write_term(to: &mut Writer, term: &Term) -> Result<(), NoMemory>
    ensures { OnOk result (AddsText to.old to.new (line_text (term_line 0 term.now))) }
{
    to.begin(b"  ")?;
    to.word(jump_word(&term.jump).as_bytes())?;
    write_jump(to, &term.jump)?;
    to.end()
}

/// The register that an instruction defines, and `=`.
#[tactic(auto, using(crate::proofs::Adds::adds_steps))]
fn write_dest(to: &mut Writer, dest: &Option<Named>) -> Result<(), NoMemory>
    ensures { OnOk result (Adds to.old to.new (dest_forms dest.now)) }
{
    match dest {
        Some(register) => {
            write_register(to, register)?;
            to.mark(Mark::Equals)
        }
        None => Ok(()),
    }
}

#[tactic(auto, using(crate::proofs::Adds::line_steps))]
fn write_inst(to: &mut Writer, inst: &Inst) -> Result<(), NoMemory>
    ensures { OnOk result (AddsText to.old to.new (inst_text inst.now)) }
{
    to.begin(b"  ")?;
    write_dest(to, &inst.dest)?;
    to.word(op_word(&inst.op).as_bytes())?;
    write_operands(to, &inst.op)?;
    to.end()
}

#[tactic(auto, using(crate::proofs::Adds::text_steps))]
fn write_insts(to: &mut Writer, insts: &[Inst]) -> Result<(), NoMemory>
    ensures { OnOk result (AddsText to.old to.new (flat_map inst_text insts.now)) }
{
    for inst in insts {
        write_inst(to, inst)?;
    }
    Ok(())
}

/// The kind and the size of a pointer's retag, if it is retagged.
#[tactic(auto, using(crate::proofs::Adds::adds_steps))]
fn write_attr(to: &mut Writer, attr: Option<Attr>) -> Result<(), NoMemory>
    ensures { OnOk result (Adds to.old to.new (forms (attr_tokens attr))) }
{
    match attr {
        Some(attr) => {
            to.word(kind_word(attr.kind).as_bytes())?;
            to.mark(Mark::OpenRound)?;
            to.number(u64::from(attr.size))?;
            to.mark(Mark::CloseRound)
        }
        None => Ok(()),
    }
}

#[tactic(auto, using(crate::proofs::Adds::adds_param))]
fn write_param(to: &mut Writer, param: &Param) -> Result<(), NoMemory>
    ensures { OnOk result (Adds to.old to.new (forms (param_tokens 0 param.now))) }
{
    write_type(to, param.ty)?;
    write_attr(to, param.attr)?;
    write_register(to, &param.reg)
}

/// A comma, and then the parameter.
#[tactic(auto, using(crate::proofs::Adds::adds_next_param))]
fn write_next_param(to: &mut Writer, param: &Param) -> Result<(), NoMemory>
    ensures { OnOk result (Adds to.old to.new (forms (next_param param.now))) }
{
    to.mark(Mark::Comma)?;
    write_param(to, param)
}

#[tactic(auto, using(crate::proofs::Adds::adds_none))]
fn write_more_params(to: &mut Writer, params: &[Param]) -> Result<(), NoMemory>
    ensures { OnOk result (Adds to.old to.new (forms (flat_map next_param params.now))) }
{
    for param in params {
        write_next_param(to, param)?;
    }
    Ok(())
}

#[tactic(auto, using(crate::proofs::Adds::adds_none))]
fn write_params(to: &mut Writer, params: &[Param]) -> Result<(), NoMemory>
    ensures { OnOk result (Adds to.old to.new (forms (params_tokens 0 params.now))) }
{
    match params {
        [] => Ok(()),
        [first, rest @ ..] => {
            write_param(to, first)?;
            write_more_params(to, rest)
        }
    }
}

fn write_round_params(to: &mut Writer, params: &[Param]) -> Result<(), NoMemory>
    ensures { OnOk result (Adds to.old to.new (forms (round_params 0 params.now))) }
{
    to.mark(Mark::OpenRound)?;
    write_params(to, params)?;
    to.mark(Mark::CloseRound)
}

/// The parameters of a block, if there are any.
#[tactic(auto, using(crate::proofs::Adds::adds_none))]
fn write_block_params(to: &mut Writer, params: &[Param]) -> Result<(), NoMemory>
    ensures { OnOk result (Adds to.old to.new (forms (block_params 0 params.now))) }
{
    match params {
        [] => Ok(()),
        _ => write_round_params(to, params),
    }
}

fn write_label(to: &mut Writer, block: &Block) -> Result<(), NoMemory>
    ensures { OnOk result (AddsText to.old to.new (line_text (label_line 0 block.now))) }
{
    to.begin(b"")?;
    to.word(block.label.name.as_slice())?;
    write_block_params(to, block.params.as_slice())?;
    to.mark(Mark::Colon)?;
    to.end()
}

#[tactic(auto, using(crate::proofs::Adds::text_steps))]
fn write_block(to: &mut Writer, block: &Block) -> Result<(), NoMemory>
    ensures { OnOk result (AddsText to.old to.new (block_text block.now)) }
{
    write_label(to, block)?;
    write_insts(to, block.insts.as_slice())?;
    write_term(to, &block.term)
}

#[tactic(auto, using(crate::proofs::Adds::text_steps))]
fn write_blocks(to: &mut Writer, blocks: &[Block]) -> Result<(), NoMemory>
    ensures { OnOk result (AddsText to.old to.new (flat_map block_text blocks.now)) }
{
    for block in blocks {
        write_block(to, block)?;
    }
    Ok(())
}

fn write_header(to: &mut Writer, function: &Function) -> Result<(), NoMemory>
    ensures { OnOk result (Adds to.old to.new (forms (header_line 0 function.now).tokens)) }
{
    to.word(b"func")?;
    write_function_name(to, &function.name)?;
    to.mark(Mark::OpenRound)?;
    write_params(to, function.params.as_slice())?;
    to.mark(Mark::CloseRound)?;
    to.mark(Mark::Arrow)?;
    write_result(to, function.result.ty)?;
    write_attr(to, function.result.attr)?;
    to.mark(Mark::OpenBrace)
}

#[tactic(auto, using(crate::proofs::Adds::text_header))]
fn write_header_line(to: &mut Writer, function: &Function) -> Result<(), NoMemory>
    ensures { OnOk result (AddsText to.old to.new (line_text (header_line 0 function.now))) }
{
    to.begin(b"")?;
    write_header(to, function)?;
    to.end()
}

#[tactic(auto, using(crate::proofs::Adds::text_closing))]
fn write_closing_line(to: &mut Writer) -> Result<(), NoMemory>
    ensures { OnOk result (AddsText to.old to.new (line_text (outer (plain close_brace ∷ [])))) }
{
    to.begin(b"")?;
    to.mark(Mark::CloseBrace)?;
    to.end()
}

#[tactic(auto, using(crate::proofs::Adds::text_steps))]
fn write_function(to: &mut Writer, function: &Function) -> Result<(), NoMemory>
    ensures { OnOk result (AddsText to.old to.new (function_text function.now)) }
{
    write_header_line(to, function)?;
    write_blocks(to, function.blocks.as_slice())?;
    write_closing_line(to)
}

#[tactic(auto, using(crate::proofs::Adds::text_steps))]
fn write_functions(to: &mut Writer, functions: &[Function]) -> Result<(), NoMemory>
    ensures { OnOk result (AddsText to.old to.new (flat_map function_text functions.now)) }
{
    for function in functions {
        write_function(to, function)?;
    }
    Ok(())
}

#[tactic(auto, using(crate::proofs::Adds::line_steps))]
fn write_first_line(to: &mut Writer, version: u8) -> Result<(), NoMemory>
    ensures { OnOk result (AddsText to.old to.new (line_text (first_line version))) }
{
    to.begin(b"")?;
    to.word(b"bir")?;
    to.number(u64::from(version))?;
    to.end()
}

/// The canonical text of a program.
///
/// # Errors
/// `NoMemory`: out of memory.
pub fn print(alloc: Global, program: &Program) -> Result<Vec<u8>, NoMemory>
    ensures { IfOk result (λ text. text.items ≡ canonical program.now) }
{
    let mut to = Writer::new(alloc);
    write_first_line(&mut to, program.version)?;
    write_functions(&mut to, program.functions.as_slice())?;
    Ok(to.into_text())
}
