//! The lines of instructions and terminators.
ghost use Rattle.std.specs.Prelude.{◌≡◌, ◌++◌, ◌∷◌, [], ℕ, List, OnOk};
ghost use Rattle.ir_ast.specs.Tokens.{Each};
ghost use Rattle.ir_ast.specs.Words.{ty_bytes};
ghost use Rattle.perm_table.specs.declared.Guard.TheVariants.{Free};
ghost use Rattle.ir_ast.specs.declared.types.Ty.TheVariants.{Int, Ptr};
ghost use Rattle.ir_ast.specs.declared.program.Jump.TheVariants.{CondBr};
ghost use Rattle.target_code.specs.declared.line.Line.TheVariants as line;
ghost use Rattle.target_code.specs.declared.line.Shadow.TheVariants as shadow;
ghost use Rattle.ir_ast.specs.Attributes.{attr_of_call};
ghost use Rattle.instrument.specs.Translation.{operand_of, shadow_of, operands_of, for_ptr, arg_lines, result_lines, attr_of_join, op_lines, slot_of_dest, ret_lines, jump_lines, written};
ghost use Rattle.instrument.specs.Translation as translation;
ghost use Rattle.instrument.specs.Names.{Numbered, OpNumbered, JumpNumbered, BlockNumbered};
ghost use Rattle.instrument.specs.Lines.{Adds};
ghost use Rattle.ir_rules.specs.Families.{IsMemoryOp, IsCalling};
ghost use Rattle.instrument.specs.Families.{IsComputing};

use crate::arguments::{put_args, put_goal, put_result};
use crate::operands::{operand, operands, put_for_ptr, put_with_shadow, shadow};
use crate::scope::Scope;
use bsan_ids::{ListOf, NoMemory};
use ir_ast::{
    BinaryOp, CastOp, Cond, Goal, Inst, Jump, ModifyOp, Named, Op, Place, Ty, TypedVal, Val, Width,
};
use perm_table::{Guard, RetagKind};
use std::alloc::Global;
use target_code::{Line, Operand, Shadow};

/// The null pointer.
fn put_null(code: &mut ListOf<Line>, slot: u32) -> Result<(), NoMemory>
    ensures { OnOk result (Adds code.old code.new (λ ls. line.Const slot Ptr 0 ∷ line.ShadowMove slot shadow.Nothing ∷ ls)) }
{
    code.push(Line::Const {
        slot,
        ty: Ty::Ptr,
        value: 0,
    })?;
    code.push(Line::ShadowMove {
        shadow: slot,
        from: Shadow::Nothing,
    })
}

/// A pointer moved within its allocation: its provenance stays.
fn put_gep(code: &mut ListOf<Line>, slot: u32, ptr: u32, add: Operand) -> Result<(), NoMemory>
    ensures { OnOk result (Adds code.old code.new (λ ls. line.Gep slot ptr add ∷ line.ShadowMove slot (shadow.Slot ptr) ∷ ls)) }
{
    code.push(Line::Gep { slot, ptr, add })?;
    code.push(Line::ShadowMove {
        shadow: slot,
        from: Shadow::Slot(ptr),
    })
}

fn put_load(code: &mut ListOf<Line>, slot: u32, ty: Ty, ptr: u32) -> Result<(), NoMemory>
    ensures { OnOk result (Adds code.old code.new (λ ls. line.CheckRead ptr ptr (ty_bytes ty) ∷ line.Load slot ty ptr ∷ for_ptr ty (line.Loaded slot) ls)) }
{
    code.push(Line::CheckRead {
        ptr,
        ptr_shadow: ptr,
        bytes: ty.bytes(),
    })?;
    put_with_shadow(
        code,
        ty,
        Line::Load { slot, ty, ptr },
        Line::Loaded { shadow: slot },
    )
}

/// A line that writes so many bytes through the pointer in this slot, after its check.
fn put_write(code: &mut ListOf<Line>, ptr: u32, bytes: u32, write: Line) -> Result<(), NoMemory>
    ensures { OnOk result (Adds code.old code.new (λ ls. line.CheckWrite ptr ptr bytes ∷ write ∷ ls)) }
{
    code.push(Line::CheckWrite {
        ptr,
        ptr_shadow: ptr,
        bytes,
    })?;
    code.push(write)
}

fn put_store(
    code: &mut ListOf<Line>,
    scope: &Scope,
    ty: Ty,
    val: &Val,
    ptr: u32,
) -> Result<(), NoMemory>
    ensures { OnOk result (Adds code.old code.new (λ ls. for_ptr ty (line.Stored (shadow_of scope.now val.now)) (line.CheckWrite ptr ptr (ty_bytes ty) ∷ line.Store ty (operand_of scope.now val.now) ptr ∷ ls))) }
{
    let from = shadow(scope, val);
    let value = operand(scope, val);
    put_for_ptr(code, ty, Line::Stored { from })?;
    put_write(code, ptr, ty.bytes(), Line::Store { ty, value, ptr })
}

fn put_retag(
    code: &mut ListOf<Line>,
    slot: u32,
    kind: RetagKind,
    ptr: u32,
    size: u32,
) -> Result<(), NoMemory>
    ensures { OnOk result (Adds code.old code.new (λ ls. line.Retag slot kind Free ptr ptr size ∷ line.Move slot ptr ∷ ls)) }
{
    code.push(Line::Retag {
        shadow: slot,
        kind,
        guard: Guard::Free,
        ptr,
        ptr_shadow: ptr,
        size,
    })?;
    code.push(Line::Move { slot, from: ptr })
}

fn constant(slot: u32, width: Width, value: u64) -> Line
    ensures { result ≡ line.Const slot (Int width) value }
{
    Line::Const {
        slot,
        ty: Ty::Int(width),
        value,
    }
}

fn make(slot: u32, place: Place, size: Operand) -> Line
    ensures { result ≡ line.Make slot slot place size }
{
    Line::Make {
        slot,
        shadow: slot,
        place,
        size,
    }
}

fn cast(slot: u32, op: CastOp, from: Width, value: Operand, to: Width) -> Line
    ensures { result ≡ line.Cast slot op from value to }
{
    Line::Cast {
        slot,
        op,
        from,
        value,
        to,
    }
}

fn print(width: Width, value: Operand) -> Line
    ensures { result ≡ line.Print width value }
{
    Line::Print { width, value }
}

fn binary(scope: &Scope, slot: u32, op: BinaryOp, width: Width, a: &Val, b: &Val) -> Line
    ensures { result ≡ line.Binary slot op width (operand_of scope.now a.now) (operand_of scope.now b.now) }
{
    Line::Binary {
        slot,
        op,
        width,
        a: operand(scope, a),
        b: operand(scope, b),
    }
}

fn compare(scope: &Scope, slot: u32, cond: Cond, ty: Ty, a: &Val, b: &Val) -> Line
    ensures { result ≡ line.Compare slot cond ty (operand_of scope.now a.now) (operand_of scope.now b.now) }
{
    Line::Compare {
        slot,
        cond,
        ty,
        a: operand(scope, a),
        b: operand(scope, b),
    }
}

fn select(scope: &Scope, slot: u32, ty: Ty, cond: Operand, a: &Val, b: &Val) -> Line
    ensures { result ≡ line.Select slot ty cond (operand_of scope.now a.now) (operand_of scope.now b.now) }
{
    Line::Select {
        slot,
        ty,
        cond,
        a: operand(scope, a),
        b: operand(scope, b),
    }
}

fn shadow_select(scope: &Scope, slot: u32, cond: Operand, a: &Val, b: &Val) -> Line
    ensures { result ≡ line.ShadowSelect slot cond (shadow_of scope.now a.now) (shadow_of scope.now b.now) }
{
    Line::ShadowSelect {
        shadow: slot,
        cond,
        a: shadow(scope, a),
        b: shadow(scope, b),
    }
}

fn modify(scope: &Scope, slot: u32, op: ModifyOp, width: Width, ptr: u32, val: &Val) -> Line
    ensures { result ≡ line.Modify slot op width ptr (operand_of scope.now val.now) }
{
    Line::Modify {
        slot,
        op,
        width,
        ptr,
        value: operand(scope, val),
    }
}

fn cmpxchg(scope: &Scope, slot: u32, width: Width, ptr: u32, expected: &Val, val: &Val) -> Line
    ensures { result ≡ line.CmpXchg slot width ptr (operand_of scope.now expected.now) (operand_of scope.now val.now) }
{
    Line::CmpXchg {
        slot,
        width,
        ptr,
        expected: operand(scope, expected),
        value: operand(scope, val),
    }
}

fn put_copy(code: &mut ListOf<Line>, to: u32, from: u32, len: Operand) -> Result<(), NoMemory>
    ensures { OnOk result (Adds code.old code.new (λ ls. line.CheckCopy to to from from len ∷ line.Copy to from len ∷ ls)) }
{
    code.push(Line::CheckCopy {
        to,
        to_shadow: to,
        from,
        from_shadow: from,
        len,
    })?;
    code.push(Line::Copy { to, from, len })
}

fn put_free(code: &mut ListOf<Line>, ptr: u32) -> Result<(), NoMemory>
    ensures { OnOk result (Adds code.old code.new (λ ls. line.CheckFree ptr ptr ∷ line.Free ptr ∷ ls)) }
{
    code.push(Line::CheckFree {
        ptr,
        ptr_shadow: ptr,
    })?;
    code.push(Line::Free { ptr })
}

fn put_call(
    code: &mut ListOf<Line>,
    scope: &Scope,
    to: Option<u32>,
    ty: Option<Ty>,
    function: &Named,
    args: &[TypedVal],
) -> Result<(), NoMemory>
    requires { Numbered args.now }
    ensures { OnOk result (Adds code.old code.new (λ ls. arg_lines scope.now 0 args.now (line.Call (translation.function_number scope.now function.now) ∷ result_lines to ty (attr_of_call scope.now.functions function.now.name) ls))) }
{
    put_args(code, scope, args)?;
    code.push(Line::Call {
        function: scope.function_number(function),
    })?;
    put_result(code, to, ty, scope.call_attr(function))
}

fn put_spawn(
    code: &mut ListOf<Line>,
    scope: &Scope,
    slot: u32,
    function: &Named,
    handed: &[TypedVal],
) -> Result<(), NoMemory>
    requires { Numbered handed.now }
    ensures { OnOk result (Adds code.old code.new (λ ls. arg_lines scope.now 0 handed.now (line.Spawn slot (translation.function_number scope.now function.now) ∷ ls))) }
{
    put_args(code, scope, handed)?;
    code.push(Line::Spawn {
        slot,
        function: scope.function_number(function),
    })
}

fn put_join(
    code: &mut ListOf<Line>,
    scope: &Scope,
    to: Option<u32>,
    ty: Option<Ty>,
    handle: &Named,
) -> Result<(), NoMemory>
    ensures { OnOk result (Adds code.old code.new (λ ls. line.Join (translation.slot scope.now handle.now) ∷ result_lines to ty (attr_of_join scope.now handle.now) ls)) }
{
    code.push(Line::Join {
        handle: scope.slot(handle),
    })?;
    put_result(code, to, ty, scope.join_attr(handle))
}

fn put_host(
    code: &mut ListOf<Line>,
    slot: u32,
    ty: Ty,
    host: u32,
    args: ListOf<Operand>,
) -> Result<(), NoMemory>
    ensures { OnOk result (Adds code.old code.new (λ ls. line.Host slot host args ∷ for_ptr ty (line.ShadowMove slot shadow.Nothing) ls)) }
{
    put_with_shadow(
        code,
        ty,
        Line::Host { slot, host, args },
        Line::ShadowMove {
            shadow: slot,
            from: Shadow::Nothing,
        },
    )
}

/// An operation that computes a value or prints one, whose result goes to this slot.
fn put_computing(
    code: &mut ListOf<Line>,
    scope: &Scope,
    op: &Op,
    to: Option<u32>,
) -> Result<(), NoMemory>
    requires { IsComputing op.now }
    ensures { OnOk result (Adds code.old code.new (op_lines scope.now op.now to)) }
{
    let slot = to.unwrap_or(0);
    match op {
        Op::Const { width, value } => code.push(constant(slot, *width, *value)),
        Op::Null => put_null(code, slot),
        Op::Gep { ptr, add } => put_gep(code, slot, scope.slot(ptr), operand(scope, add)),
        Op::Binary { op, width, a, b } => code.push(binary(scope, slot, *op, *width, a, b)),
        Op::Compare { cond, ty, a, b } => code.push(compare(scope, slot, *cond, *ty, a, b)),
        Op::Select { ty, cond, a, b } => {
            let cond = operand(scope, cond);
            let line = select(scope, slot, *ty, cond, a, b);
            put_with_shadow(code, *ty, line, shadow_select(scope, slot, cond, a, b))
        }
        Op::Cast {
            op,
            from,
            to,
            val,
            ..
        } => code.push(cast(slot, *op, *from, operand(scope, val), *to)),
        Op::PtrToInt { ptr } => {
            let ptr = scope.slot(ptr);
            code.push(Line::PtrToInt { slot, ptr })
        }
        Op::Input { index } => {
            let index = operand(scope, index);
            code.push(Line::Input { slot, index })
        }
        Op::Print { width, val } => code.push(print(*width, operand(scope, val))),
        _ => Ok(()),
    }
}

/// An operation on an allocation, whose result goes to this slot.
fn put_memory_op(
    code: &mut ListOf<Line>,
    scope: &Scope,
    op: &Op,
    to: Option<u32>,
) -> Result<(), NoMemory>
    requires { IsMemoryOp op.now }
    ensures { OnOk result (Adds code.old code.new (op_lines scope.now op.now to)) }
{
    let slot = to.unwrap_or(0);
    match op {
        Op::Make { place, size } => code.push(make(slot, *place, operand(scope, size))),
        Op::Load { ty, ptr } => put_load(code, slot, *ty, scope.slot(ptr)),
        Op::Store { ty, val, ptr } => put_store(code, scope, *ty, val, scope.slot(ptr)),
        Op::Retag { kind, ptr, size } => put_retag(code, slot, *kind, scope.slot(ptr), *size),
        Op::Modify {
            op,
            width,
            ptr,
            val,
        } => {
            let ptr = scope.slot(ptr);
            let line = modify(scope, slot, *op, *width, ptr, val);
            put_write(code, ptr, width.bytes(), line)
        }
        Op::CmpXchg {
            width,
            ptr,
            expected,
            val,
        } => {
            let ptr = scope.slot(ptr);
            let line = cmpxchg(scope, slot, *width, ptr, expected, val);
            put_write(code, ptr, width.bytes(), line)
        }
        Op::Copy { to, from, len } => put_copy(
            code,
            scope.slot(to),
            scope.slot(from),
            operand(scope, len),
        ),
        Op::Free { ptr } => put_free(code, scope.slot(ptr)),
        _ => Ok(()),
    }
}

/// A call, a spawn or a join, whose result goes to this slot.
fn put_calling(
    alloc: Global,
    code: &mut ListOf<Line>,
    scope: &Scope,
    op: &Op,
    to: Option<u32>,
) -> Result<(), NoMemory>
    requires family { IsCalling op.now }
    requires few { OpNumbered op.now }
    ensures { OnOk result (Adds code.old code.new (op_lines scope.now op.now to)) }
{
    let slot = to.unwrap_or(0);
    match op {
        Op::Call {
            result,
            function,
            args,
        } => put_call(code, scope, to, *result, function, args.as_slice()),
        Op::Host { result, host, args } => {
            let args = operands(alloc, scope, args.as_slice())?;
            put_host(code, slot, *result, scope.host_number(host), args)
        }
        Op::Spawn { function, args } => put_spawn(code, scope, slot, function, args.as_slice()),
        Op::Join { result, handle, .. } => put_join(code, scope, to, *result, handle),
        _ => Ok(()),
    }
}

/// An operation, whose result goes to this slot.
fn put_op(
    alloc: Global,
    code: &mut ListOf<Line>,
    scope: &Scope,
    op: &Op,
    to: Option<u32>,
) -> Result<(), NoMemory>
    requires { OpNumbered op.now }
    ensures { OnOk result (Adds code.old code.new (op_lines scope.now op.now to)) }
{
    match op {
        Op::Const { .. }
        | Op::Null
        | Op::Gep { .. }
        | Op::Binary { .. }
        | Op::Compare { .. }
        | Op::Select { .. }
        | Op::Cast { .. }
        | Op::PtrToInt { .. }
        | Op::Input { .. }
        | Op::Print { .. } => put_computing(code, scope, op, to),
        Op::Make { .. }
        | Op::Load { .. }
        | Op::Store { .. }
        | Op::Retag { .. }
        | Op::Modify { .. }
        | Op::CmpXchg { .. }
        | Op::Copy { .. }
        | Op::Free { .. } => put_memory_op(code, scope, op, to),
        Op::Call { .. } | Op::Host { .. } | Op::Spawn { .. } | Op::Join { .. } => put_calling(
            alloc, code, scope, op, to,
        ),
    }
}

fn slot_of_dest(scope: &Scope, dest: &Option<Named>) -> Option<u32>
    ensures { result ≡ slot_of_dest scope.now dest.now }
{
    match dest {
        Some(register) => Some(scope.slot(register)),
        None => None,
    }
}

/// An instruction, and the beginning of the next one, which has this number.
pub fn put_inst(
    alloc: Global,
    code: &mut ListOf<Line>,
    scope: &Scope,
    inst: &Inst,
    next: u32,
) -> Result<(), NoMemory>
    requires { OpNumbered inst.now.op }
    ensures { OnOk result (Adds code.old code.new (λ ls. op_lines scope.now inst.now.op (slot_of_dest scope.now inst.now.dest) (line.Turn next ∷ ls))) }
{
    put_op(
        alloc,
        code,
        scope,
        &inst.op,
        slot_of_dest(scope, &inst.dest),
    )?;
    code.push(Line::Turn { number: next })
}

/// What a function gives back.
fn put_given(code: &mut ListOf<Line>, scope: &Scope, val: &TypedVal) -> Result<(), NoMemory>
    ensures { OnOk result (Adds code.old code.new (λ ls. line.Result (operand_of scope.now val.now.val) ∷ for_ptr val.now.ty (line.ShadowResult (shadow_of scope.now val.now.val)) ls)) }
{
    put_with_shadow(
        code,
        val.ty,
        Line::Result {
            value: operand(scope, &val.val),
        },
        Line::ShadowResult {
            from: shadow(scope, &val.val),
        },
    )
}

fn put_leaving(code: &mut ListOf<Line>) -> Result<(), NoMemory>
    ensures { OnOk result (code.new ≡ code.old ++ (line.PopFrame ∷ line.Return ∷ [])) }
{
    code.push(Line::PopFrame)?;
    code.push(Line::Return)
}

fn put_ret(code: &mut ListOf<Line>, scope: &Scope, val: &Option<TypedVal>) -> Result<(), NoMemory>
    ensures { OnOk result (code.new ≡ code.old ++ ret_lines scope.now val.now (line.PopFrame ∷ line.Return ∷ [])) }
{
    match val {
        Some(val) => {
            put_given(code, scope, val)?;
            put_leaving(code)
        }
        None => put_leaving(code),
    }
}

/// A jump to one of two blocks.
fn put_cond_br(
    code: &mut ListOf<Line>,
    scope: &Scope,
    cond: &Val,
    first: &Goal,
    second: &Goal,
) -> Result<(), NoMemory>
    requires first { Numbered first.now.args }
    requires second { Numbered second.now.args }
    requires blocks { Each BlockNumbered scope.now.blocks }
    ensures { OnOk result (code.new ≡ code.old ++ jump_lines scope.now (CondBr cond.now first.now second.now)) }
{
    code.push(Line::Branch {
        cond: operand(scope, cond),
    })?;
    put_goal(code, scope, first)?;
    put_goal(code, scope, second)
}

/// A terminator.
pub fn put_jump(code: &mut ListOf<Line>, scope: &Scope, jump: &Jump) -> Result<(), NoMemory>
    requires few { JumpNumbered jump.now }
    requires blocks { Each BlockNumbered scope.now.blocks }
    ensures { OnOk result (code.new ≡ code.old ++ jump_lines scope.now jump.now) }
{
    match jump {
        Jump::Br(goal) => put_goal(code, scope, goal),
        Jump::CondBr { cond, yes, no } => put_cond_br(code, scope, cond, yes, no),
        Jump::Ret { val, .. } => put_ret(code, scope, val),
        Jump::Unreachable => code.push(Line::Unreachable),
    }
}
