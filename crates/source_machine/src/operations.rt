//! What instructions do.
ghost use Rattle.std.specs.Prelude.{◌≡◌, ℕ, Some, nat_lt, true};
ghost use Rattle.source_sem.specs.Env as env;
ghost use Rattle.thread_parts.specs.Parts as parts;
ghost use Rattle.ir_ast.specs.Attributes.{attr_of_call};
ghost use Rattle.ir_ast.specs.Numbers.{function_place};
ghost use Rattle.source_sem.specs.Source.{Setting, op_part};
ghost use Rattle.ir_rules.specs.Families.{IsCalling, IsMemoryOp};
ghost use Rattle.source_machine.specs.Families.{IsComputing};
ghost use Rattle.source_machine.specs.Parts.{access_in, part_in};

use crate::operands::{
    chosen, compared, converted, cut, cut_at, input_at, moved, nth_word, operand, plain,
};
use crate::part::{Access, Part, Step};
use crate::registers::{BLANK, Registers};
use crate::text::Text;
use history::{Arg, Trap};
use ir_ast::{BinaryOp, Named, Op, Place, Ty, TypedVal, Width, most_size_of};
use perm_table::RetagKind;
use word_ops::{WordTrap, binary};

/// A Make, or the trap of its size.
fn make_part<'p>(version: u8, place: Place, size: Arg) -> Part<'p>
    ensures { (e : env.Env) → part_in e result ≡ parts.make_part version place size }
{
    if size.value == 0 || size.value > u64::from(most_size_of(version)) {
        return Part::Fails(Trap::BadSize);
    }
    Part::Steps(Step::Makes(size.value as u32, place))
}

/// An arithmetic operation, or its trap.
#[tactic(auto, using(crate::proofs::Words::binary_steps))]
fn binary_part<'p>(op: BinaryOp, width: Width, a: Arg, b: Arg) -> Part<'p>
    ensures { (e : env.Env) → part_in e result ≡ parts.binary_part op width a b }
{
    match binary(op, width, cut(width, a.value), cut(width, b.value)) {
        Ok(word) => Part::Gives(Some(plain(word))),
        Err(WordTrap::DivZero) => Part::Fails(Trap::DivZero),
        Err(WordTrap::ShiftTooFar) => Part::Fails(Trap::ShiftTooFar),
    }
}

/// A retag, or a copy of the pointer where it is of 0 bytes.
fn retag_part<'p>(pointer: Arg, kind: RetagKind, size: u32) -> Part<'p>
    ensures { (e : env.Env) → part_in e result ≡ parts.retag_part (parts.makes_step true size) pointer kind size }
{
    if size == 0 {
        return Part::Gives(Some(pointer));
    }
    Part::Retags(pointer, kind, size)
}

/// A copy, or a local turn where it is of 0 bytes.
fn copy_part<'p>(to: Arg, from: Arg, len: Arg) -> Part<'p>
    ensures { (e : env.Env) → part_in e result ≡ parts.copy_part to from len }
{
    if len.value == 0 {
        return Part::Gives(None);
    }
    Part::Copies(to, from, len.value)
}

/// An access through the pointer in a register.
fn access_part<'p>(registers: &Registers, pointer: &Named, access: Access) -> Part<'p>
    ensures { (e : env.Env) → part_in e result ≡ parts.Steps (parts.Accesses (env.value_in registers.now.env pointer.now.name) (access_in access)) }
{
    let pointer = registers.get(pointer.name.as_slice());
    Part::Steps(Step::Accesses(pointer, access))
}

/// A call, or the trap of the frame that is one too many.
fn call_part<'p>(
    text: &Text,
    depth: usize,
    ty: Option<Ty>,
    function: &Named,
    args: &'p [TypedVal],
) -> Part<'p>
    ensures { (e : env.Env) → part_in e result ≡ parts.call_part (nat_lt depth 1024) (function_place text.now.program.functions function.now.name) (env.args_of e args.now) ty (attr_of_call text.now.program.functions function.now.name) }
{
    if depth < 1024 {
        let name = function.name.as_slice();
        Part::Calls(text.function_number(name), args, ty, text.result_attr(name))
    } else {
        Part::Fails(Trap::DepthLimit)
    }
}

/// The value that an operation gives which computes one.
fn value_of(text: &Text, registers: &Registers, op: &Op) -> Arg
    requires { IsComputing op.now }
    ensures { (function depth : ℕ) → parts.Gives (Some result) ≡ op_part text.now function depth registers.now.env op.now }
{
    match op {
        Op::Const { width, value } => plain(cut(*width, *value)),
        Op::Gep { ptr, add } => moved(registers.get(ptr.name.as_slice()), operand(registers, add)),
        Op::Compare { cond, ty, a, b } => {
            compared(*cond, *ty, operand(registers, a), operand(registers, b))
        }
        Op::Select { ty, cond, a, b } => {
            let cond = operand(registers, cond).value;
            let value = chosen(cond, operand(registers, a), operand(registers, b));
            cut_at(*ty, value)
        }
        Op::Cast {
            op,
            from,
            to,
            val,
            ..
        } => converted(*op, *from, *to, operand(registers, val)),
        Op::PtrToInt { ptr } => plain(registers.get(ptr.name.as_slice()).value),
        Op::Input { index } => input_at(text.input(), operand(registers, index)),
        _ => BLANK,
    }
}

/// What an operation on an allocation does.
fn memory_part<'p>(version: u8, registers: &Registers, op: &'p Op) -> Part<'p>
    requires { IsMemoryOp op.now }
    ensures { (x : Setting) (function depth : ℕ) → x.tracked ≡ true → x.program.version ≡ version → part_in registers.now.env result ≡ op_part x function depth registers.now.env op.now }
{
    match op {
        Op::Make { place, size } => make_part(version, *place, operand(registers, size)),
        Op::Load { ty, ptr } => access_part(registers, ptr, Access::Loads(*ty)),
        Op::Store { ty, val, ptr } => {
            access_part(registers, ptr, Access::Stores(*ty, operand(registers, val)))
        }
        Op::Retag { kind, ptr, size } => {
            retag_part(registers.get(ptr.name.as_slice()), *kind, *size)
        }
        Op::Modify {
            op,
            width,
            ptr,
            val,
        } => {
            let value = operand(registers, val).value;
            access_part(registers, ptr, Access::Modifies(*width, *op, value))
        }
        Op::CmpXchg {
            width,
            ptr,
            expected,
            val,
        } => {
            let expected = operand(registers, expected).value;
            let value = operand(registers, val).value;
            access_part(registers, ptr, Access::Compares(*width, expected, value))
        }
        Op::Copy { to, from, len } => {
            let to = registers.get(to.name.as_slice());
            let from = registers.get(from.name.as_slice());
            copy_part(to, from, operand(registers, len))
        }
        Op::Free { ptr } => access_part(registers, ptr, Access::Frees),
        _ => unreachable!(),
    }
}

/// What a call, a spawn, a join or an operation of the host does, in the function of this number, as one of so many
/// frames.
fn calling_part<'p>(
    text: &Text,
    function: u32,
    depth: usize,
    registers: &Registers,
    op: &'p Op,
) -> Part<'p>
    requires { IsCalling op.now }
    ensures { part_in registers.now.env result ≡ op_part text.now function depth registers.now.env op.now }
{
    match op {
        Op::Call {
            result,
            function,
            args,
        } => call_part(text, depth, *result, function, args.as_slice()),
        Op::Host { host, args, .. } => {
            let number = text.host_number(host.name.as_slice());
            let first = nth_word(registers, args.as_slice(), 0);
            let second = nth_word(registers, args.as_slice(), 1);
            Part::Steps(Step::Hosts(number, first, second))
        }
        Op::Spawn { function, args } => {
            let number = text.function_number(function.name.as_slice());
            Part::Steps(Step::Spawns(number, args.as_slice()))
        }
        Op::Join { result, handle, .. } => {
            let name = handle.name.as_slice();
            let child = (registers.get(name).value % 0x1_0000_0000) as u32;
            Part::Joins(child, *result, text.handle_attr(function, name))
        }
        _ => unreachable!(),
    }
}

/// What an operation of the function of this number does, as one of so many frames.
pub fn part_of<'p>(
    text: &Text,
    function: u32,
    depth: usize,
    registers: &Registers,
    op: &'p Op,
) -> Part<'p>
    requires { text.now.tracked ≡ true }
    ensures { part_in registers.now.env result ≡ op_part text.now function depth registers.now.env op.now }
{
    match op {
        Op::Const { .. }
        | Op::Null
        | Op::Gep { .. }
        | Op::Compare { .. }
        | Op::Select { .. }
        | Op::Cast { .. }
        | Op::PtrToInt { .. }
        | Op::Input { .. } => Part::Gives(Some(value_of(text, registers, op))),
        Op::Binary { op, width, a, b } => {
            binary_part(*op, *width, operand(registers, a), operand(registers, b))
        }
        Op::Print { width, val } => {
            Part::Steps(Step::Prints(cut(*width, operand(registers, val).value)))
        }
        Op::Make { .. }
        | Op::Load { .. }
        | Op::Store { .. }
        | Op::Retag { .. }
        | Op::Modify { .. }
        | Op::CmpXchg { .. }
        | Op::Copy { .. }
        | Op::Free { .. } => memory_part(text.version(), registers, op),
        Op::Call { .. } | Op::Host { .. } | Op::Spawn { .. } | Op::Join { .. } => {
            calling_part(text, function, depth, registers, op)
        }
    }
}
