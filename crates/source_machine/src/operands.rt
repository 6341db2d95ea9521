//! Operands, words at their types, and local values.
ghost use Rattle.std.specs.Prelude.{◌≡◌, ◌+◌, ◌%◌, ◌^◌, ◌<◌, slice_get, unwrap_or};
ghost use Rattle.ir_ast.specs.Words.{modulus};
ghost use Rattle.ir_ast.specs.Words as widths;
ghost use Rattle.source_sem.specs.Env as env;
ghost use Rattle.thread_parts.specs.Words as words;
ghost use Rattle.ir_ast.specs.Words.{bits};
ghost use Rattle.thread_parts.specs.Parts as parts;
ghost use Rattle.thread_parts.specs.Parts.{nth_value};

use crate::items::item;
use crate::registers::{BLANK, Registers};
use history::Arg;
use ir_ast::{CastOp, Cond, Ty, TypedVal, Val, Width};
use word_ops::{cast, compare};

/// The lowest bits of a word, as many as the width has.
pub fn cut(width: Width, word: u64) -> u64
    ensures value { result ≡ word % 2 ^ bits width }
    ensures below { result < modulus width }
{
    match width {
        Width::W8 => word % 0x100,
        Width::W16 => word % 0x1_0000,
        Width::W32 => word % 0x1_0000_0000,
        Width::W64 => word,
    }
}

/// The width of a word of this type.
pub fn width_of(ty: Ty) -> Width
    ensures { bits result ≡ widths.word_bits ty }
{
    match ty {
        Ty::Int(width) => width,
        Ty::Ptr => Width::W64,
    }
}

/// A word without provenance.
pub fn plain(value: u64) -> Arg
    ensures { result ≡ words.plain_arg value }
{
    Arg { value, prov: None }
}

/// A value at a type: only a pointer has a provenance.
pub fn at_type(ty: Ty, value: Arg) -> Arg
    ensures { result ≡ words.arg_at ty value }
{
    match ty {
        Ty::Int(_) => plain(value.value),
        Ty::Ptr => value,
    }
}

/// A value at a type, its word cut to the type's width: only a pointer has a provenance.
pub fn cut_at(ty: Ty, value: Arg) -> Arg
    ensures { result ≡ words.cut_at ty value }
{
    let word = cut(width_of(ty), value.value);
    at_type(
        ty,
        Arg {
            value: word,
            prov: value.prov,
        },
    )
}

/// What an operand holds.
pub fn operand(registers: &Registers, val: &Val) -> Arg
    ensures { result ≡ env.operand registers.now.env val.now }
{
    match val {
        Val::Reg(register) => registers.get(register.name.as_slice()),
        Val::Num(value) => plain(*value),
    }
}

/// What an argument hands over.
pub fn argument(registers: &Registers, arg: &TypedVal) -> Arg
    ensures { result ≡ env.arg_of registers.now.env arg.now }
{
    at_type(arg.ty, operand(registers, &arg.val))
}

/// The word of an argument, and 0 where there is none.
#[tactic(auto, using(crate::proofs::Words::nth_steps))]
pub fn nth_word(registers: &Registers, args: &[TypedVal], at: usize) -> u64
    ensures { result ≡ nth_value (env.args_of registers.now.env args.now) at }
{
    match item(args, at) {
        Some(arg) => argument(registers, arg).value,
        None => 0,
    }
}

/// A pointer moved by so many bytes.
pub fn moved(pointer: Arg, by: Arg) -> Arg
    ensures { result ≡ parts.moved pointer by }
{
    Arg {
        value: pointer.value.wrapping_add(by.value),
        prov: pointer.prov,
    }
}

/// 1 where the comparison holds, and else 0.
pub fn compared(cond: Cond, ty: Ty, a: Arg, b: Arg) -> Arg
    ensures { result ≡ parts.compared cond ty a b }
{
    let width = width_of(ty);
    let holds = compare(cond, width, cut(width, a.value), cut(width, b.value));
    plain(u64::from(holds))
}

/// The first where the word isn't 0, and else the second.
pub fn chosen<T: Drop>(word: u64, first: T, second: T) -> T
    ensures { result ≡ parts.chosen word first second }
{
    if word == 0 { second } else { first }
}

/// A word of one width as one of another.
pub fn converted(op: CastOp, from: Width, to: Width, value: Arg) -> Arg
    ensures { result ≡ parts.cast_arg op from to value }
{
    plain(cast(op, from, to, cut(from, value.value)))
}

/// The byte of the input at a place, and 256 after its end.
pub fn input_at(input: &[u8], place: Arg) -> Arg
    ensures { result ≡ parts.input_arg input.now place }
{
    match input.get(place.value as usize) {
        Some(byte) => plain(u64::from(*byte)),
        None => plain(256),
    }
}
