//! The operations, by operator.
ghost use Rattle.std.specs.Prelude.{◌≡◌, ◌≢◌, ◌<◌, ◌≤◌, ◌↔◌, ℕ, IsTrue, IfOk};
ghost use Rattle.ir_ast.specs.Arithmetic.{Worked, cast_word, holds, worked};
ghost use Rattle.ir_ast.specs.Words.{modified, modulus, bits};
ghost use Rattle.word_ops.specs.Answers.{answer_of, divides, divisor_of, shift_of, shifts};

use crate::WordTrap;
use crate::signs::{distance_from_zero, negative, rank, shifted_with_sign, with_sign};
use crate::widths::{bit_count, cut, greatest};
use ir_ast::{BinaryOp, CastOp, Cond, ModifyOp, Width};

/// What the operation makes of two words of this width: arithmetic modulo two to the power of the
/// bits, where signed division rounds toward 0, and a signed remainder has the sign of `a`. The least
/// signed number divided by minus one is itself, with the remainder 0.
pub fn binary(op: BinaryOp, width: Width, a: u64, b: u64) -> Result<u64, WordTrap>
    requires first { a < modulus width }
    requires second { b < modulus width }
    ensures answer { result ≡ answer_of (worked op (bits width) a b) }
    ensures div_zero { (result ≡ Err WordTrap.DivZero) ↔ (IsTrue (divides op) × (b ≡ 0)) }
    ensures shift_too_far { (result ≡ Err WordTrap.ShiftTooFar) ↔ (IsTrue (shifts op) × (bits width ≤ b)) }
    ensures word { IfOk result (λ n. n < modulus width) }
{
    match op {
        BinaryOp::Add => Ok(cut(width, a.wrapping_add(b))),
        BinaryOp::Sub => Ok(cut(width, a.wrapping_sub(b))),
        BinaryOp::Mul => Ok(cut(width, a.wrapping_mul(b))),
        BinaryOp::Udiv => Ok(a / divisor(b)?),
        BinaryOp::Sdiv => Ok(signed_quotient(width, a, divisor(b)?)),
        BinaryOp::Urem => Ok(a % divisor(b)?),
        BinaryOp::Srem => Ok(signed_remainder(width, a, divisor(b)?)),
        BinaryOp::And => Ok(a & b),
        BinaryOp::Or => Ok(a | b),
        BinaryOp::Xor => Ok(a ^ b),
        BinaryOp::Shl => Ok(cut(width, a << shift(width, b)?)),
        BinaryOp::Lshr => Ok(a >> shift(width, b)?),
        BinaryOp::Ashr => Ok(shifted_with_sign(width, a, shift(width, b)?)),
    }
}

/// The divisor, which isn't 0.
fn divisor(b: u64) -> Result<u64, WordTrap>
    ensures { result ≡ divisor_of b }
{
    if b == 0 {
        return Err(WordTrap::DivZero);
    }
    Ok(b)
}

/// By how many bits to shift, fewer than the word has.
fn shift(width: Width, b: u64) -> Result<u32, WordTrap>
    ensures { result ≡ shift_of (bits width) b }
{
    if b >= u64::from(bit_count(width)) {
        return Err(WordTrap::ShiftTooFar);
    }
    Ok(b as u32)
}

/// The signed quotient, rounded toward 0.
fn signed_quotient(width: Width, a: u64, b: u64) -> u64
    requires first { a < modulus width }
    requires second { b < modulus width }
    requires nonzero { b ≢ 0 }
    ensures value { Worked.word result ≡ worked BinaryOp.Sdiv (bits width) a b }
    ensures word { result < modulus width }
{
    let quotient = distance_from_zero(width, a) / distance_from_zero(width, b);
    with_sign(width, negative(width, a) != negative(width, b), quotient)
}

/// The signed remainder, which has the sign of `a`.
fn signed_remainder(width: Width, a: u64, b: u64) -> u64
    requires first { a < modulus width }
    requires second { b < modulus width }
    requires nonzero { b ≢ 0 }
    ensures value { Worked.word result ≡ worked BinaryOp.Srem (bits width) a b }
    ensures word { result < modulus width }
{
    let remainder = distance_from_zero(width, a) % distance_from_zero(width, b);
    with_sign(width, negative(width, a), remainder)
}

/// Whether the comparison holds between two words of this width.
pub fn compare(cond: Cond, width: Width, a: u64, b: u64) -> bool
    requires first { a < modulus width }
    requires second { b < modulus width }
    ensures { result ≡ holds cond (bits width) a b }
{
    match cond {
        Cond::Eq => a == b,
        Cond::Ne => a != b,
        Cond::Ult => a < b,
        Cond::Ule => a <= b,
        Cond::Ugt => a > b,
        Cond::Uge => a >= b,
        Cond::Slt => rank(width, a) < rank(width, b),
        Cond::Sle => rank(width, a) <= rank(width, b),
        Cond::Sgt => rank(width, a) > rank(width, b),
        Cond::Sge => rank(width, a) >= rank(width, b),
    }
}

/// A word of the width `from` as one of the width `to`: filled up with zeros, or with copies of its
/// highest bit, or cut to its lowest bits. What doesn't fit in `to` is cut in any case.
pub fn cast(op: CastOp, from: Width, to: Width, a: u64) -> u64
    requires { a < modulus from }
    ensures value { result ≡ cast_word op (bits from) (bits to) a }
    ensures word { result < modulus to }
{
    match op {
        CastOp::Sext if negative(from, a) => cut(to, a + (u64::MAX - greatest(from))),
        CastOp::Zext | CastOp::Sext | CastOp::Trunc => cut(to, a),
    }
}

/// What a read-modify-write puts in the place of the old word.
pub fn modify(op: ModifyOp, width: Width, old: u64, value: u64) -> u64
    requires first { old < modulus width }
    requires second { value < modulus width }
    ensures value { result ≡ modified op (modulus width) old value }
    ensures word { result < modulus width }
{
    match op {
        ModifyOp::Add => cut(width, old.wrapping_add(value)),
        ModifyOp::Sub => cut(width, old.wrapping_sub(value)),
        ModifyOp::And => old & value,
        ModifyOp::Or => old | value,
        ModifyOp::Xor => old ^ value,
        ModifyOp::Xchg => value,
        ModifyOp::Umin => old.min(value),
        ModifyOp::Umax => old.max(value),
    }
}
