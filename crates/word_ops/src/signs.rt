//! Words read as signed numbers: a sign and a magnitude.
ghost use Rattle.std.specs.Prelude.{◌≡◌, ◌<◌, ◌≢◌};
ghost use Rattle.ir_ast.specs.Arithmetic.{is_negative, magnitude, shifted_right, signed_rank, signed_word};
ghost use Rattle.ir_ast.specs.Words.{modulus, bits};

use crate::widths::{cut, greatest};
use ir_ast::Width;

/// Whether the word's highest bit is set.
pub(crate) fn negative(width: Width, word: u64) -> bool
    requires { word < modulus width }
    ensures { result ≡ is_negative (bits width) word }
{
    word > greatest(width) / 2
}

/// How far the signed number is from 0.
pub(crate) fn distance_from_zero(width: Width, word: u64) -> u64
    requires { word < modulus width }
    ensures value { result ≡ magnitude (bits width) word }
    ensures word { result < modulus width }
    ensures nonzero { word ≢ 0 → result ≢ 0 }
{
    if negative(width, word) {
        greatest(width) - word + 1
    } else {
        word
    }
}

/// The word of the signed number that is so far from 0, below it or above it.
pub(crate) fn with_sign(width: Width, below_zero: bool, distance: u64) -> u64
    requires { distance < modulus width }
    ensures value { result ≡ signed_word (bits width) below_zero distance }
    ensures word { result < modulus width }
{
    if below_zero {
        cut(width, distance.wrapping_neg())
    } else {
        distance
    }
}

/// A number that grows with the word's signed value.
pub(crate) fn rank(width: Width, word: u64) -> u64
    requires { word < modulus width }
    ensures { result ≡ signed_rank (bits width) word }
{
    cut(width, word.wrapping_add(greatest(width) / 2 + 1))
}

/// The word shifted to the right, with copies of its highest bit moved in.
pub(crate) fn shifted_with_sign(width: Width, word: u64, by: u32) -> u64
    requires word { word < modulus width }
    requires within { by < bits width }
    ensures value { result ≡ shifted_right (bits width) word by }
    ensures word { result < modulus width }
{
    if negative(width, word) {
        greatest(width) - ((greatest(width) - word) >> by)
    } else {
        word >> by
    }
}
