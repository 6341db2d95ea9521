//! Operations on words of 8, 16, 32 and 64 bits: arithmetic, comparison, change of width, and what a
//! read-modify-write puts in the place of the old word.
//!
//! A word of w bits is a number below two to the power of w. Where it is read as signed, it is by two's
//! complement.
#![tactic(auto)]

mod laws;
mod operations;
mod signs;
mod widths;

pub use laws::signed_words;
pub use operations::{binary, cast, compare, modify};

/// Why an operation on two words has no answer.
#[derive(Clone, Copy, Debug, PartialEq, Eq)]
pub enum WordTrap {
    /// A division or a remainder by 0.
    DivZero,
    /// A shift by as many bits as the word has, or by more.
    ShiftTooFar,
}
