//! Readers that look one token ahead: how they are put together, and what each of them reads and refuses.
#![tactic(auto)]

mod laws;

pub use laws::canonical_is_cut;

/// Why a list of tokens is refused at a token, or at its end.
#[derive(Clone, Copy, Debug, PartialEq, Eq)]
pub enum Cause {
    /// The token goes on to nothing, or the end comes too early.
    Unexpected,
    /// The number is above the greatest of its place.
    NumberTooLarge,
    /// One more than can be counted.
    TooLarge,
}
