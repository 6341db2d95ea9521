//! A program of any size, made from a number.
#![tactic(auto)]

mod insts;
mod laws;
mod program;

pub use laws::{made_instructions, made_is_accepted, made_is_program};
pub use program::make;
