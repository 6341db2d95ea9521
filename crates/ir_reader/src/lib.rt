//! Reads a program from its text.
//!
//! The tokens of the text are read from left to right, with one token of look-ahead. Each function answers what a reader
//! of `specs/` gives, and is named after the part of a program that it reads.
#![tactic(auto)]

mod blocks;
mod fault;
mod insts;
mod keywords;
mod laws;
mod leaves;
mod marks;
mod numbers;
mod operations;
mod params;
mod programs;
mod stop;
mod tables;
mod texts;
mod values;

pub use fault::ReadFault;
pub use laws::{one_answer, reads_canonical, reads_programs};
pub use texts::read;
