//! The functions of the host: their table, and the closure that answers for them.
#![tactic(auto)]

mod hosts;
mod standard;

pub use hosts::Hosts;
pub use standard::{standard_answer, standard_table};
