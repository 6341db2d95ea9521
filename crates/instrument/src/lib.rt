//! The instrumentation pass: from a verified program to target code.
#![tactic(auto)]

mod arguments;
mod by_name;
mod functions;
mod laws;
mod names;
mod operands;
mod operations;
mod pass;
mod scope;

pub use laws::translation_is_formed;
pub use pass::instrument;
