//! The verifier: a program in which no rule is broken, or the first rule that is.
#![tactic(auto)]

mod calls;
mod functions;
mod laws;
mod names;
mod programs;
mod refusal;
mod targets;
mod twice;
mod types;
mod verifier;

pub use ir_rules::{Rule, Verified};
pub use laws::{joins_find_handles, uses_are_assigned};
pub use refusal::VerifyFault;
pub use verifier::verify;
