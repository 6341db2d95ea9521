//! The verifier's rules, where a function defines and uses registers, what each of them holds, the uses
//! that don't fit it, and a program in which no rule is broken.
#![tactic(auto, using(crate::proofs::Adds::adds_steps))]

mod events;
mod misuse;
mod rule;
mod tables;
mod verified;

pub use events::{Held, Occurrence, Role, function_occurrences, note_block};
pub use misuse::wrong_uses;
pub use rule::{Fault, Rule, Wanted, lesser_fault};
pub use tables::{function_places, host_places, label_places, look_up, registers};
pub use verified::Verified;
