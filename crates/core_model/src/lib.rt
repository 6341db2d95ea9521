//! The run of all threads of a program on one native thread, in the order that a schedule picks.
#![tactic(auto)]

mod fiber;
mod main_thread;
mod plays;
mod run;
mod step;

pub use main_thread::main_machine;
pub use plays::replay;
