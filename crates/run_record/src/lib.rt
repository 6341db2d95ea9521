//! The record of a run: each thread's log, each allocation's log, and how many numbers were drawn;
//! and a thread's log with those of all threads below it.
#![tactic(auto)]

mod tree;

pub use history::{AllocLog, End, RunRecord, ThreadLog};
pub use tree::ThreadTree;
