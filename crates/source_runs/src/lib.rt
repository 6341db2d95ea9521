//! Runs of source threads over allocations: what their separate logs make together, and what threads of
//! accepted programs hold, join and return.
#![tactic(auto)]

pub mod laws;
