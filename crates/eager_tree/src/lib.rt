//! One tree of tags for an allocation, with a state for each node and each byte.
//!
//! A pointer's tag names a node. An access through a tag is local to that node and its ancestors
//! and foreign to every other node, and the permission table says what it makes of each state.
#![tactic(auto)]

mod laws;
mod node;
mod sweep;
#[cfg(test)]
mod tests;
mod tree;
mod violation;

pub use laws::path_by_parents;
pub use tree::EagerTree;
pub use violation::Violation;
