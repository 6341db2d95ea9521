//! Laws of a new node in a dated tree, which is that of the eager tree for which it stands.
#![tactic(auto)]

mod laws;

pub use laws::{new_nodes_are_the_eager_trees, new_nodes_keep_trees_sound};
