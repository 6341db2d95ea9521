//! Laws of the end of a protector in a dated tree, which answers as that of the eager tree for which
//! it stands.
#![tactic(auto)]

mod laws;

pub use laws::{
    denied_ends_are_the_eager_trees, guards_go, leaf_ends_are_the_eager_trees,
    noted_ends_are_the_eager_trees, noted_ends_keep_trees_sound, trees_without_a_guard_are_sound,
};
