//! A permission tree whose foreign accesses are put off.
//!
//! The tree keeps for each byte the dates of its last access and its last write. A node keeps for each
//! run of bytes a state, with the dates up to which that state has met accesses and writes. What it is
//! now follows from the two. So an access need visit the nodes of its path and the guarded nodes alone.
#![tactic(auto)]

mod access_laws;
mod laws;
mod meet;
mod node;
mod tree;

pub use access_laws::{
    accesses_are_the_eager_trees, accesses_keep_trees_sound, denials_are_the_eager_trees,
    next_dates_are_fresh, others_deny_nothing, paths_by_places,
};
pub use laws::{
    calls_by_example, ends_are_not_seen_below, ends_by_example, foreign_accesses_are_put_off,
    guarded_nodes_meet, met_dates_leave_the_kept_cell, new_dates_are_seen_everywhere,
    new_tree_by_definition, new_trees_are_sound, notes_hide_one_date,
};
pub use meet::is_noted;
pub use node::{Dates, Node, Slot};
pub use tree::DatedTree;
