//! Turns, draws and desks: a table of atomic words and slots under one rule.
#![tactic(auto)]

mod desk;
mod ends;
mod laws;
mod rule;
mod turns;
mod view;

pub use desk::Desk;
pub use laws::{
    desk_by_example, desks_differ, free_slots_are_whole, no_draw_wraps, weights_tell_histories,
};
pub use rule::TurnRule;
pub use turns::{GREATEST_ALLOC, GREATEST_STAMP, GREATEST_THREAD, Turns};
pub use view::{Drawn, HeldTurn, View};
