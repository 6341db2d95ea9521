//! Data races between the steps of a run.
#![tactic(auto)]

mod access;
mod clocks;
mod first;
mod found;
mod key;
mod laws;
mod race;
mod slots;
mod text;
mod tracked;
mod uses;

pub use first::races;
pub use laws::first_races_are_one;
pub use race::Race;
pub use text::{race_status, race_text};
