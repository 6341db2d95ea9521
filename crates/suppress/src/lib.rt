//! Rules that hold back reports of violations: how a file writes them, which violations they hold, and the report of
//! a run without those.
#![tactic(auto)]

mod case;
mod hold;
mod laws;
mod line;
mod place;
mod read;
mod rules;
mod text;

pub use case::{Case, Cause, case_of};
pub use hold::{Hold, Holder};
pub use laws::reading_is_one;
pub use read::{RulesFault, read_rules};
pub use rules::{Rule, Rules, holds};
pub use text::{held_status, held_text};
