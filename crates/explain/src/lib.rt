//! Which steps led to the first violation on each allocation: the step that made the node which the
//! violation names, and the last step that changed the node's state there.
#![tactic(auto)]

mod causes;
mod explained;
mod last_change;
mod laws;
mod replay;
mod text;

pub use causes::explain;
pub use explained::Explained;
pub use laws::{changers_are_one, violations_name_the_state_left};
pub use text::explain_text;
