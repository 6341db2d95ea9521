//! The report of a run: what its threads printed, the first violation on each allocation, how each
//! thread ended, a summary, and the status.
#![tactic(auto)]

mod counts;
mod end;
mod prints;
mod step;
mod text;
mod violation;
mod words;

pub use counts::{make_count, step_count};
pub use text::{part, status_of, text_of};
pub use violation::{violation_line, what};
pub use words::perm_name;
