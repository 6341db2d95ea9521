//! The text of a run's record: how it is written, and how it is read.
#![tactic(auto)]

mod cut;
mod fields;
mod keys;
mod laws;
mod line;
mod lines;
mod logs;
mod names;
mod numbers;
mod pieces;
mod record;
mod replies;
mod requests;
mod state;
mod stop;
mod tables;
mod write;

pub use laws::reading_is_one;
pub use logs::logs_from;
pub use record::{RecordFault, read_record};
pub use write::write_record;
