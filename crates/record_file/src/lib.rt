//! Records that anyone can check: whether a record is right for a program, its input, the limits and the host functions.
#![tactic(auto)]

mod asked;
mod by_number;
mod clauses;
mod counters;
mod family;
mod feed;
mod fitting;
mod good_merge;
mod joins;
mod legal;
mod logs;
mod merge;
mod numbers;
mod order;
mod reached;
mod run;
mod same;
mod written;

pub use clauses::{Checked, Clause, check};
pub use record_text::{RecordFault, read_record, write_record};
pub use written::is_read_again;
