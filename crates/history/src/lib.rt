//! The requests that threads make, the replies, the entries that record both, and the record of a run.
#![tactic(auto)]

mod ask;
mod copies;
mod entry;
mod equality;
mod examples;
mod log;
mod logged;
mod merge;
mod merged;
mod piece;
mod record;
mod restriction;
mod trap;

pub use ask::{Arg, Ask, MachineEnd};
pub use entry::{Entry, Plain, Reply, Request, Verdict};
pub use examples::{
    exchanges_by_example, protectors_by_example, provenances_by_example, reborrows_by_example,
    traps_by_example,
};
pub use log::{AllocLog, End, ThreadLog};
pub use logged::Logged;
pub use merge::{append_copies, merge_by_stamp, sort_by_stamp};
pub use piece::{Piece, PieceBuffer};
pub use record::RunRecord;
pub use restriction::of_thread;
pub use trap::Trap;
