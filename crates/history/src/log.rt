//! The logs of threads and of allocations.
use crate::entry::Entry;
use crate::trap::Trap;
use bsan_ids::{AllocNo, ListOf, Prov, Stamp, ThreadNo};

/// How a thread ended.
#[derive(Clone, Copy, Debug, PartialEq, Eq)]
pub enum End {
    Returned { value: u64, carried: Option<Prov> },
    Trapped(Trap),
    /// It drew this stamp, which is above the limit.
    StepLimit(Stamp),
    TurnLimit,
    NoMemory,
    /// It joined this thread, which had not returned.
    ChildEnded(ThreadNo),
}

/// The steps of a thread in order, of how many instructions it did the first part, the number of
/// the instruction at which it ended, and its end.
#[derive(Drop)]
pub struct ThreadLog {
    pub number: ThreadNo,
    pub parent: Option<ThreadNo>,
    pub entry_function: u32,
    pub entries: ListOf<Entry>,
    pub instructions: u64,
    pub last: u32,
    pub end: End,
}

/// The steps on an allocation, in the order of their stamps.
#[derive(Drop)]
pub struct AllocLog {
    pub number: AllocNo,
    pub entries: ListOf<Entry>,
}
