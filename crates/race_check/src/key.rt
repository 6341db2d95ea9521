//! The sets of entries for which the clocks keep a vector each.
use bsan_ids::{AllocNo, ThreadNo};

/// A set of entries that go directly before some later entry.
#[derive(Clone, Copy, PartialEq, Eq, PartialOrd, Ord)]
pub enum Key {
    /// The entries of a thread.
    Thread(ThreadNo),
    /// The entries that started a thread.
    Start(ThreadNo),
    /// The atomic entries on an allocation at an offset.
    Place(AllocNo, u32),
}
