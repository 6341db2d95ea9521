//! What a node keeps.
use bsan_ids::{ListOf, Tag};
use perm_table::{Guard, Perm};
use range_map::RangeMap;

/// The date of an access, and that of a write.
#[derive(Clone, Copy, Debug, PartialEq, Eq)]
pub struct Dates {
    pub access: u64,
    pub write: u64,
}

/// What a node keeps for a run of bytes: a state, whether it has accessed them, and the dates up to
/// which that state has met accesses and writes.
#[derive(Clone, Copy, Debug, PartialEq, Eq)]
pub struct Slot {
    pub perm: Perm,
    pub accessed: bool,
    pub met: Dates,
}

/// A node but the root, which isn't stored. A place names a node: 0 the root, and from 1 on the stored
/// ones.
#[derive(Drop)]
pub struct Node {
    pub tag: Tag,
    pub parent: usize,
    /// Whether a node was added below it.
    pub has_child: bool,
    pub guard: Guard,
    /// The dates of the ends of its protector, which the nodes below it don't meet.
    pub ends: ListOf<u64>,
    pub runs: RangeMap<Slot>,
}
