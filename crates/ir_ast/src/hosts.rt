//! The functions of the host that a program may call.
use bsan_ids::{ListOf, Name};

/// What a host function answers. A missing argument counts as 0.
#[derive(Clone, Copy, Debug, PartialEq, Eq)]
pub enum HostRule {
    /// The smaller of two unsigned words.
    Min,
    /// The greater of two unsigned words.
    Max,
    /// The number of one bits of the first word.
    Popcount,
    /// The first word with its eight bytes reversed.
    ByteSwap,
    /// Any word.
    Any,
}

/// A host function: its name, its number of arguments and its rule.
#[derive(Drop)]
pub struct HostEntry {
    pub name: Name,
    pub arity: u8,
    pub rule: HostRule,
}

/// The host functions that a program may name.
#[derive(Drop)]
pub struct HostTable {
    pub entries: ListOf<HostEntry>,
}
