//! What a desk knows. No value of these types is made: they stand in contracts.
use history::Entry;
use std::collections::LinkedList;

/// A turn that is held.
pub struct HeldTurn {
    /// The slot of the turn: the allocation's number less one.
    pub slot: u64,
    /// The entries of the value when it was taken.
    pub taken: LinkedList<Entry>,
    /// The stamps that the desk drew since.
    pub since: LinkedList<u64>,
}

/// The numbers of one kind.
pub struct Drawn {
    /// Those that the desk drew itself.
    pub own: LinkedList<u64>,
    /// Those of the desks joined into it.
    pub joined: LinkedList<u64>,
}

/// What is known of a desk.
pub struct View {
    /// Whether the desk is there: it isn't once it was joined into another one.
    pub live: bool,
    /// Its name, which is a thread's number.
    pub name: u64,
    /// The names of the desks that were split from it and aren't joined back.
    pub outs: LinkedList<u64>,
    /// The names of the desks joined into it.
    pub joined: LinkedList<u64>,
    /// Within a split the name of the desk that it makes, and else 0.
    pub next: u64,
    /// Its stamps.
    pub stamps: Drawn,
    /// Its allocation numbers.
    pub allocs: Drawn,
    /// Its thread numbers.
    pub threads: Drawn,
    /// The greatest stamp that it has seen.
    pub seen: u64,
    /// Its calls, those of the desks joined into it among them.
    pub calls: LinkedList<Entry>,
    /// The calls that it was told of by a split.
    pub told: LinkedList<Entry>,
    /// The turn that it holds.
    pub turn: Option<HeldTurn>,
}
