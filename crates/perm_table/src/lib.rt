//! What a node of an allocation's tree may do with a byte, and what an access makes of that.
#![tactic(auto)]

mod table;

pub use table::{start, step};

/// What a node may still do with a byte.
#[derive(Clone, Copy, Debug, PartialEq, Eq)]
pub enum Perm {
    /// May be read, and becomes Unique by a write. A foreign read makes it Conflicted under a guard,
    /// and a foreign write Disabled.
    Reserved,
    /// As Reserved, after a foreign read under a guard, which forbids a write while it lasts.
    Conflicted,
    /// As Reserved, but every foreign access leaves it as it is.
    CellReserved,
    /// May be read and written. A foreign read makes it Frozen, or Disabled under a guard, and a
    /// foreign write Disabled.
    Unique,
    /// May be read alone. A foreign write makes it Disabled.
    Frozen,
    /// May be neither read nor written, for good.
    Disabled,
    /// May be read and written, and no access changes it.
    Cell,
}

/// What guards a node while the function runs that was handed its pointer.
#[derive(Clone, Copy, Debug, PartialEq, Eq)]
pub enum Guard {
    /// No guard.
    Free,
    /// No foreign access may disable a byte that the node has accessed. A free through the node is
    /// allowed.
    Weak,
    /// As Weak, but the allocation may not be freed at all once the node has accessed a byte.
    Strong,
}

/// The kind of an access.
#[derive(Clone, Copy, Debug, PartialEq, Eq)]
pub enum Kind {
    /// The bytes are read.
    Read,
    /// The bytes may be written, or the allocation is freed.
    Write,
}

/// The kind of a reborrow.
#[derive(Clone, Copy, Debug, PartialEq, Eq)]
pub enum RetagKind {
    /// A mutable reference.
    Mut,
    /// A mutable reference to data with interior mutability (`Cell`).
    Cell,
    /// A shared reference, through which nothing is written.
    Shr,
    /// An owning pointer (`Box`).
    Boxed,
    /// A shared reference to data with interior mutability.
    ShrCell,
}

/// What an access makes of one node's state at one byte.
#[derive(Clone, Copy, Debug, PartialEq, Eq)]
pub enum Outcome {
    Next { perm: Perm, accessed: bool },
    Denied,
}
