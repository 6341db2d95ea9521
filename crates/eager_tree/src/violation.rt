//! Why a step breaks the aliasing rules.
use bsan_ids::Tag;
use perm_table::Perm;

/// Why a step on an allocation breaks the aliasing rules.
#[derive(Clone, Copy, Debug, PartialEq, Eq)]
pub enum Violation {
    /// The node's state denies the access at this byte. `local` says that the access went through
    /// the node or a descendant of it.
    Denied {
        offset: u32,
        node: Tag,
        perm: Perm,
        local: bool,
    },
    /// A free while a strongly guarded node has accessed this byte.
    StrongFree {
        offset: u32,
        node: Tag,
        perm: Perm,
    },
    /// The pointer has no provenance, or one of which the allocation's tree has no node.
    Stranger,
    /// A retag of a freed allocation.
    Freed,
    /// A retag of bytes past the allocation's end.
    OutOfRange,
}
