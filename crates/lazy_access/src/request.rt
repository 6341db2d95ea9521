//! What is asked of a tree.
use bsan_ids::{Span, Tag};
use perm_table::{Guard, Kind, RetagKind};

/// A step for which a tree is to be made ready. The tag of a new node is no part of it.
#[derive(Clone, Copy, Debug, PartialEq, Eq)]
pub enum TreeRequest {
    /// An access through a node.
    Access {
        tag: Tag,
        span: Span,
        kind: Kind,
    },
    /// A new child of a node, after a read through the node.
    Retag {
        parent: Tag,
        span: Span,
        kind: RetagKind,
        guard: Guard,
    },
    /// The end of a node's protector.
    EndProtector {
        tag: Tag,
    },
    /// The free of the allocation through a node.
    FreeAll {
        tag: Tag,
    },
}
