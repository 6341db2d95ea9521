//! Metadata.
use crate::constants::Integer;
use bsan_ids::Span;

/// Metadata attached to an instruction or a function: its kind, as `!dbg`, and the node, as `!7` or as it is written in
/// place.
#[derive(Clone, Copy, Debug, PartialEq, Eq)]
pub struct Attachment {
    pub kind: Span,
    pub node: Span,
}

/// What a field has.
#[derive(Clone, Copy, Debug, PartialEq, Eq)]
pub enum FieldValue {
    /// A node, with `!`.
    Node(Span),
    /// A string with its quotes.
    Text(Span),
    Number(Integer),
    /// Anything else, as it is written.
    Words(Span),
}

/// A field of a node. Those of a tuple `!{..}` have no names.
#[derive(Clone, Copy, Debug, PartialEq, Eq)]
pub struct Field {
    pub name: Option<Span>,
    pub value: FieldValue,
}

/// A node: its name, as `!7` or `!llvm.ident`, its kind, as `!DILocation` or `!`, and its fields.
#[derive(Drop)]
pub struct Node {
    pub name: Span,
    pub distinct: bool,
    pub kind: Span,
    pub fields: Vec<Field>,
}
