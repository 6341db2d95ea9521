//! Attributes of functions, parameters, results and globals.
use crate::types::Type;
use bsan_ids::Span;

/// What an attribute has beside its name.
#[derive(Drop)]
pub enum AttributeValue {
    Nothing,
    /// A number, as in `align 8` and `dereferenceable(8)`.
    Number(u64),
    /// A type, as in `sret(T)`.
    Of(Type),
    /// A string with its quotes, as in `"target-cpu"="x86-64"`.
    Text(Span),
    /// What stands between the brackets, as it is written, as in `captures(none)`.
    Words(Span),
}

/// An attribute, or a reference to a group of them: then its name is that of the group, with `#`.
#[derive(Drop)]
pub struct Attribute {
    pub name: Span,
    pub value: AttributeValue,
}
