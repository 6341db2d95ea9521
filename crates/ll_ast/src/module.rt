//! Modules.
use crate::attributes::Attribute;
use crate::constants::{Typed, Value};
use crate::functions::Function;
use crate::metadata::{Attachment, Node};
use crate::types::Type;
use bsan_ids::Span;

/// What the text says of itself, as `target triple = ".."`: its words, and the string with its quotes.
#[derive(Clone, Copy, Debug, PartialEq, Eq)]
pub struct Setting {
    pub name: Span,
    pub value: Span,
}

/// A type's name, with `%`, and what it names: `Opaque` if the text says no more than the name.
#[derive(Drop)]
pub struct NamedType {
    pub name: Span,
    pub ty: Type,
}

/// A global variable or constant. What stands before its kind (linkage and the like) is `before`, and what follows the
/// value (section, alignment) is `attributes`.
#[derive(Drop)]
pub struct Global {
    pub name: Span,
    pub at: u32,
    pub before: Vec<Attribute>,
    pub constant: bool,
    pub ty: Type,
    pub value: Option<Value>,
    pub attributes: Vec<Attribute>,
    pub attachments: Vec<Attachment>,
}

/// Another name of a value.
#[derive(Drop)]
pub struct Alias {
    pub name: Span,
    pub at: u32,
    pub before: Vec<Attribute>,
    pub ty: Type,
    pub of: Typed,
}

/// A group of attributes, by its name with `#`.
#[derive(Drop)]
pub struct AttributeGroup {
    pub name: Span,
    pub attributes: Vec<Attribute>,
}

/// A module: all that its text says, each kind in the order of the text.
#[derive(Drop)]
pub struct Module {
    pub settings: Vec<Setting>,
    pub types: Vec<NamedType>,
    pub globals: Vec<Global>,
    pub aliases: Vec<Alias>,
    pub functions: Vec<Function>,
    pub groups: Vec<AttributeGroup>,
    pub nodes: Vec<Node>,
}
