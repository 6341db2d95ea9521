//! The intermediate representation of LLVM as data, as its text writes it.
//!
//! One file for each part of the grammar: types, constants, instructions, functions, metadata, and the module of them all.
//! A name is a [`Span`](bsan_ids::Span) of the text, with its sign (`%`, `@`, `$`, `#`, `!`) and its quotes, as the text has it.
//! A named type is a number: its place among the module's.
//! An `at` is the place of a token: the offset of its first byte in the text.
#![tactic(auto)]

mod attributes;
mod constants;
mod functions;
mod instructions;
mod metadata;
mod module;
mod types;

pub use attributes::{Attribute, AttributeValue};
pub use constants::{CastOp, Integer, Typed, Value};
pub use functions::{Block, Function, Parameter};
pub use instructions::{
    Argument, BinaryOp, Case, Condition, Incoming, Instruction, ModifyOp, Operation, Ordering,
};
pub use metadata::{Attachment, Field, FieldValue, Node};
pub use module::{Alias, AttributeGroup, Global, Module, NamedType, Setting};
pub use types::{FloatKind, Type};
