//! Functions and their blocks.
use crate::attributes::Attribute;
use crate::instructions::Instruction;
use crate::metadata::Attachment;
use crate::types::Type;
use bsan_ids::Span;

/// A parameter. One without a name is a local by its number.
#[derive(Drop)]
pub struct Parameter {
    pub ty: Type,
    pub attributes: Vec<Attribute>,
    pub name: Option<Span>,
}

/// A block. One without a label is a local by its number.
#[derive(Drop)]
pub struct Block {
    pub label: Option<Span>,
    pub at: u32,
    pub instructions: Vec<Instruction>,
}

/// A function: one with a body, or one that is only declared. What stands before the result's type (linkage,
/// visibility, calling convention and the attributes of the result) is `before`, and what stands behind the parameters is
/// `attributes`.
#[derive(Drop)]
pub struct Function {
    pub name: Span,
    pub at: u32,
    pub before: Vec<Attribute>,
    pub output: Type,
    pub parameters: Vec<Parameter>,
    pub variadic: bool,
    pub attributes: Vec<Attribute>,
    pub attachments: Vec<Attachment>,
    pub body: Option<Vec<Block>>,
}
