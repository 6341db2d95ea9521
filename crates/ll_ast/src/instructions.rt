//! Instructions.
use crate::attributes::Attribute;
use crate::constants::{CastOp, Integer, Typed, Value};
use crate::metadata::Attachment;
use crate::types::Type;
use bsan_ids::Span;

/// An operation on two values of one type.
#[derive(Clone, Copy, Debug, PartialEq, Eq)]
pub enum BinaryOp {
    Add,
    Sub,
    Mul,
    UDiv,
    SDiv,
    URem,
    SRem,
    Shl,
    LShr,
    AShr,
    And,
    Or,
    Xor,
}

/// A comparison of two integers or pointers.
#[derive(Clone, Copy, Debug, PartialEq, Eq)]
pub enum Condition {
    Eq,
    Ne,
    Ugt,
    Uge,
    Ult,
    Ule,
    Sgt,
    Sge,
    Slt,
    Sle,
}

/// What `atomicrmw` does.
#[derive(Clone, Copy, Debug, PartialEq, Eq)]
pub enum ModifyOp {
    Xchg,
    Add,
    Sub,
    And,
    Nand,
    Or,
    Xor,
    Max,
    Min,
    UMax,
    UMin,
}

/// The ordering of an atomic access.
#[derive(Clone, Copy, Debug, PartialEq, Eq)]
pub enum Ordering {
    Unordered,
    Monotonic,
    Acquire,
    Release,
    AcqRel,
    SeqCst,
}

/// A case of a `switch`: the number, and the label, with `%`.
#[derive(Clone, Copy, Debug, PartialEq, Eq)]
pub struct Case {
    pub number: Integer,
    pub target: Span,
}

/// What a `phi` takes from an edge: the value, and the label that the edge leaves, with `%`.
#[derive(Drop)]
pub struct Incoming {
    pub value: Value,
    pub from: Span,
}

/// What an instruction does. A label is a name with `%`. An `align` that isn't written is `None`.
#[derive(Drop)]
pub enum Operation {
    Alloca {
        ty: Type,
        count: Option<Typed>,
        align: Option<u64>,
    },
    Load {
        volatile: bool,
        ordering: Option<Ordering>,
        ty: Type,
        pointer: Typed,
        align: Option<u64>,
    },
    Store {
        volatile: bool,
        ordering: Option<Ordering>,
        value: Typed,
        pointer: Typed,
        align: Option<u64>,
    },
    /// The address of a type, from the first value on, by the indices that follow it.
    GetElementPtr {
        ty: Type,
        args: Vec<Typed>,
    },
    Binary {
        op: BinaryOp,
        left: Typed,
        right: Value,
    },
    Compare {
        condition: Condition,
        left: Typed,
        right: Value,
    },
    Cast {
        op: CastOp,
        from: Typed,
        to: Type,
    },
    Select {
        condition: Typed,
        yes: Typed,
        no: Typed,
    },
    Freeze(Typed),
    Jump(Span),
    Branch {
        condition: Typed,
        yes: Span,
        no: Span,
    },
    Switch {
        on: Typed,
        default: Span,
        cases: Vec<Case>,
    },
    Phi {
        ty: Type,
        incoming: Vec<Incoming>,
    },
    /// A call. `ty` is what is written before the callee: the type of the result, or that of the function.
    Call {
        result_attributes: Vec<Attribute>,
        ty: Type,
        callee: Value,
        args: Vec<Argument>,
        attributes: Vec<Attribute>,
    },
    Return(Option<Typed>),
    Unreachable,
    ExtractValue {
        from: Typed,
        indices: Vec<u64>,
    },
    InsertValue {
        into: Typed,
        value: Typed,
        indices: Vec<u64>,
    },
    /// A component of a vector, by a number that may be known only when it runs.
    ExtractElement {
        from: Typed,
        index: Typed,
    },
    InsertElement {
        into: Typed,
        value: Typed,
        index: Typed,
    },
    /// The components of two vectors that the third, a constant, names by their numbers.
    ShuffleVector {
        left: Typed,
        right: Typed,
        mask: Typed,
    },
    Modify {
        op: ModifyOp,
        volatile: bool,
        pointer: Typed,
        value: Typed,
        ordering: Ordering,
    },
    CompareExchange {
        weak: bool,
        volatile: bool,
        pointer: Typed,
        expected: Typed,
        new: Typed,
        success: Ordering,
        failure: Ordering,
    },
    Fence(Ordering),
    /// A debug record, as `#dbg_declare`: its name.
    Record(Span),
    /// An instruction that isn't read further, by its name.
    Other(Span),
}

/// An argument of a call.
#[derive(Drop)]
pub struct Argument {
    pub attributes: Vec<Attribute>,
    pub value: Typed,
}

/// An instruction: the local that it defines, with `%`, the place of its first token, and what is attached to it.
#[derive(Drop)]
pub struct Instruction {
    pub dest: Option<Span>,
    pub at: u32,
    pub operation: Operation,
    pub attachments: Vec<Attachment>,
}
