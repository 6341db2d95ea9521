//! The operators of instructions.

/// An operator on two integers of one width.
#[derive(Clone, Copy, Debug, PartialEq, Eq)]
pub enum BinaryOp {
    Add,
    Sub,
    Mul,
    Udiv,
    Sdiv,
    Urem,
    Srem,
    And,
    Or,
    Xor,
    Shl,
    Lshr,
    Ashr,
}

/// A comparison of two values: equality, unsigned order and signed order.
#[derive(Clone, Copy, Debug, PartialEq, Eq)]
pub enum Cond {
    Eq,
    Ne,
    Ult,
    Ule,
    Ugt,
    Uge,
    Slt,
    Sle,
    Sgt,
    Sge,
}

/// A change of an integer's width.
#[derive(Clone, Copy, Debug, PartialEq, Eq)]
pub enum CastOp {
    Zext,
    Sext,
    Trunc,
}

/// What a read-modify-write puts in the place of the old value.
#[derive(Clone, Copy, Debug, PartialEq, Eq)]
pub enum ModifyOp {
    Add,
    Sub,
    And,
    Or,
    Xor,
    Xchg,
    Umin,
    Umax,
}
