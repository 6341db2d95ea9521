//! Programs. Each `at` is the place of a token: the offset of its first byte in the text.
use crate::operators::{BinaryOp, CastOp, Cond, ModifyOp};
use crate::types::{Attr, Place, ResultTy, Ty, Width};
use bsan_ids::{ListOf, Name};
use perm_table::RetagKind;

/// A name in the text, without the `%` or `@` before it, and its place.
#[derive(Drop)]
pub struct Named {
    pub name: Name,
    pub at: u32,
}

/// A parameter of a function or a block.
#[derive(Drop)]
pub struct Param {
    pub ty: Ty,
    pub attr: Option<Attr>,
    pub reg: Named,
}

/// An operand: a register or a number.
#[derive(Drop)]
pub enum Val {
    Reg(Named),
    Num(u64),
}

/// An operand with its type, which comes before it.
#[derive(Drop)]
pub struct TypedVal {
    pub ty: Ty,
    pub val: Val,
}

/// Where a jump goes, and what the block's parameters are given.
#[derive(Drop)]
pub struct Goal {
    pub label: Named,
    pub args: ListOf<TypedVal>,
}

/// A program: the version of the language in which it is written, 1 or 2, its functions, and the length of its text.
#[derive(Drop)]
pub struct Program {
    pub version: u8,
    pub functions: ListOf<Function>,
    pub end: u32,
}

/// A function.
#[derive(Drop)]
pub struct Function {
    pub name: Named,
    pub params: ListOf<Param>,
    pub result: ResultTy,
    pub blocks: ListOf<Block>,
}

/// A block: instructions, and the terminator that ends it.
#[derive(Drop)]
pub struct Block {
    pub label: Named,
    pub params: ListOf<Param>,
    pub insts: ListOf<Inst>,
    pub term: Term,
}

/// An instruction: the register that it defines, the place of its first token, and what it does.
#[derive(Drop)]
pub struct Inst {
    pub dest: Option<Named>,
    pub at: u32,
    pub op: Op,
}

/// What an instruction does. `to_at` is the place of a cast's second type, and `ty_at` that of the
/// type or `void` after `join`.
#[derive(Drop)]
pub enum Op {
    Const {
        width: Width,
        value: u64,
    },
    Null,
    Make {
        place: Place,
        size: Val,
    },
    Gep {
        ptr: Named,
        add: Val,
    },
    Load {
        ty: Ty,
        ptr: Named,
    },
    Store {
        ty: Ty,
        val: Val,
        ptr: Named,
    },
    Retag {
        kind: RetagKind,
        ptr: Named,
        size: u32,
    },
    Binary {
        op: BinaryOp,
        width: Width,
        a: Val,
        b: Val,
    },
    Compare {
        cond: Cond,
        ty: Ty,
        a: Val,
        b: Val,
    },
    Select {
        ty: Ty,
        cond: Val,
        a: Val,
        b: Val,
    },
    Cast {
        op: CastOp,
        from: Width,
        to: Width,
        val: Val,
        to_at: u32,
    },
    PtrToInt {
        ptr: Named,
    },
    Input {
        index: Val,
    },
    Modify {
        op: ModifyOp,
        width: Width,
        ptr: Named,
        val: Val,
    },
    CmpXchg {
        width: Width,
        ptr: Named,
        expected: Val,
        val: Val,
    },
    Copy {
        to: Named,
        from: Named,
        len: Val,
    },
    Free {
        ptr: Named,
    },
    Print {
        width: Width,
        val: Val,
    },
    Call {
        result: Option<Ty>,
        function: Named,
        args: ListOf<TypedVal>,
    },
    Host {
        result: Ty,
        host: Named,
        args: ListOf<TypedVal>,
    },
    Spawn {
        function: Named,
        args: ListOf<TypedVal>,
    },
    Join {
        result: Option<Ty>,
        ty_at: u32,
        handle: Named,
    },
}

/// A terminator, and the place of its first token.
#[derive(Drop)]
pub struct Term {
    pub at: u32,
    pub jump: Jump,
}

/// Where a block goes on. `ty_at` is the place of the type or `void` after `ret`.
#[derive(Drop)]
pub enum Jump {
    Br(Goal),
    CondBr { cond: Val, yes: Goal, no: Goal },
    Ret { val: Option<TypedVal>, ty_at: u32 },
    Unreachable,
}
