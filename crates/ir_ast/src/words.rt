//! The words of types, of kinds of retags and of operations.
ghost use Rattle.std.specs.Prelude.{◌≡◌};
ghost use Rattle.ir_ast.specs.Keywords.{width_word, type_word, result_word, kind_word, binary_word, cond_word, cast_word, modify_word, op_word};
ghost use Rattle.ir_ast.specs.Grammar.{jump_word};

use crate::operators::{BinaryOp, CastOp, Cond, ModifyOp};
use crate::program::{Jump, Op};
use crate::types::{Place, Ty, Width};
use perm_table::RetagKind;

/// The word of an integer type of this width.
pub fn width_word(width: Width) -> &'static str
    ensures { result.now ≡ width_word width }
{
    match width {
        Width::W8 => "i8",
        Width::W16 => "i16",
        Width::W32 => "i32",
        Width::W64 => "i64",
    }
}

/// The word of a type.
pub fn type_word(ty: Ty) -> &'static str
    ensures { result.now ≡ type_word ty }
{
    match ty {
        Ty::Int(width) => width_word(width),
        Ty::Ptr => "ptr",
    }
}

/// The word of a result: its type, or `void`.
pub fn result_word(ty: Option<Ty>) -> &'static str
    ensures { result.now ≡ result_word ty }
{
    match ty {
        Some(ty) => type_word(ty),
        None => "void",
    }
}

/// The word of a kind of retag.
pub fn kind_word(kind: RetagKind) -> &'static str
    ensures { result.now ≡ kind_word kind }
{
    match kind {
        RetagKind::Mut => "mut",
        RetagKind::Cell => "cell",
        RetagKind::Shr => "shr",
        RetagKind::Boxed => "box",
        RetagKind::ShrCell => "shrcell",
    }
}

/// The word of a binary operation.
pub fn binary_word(op: BinaryOp) -> &'static str
    ensures { result.now ≡ binary_word op }
{
    match op {
        BinaryOp::Add => "add",
        BinaryOp::Sub => "sub",
        BinaryOp::Mul => "mul",
        BinaryOp::Udiv => "udiv",
        BinaryOp::Sdiv => "sdiv",
        BinaryOp::Urem => "urem",
        BinaryOp::Srem => "srem",
        BinaryOp::And => "and",
        BinaryOp::Or => "or",
        BinaryOp::Xor => "xor",
        BinaryOp::Shl => "shl",
        BinaryOp::Lshr => "lshr",
        BinaryOp::Ashr => "ashr",
    }
}

/// The word of a condition of a comparison.
pub fn cond_word(cond: Cond) -> &'static str
    ensures { result.now ≡ cond_word cond }
{
    match cond {
        Cond::Eq => "eq",
        Cond::Ne => "ne",
        Cond::Ult => "ult",
        Cond::Ule => "ule",
        Cond::Ugt => "ugt",
        Cond::Uge => "uge",
        Cond::Slt => "slt",
        Cond::Sle => "sle",
        Cond::Sgt => "sgt",
        Cond::Sge => "sge",
    }
}

/// The word of a cast.
pub fn cast_word(op: CastOp) -> &'static str
    ensures { result.now ≡ cast_word op }
{
    match op {
        CastOp::Zext => "zext",
        CastOp::Sext => "sext",
        CastOp::Trunc => "trunc",
    }
}

/// The word of a read-modify-write operation.
pub fn modify_word(op: ModifyOp) -> &'static str
    ensures { result.now ≡ modify_word op }
{
    match op {
        ModifyOp::Add => "add",
        ModifyOp::Sub => "sub",
        ModifyOp::And => "and",
        ModifyOp::Or => "or",
        ModifyOp::Xor => "xor",
        ModifyOp::Xchg => "xchg",
        ModifyOp::Umin => "umin",
        ModifyOp::Umax => "umax",
    }
}

/// The word that an operation begins with.
pub fn op_word(op: &Op) -> &'static str
    ensures { result.now ≡ op_word op.now }
{
    match op {
        Op::Const { .. } => "const",
        Op::Null => "null",
        Op::Make {
            place: Place::Stack,
            ..
        } => "alloca",
        Op::Make {
            place: Place::Heap,
            ..
        } => "malloc",
        Op::Gep { .. } => "gep",
        Op::Load { .. } => "load",
        Op::Store { .. } => "store",
        Op::Retag { .. } => "retag",
        Op::Binary { op, .. } => binary_word(*op),
        Op::Compare { .. } => "icmp",
        Op::Select { .. } => "select",
        Op::Cast { op, .. } => cast_word(*op),
        Op::PtrToInt { .. } => "ptrtoint",
        Op::Input { .. } => "input",
        Op::Modify { .. } => "rmw",
        Op::CmpXchg { .. } => "cmpxchg",
        Op::Copy { .. } => "memcpy",
        Op::Free { .. } => "free",
        Op::Print { .. } => "print",
        Op::Call { .. } => "call",
        Op::Host { .. } => "host",
        Op::Spawn { .. } => "spawn",
        Op::Join { .. } => "join",
    }
}

/// The word that a terminator begins with.
pub fn jump_word(jump: &Jump) -> &'static str
    ensures { result.now ≡ jump_word jump.now }
{
    match jump {
        Jump::Br(_) => "br",
        Jump::CondBr { .. } => "condbr",
        Jump::Ret { .. } => "ret",
        Jump::Unreachable => "unreachable",
    }
}
