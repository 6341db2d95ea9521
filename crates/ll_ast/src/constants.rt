//! Values: locals, globals and constants.
use crate::types::Type;
use bsan_ids::Span;

/// A whole number as it is written: its sign and its magnitude.
#[derive(Clone, Copy, Debug, PartialEq, Eq)]
pub struct Integer {
    pub negative: bool,
    pub magnitude: u128,
}

/// A cast.
#[derive(Clone, Copy, Debug, PartialEq, Eq)]
pub enum CastOp {
    Trunc,
    Zext,
    Sext,
    FpTrunc,
    FpExt,
    FpToUi,
    FpToSi,
    UiToFp,
    SiToFp,
    PtrToInt,
    IntToPtr,
    Bitcast,
    AddrSpaceCast,
}

/// A value with its type.
#[derive(Drop)]
#[cycle(values)]
pub struct Typed {
    pub ty: Type,
    pub value: Value,
}

/// A value.
#[derive(Drop)]
#[cycle(values)]
pub enum Value {
    Local(Span),
    Global(Span),
    Int(Integer),
    Bool(bool),
    /// A floating-point number, as it is written.
    Float(Span),
    Null,
    Undef,
    Poison,
    Zero,
    /// The token `none`.
    NoToken,
    /// The bytes of `c".."`, decoded.
    Bytes(Vec<u8>),
    Array(Vec<Typed>),
    Vector(Vec<Typed>),
    Struct {
        packed: bool,
        fields: Vec<Typed>,
    },
    Splat(Box<Typed>),
    /// An address: of a type, from the first value on, by the indices that follow it.
    GetElementPtr {
        ty: Type,
        args: Vec<Typed>,
    },
    Cast {
        op: CastOp,
        from: Box<Typed>,
        to: Type,
    },
    /// Inline assembly, from `asm` to its second string.
    Asm(Span),
    /// A reference to metadata, or metadata written in place.
    Metadata(Span),
    /// A value as metadata.
    Wrapped(Box<Typed>),
    /// Another constant expression: the word that it begins with, and all of it.
    Other {
        name: Span,
        whole: Span,
    },
}
