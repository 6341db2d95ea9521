//! Types of values, attributes of pointers and places of allocations.
ghost use Rattle.std.specs.Prelude.{◌≡◌, ◌≤◌};
ghost use Rattle.ir_ast.specs.Words.{width_bytes, ty_bytes};

use perm_table::RetagKind;

/// The width of an integer, in bits.
#[derive(Clone, Copy, Debug, PartialEq, Eq)]
pub enum Width {
    W8,
    W16,
    W32,
    W64,
}

/// The type of a value.
#[derive(Clone, Copy, Debug, PartialEq, Eq)]
pub enum Ty {
    Int(Width),
    Ptr,
}

/// A pointer that is retagged where a function takes or gives it: how, and on how many bytes.
#[derive(Clone, Copy, Debug, PartialEq, Eq)]
pub struct Attr {
    pub kind: RetagKind,
    pub size: u32,
}

/// The result of a function. Without a type it gives nothing.
#[derive(Clone, Copy, Debug, PartialEq, Eq)]
pub struct ResultTy {
    pub ty: Option<Ty>,
    pub attr: Option<Attr>,
}

/// Where an allocation is made: on a function's stack, or on the heap.
#[derive(Clone, Copy, Debug, PartialEq, Eq)]
pub enum Place {
    Stack,
    Heap,
}

impl Width {
    /// How many bytes an integer of this width takes.
    pub fn bytes(self) -> u32
        ensures value { result ≡ width_bytes self }
        ensures some { 1 ≤ result }
        ensures few { result ≤ 8 }
    {
        match self {
            Width::W8 => 1,
            Width::W16 => 2,
            Width::W32 => 4,
            Width::W64 => 8,
        }
    }
}

impl Ty {
    /// How many bytes a value of this type takes.
    pub fn bytes(self) -> u32
        ensures value { result ≡ ty_bytes self }
        ensures some { 1 ≤ result }
        ensures few { result ≤ 8 }
    {
        match self {
            Ty::Int(width) => width.bytes(),
            Ty::Ptr => 8,
        }
    }
}
