//! Types.

/// A kind of floating-point number, named as in the text.
#[derive(Clone, Copy, Debug, PartialEq, Eq)]
pub enum FloatKind {
    Half,
    Bfloat,
    Float,
    Double,
    X86Fp80,
    Fp128,
    PpcFp128,
}

/// A type.
#[derive(Drop)]
pub enum Type {
    Void,
    /// An integer of so many bits.
    Int(u32),
    Float(FloatKind),
    /// `ptr`, in an address space.
    Pointer(u32),
    /// A pointer of the older form, `T*`, in an address space.
    PointerTo(Box<Type>, u32),
    /// A named type, by its place among those of the module.
    Named(u32),
    /// So many items of a type.
    Array(u64, Box<Type>),
    /// A vector of so many items, or of a multiple of them if it is scalable.
    Vector {
        scalable: bool,
        len: u64,
        item: Box<Type>,
    },
    Struct {
        packed: bool,
        fields: Vec<Type>,
    },
    Function {
        output: Box<Type>,
        inputs: Vec<Type>,
        variadic: bool,
    },
    Label,
    Metadata,
    Token,
    /// A named type without a body.
    Opaque,
}
