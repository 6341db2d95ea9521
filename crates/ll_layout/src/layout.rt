//! What a layout is, and why a type has none.
ghost use Rattle.std.specs.Prelude.{◌≡◌};
ghost use Rattle.ll_layout.specs.Layout.{sized, bounded};

/// The most bytes of a type.
pub const MOST_BYTES: u64 = 4_294_967_295;

/// What the layouts of types depend on beside the types.
#[derive(Clone, Copy, Debug, PartialEq, Eq)]
pub struct Target {
    /// The alignment in bytes of an integer of 128 bits, which the text's data layout gives: 16 where it names one,
    /// as it does since LLVM 18, and 8 before.
    pub wide_align: u64,
}

/// How a type lies in memory.
#[derive(Clone, Copy, Debug, PartialEq, Eq)]
pub struct Layout {
    /// The bits of a value, which need not fill its bytes.
    pub bits: u64,
    /// The bytes from one item of an array to the next.
    pub size: u64,
    /// The alignment in bytes.
    pub align: u64,
}

/// Why a type has no layout.
#[derive(Clone, Copy, Debug, PartialEq, Eq)]
pub enum LayoutFault {
    /// It has no size that is known before it runs: `void`, a function, a label, metadata, a token, a scalable vector, or a
    /// name without a type.
    NoSize,
    /// An integer of no bits, of 65 to 127, or of more than 128.
    Width,
    /// It holds itself, or its names nest more than [`MOST_NESTED`](crate::MOST_NESTED) deep.
    Endless,
    /// It, or a part of it, is larger than [`MOST_BYTES`], or a vector larger than 4,096 bytes.
    TooLarge,
}

/// The fields of a structure up to one of them: where they end, and the greatest of their alignments.
#[derive(Clone, Copy, Debug, PartialEq, Eq)]
pub struct Front {
    pub end: u64,
    pub align: u64,
}

/// So many bytes, if they are within the limit.
pub fn bounded(bytes: u128) -> Result<u64, LayoutFault>
    ensures { result ≡ bounded bytes }
{
    if bytes > MOST_BYTES as u128 {
        Err(LayoutFault::TooLarge)
    } else {
        Ok(bytes as u64)
    }
}

/// The layout of whole bytes.
pub fn sized(size: u128, align: u64) -> Result<Layout, LayoutFault>
    ensures { result ≡ sized size align }
{
    let size = bounded(size)?;
    Ok(Layout {
        bits: size * 8,
        size,
        align,
    })
}
