//! Layouts of integers, floating-point numbers, pointers, arrays and vectors.
ghost use Rattle.std.specs.Prelude.{◌≡◌, ◌≤◌};
ghost use Rattle.ll_layout.specs.Scalars.{first_from, natural, integer, float, pointer, array_of, vector_of};

use crate::layout::{Layout, LayoutFault, Target, sized};
use ll_ast::FloatKind;

/// The sizes of integers and vectors in memory.
pub const POWERS: [u64; 13] = [1, 2, 4, 8, 16, 32, 64, 128, 256, 512, 1024, 2048, 4096];

/// The first of these that is not below a number.
fn first_from(least: u64, powers: &[u64]) -> Option<u64>
    ensures { result ≡ first_from least powers.now }
{
    powers.iter().copied().find(|power| least <= *power)
}

/// The layout of so many bits: the least power of two that holds them is its size and its alignment.
fn natural(bits: u64) -> Result<Layout, LayoutFault>
    ensures { result ≡ natural bits }
{
    match first_from(bits.div_ceil(8), &POWERS) {
        Some(size) => Ok(Layout {
            bits,
            size,
            align: size,
        }),
        None => Err(LayoutFault::TooLarge),
    }
}

pub fn integer(target: Target, bits: u32) -> Result<Layout, LayoutFault>
    ensures { result ≡ integer target bits }
{
    match bits {
        128 => Ok(Layout {
            bits: 128,
            size: 16,
            align: target.wide_align,
        }),
        1..=64 => natural(bits as u64),
        _ => Err(LayoutFault::Width),
    }
}

pub fn float(kind: FloatKind) -> Result<Layout, LayoutFault>
    ensures { result ≡ float kind }
{
    match kind {
        FloatKind::Half | FloatKind::Bfloat => natural(16),
        FloatKind::Float => natural(32),
        FloatKind::Double => natural(64),
        FloatKind::X86Fp80 => natural(80),
        FloatKind::Fp128 | FloatKind::PpcFp128 => natural(128),
    }
}

/// A pointer in an address space: two spaces have pointers of 32 bits.
pub fn pointer(space: u32) -> Result<Layout, LayoutFault>
    ensures { result ≡ pointer space }
{
    match space {
        270 | 271 => natural(32),
        _ => natural(64),
    }
}

/// So many items, one after the other.
pub fn array(count: u64, item: Layout) -> Result<Layout, LayoutFault>
    ensures { result ≡ array_of count item }
{
    match count.checked_mul(item.size) {
        Some(size) => sized(size as u128, item.align),
        None => Err(LayoutFault::TooLarge),
    }
}

/// A vector of so many components, whose bits lie without gaps.
pub fn vector(count: u64, item: Layout) -> Result<Layout, LayoutFault>
    ensures { result ≡ vector_of count item }
{
    match count.checked_mul(item.bits) {
        Some(bits) => natural(bits),
        None => Err(LayoutFault::TooLarge),
    }
}
