//! Addresses: an allocation's number in the high half, an offset in the low half.
ghost use Rattle.std.specs.Prelude.{◌≡◌, ◌+◌, ◌*◌, ◌/◌, ◌%◌, ◌^◌};

use crate::numbers::AllocNo;

/// The address of the byte at `offset` of allocation `alloc`.
pub fn address(alloc: AllocNo, offset: u32) -> u64
    ensures { result ≡ alloc.0 * 2 ^ 32 + offset }
{
    u64::from(alloc.0) * 0x1_0000_0000 + u64::from(offset)
}

/// The allocation and the offset of an address: its high and its low half.
pub fn parts(address: u64) -> (AllocNo, u32)
    ensures alloc { result.0.0 ≡ address / 2 ^ 32 }
    ensures offset { result.1 ≡ address % 2 ^ 32 }
{
    let alloc = (address / 0x1_0000_0000) as u32;
    let offset = (address % 0x1_0000_0000) as u32;
    (AllocNo(alloc), offset)
}
