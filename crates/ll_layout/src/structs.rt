//! Where the fields of structures lie.
ghost use Rattle.std.specs.Prelude.{◌≡◌, ◌+◌, ◌<◌, ◌^◌, false};
ghost use Rattle.ll_layout.specs.Structs.{field_start, placed, finished, offset_of};

use crate::layout::{Front, Layout, LayoutFault, bounded, sized};

/// The least multiple of an alignment that is not below a place.
fn aligned(at: u64, align: u64) -> u128
    ensures value { result ≡ field_start false at align }
    ensures few { result < at + 2 ^ 64 }
{
    if align == 0 {
        at as u128
    } else {
        (at as u128).next_multiple_of(align as u128)
    }
}

/// Where a field begins that follows what ends at `end`.
fn field_start(packed: bool, end: u64, align: u64) -> u128
    ensures value { result ≡ field_start packed end align }
    ensures few { result < end + 2 ^ 64 }
{
    if packed {
        end as u128
    } else {
        aligned(end, align)
    }
}

/// The fields up to and with this one.
pub fn placed(packed: bool, front: Front, field: Layout) -> Result<Front, LayoutFault>
    ensures { result ≡ placed packed front field }
{
    let start = field_start(packed, front.end, field.align);
    let end = bounded(start + field.size as u128)?;
    let align = if packed {
        front.align
    } else {
        front.align.max(field.align)
    };
    Ok(Front { end, align })
}

/// The structure of these fields.
pub fn finished(front: Front) -> Result<Layout, LayoutFault>
    ensures { result ≡ finished front }
{
    sized(field_start(false, front.end, front.align), front.align)
}

/// The offset of the field that follows these, if they have layouts.
pub fn offset(
    packed: bool,
    front: Result<Front, LayoutFault>,
    field: Result<Layout, LayoutFault>,
) -> Result<u64, LayoutFault>
    ensures { result ≡ offset_of packed front field }
{
    let front = front?;
    let field = field?;
    bounded(field_start(packed, front.end, field.align))
}
