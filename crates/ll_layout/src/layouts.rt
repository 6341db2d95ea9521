//! The layouts of a module's types.
ghost use Rattle.std.specs.Prelude.{◌≡◌, take, slice_get, IfOk};
ghost use Rattle.ll_layout.specs.Layout.{Outcome};
ghost use Rattle.ll_layout.specs.Types.{named_in, layout_in, front_in, field_in, none_of, round_of, table_of, offset_in};

use crate::layout::{Front, Layout, LayoutFault, Target};
use crate::scalars::{array, float, integer, pointer, vector};
use crate::structs::{finished, offset, placed};
use bsan_ids::NoMemory;
use ll_ast::{NamedType, Type};
use std::alloc::Global;

/// How deep the names of types nest at most.
pub const MOST_NESTED: usize = 64;

/// The layout of a named type.
fn named(table: &[Result<Layout, LayoutFault>], name: u32) -> Result<Layout, LayoutFault>
    ensures { result ≡ named_in table.now name }
{
    match table.get(name as usize) {
        Some(layout) => *layout,
        None => Err(LayoutFault::NoSize),
    }
}

/// The layout of a type, where those of the named ones are these.
#[cycle(layouts)]
fn layout_in(
    target: Target,
    table: &[Result<Layout, LayoutFault>],
    ty: &Type,
) -> Result<Layout, LayoutFault>
    ensures { result ≡ layout_in target table.now ty.now }
{
    match ty {
        Type::Int(bits) => integer(target, *bits),
        Type::Float(kind) => float(*kind),
        Type::Pointer(space) | Type::PointerTo(_, space) => pointer(*space),
        Type::Named(name) => named(table, *name),
        Type::Array(count, item) => array(*count, layout_in(target, table, item)?),
        Type::Vector {
            scalable: false,
            len,
            item,
        } => vector(*len, layout_in(target, table, item)?),
        Type::Struct { packed, fields } => finished(front_in(target, table, *packed, fields)?),
        Type::Void
        | Type::Function { .. }
        | Type::Label
        | Type::Metadata
        | Type::Token
        | Type::Opaque
        | Type::Vector { scalable: true, .. } => Err(LayoutFault::NoSize),
    }
}

/// These fields, one after the other.
#[cycle(layouts)]
fn front_in(
    target: Target,
    table: &[Result<Layout, LayoutFault>],
    packed: bool,
    fields: &[Type],
) -> Result<Front, LayoutFault>
    ensures { result ≡ front_in target table.now packed fields.now }
{
    let mut front = Front { end: 0, align: 1 };
    for field in fields {
        front = placed(packed, front, layout_in(target, table, field)?)?;
    }
    Ok(front)
}

/// The fields before the one at `index`.
fn before(fields: &[Type], index: usize) -> &[Type]
    ensures { result.now ≡ take index fields.now }
{
    if index < fields.len() {
        &fields[..index]
    } else {
        fields
    }
}

/// The layout of the field at `index`, if there is one.
fn field_in(
    target: Target,
    table: &[Result<Layout, LayoutFault>],
    fields: &[Type],
    index: usize,
) -> Result<Layout, LayoutFault>
    ensures { result ≡ field_in target table.now (slice_get fields.now index) }
{
    match fields.get(index) {
        Some(ty) => layout_in(target, table, ty),
        None => Err(LayoutFault::NoSize),
    }
}

/// What the named types name, laid out where the names inside have the layouts of a table.
fn round(
    alloc: Global,
    target: Target,
    types: &[NamedType],
    table: &[Result<Layout, LayoutFault>],
) -> Result<Vec<Result<Layout, LayoutFault>>, NoMemory>
    ensures { IfOk result (λ next. next.items ≡ round_of target types.now table.now) }
{
    let mut next = Vec::with_capacity(alloc, types.len())?;
    for named in types {
        next.push(layout_in(target, table, &named.ty))?;
    }
    Ok(next)
}

/// The table where no name has a layout yet.
fn no_layouts(
    alloc: Global,
    types: &[NamedType],
) -> Result<Vec<Result<Layout, LayoutFault>>, NoMemory>
    ensures { IfOk result (λ table. table.items ≡ none_of types.now) }
{
    let mut table = Vec::with_capacity(alloc, types.len())?;
    for _named in types {
        table.push(Err(LayoutFault::Endless))?;
    }
    Ok(table)
}

/// The layouts of a module's named types, by which those of all its types are told.
#[derive(Drop)]
pub struct Layouts {
    pub target: Target,
    /// A layout for each named type, in the module's order.
    pub table: Vec<Result<Layout, LayoutFault>>,
}

/// The layouts of a module's named types.
///
/// It lays each of them out [`MOST_NESTED`] times.
///
/// # Errors
///
/// `NoMemory`: out of memory.
#[tactic(auto, using(crate::proofs::Tables::table_next), unfolding(crate::specs::Types::table_of))]
pub fn lay_out(alloc: Global, target: Target, types: &[NamedType]) -> Result<Layouts, NoMemory>
    ensures target { IfOk result (λ l. l.target ≡ target) }
    ensures table { IfOk result (λ l. l.table.items ≡ table_of target types.now MOST_NESTED) }
{
    let mut table = no_layouts(alloc, types)?;
    for deep in 0..MOST_NESTED {
        table = round(alloc, target, types, &table)?;
    }
    Ok(Layouts { target, table })
}

impl Layouts {
    /// The layout of a type.
    ///
    /// # Errors
    ///
    /// `NoSize`, `Width`, `Endless` or `TooLarge`: the first type inside that has no layout, from left to right, or the
    /// type itself.
    pub fn layout_of(&self, ty: &Type) -> Result<Layout, LayoutFault>
        ensures { result ≡ layout_in self.now.target self.now.table.items ty.now }
    {
        layout_in(self.target, &self.table, ty)
    }

    /// The offset of the field at `index` of a structure of these fields.
    ///
    /// # Errors
    ///
    /// As for [`layout_of`](Layouts::layout_of) of the fields up to it. `NoSize` where there is no such field.
    pub fn offset_of(&self, packed: bool, fields: &[Type], index: usize) -> Result<u64, LayoutFault>
        ensures { result ≡ offset_in self.now.target self.now.table.items packed fields.now index }
    {
        let front = front_in(self.target, &self.table, packed, before(fields, index));
        let field = field_in(self.target, &self.table, fields, index);
        offset(packed, front, field)
    }
}
