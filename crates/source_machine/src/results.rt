//! Results of calls and joins.
ghost use Rattle.std.specs.Prelude.{◌≡◌, true};
ghost use Rattle.source_sem.specs.Source as sem;

use crate::operands::at_type;
use crate::registers::BLANK;
use history::Arg;
use ir_ast::{Attr, Ty};

/// The retag that a result of this type and attribute has, if it has one.
pub fn result_step(ty: Option<Ty>, attr: Option<Attr>) -> Option<Attr>
    ensures { result ≡ sem.result_step true ty attr }
{
    match (ty, attr) {
        (Some(Ty::Ptr), Some(attr)) if attr.size != 0 => Some(attr),
        _ => None,
    }
}

/// What is taken of a result.
pub fn taken(ty: Option<Ty>, value: Arg) -> Option<Arg>
    ensures { result ≡ sem.taken ty value }
{
    match ty {
        Some(ty) => Some(at_type(ty, value)),
        None => None,
    }
}

/// What is retagged of a result.
pub fn taken_arg(ty: Option<Ty>, value: Arg) -> Arg
    ensures { result ≡ sem.taken_arg ty value }
{
    match ty {
        Some(ty) => at_type(ty, value),
        None => BLANK,
    }
}
