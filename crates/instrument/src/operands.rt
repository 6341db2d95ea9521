//! Operands, and lines that only a pointer has.
ghost use Rattle.std.specs.Prelude.{◌≡◌, ◌++◌, ◌∷◌, List, OnOk, IfOk};
ghost use Rattle.instrument.specs.Translation.{operand_of, shadow_of, operands_of, for_ptr};
ghost use Rattle.instrument.specs.Lines.{Adds};

use crate::scope::Scope;
use bsan_ids::{ListOf, NoMemory};
use ir_ast::{Ty, TypedVal, Val};
use std::alloc::Global;
use target_code::{Line, Operand, Shadow};

pub fn operand(scope: &Scope, val: &Val) -> Operand
    ensures { result ≡ operand_of scope.now val.now }
{
    match val {
        Val::Reg(register) => Operand::Slot(scope.slot(register)),
        Val::Num(number) => Operand::Number(*number),
    }
}

pub fn shadow(scope: &Scope, val: &Val) -> Shadow
    ensures { result ≡ shadow_of scope.now val.now }
{
    match val {
        Val::Reg(register) => Shadow::Slot(scope.slot(register)),
        Val::Num(_) => Shadow::Nothing,
    }
}

/// The operands of a call of the host.
pub fn operands(
    alloc: Global,
    scope: &Scope,
    args: &[TypedVal],
) -> Result<ListOf<Operand>, NoMemory>
    ensures { IfOk result (λ operands. operands ≡ operands_of scope.now args.now) }
{
    let mut operands = ListOf::new(alloc);
    for arg in args {
        operands.push(operand(scope, &arg.val))?;
    }
    Ok(operands)
}

/// Adds a line where the type is a pointer's.
pub fn put_for_ptr(code: &mut ListOf<Line>, ty: Ty, line: Line) -> Result<(), NoMemory>
    ensures { OnOk result (Adds code.old code.new (for_ptr ty line)) }
{
    match ty {
        Ty::Ptr => code.push(line),
        Ty::Int(_) => Ok(()),
    }
}

/// Adds a line, and a second one for the shadow where the type is a pointer's.
pub fn put_with_shadow(
    code: &mut ListOf<Line>,
    ty: Ty,
    line: Line,
    shadow_line: Line,
) -> Result<(), NoMemory>
    ensures { OnOk result (Adds code.old code.new (λ ls. line ∷ for_ptr ty shadow_line ls)) }
{
    code.push(line)?;
    put_for_ptr(code, ty, shadow_line)
}
