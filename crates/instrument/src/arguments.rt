//! The lines of arguments, goals and results.
ghost use Rattle.std.specs.Prelude.{◌≡◌, ◌++◌, ◌∷◌, [], slice_get, OnOk};
ghost use Rattle.target_code.specs.declared.line.Line.TheVariants as line;
ghost use Rattle.instrument.specs.Translation.{operand_of, shadow_of, for_ptr, arg_lines, take_lines, goal_lines, params_at, retag_lines, result_lines};
ghost use Rattle.instrument.specs.Translation as translation;
ghost use Rattle.instrument.specs.Names.{Numbered, BlockNumbered};
ghost use Rattle.ir_ast.specs.Tokens.{Each};
ghost use Rattle.instrument.specs.Lines.{Adds};
ghost use Rattle.instrument.specs.Sources.{AddsParam, source_lines};

use crate::operands::{operand, put_with_shadow, shadow};
use crate::scope::Scope;
use bsan_ids::{ListOf, NoMemory};
use ir_ast::{Attr, Goal, Param, Ty, TypedVal};
use perm_table::Guard;
use target_code::Line;

/// An argument goes into the row.
fn put_arg(
    code: &mut ListOf<Line>,
    scope: &Scope,
    index: u32,
    arg: &TypedVal,
) -> Result<(), NoMemory>
    ensures { OnOk result (Adds code.old code.new (λ ls. line.Arg index (operand_of scope.now arg.now.val) ∷ for_ptr arg.now.ty (line.ShadowArg index (shadow_of scope.now arg.now.val)) ls)) }
{
    let value = operand(scope, &arg.val);
    let from = shadow(scope, &arg.val);
    put_with_shadow(
        code,
        arg.ty,
        Line::Arg { index, value },
        Line::ShadowArg { index, from },
    )
}

/// Arguments go into the row.
pub fn put_args(code: &mut ListOf<Line>, scope: &Scope, args: &[TypedVal]) -> Result<(), NoMemory>
    requires { Numbered args.now }
    ensures { OnOk result (Adds code.old code.new (arg_lines scope.now 0 args.now)) }
{
    for (index, arg) in args.iter().enumerate() {
        put_arg(code, scope, index as u32, arg)?;
    }
    Ok(())
}

/// Where parameters find their values: those of a function are handed over with its frame, those of a
/// block are in the row.
#[derive(Clone, Copy)]
pub enum Source {
    Frame,
    Row,
}

/// A parameter is given its value.
fn put_param(
    code: &mut ListOf<Line>,
    scope: &Scope,
    source: Source,
    index: u32,
    param: &Param,
) -> Result<(), NoMemory>
    ensures { OnOk result (AddsParam source scope.now index param.now code.old code.new) }
{
    let slot = scope.slot(&param.reg);
    match source {
        Source::Frame => put_with_shadow(
            code,
            param.ty,
            Line::Param { slot, index },
            Line::ShadowParam {
                shadow: slot,
                index,
            },
        ),
        Source::Row => put_with_shadow(
            code,
            param.ty,
            Line::TakeArg { slot, index },
            Line::TakeShadowArg {
                shadow: slot,
                index,
            },
        ),
    }
}

/// Parameters are given their values.
pub fn put_params(
    code: &mut ListOf<Line>,
    scope: &Scope,
    source: Source,
    params: &[Param],
) -> Result<(), NoMemory>
    requires { Numbered params.now }
    ensures { OnOk result (Adds code.old code.new (source_lines source scope.now 0 params.now)) }
{
    for (index, param) in params.iter().enumerate() {
        put_param(code, scope, source, index as u32, param)?;
    }
    Ok(())
}

/// A jump to a block, whose parameters are given their values all at once: all go into the row before
/// any is taken from it.
#[tactic(auto, using(crate::proofs::Known::few_params))]
pub fn put_goal(code: &mut ListOf<Line>, scope: &Scope, goal: &Goal) -> Result<(), NoMemory>
    requires few { Numbered goal.now.args }
    requires blocks { Each BlockNumbered scope.now.blocks }
    ensures { OnOk result (Adds code.old code.new (goal_lines scope.now goal.now)) }
{
    let block = scope.block_number(&goal.label);
    put_args(code, scope, goal.args.as_slice())?;
    put_params(code, scope, Source::Row, scope.params(block))?;
    code.push(Line::Jump { block })
}

/// The retag of a result in this slot, or of one that is dropped.
fn put_retag(code: &mut ListOf<Line>, to: Option<u32>, attr: Option<Attr>) -> Result<(), NoMemory>
    ensures { OnOk result (Adds code.old code.new (retag_lines to attr)) }
{
    match (to, attr) {
        (_, None) => Ok(()),
        (None, Some(Attr { kind, size })) => code.push(Line::RetagResult { kind, size }),
        (Some(slot), Some(Attr { kind, size })) => code.push(Line::Retag {
            shadow: slot,
            kind,
            guard: Guard::Free,
            ptr: slot,
            ptr_shadow: slot,
            size,
        }),
    }
}

/// A pointer that a call or a join gives.
fn put_pointer(code: &mut ListOf<Line>, slot: u32, attr: Option<Attr>) -> Result<(), NoMemory>
    ensures { OnOk result (Adds code.old code.new (λ ls. line.CallResult slot ∷ line.ShadowCallResult slot ∷ retag_lines (Some slot) attr ls)) }
{
    code.push(Line::CallResult { slot })?;
    code.push(Line::ShadowCallResult { shadow: slot })?;
    put_retag(code, Some(slot), attr)
}

/// The result of a call or a join.
pub fn put_result(
    code: &mut ListOf<Line>,
    to: Option<u32>,
    ty: Option<Ty>,
    attr: Option<Attr>,
) -> Result<(), NoMemory>
    ensures { OnOk result (Adds code.old code.new (result_lines to ty attr)) }
{
    match (to, ty) {
        (_, None) | (None, Some(Ty::Int(_))) => Ok(()),
        (None, Some(Ty::Ptr)) => put_retag(code, None, attr),
        (Some(slot), Some(Ty::Int(_))) => code.push(Line::CallResult { slot }),
        (Some(slot), Some(Ty::Ptr)) => put_pointer(code, slot, attr),
    }
}
