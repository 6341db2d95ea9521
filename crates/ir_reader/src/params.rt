//! Attributes and parameters.
ghost use Rattle.std.specs.Prelude.{◌≡◌};
ghost use Rattle.ir_reader.specs.View.{IsRead, onto};
ghost use Rattle.ir_reader.specs.Blocks.{attr_at, some_attr_at, optional_attr_at, attr_for, param_register_at, param_at, next_param_at, more_params_at, params_at, some_params_at, function_params_at, round_params_at, block_params_at, head_at, result_ty_at, arrow_result_at};

use crate::leaves::{among, begins_any_word, kind, name_of, size};
use crate::marks::{begins_mark, take_mark};
use crate::stop::{Read, Stop};
use bsan_ids::{ListOf, Name};
use ir_ast::{Attr, MOST_REGISTERS, Mark, Named, Param, ResultTy, Ty};
use ir_text::{Token, TokenKind};
use phrase::Cause;
use std::alloc::Global;

#[tactic(auto, unfolding(crate::specs::Blocks::attr_at))]
fn attr<'a>(version: u8, text: &[u8], tokens: &'a [Token]) -> Read<'a, Attr>
    ensures { IsRead (attr_at version) text.now tokens.now result }
{
    let (kind, rest) = kind(version, text, tokens)?;
    let rest = take_mark(Mark::OpenRound, rest)?;
    let (size, rest) = size(text, rest)?;
    let rest = take_mark(Mark::CloseRound, rest)?;
    Ok((Attr { kind, size }, rest))
}

#[tactic(auto, unfolding(crate::specs::Blocks::some_attr_at))]
fn some_attr<'a>(version: u8, text: &[u8], tokens: &'a [Token]) -> Read<'a, Option<Attr>>
    ensures { IsRead (some_attr_at version) text.now tokens.now result }
{
    let (attr, rest) = attr(version, text, tokens)?;
    Ok((Some(attr), rest))
}

/// An attribute, if a word is next.
fn optional_attr<'a>(version: u8, text: &[u8], tokens: &'a [Token]) -> Read<'a, Option<Attr>>
    ensures { IsRead (optional_attr_at version) text.now tokens.now result }
{
    if begins_any_word(tokens) {
        some_attr(version, text, tokens)
    } else {
        Ok((None, tokens))
    }
}

/// The attribute of a type. Only `ptr` may have one, and only where `attrs` names the version whose
/// attributes are allowed.
fn attr_for<'a>(
    attrs: Option<u8>,
    ty: Option<Ty>,
    text: &[u8],
    tokens: &'a [Token],
) -> Read<'a, Option<Attr>>
    ensures { IsRead (attr_for attrs ty) text.now tokens.now result }
{
    match (attrs, ty) {
        (Some(version), Some(Ty::Ptr)) => optional_attr(version, text, tokens),
        _ => Ok((None, tokens)),
    }
}

/// A register that a parameter defines, after this many registers of the function.
#[tactic(auto, unfolding(crate::specs::Blocks::param_register_at))]
fn param_register<'a>(
    alloc: Global,
    registers: u32,
    text: &[u8],
    tokens: &'a [Token],
) -> Read<'a, Named>
    ensures { IsRead (param_register_at registers) text.now tokens.now result }
{
    let [first, rest @ ..] = tokens else {
        return Err(Stop::At(Cause::Unexpected, tokens));
    };
    match first.kind {
        TokenKind::Local => {
            if registers < MOST_REGISTERS {
                let name = Name::from_slice(alloc, name_of(text, first))?;
                let at = first.span.start;
                Ok((Named { name, at }, rest))
            } else {
                Err(Stop::At(Cause::TooLarge, tokens))
            }
        }
        _ => Err(Stop::At(Cause::Unexpected, tokens)),
    }
}

#[tactic(auto, unfolding(crate::specs::Blocks::param_at))]
fn param<'a>(
    alloc: Global,
    attrs: Option<u8>,
    registers: u32,
    text: &[u8],
    tokens: &'a [Token],
) -> Read<'a, Param>
    ensures { IsRead (param_at attrs registers) text.now tokens.now result }
{
    let (ty, rest) = among::<Ty>(text, tokens)?;
    let (attr, rest) = attr_for(attrs, Some(ty), text, rest)?;
    let (reg, rest) = param_register(alloc, registers, text, rest)?;
    Ok((Param { ty, attr, reg }, rest))
}

#[tactic(auto, unfolding(crate::specs::Blocks::next_param_at))]
fn next_param<'a>(
    alloc: Global,
    attrs: Option<u8>,
    registers: u32,
    text: &[u8],
    tokens: &'a [Token],
) -> Read<'a, Param>
    ensures { IsRead (next_param_at attrs registers) text.now tokens.now result }
{
    let rest = take_mark(Mark::Comma, tokens)?;
    param(alloc, attrs, registers, text, rest)
}

/// The result of a function, with its attribute.
#[tactic(auto, unfolding(crate::specs::Blocks::result_ty_at))]
fn result_ty<'a>(version: u8, text: &[u8], tokens: &'a [Token]) -> Read<'a, ResultTy>
    ensures { IsRead (result_ty_at version) text.now tokens.now result }
{
    let (ty, rest) = among::<Option<Ty>>(text, tokens)?;
    let (attr, rest) = attr_for(Some(version), ty, text, rest)?;
    Ok((ResultTy { ty, attr }, rest))
}

/// From `->` to `{`.
#[tactic(auto, unfolding(crate::specs::Blocks::arrow_result_at))]
pub fn arrow_result<'a>(version: u8, text: &[u8], tokens: &'a [Token]) -> Read<'a, ResultTy>
    ensures { IsRead (arrow_result_at version) text.now tokens.now result }
{
    let rest = take_mark(Mark::Arrow, tokens)?;
    let (result, rest) = result_ty(version, text, rest)?;
    let rest = take_mark(Mark::OpenBrace, rest)?;
    Ok((result, rest))
}

/// Appends the parameters that follow, each after a comma, and all after this many registers.
fn more_params<'a>(
    alloc: Global,
    attrs: Option<u8>,
    registers: u32,
    front: ListOf<Param>,
    text: &[u8],
    tokens: &'a [Token],
) -> Read<'a, ListOf<Param>>
    ensures { IsRead (onto front (more_params_at attrs registers)) text.now tokens.now result }
{
    let mut params = front;
    let mut rest = tokens;
    let mut before = registers;
    while begins_mark(Mark::Comma, rest) {
        let (param, after) = next_param(alloc, attrs, before, text, rest)?;
        params.push(param)?;
        before += 1;
        rest = after;
    }
    Ok((params, rest))
}

fn params<'a>(
    alloc: Global,
    attrs: Option<u8>,
    registers: u32,
    text: &[u8],
    tokens: &'a [Token],
) -> Read<'a, ListOf<Param>>
    ensures { IsRead (params_at attrs registers) text.now tokens.now result }
{
    let (first, rest) = param(alloc, attrs, registers, text, tokens)?;
    let mut front = ListOf::new(alloc);
    front.push(first)?;
    let before = registers + 1;
    more_params(alloc, attrs, before, front, text, rest)
}

fn some_params<'a>(
    alloc: Global,
    version: u8,
    text: &[u8],
    tokens: &'a [Token],
) -> Read<'a, ListOf<Param>>
    ensures { IsRead (some_params_at version) text.now tokens.now result }
{
    if begins_any_word(tokens) {
        params(alloc, Some(version), 0, text, tokens)
    } else {
        Ok((ListOf::new(alloc), tokens))
    }
}

/// The parameters of a function, after its name.
#[tactic(auto, unfolding(crate::specs::Blocks::function_params_at))]
pub fn function_params<'a>(
    alloc: Global,
    version: u8,
    text: &[u8],
    tokens: &'a [Token],
) -> Read<'a, ListOf<Param>>
    ensures { IsRead (function_params_at version) text.now tokens.now result }
{
    let rest = take_mark(Mark::OpenRound, tokens)?;
    let (params, rest) = some_params(alloc, version, text, rest)?;
    let rest = take_mark(Mark::CloseRound, rest)?;
    Ok((params, rest))
}

#[tactic(auto, unfolding(crate::specs::Blocks::round_params_at))]
fn round_params<'a>(
    alloc: Global,
    registers: u32,
    text: &[u8],
    tokens: &'a [Token],
) -> Read<'a, ListOf<Param>>
    ensures { IsRead (round_params_at registers) text.now tokens.now result }
{
    let rest = take_mark(Mark::OpenRound, tokens)?;
    let (params, rest) = params(alloc, None, registers, text, rest)?;
    let rest = take_mark(Mark::CloseRound, rest)?;
    Ok((params, rest))
}

fn block_params<'a>(
    alloc: Global,
    registers: u32,
    text: &[u8],
    tokens: &'a [Token],
) -> Read<'a, ListOf<Param>>
    ensures { IsRead (block_params_at registers) text.now tokens.now result }
{
    if begins_mark(Mark::OpenRound, tokens) {
        round_params(alloc, registers, text, tokens)
    } else {
        Ok((ListOf::new(alloc), tokens))
    }
}

/// The parameters of a block, and the colon.
#[tactic(auto, unfolding(crate::specs::Blocks::head_at))]
pub fn head<'a>(
    alloc: Global,
    registers: u32,
    text: &[u8],
    tokens: &'a [Token],
) -> Read<'a, ListOf<Param>>
    ensures { IsRead (head_at registers) text.now tokens.now result }
{
    let (params, rest) = block_params(alloc, registers, text, tokens)?;
    let rest = take_mark(Mark::Colon, rest)?;
    Ok((params, rest))
}
