//! Values with their types, lists of them, and goals.
ghost use Rattle.std.specs.Prelude.{◌≡◌};
ghost use Rattle.ir_reader.specs.View.{IsRead, onto};
ghost use Rattle.ir_reader.specs.Parts.{typed_at, next_typed_at, more_at, values_at, some_values_at, round_at, args_at, goal_args_at, goal_at};

use crate::leaves::{among, begins_any_word, label, val};
use crate::marks::{begins_mark, take_mark};
use crate::stop::{Read, Stop};
use bsan_ids::ListOf;
use ir_ast::{Goal, Mark, Ty, TypedVal};
use ir_text::Token;
use std::alloc::Global;

#[tactic(auto, unfolding(crate::specs::Parts::typed_at))]
fn typed_val<'a>(alloc: Global, text: &[u8], tokens: &'a [Token]) -> Read<'a, TypedVal>
    ensures { IsRead typed_at text.now tokens.now result }
{
    let (ty, rest) = among::<Ty>(text, tokens)?;
    let (val, rest) = val(alloc, ty, text, rest)?;
    Ok((TypedVal { ty, val }, rest))
}

#[tactic(auto, unfolding(crate::specs::Parts::next_typed_at))]
fn next_typed_val<'a>(alloc: Global, text: &[u8], tokens: &'a [Token]) -> Read<'a, TypedVal>
    ensures { IsRead next_typed_at text.now tokens.now result }
{
    let rest = take_mark(Mark::Comma, tokens)?;
    typed_val(alloc, text, rest)
}

/// Appends the values that follow, each after a comma.
fn more<'a>(
    alloc: Global,
    front: ListOf<TypedVal>,
    text: &[u8],
    tokens: &'a [Token],
) -> Read<'a, ListOf<TypedVal>>
    ensures { IsRead (onto front more_at) text.now tokens.now result }
{
    let mut values = front;
    let mut rest = tokens;
    while begins_mark(Mark::Comma, rest) {
        let (value, after) = next_typed_val(alloc, text, rest)?;
        values.push(value)?;
        rest = after;
    }
    Ok((values, rest))
}

fn values<'a>(alloc: Global, text: &[u8], tokens: &'a [Token]) -> Read<'a, ListOf<TypedVal>>
    ensures { IsRead values_at text.now tokens.now result }
{
    let (first, rest) = typed_val(alloc, text, tokens)?;
    let mut front = ListOf::new(alloc);
    front.push(first)?;
    more(alloc, front, text, rest)
}

fn some_values<'a>(alloc: Global, text: &[u8], tokens: &'a [Token]) -> Read<'a, ListOf<TypedVal>>
    ensures { IsRead some_values_at text.now tokens.now result }
{
    if begins_any_word(tokens) {
        values(alloc, text, tokens)
    } else {
        Ok((ListOf::new(alloc), tokens))
    }
}

/// The arguments of a call.
#[tactic(auto, unfolding(crate::specs::Parts::args_at))]
pub fn args<'a>(alloc: Global, text: &[u8], tokens: &'a [Token]) -> Read<'a, ListOf<TypedVal>>
    ensures { IsRead args_at text.now tokens.now result }
{
    let rest = take_mark(Mark::OpenRound, tokens)?;
    let (values, rest) = some_values(alloc, text, rest)?;
    let rest = take_mark(Mark::CloseRound, rest)?;
    Ok((values, rest))
}

#[tactic(auto, unfolding(crate::specs::Parts::round_at))]
fn round<'a>(alloc: Global, text: &[u8], tokens: &'a [Token]) -> Read<'a, ListOf<TypedVal>>
    ensures { IsRead round_at text.now tokens.now result }
{
    let rest = take_mark(Mark::OpenRound, tokens)?;
    let (values, rest) = values(alloc, text, rest)?;
    let rest = take_mark(Mark::CloseRound, rest)?;
    Ok((values, rest))
}

fn goal_args<'a>(alloc: Global, text: &[u8], tokens: &'a [Token]) -> Read<'a, ListOf<TypedVal>>
    ensures { IsRead goal_args_at text.now tokens.now result }
{
    if begins_mark(Mark::OpenRound, tokens) {
        round(alloc, text, tokens)
    } else {
        Ok((ListOf::new(alloc), tokens))
    }
}

/// Where a jump goes, and its arguments.
#[tactic(auto, unfolding(crate::specs::Parts::goal_at))]
pub fn goal<'a>(alloc: Global, text: &[u8], tokens: &'a [Token]) -> Read<'a, Goal>
    ensures { IsRead goal_at text.now tokens.now result }
{
    let (label, rest) = label(alloc, text, tokens)?;
    let (args, rest) = goal_args(alloc, text, rest)?;
    Ok((Goal { label, args }, rest))
}
