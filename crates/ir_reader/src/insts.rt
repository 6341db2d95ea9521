//! Instructions and terminators.
ghost use Rattle.std.specs.Prelude.{◌≡◌, ℕ, List};
ghost use Rattle.phrase.specs.Reading.{one};
ghost use Rattle.ir_reader.specs.View.{lexes, IsRead, begins};
ghost use Rattle.ir_reader.specs.Wants.{begins_if};
ghost use Rattle.ir_reader.specs.Blocks.{is_inst};
ghost use Rattle.ir_reader.specs.Insts.{is_local, want_defined, want_plain, want_jump, dest_at, plain_at, inst_at, defining_at, alone_at, br_at, next_goal_at, cond_br_at, returned_at, ret_at, jump_tail_at, term_at};

use crate::keywords::{JumpWord, Keyword, jump_of, plain_of};
use crate::leaves::{bytes_of, name_of, placed, val};
use crate::marks::take_mark;
use crate::operations::{defined, tail};
use crate::stop::{Read, Stop};
use crate::values::goal;
use bsan_ids::Name;
use ir_ast::{
    Goal, Inst, Jump, MOST_INSTRUCTIONS, MOST_REGISTERS, Mark, Named, Op, Term, Ty, TypedVal, Val,
    Width,
};
use ir_text::{Token, TokenKind};
use phrase::Cause;
use std::alloc::Global;

fn begins_local(tokens: &[Token]) -> bool
    ensures { (text : List ℕ) → result ≡ begins (begins_if is_local) (lexes text tokens.now) }
{
    match tokens {
        [
            Token {
                kind: TokenKind::Local,
                ..
            },
            ..
        ] => true,
        _ => false,
    }
}

/// Whether an instruction that is no terminator is next.
pub fn begins_inst(text: &[u8], tokens: &[Token]) -> bool
    ensures { result ≡ begins (begins_if is_inst) (lexes text.now tokens.now) }
{
    let [first, ..] = tokens else {
        return false;
    };
    match first.kind {
        TokenKind::Local => true,
        TokenKind::Word => plain_of(bytes_of(text, first)).is_some(),
        _ => false,
    }
}

/// A register that an instruction defines, and its place, which is the instruction's too.
fn defined_register<'a>(
    alloc: Global,
    instructions: u32,
    registers: u32,
    text: &[u8],
    tokens: &'a [Token],
) -> Read<'a, (Named, u32)>
    ensures { IsRead (one (want_defined instructions registers)) text.now tokens.now result }
{
    let [first, rest @ ..] = tokens else {
        return Err(Stop::At(Cause::Unexpected, tokens));
    };
    match first.kind {
        TokenKind::Local => {
            if instructions < MOST_INSTRUCTIONS && registers < MOST_REGISTERS {
                let name = Name::from_slice(alloc, name_of(text, first))?;
                let at = first.span.start;
                Ok(((Named { name, at }, at), rest))
            } else {
                Err(Stop::At(Cause::TooLarge, tokens))
            }
        }
        _ => Err(Stop::At(Cause::Unexpected, tokens)),
    }
}

/// The word of an operation that stands alone, and its place.
fn plain_word<'a>(instructions: u32, text: &[u8], tokens: &'a [Token]) -> Read<'a, (Keyword, u32)>
    ensures { IsRead (one (want_plain instructions)) text.now tokens.now result }
{
    let [first, rest @ ..] = tokens else {
        return Err(Stop::At(Cause::Unexpected, tokens));
    };
    if let TokenKind::Word = first.kind
        && let Some(value) = plain_of(bytes_of(text, first))
    {
        if instructions < MOST_INSTRUCTIONS {
            Ok(((value, first.span.start), rest))
        } else {
            Err(Stop::At(Cause::TooLarge, tokens))
        }
    } else {
        Err(Stop::At(Cause::Unexpected, tokens))
    }
}

/// The word of a terminator, and its place.
fn jump_word<'a>(instructions: u32, text: &[u8], tokens: &'a [Token]) -> Read<'a, (JumpWord, u32)>
    ensures { IsRead (one (want_jump instructions)) text.now tokens.now result }
{
    let [first, rest @ ..] = tokens else {
        return Err(Stop::At(Cause::Unexpected, tokens));
    };
    if let TokenKind::Word = first.kind
        && let Some(value) = jump_of(bytes_of(text, first))
    {
        if instructions < MOST_INSTRUCTIONS {
            Ok(((value, first.span.start), rest))
        } else {
            Err(Stop::At(Cause::TooLarge, tokens))
        }
    } else {
        Err(Stop::At(Cause::Unexpected, tokens))
    }
}

#[tactic(auto, unfolding(crate::specs::Insts::dest_at))]
fn dest<'a>(
    alloc: Global,
    instructions: u32,
    registers: u32,
    text: &[u8],
    tokens: &'a [Token],
) -> Read<'a, (Named, u32)>
    ensures { IsRead (dest_at instructions registers) text.now tokens.now result }
{
    let (register, rest) = defined_register(alloc, instructions, registers, text, tokens)?;
    let rest = take_mark(Mark::Equals, rest)?;
    Ok((register, rest))
}

/// An operation that stands alone, and the instruction's place.
#[tactic(auto, unfolding(crate::specs::Insts::plain_at))]
fn plain<'a>(
    alloc: Global,
    version: u8,
    instructions: u32,
    text: &[u8],
    tokens: &'a [Token],
) -> Read<'a, (Op, u32)>
    ensures { IsRead (plain_at version instructions) text.now tokens.now result }
{
    let ((keyword, at), rest) = plain_word(instructions, text, tokens)?;
    let (op, rest) = tail(alloc, version, false, keyword, text, rest)?;
    Ok(((op, at), rest))
}

#[tactic(auto, unfolding(crate::specs::Insts::defining_at))]
fn defining<'a>(
    alloc: Global,
    version: u8,
    instructions: u32,
    registers: u32,
    text: &[u8],
    tokens: &'a [Token],
) -> Read<'a, Inst>
    ensures { IsRead (defining_at version instructions registers) text.now tokens.now result }
{
    let ((register, at), rest) = dest(alloc, instructions, registers, text, tokens)?;
    let (op, rest) = defined(alloc, version, text, rest)?;
    let dest = Some(register);
    Ok((Inst { dest, at, op }, rest))
}

#[tactic(auto, unfolding(crate::specs::Insts::alone_at))]
fn alone<'a>(
    alloc: Global,
    version: u8,
    instructions: u32,
    text: &[u8],
    tokens: &'a [Token],
) -> Read<'a, Inst>
    ensures { IsRead (alone_at version instructions) text.now tokens.now result }
{
    let ((op, at), rest) = plain(alloc, version, instructions, text, tokens)?;
    let dest = None;
    Ok((Inst { dest, at, op }, rest))
}

/// An instruction, after this many instructions of the program and registers of the function.
pub fn inst<'a>(
    alloc: Global,
    version: u8,
    instructions: u32,
    registers: u32,
    text: &[u8],
    tokens: &'a [Token],
) -> Read<'a, Inst>
    ensures { IsRead (inst_at version instructions registers) text.now tokens.now result }
{
    if begins_local(tokens) {
        defining(alloc, version, instructions, registers, text, tokens)
    } else {
        alone(alloc, version, instructions, text, tokens)
    }
}

#[tactic(auto, unfolding(crate::specs::Insts::br_at))]
fn br<'a>(alloc: Global, text: &[u8], tokens: &'a [Token]) -> Read<'a, Jump>
    ensures { IsRead br_at text.now tokens.now result }
{
    let (goal, rest) = goal(alloc, text, tokens)?;
    Ok((Jump::Br(goal), rest))
}

#[tactic(auto, unfolding(crate::specs::Insts::next_goal_at))]
fn next_goal<'a>(alloc: Global, text: &[u8], tokens: &'a [Token]) -> Read<'a, Goal>
    ensures { IsRead next_goal_at text.now tokens.now result }
{
    let rest = take_mark(Mark::Comma, tokens)?;
    goal(alloc, text, rest)
}

#[tactic(auto, unfolding(crate::specs::Insts::cond_br_at))]
fn cond_br<'a>(alloc: Global, text: &[u8], tokens: &'a [Token]) -> Read<'a, Jump>
    ensures { IsRead cond_br_at text.now tokens.now result }
{
    let (cond, rest) = val(alloc, Ty::Int(Width::W8), text, tokens)?;
    let (yes, rest) = next_goal(alloc, text, rest)?;
    let (no, rest) = next_goal(alloc, text, rest)?;
    Ok((Jump::CondBr { cond, yes, no }, rest))
}

/// The value that is returned at this type.
#[tactic(auto, unfolding(crate::specs::Insts::returned_at))]
fn returned<'a>(
    alloc: Global,
    ty: Option<Ty>,
    text: &[u8],
    tokens: &'a [Token],
) -> Read<'a, Option<TypedVal>>
    ensures { IsRead (returned_at ty) text.now tokens.now result }
{
    match ty {
        Some(ty) => {
            let (val, rest) = val(alloc, ty, text, tokens)?;
            Ok((Some(TypedVal { ty, val }), rest))
        }
        None => Ok((None, tokens)),
    }
}

#[tactic(auto, unfolding(crate::specs::Insts::ret_at))]
fn ret<'a>(alloc: Global, text: &[u8], tokens: &'a [Token]) -> Read<'a, Jump>
    ensures { IsRead ret_at text.now tokens.now result }
{
    let ((ty, ty_at), rest) = placed::<Option<Ty>>(text, tokens)?;
    let (val, rest) = returned(alloc, ty, text, rest)?;
    Ok((Jump::Ret { val, ty_at }, rest))
}

fn jump_tail<'a>(alloc: Global, word: JumpWord, text: &[u8], tokens: &'a [Token]) -> Read<'a, Jump>
    ensures { IsRead (jump_tail_at word) text.now tokens.now result }
{
    match word {
        JumpWord::Br => br(alloc, text, tokens),
        JumpWord::CondBr => cond_br(alloc, text, tokens),
        JumpWord::Ret => ret(alloc, text, tokens),
        JumpWord::Unreachable => Ok((Jump::Unreachable, tokens)),
    }
}

/// A terminator, after this many instructions of the program.
#[tactic(auto, unfolding(crate::specs::Insts::term_at))]
pub fn term<'a>(
    alloc: Global,
    instructions: u32,
    text: &[u8],
    tokens: &'a [Token],
) -> Read<'a, Term>
    ensures { IsRead (term_at instructions) text.now tokens.now result }
{
    let ((word, at), rest) = jump_word(instructions, text, tokens)?;
    let (jump, rest) = jump_tail(alloc, word, text, rest)?;
    Ok((Term { at, jump }, rest))
}
