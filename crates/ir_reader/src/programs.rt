//! Functions and programs.
ghost use Rattle.std.specs.Prelude.{◌≡◌, ◌+◌, ◌<◌, ◌≤◌, length, codes, IfOk};
ghost use Rattle.std.specs.List.{sum_by};
ghost use Rattle.phrase.specs.Reading.{one};
ghost use Rattle.phrase.specs.Whole.{all_of};
ghost use Rattle.ir_ast.specs.Lines.{most_functions, most_registers, block_instructions};
ghost use Rattle.ir_reader.specs.View.{lexes, IsRead, IsReadCounted, IsTaken, begins, onto};
ghost use Rattle.ir_reader.specs.Told.{GivesAll};
ghost use Rattle.ir_reader.specs.Wants.{begins_if, is_word};
ghost use Rattle.ir_reader.specs.Blocks.{want_version, func_at, function_at, more_functions_at, functions_at, program_at};

use crate::blocks::{Before, closed_blocks};
use crate::leaves::{bytes_of, global, word};
use crate::numbers::number;
use crate::params::{arrow_result, function_params};
use crate::stop::{Read, Stop};
use bsan_ids::ListOf;
use ir_ast::{Function, MOST_FUNCTIONS, Param};
use ir_text::{Token, TokenKind};
use phrase::Cause;
use std::alloc::Global;

/// Whether `func` is next.
fn begins_func(text: &[u8], tokens: &[Token]) -> bool
    ensures { result ≡ begins (begins_if (is_word (codes "func"))) (lexes text.now tokens.now) }
{
    let [first, ..] = tokens else {
        return false;
    };
    match first.kind {
        TokenKind::Word => bytes_of(text, first) == b"func".as_slice(),
        _ => false,
    }
}

/// Takes the `func` that begins a function, after this many functions.
#[tactic(auto, unfolding(crate::specs::Blocks::func_at))]
fn func<'a>(functions: u32, text: &[u8], tokens: &'a [Token]) -> Result<&'a [Token], Stop<'a>>
    ensures taken { IsTaken (func_at functions) text.now tokens.now result }
    ensures within { IfOk result (λ _. functions < most_functions) }
{
    let [first, rest @ ..] = tokens else {
        return Err(Stop::At(Cause::Unexpected, tokens));
    };
    match first.kind {
        TokenKind::Word if bytes_of(text, first) == b"func".as_slice() => {
            if functions < MOST_FUNCTIONS {
                Ok(rest)
            } else {
                Err(Stop::At(Cause::TooLarge, tokens))
            }
        }
        _ => Err(Stop::At(Cause::Unexpected, tokens)),
    }
}

/// How many registers the parameters define.
fn registers_of(params: &ListOf<Param>) -> u32
    requires { length params.now ≤ most_registers }
    ensures { result ≡ length params.now }
{
    params.len() as u32
}

/// A function, after this many functions and instructions of the program, and the number of the program's
/// instructions up to its last.
#[tactic(auto, unfolding(crate::specs::Blocks::function_at))]
fn function<'a>(
    alloc: Global,
    version: u8,
    functions: u32,
    instructions: u32,
    text: &[u8],
    tokens: &'a [Token],
) -> Read<'a, (Function, u32)>
    ensures read { IsReadCounted (function_at version (functions, instructions)) text.now tokens.now result }
    ensures behind { IfOk result (λ x. x.0.1 ≡ instructions + sum_by block_instructions x.0.0.blocks) }
    ensures within { IfOk result (λ _. functions < most_functions) }
{
    let rest = func(functions, text, tokens)?;
    let (name, rest) = global(alloc, text, rest)?;
    let (params, rest) = function_params(alloc, version, text, rest)?;
    let (result, rest) = arrow_result(version, text, rest)?;
    let registers = registers_of(&params);
    let before = Before {
        instructions,
        registers,
    };
    let ((blocks, behind), rest) = closed_blocks(alloc, version, before, text, rest)?;
    Ok((
        (
            Function {
                name,
                params,
                result,
                blocks,
            },
            behind,
        ),
        rest,
    ))
}

/// Appends the functions that follow.
fn more_functions<'a>(
    alloc: Global,
    version: u8,
    functions: u32,
    instructions: u32,
    front: ListOf<Function>,
    text: &[u8],
    tokens: &'a [Token],
) -> Read<'a, ListOf<Function>>
    ensures { IsRead (onto front (more_functions_at version (functions, instructions))) text.now tokens.now result }
{
    let mut found = front;
    let mut count = functions;
    let mut before = instructions;
    let mut rest = tokens;
    while begins_func(text, rest) {
        let ((next, behind), after) = function(alloc, version, count, before, text, rest)?;
        found.push(next)?;
        count += 1;
        before = behind;
        rest = after;
    }
    Ok((found, rest))
}

fn functions<'a>(
    alloc: Global,
    version: u8,
    text: &[u8],
    tokens: &'a [Token],
) -> Read<'a, ListOf<Function>>
    ensures { IsRead (functions_at version) text.now tokens.now result }
{
    let ((first, behind), rest) = function(alloc, version, 0, 0, text, tokens)?;
    let mut front = ListOf::new(alloc);
    front.push(first)?;
    more_functions(alloc, version, 1, behind, front, text, rest)
}

/// The number of a version, which is 1 or 2.
fn version<'a>(text: &[u8], tokens: &'a [Token]) -> Read<'a, u8>
    ensures { IsRead (one want_version) text.now tokens.now result }
{
    let [first, rest @ ..] = tokens else {
        return Err(Stop::At(Cause::Unexpected, tokens));
    };
    if let TokenKind::Number = first.kind
        && let Some(number) = number(bytes_of(text, first), 2)
        && 1 <= number
    {
        Ok((number as u8, rest))
    } else {
        Err(Stop::At(Cause::Unexpected, tokens))
    }
}

/// The version of a program, after `bir`, and its functions.
#[tactic(auto, unfolding(crate::specs::Blocks::program_at))]
fn program<'a>(alloc: Global, text: &[u8], tokens: &'a [Token]) -> Read<'a, (u8, ListOf<Function>)>
    ensures { IsRead program_at text.now tokens.now result }
{
    let rest = word(b"bir".as_slice(), text, tokens)?;
    let (version, rest) = version(text, rest)?;
    let (functions, rest) = functions(alloc, version, text, rest)?;
    Ok(((version, functions), rest))
}

/// The version and the functions of the program that all of the tokens are.
pub fn whole<'a>(
    alloc: Global,
    text: &[u8],
    tokens: &'a [Token],
) -> Result<(u8, ListOf<Function>), Stop<'a>>
    ensures { GivesAll text.now result (all_of program_at (lexes text.now tokens.now)) }
{
    let (program, rest) = program(alloc, text, tokens)?;
    match rest {
        [] => Ok(program),
        [_, ..] => Err(Stop::At(Cause::Unexpected, rest)),
    }
}
