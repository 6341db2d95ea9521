//! Reading a text as a program.
ghost use Rattle.std.specs.Prelude.{◌≡◌, ◌≤◌, ◌-◌, false, length, take, Ok, IfOk, IfErr, ℕ, List};
ghost use Rattle.ir_text.specs.Bytes.{most_bytes};
ghost use Rattle.ir_text.specs.Lexed.{Lexed, good};
ghost use Rattle.ir_ast.specs.Programs.{IsProgram, KeepsLimits};
ghost use Rattle.ir_ast.specs.declared.program.Program.{Program};
ghost use Rattle.ir_reader.specs.View.{lexes};
ghost use Rattle.ir_reader.specs.Readings.{place_of, IsProgramOf, IsRefusal, AnswersUnlessMemory};
ghost use Rattle.ir_reader.specs.Told.{ends_equal, next_int_to_ptr, front_of, fault_at};

use crate::fault::ReadFault;
use crate::leaves::bytes_of;
use crate::marks::kind_is;
use crate::programs::whole;
use crate::stop::Stop;
use ir_ast::{Mark, Program};
use ir_text::{LexFault, MOST_BYTES, Token, TokenKind, tokens};
use phrase::Cause;
use std::alloc::Global;

/// Whether the last token is `=`.
fn ends_equal(tokens: &[Token]) -> bool
    ensures { (text : List ℕ) → result ≡ ends_equal false (lexes text tokens.now) }
{
    match tokens {
        [.., last] => kind_is(Mark::Equals, last.kind),
        [] => false,
    }
}

/// Whether the word `inttoptr` is next.
fn next_int_to_ptr(text: &[u8], tokens: &[Token]) -> bool
    ensures { result ≡ next_int_to_ptr (lexes text.now tokens.now) }
{
    let [first, ..] = tokens else {
        return false;
    };
    match first.kind {
        TokenKind::Word => bytes_of(text, first) == b"inttoptr".as_slice(),
        _ => false,
    }
}

/// The place of the first token, or the end of the text.
fn place_of(end: u32, tokens: &[Token]) -> u32
    ensures { (text : List ℕ) → result ≡ place_of end (lexes text tokens.now) }
{
    match tokens {
        [first, ..] => first.span.start,
        [] => end,
    }
}

/// The refusal at the first token of the rest, after the front.
fn fault_at(end: u32, text: &[u8], front: &[Token], cause: Cause, rest: &[Token]) -> ReadFault
    ensures { result ≡ fault_at end (lexes text.now front.now) cause (lexes text.now rest.now) }
{
    let at = place_of(end, rest);
    match cause {
        Cause::Unexpected => {
            if ends_equal(front) && next_int_to_ptr(text, rest) {
                ReadFault::IntToPtr { at }
            } else {
                ReadFault::Unexpected { at }
            }
        }
        Cause::NumberTooLarge => ReadFault::NumberTooLarge { at },
        Cause::TooLarge => ReadFault::TooLarge { at },
    }
}

/// The tokens before these last ones.
fn front_of<'a>(tokens: &'a [Token], rest: &[Token]) -> &'a [Token]
    requires { length rest.now ≤ length tokens.now }
    ensures { result.now ≡ take (length tokens.now - length rest.now) tokens.now }
{
    &tokens[..tokens.len() - rest.len()]
}

/// The program that the tokens of the text are.
fn read_tokens(alloc: Global, text: &[u8], tokens: &[Token]) -> Result<Program, ReadFault>
    requires small { length text.now ≤ most_bytes }
    requires lexed { Lexed text.now 0 (good tokens.now) }
    ensures program { IfOk result (λ p. IsProgramOf text.now p) }
    ensures refused { IfErr result (λ fault. IsRefusal text.now fault) }
{
    let end = text.len() as u32;
    match whole(alloc, text, tokens) {
        Ok((version, functions)) => Ok(Program {
            version,
            functions,
            end,
        }),
        Err(Stop::Memory) => Err(ReadFault::NoMemory),
        Err(Stop::At(cause, rest)) => Err(fault_at(end, text, front_of(tokens, rest), cause, rest)),
    }
}

/// The program of a text, or why and where the text is no program's.
///
/// Its time is linear in the text's length, and its memory is that of the tokens and the program.
///
/// # Errors
///
/// `ReadFault` by its cause and place; `NoMemory`: out of memory.
pub fn read(alloc: Global, text: &[u8]) -> Result<Program, ReadFault>
    ensures program { IfOk result (λ p. IsProgramOf text.now p) }
    ensures is_program { IfOk result (λ p. IsProgram p) }
    ensures keeps_limits { IfOk result (λ p. KeepsLimits p) }
    ensures only { (p : Program) → IsProgramOf text.now p → AnswersUnlessMemory result (Ok p) }
    ensures refused { IfErr result (λ fault. IsRefusal text.now fault) }
{
    if text.len() > MOST_BYTES {
        return Err(ReadFault::TooLarge {
            at: MOST_BYTES as u32,
        });
    }
    match tokens(alloc, text) {
        Ok(tokens) => read_tokens(alloc, text, &tokens),
        Err(LexFault::BadByte { at }) => Err(ReadFault::BadByte { at }),
        Err(LexFault::NoMemory) => Err(ReadFault::NoMemory),
    }
}
