//! Single tokens: names, numbers, and words that stand for a value.
ghost use Rattle.std.specs.Prelude.{◌≡◌, ℕ, ◌+◌, ◌^◌, List, take, drop};
ghost use Rattle.ir_ast.specs.Words.{modulus};
ghost use Rattle.phrase.specs.Lexes.{token_bytes};
ghost use Rattle.phrase.specs.Reading.{one};
ghost use Rattle.ir_reader.specs.View.{lexes, IsRead, IsTaken, begins};
ghost use Rattle.ir_reader.specs.Tables.{kinds};
ghost use Rattle.ir_reader.specs.Wants.{want_if, begins_if, is_word, is_any_word, want_local, want_global, want_label, want_among, want_placed, want_amount, want_val};

use crate::numbers::{greatest, number};
use crate::stop::{Read, Stop};
use crate::tables::{Word, kind_of};
use bsan_ids::Name;
use ir_ast::{Named, Ty, Val, Width};
use ir_text::{Token, TokenKind};
use perm_table::RetagKind;
use phrase::Cause;
use std::alloc::Global;

/// At most `len` bytes from `start` on.
fn piece(text: &[u8], start: usize, len: usize) -> &[u8]
    ensures { result.now ≡ take len (drop start text.now) }
{
    let rest = if start < text.len() {
        &text[start..]
    } else {
        &text[text.len()..]
    };
    if len < rest.len() { &rest[..len] } else { rest }
}

pub fn bytes_of<'t>(text: &'t [u8], token: &Token) -> &'t [u8]
    ensures { result.now ≡ token_bytes text.now token.now }
{
    piece(text, token.span.start as usize, token.span.len as usize)
}

/// The bytes of a name, without the sign before it.
pub fn name_of<'t>(text: &'t [u8], token: &Token) -> &'t [u8]
    ensures { result.now ≡ drop 1 (token_bytes text.now token.now) }
{
    let bytes = bytes_of(text, token);
    match bytes {
        [_, name @ ..] => name,
        [] => bytes,
    }
}

/// Whether a word is next.
pub fn begins_any_word(tokens: &[Token]) -> bool
    ensures { (text : List ℕ) → result ≡ begins (begins_if is_any_word) (lexes text tokens.now) }
{
    match tokens {
        [
            Token {
                kind: TokenKind::Word,
                ..
            },
            ..
        ] => true,
        _ => false,
    }
}

/// Takes this word.
pub fn word<'a>(wanted: &[u8], text: &[u8], tokens: &'a [Token]) -> Result<&'a [Token], Stop<'a>>
    ensures { IsTaken (one (want_if (is_word wanted.now))) text.now tokens.now result }
{
    let [first, rest @ ..] = tokens else {
        return Err(Stop::At(Cause::Unexpected, tokens));
    };
    match first.kind {
        TokenKind::Word if bytes_of(text, first) == wanted => Ok(rest),
        _ => Err(Stop::At(Cause::Unexpected, tokens)),
    }
}

/// A register.
pub fn local<'a>(alloc: Global, text: &[u8], tokens: &'a [Token]) -> Read<'a, Named>
    ensures { IsRead (one want_local) text.now tokens.now result }
{
    let [first, rest @ ..] = tokens else {
        return Err(Stop::At(Cause::Unexpected, tokens));
    };
    match first.kind {
        TokenKind::Local => {
            let name = Name::from_slice(alloc, name_of(text, first))?;
            let at = first.span.start;
            Ok((Named { name, at }, rest))
        }
        _ => Err(Stop::At(Cause::Unexpected, tokens)),
    }
}

/// A function's or a host's name.
pub fn global<'a>(alloc: Global, text: &[u8], tokens: &'a [Token]) -> Read<'a, Named>
    ensures { IsRead (one want_global) text.now tokens.now result }
{
    let [first, rest @ ..] = tokens else {
        return Err(Stop::At(Cause::Unexpected, tokens));
    };
    match first.kind {
        TokenKind::Global => {
            let name = Name::from_slice(alloc, name_of(text, first))?;
            let at = first.span.start;
            Ok((Named { name, at }, rest))
        }
        _ => Err(Stop::At(Cause::Unexpected, tokens)),
    }
}

/// A label.
pub fn label<'a>(alloc: Global, text: &[u8], tokens: &'a [Token]) -> Read<'a, Named>
    ensures { IsRead (one want_label) text.now tokens.now result }
{
    let [first, rest @ ..] = tokens else {
        return Err(Stop::At(Cause::Unexpected, tokens));
    };
    match first.kind {
        TokenKind::Word => {
            let name = Name::from_slice(alloc, bytes_of(text, first))?;
            let at = first.span.start;
            Ok((Named { name, at }, rest))
        }
        _ => Err(Stop::At(Cause::Unexpected, tokens)),
    }
}

/// The value that the next word stands for.
pub fn among<'a, T: Word>(text: &[u8], tokens: &'a [Token]) -> Read<'a, T>
    ensures { IsRead (one (want_among T.words)) text.now tokens.now result }
{
    let [first, rest @ ..] = tokens else {
        return Err(Stop::At(Cause::Unexpected, tokens));
    };
    if let TokenKind::Word = first.kind
        && let Some(value) = T::of_word(bytes_of(text, first))
    {
        Ok((value, rest))
    } else {
        Err(Stop::At(Cause::Unexpected, tokens))
    }
}

/// The value that the next word stands for, and the word's place.
pub fn placed<'a, T: Word>(text: &[u8], tokens: &'a [Token]) -> Read<'a, (T, u32)>
    ensures { IsRead (one (want_placed T.words)) text.now tokens.now result }
{
    let [first, rest @ ..] = tokens else {
        return Err(Stop::At(Cause::Unexpected, tokens));
    };
    if let TokenKind::Word = first.kind
        && let Some(value) = T::of_word(bytes_of(text, first))
    {
        Ok(((value, first.span.start), rest))
    } else {
        Err(Stop::At(Cause::Unexpected, tokens))
    }
}

/// A kind of retag of the version.
pub fn kind<'a>(version: u8, text: &[u8], tokens: &'a [Token]) -> Read<'a, RetagKind>
    ensures { IsRead (one (want_among (kinds version))) text.now tokens.now result }
{
    let [first, rest @ ..] = tokens else {
        return Err(Stop::At(Cause::Unexpected, tokens));
    };
    if let TokenKind::Word = first.kind
        && let Some(value) = kind_of(version, bytes_of(text, first))
    {
        Ok((value, rest))
    } else {
        Err(Stop::At(Cause::Unexpected, tokens))
    }
}

/// A number of the width.
pub fn amount<'a>(width: Width, text: &[u8], tokens: &'a [Token]) -> Read<'a, u64>
    ensures { IsRead (one (want_amount (modulus width))) text.now tokens.now result }
{
    let [first, rest @ ..] = tokens else {
        return Err(Stop::At(Cause::Unexpected, tokens));
    };
    match first.kind {
        TokenKind::Number => match number(bytes_of(text, first), greatest(width)) {
            Some(value) => Ok((value, rest)),
            None => Err(Stop::At(Cause::NumberTooLarge, tokens)),
        },
        _ => Err(Stop::At(Cause::Unexpected, tokens)),
    }
}

/// How many bytes something has.
pub fn size<'a>(text: &[u8], tokens: &'a [Token]) -> Read<'a, u32>
    ensures { IsRead (one (want_amount (2 ^ 32))) text.now tokens.now result }
{
    let [first, rest @ ..] = tokens else {
        return Err(Stop::At(Cause::Unexpected, tokens));
    };
    match first.kind {
        TokenKind::Number => match number(bytes_of(text, first), u64::from(u32::MAX)) {
            Some(value) => Ok((value as u32, rest)),
            None => Err(Stop::At(Cause::NumberTooLarge, tokens)),
        },
        _ => Err(Stop::At(Cause::Unexpected, tokens)),
    }
}

/// A register, or a number where the type is an integer's.
pub fn val<'a>(alloc: Global, ty: Ty, text: &[u8], tokens: &'a [Token]) -> Read<'a, Val>
    ensures { IsRead (one (want_val ty)) text.now tokens.now result }
{
    let [first, rest @ ..] = tokens else {
        return Err(Stop::At(Cause::Unexpected, tokens));
    };
    match (ty, first.kind) {
        (_, TokenKind::Local) => {
            let name = Name::from_slice(alloc, name_of(text, first))?;
            let at = first.span.start;
            Ok((Val::Reg(Named { name, at }), rest))
        }
        (Ty::Int(width), TokenKind::Number) => {
            match number(bytes_of(text, first), greatest(width)) {
                Some(n) => Ok((Val::Num(n), rest)),
                None => Err(Stop::At(Cause::NumberTooLarge, tokens)),
            }
        }
        _ => Err(Stop::At(Cause::Unexpected, tokens)),
    }
}
