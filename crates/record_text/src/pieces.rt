//! Pieces of memory.
ghost use Rattle.std.specs.Prelude.{◌≡◌, option_map};
ghost use Rattle.record_text.specs.Reading.{Gives, one, IsRead};
ghost use Rattle.record_text.specs.Parts.{byte_in, few_in, enclosed, listed, piece_in};

use crate::cut::{cut, next, two};
use crate::fields::frag_in;
use crate::numbers::number8;
use crate::stop::{Read, Stop, Words};
use bsan_ids::Frag;
use history::Piece;
use std::alloc::Global;

/// A byte, and behind `:` its fragment, if it has one.
#[tactic(auto, using(crate::proofs::Prefixes::byte_more), unfolding(crate::specs::Parts::byte_in))]
fn byte_in(word: &[u8]) -> Option<(u8, Option<Frag>)>
    ensures { result ≡ byte_in word.now }
{
    let (byte, rest) = cut(word, b':');
    let Some(rest) = rest else {
        let byte = number8(byte)?;
        return Some((byte, None));
    };
    let (frag, rest) = cut(rest, b':');
    if rest.is_some() {
        return None;
    }
    let byte = number8(byte)?;
    let frag = frag_in(frag)?;
    Some((byte, Some(frag)))
}

/// What is between `[` and `]`.
#[tactic(auto, unfolding(crate::specs::Parts::enclosed))]
fn enclosed(word: &[u8]) -> Option<&[u8]>
    ensures { option_map (λ x. x.now) result ≡ enclosed word.now }
{
    let (before, rest) = two(word, b'[')?;
    if !before.is_empty() {
        return None;
    }
    let (inner, after) = two(rest, b']')?;
    if after.is_empty() { Some(inner) } else { None }
}

/// The bytes of a text with commas between them, at most 32.
fn bytes_in(alloc: Global, text: &[u8]) -> Result<Piece, Stop>
    ensures { Gives (λ x. x) result (few_in text.now) }
{
    let mut piece = Piece::new(alloc);
    let mut left = Some(text);
    while let Some(rest) = left {
        let (word, after) = cut(rest, b',');
        let Some((byte, frag)) = byte_in(word) else {
            return Err(Stop::Bad);
        };
        if piece.len() == 32 {
            return Err(Stop::Bad);
        }
        piece.push(byte, frag)?;
        left = after;
    }
    Ok(piece)
}

/// The bytes that are listed in a text, which may be none.
fn listed(alloc: Global, text: &[u8]) -> Result<Piece, Stop>
    ensures { Gives (λ x. x) result (listed text.now) }
{
    if text.is_empty() {
        return Ok(Piece::new(alloc));
    }
    bytes_in(alloc, text)
}

/// A piece.
#[tactic(auto, unfolding(crate::specs::Parts::piece_in))]
fn piece_in(alloc: Global, word: &[u8]) -> Result<Piece, Stop>
    ensures { Gives (λ x. x) result (piece_in word.now) }
{
    match enclosed(word) {
        Some(inner) => listed(alloc, inner),
        None => Err(Stop::Bad),
    }
}

/// A piece of at most 32 bytes.
pub fn piece_at(alloc: Global, words: Words<'_>) -> Read<'_, Piece>
    ensures { IsRead (one piece_in) words.entry result }
{
    let (word, rest) = next(words)?;
    let piece = piece_in(alloc, word)?;
    Ok((piece, rest))
}
