//! The lexer's loop over a text.
ghost use Rattle.std.specs.Prelude.{◌≡◌, ◌≤◌, ◌<◌, ◌+◌, length, drop, slice_index, IfOk, IfErr};
ghost use Rattle.ll_text.specs.Bytes.{most_bytes};
ghost use Rattle.ll_text.specs.Step.{step_of};
ghost use Rattle.ll_text.specs.Lexed.{Lexed, good, IsTextFault};

use crate::step::{Step, front_of};
use crate::token::{TextFault, Token};
use bsan_ids::Span;
use std::alloc::Global;

/// The most bytes of a text.
pub const MOST_BYTES: usize = 67_108_864;

/// What the text has at the place `at`.
fn front_at(text: &[u8], at: usize) -> Step
    requires { at < length text.now }
    ensures { result ≡ step_of (slice_index text.now at) (drop (at + 1) text.now) }
{
    let (_, rest) = text.split_at(at + 1);
    front_of(text[at], rest)
}

/// The tokens of a text of at most [`MOST_BYTES`], in order, by the longest match.
///
/// Its time is linear in the text's length, and its memory is that of the tokens.
///
/// # Errors
///
/// `BadByte` with the place of the first byte outside a comment that separates no tokens and begins none: a byte
/// outside the alphabet, a `%`, `@` or `$` without a name, a `#` without a name byte, or a `"` that none closes.
/// `NoMemory`: out of memory.
pub fn tokens(alloc: Global, text: &[u8]) -> Result<Vec<Token>, TextFault>
    requires { length text.now ≤ most_bytes }
    ensures tokens { IfOk result (λ v. Lexed text.now 0 (good v.items)) }
    ensures bad { IfErr result (λ e. IsTextFault text.now e) }
{
    let mut found = Vec::new(alloc);
    let mut at = 0;
    while at < text.len() {
        match front_at(text, at) {
            Step::Skip(len) => at += len,
            Step::Token(kind, len) => {
                let span = Span {
                    start: at as u32,
                    len: len as u32,
                };
                found.push(Token { kind, span })?;
                at += len;
            }
            Step::Bad => return Err(TextFault::BadByte { at: at as u32 }),
        }
    }
    Ok(found)
}
