//! Marks.
ghost use Rattle.std.specs.Prelude.{◌≡◌, ℕ, List};
ghost use Rattle.ir_reader.specs.View.{lexes, IsTaken, begins};
ghost use Rattle.ir_reader.specs.Wants.{kind_is, is_mark, begins_if};
ghost use Rattle.ir_reader.specs.Parts.{mark_at};

use crate::stop::Stop;
use ir_ast::Mark;
use ir_text::{Token, TokenKind};
use phrase::Cause;

/// Whether a token of the kind is the mark.
pub fn kind_is(mark: Mark, kind: TokenKind) -> bool
    ensures { result ≡ kind_is mark kind }
{
    matches!(
        (mark, kind),
        (Mark::OpenRound, TokenKind::OpenRound)
            | (Mark::CloseRound, TokenKind::CloseRound)
            | (Mark::OpenBrace, TokenKind::OpenBrace)
            | (Mark::CloseBrace, TokenKind::CloseBrace)
            | (Mark::Comma, TokenKind::Comma)
            | (Mark::Colon, TokenKind::Colon)
            | (Mark::Equals, TokenKind::Equals)
            | (Mark::Arrow, TokenKind::Arrow)
    )
}

/// Whether the next token is the mark.
#[tactic(auto, using(crate::proofs::MarkForms::mark_by_kind))]
pub fn begins_mark(mark: Mark, tokens: &[Token]) -> bool
    ensures { (text : List ℕ) → result ≡ begins (begins_if (is_mark mark)) (lexes text tokens.now) }
{
    match tokens {
        [first, ..] => kind_is(mark, first.kind),
        [] => false,
    }
}

/// Takes the mark.
#[tactic(auto, using(crate::proofs::MarkForms::mark_by_kind))]
pub fn take_mark<'a>(mark: Mark, tokens: &'a [Token]) -> Result<&'a [Token], Stop<'a>>
    ensures { (text : List ℕ) → IsTaken (mark_at mark) text tokens.now result }
{
    match tokens {
        [first, rest @ ..] if kind_is(mark, first.kind) => Ok(rest),
        _ => Err(Stop::At(Cause::Unexpected, tokens)),
    }
}
