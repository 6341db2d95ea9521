//! What is at the front of a text.
ghost use Rattle.std.specs.Prelude.{◌≡◌, ◌+◌, length, take_while};
ghost use Rattle.bsan_ids.specs.Names.{is_digit, is_start, is_name};
ghost use Rattle.ir_text.specs.Bytes.{is_blank, in_line, mark_of};
ghost use Rattle.ir_text.specs.Step.{step_of, named, arrow_of};

use crate::token::TokenKind;

/// What is at the front of a text.
#[derive(Clone, Copy)]
pub enum Step {
    /// A blank or a comment of this many bytes.
    Skip(usize),
    /// A token of this many bytes, the longest that begins there.
    Token(TokenKind, usize),
    /// A byte that begins no token.
    Bad,
}

/// A space, a tab, a carriage return or a newline.
fn is_blank(byte: u8) -> bool
    ensures { result ≡ is_blank byte }
{
    matches!(byte, b' ' | b'\t' | b'\r' | b'\n')
}

/// A decimal digit.
fn is_digit(byte: u8) -> bool
    ensures { result ≡ is_digit byte }
{
    b'0' <= byte && byte <= b'9'
}

/// A letter or `_`.
fn is_start(byte: u8) -> bool
    ensures { result ≡ is_start byte }
{
    b'a' <= byte && byte <= b'z' || b'A' <= byte && byte <= b'Z' || byte == b'_'
}

/// A letter, a digit, `_` or `.`.
fn is_name(byte: u8) -> bool
    ensures { result ≡ is_name byte }
{
    is_start(byte) || is_digit(byte) || byte == b'.'
}

/// The mark of one byte that this byte is.
fn mark_of(byte: u8) -> Option<TokenKind>
    ensures { result ≡ mark_of byte }
{
    match byte {
        b'(' => Some(TokenKind::OpenRound),
        b')' => Some(TokenKind::CloseRound),
        b'{' => Some(TokenKind::OpenBrace),
        b'}' => Some(TokenKind::CloseBrace),
        b',' => Some(TokenKind::Comma),
        b':' => Some(TokenKind::Colon),
        b'=' => Some(TokenKind::Equals),
        _ => None,
    }
}

/// How many name bytes are in front.
fn name_len(text: &[u8]) -> usize
    ensures { result ≡ length (take_while is_name text.now) }
{
    text.iter().take_while(|byte| is_name(**byte)).count()
}

/// How many digits are in front.
fn digits_len(text: &[u8]) -> usize
    ensures { result ≡ length (take_while is_digit text.now) }
{
    text.iter().take_while(|byte| is_digit(**byte)).count()
}

/// How many bytes are in front of the next newline.
fn line_len(text: &[u8]) -> usize
    ensures { result ≡ length (take_while in_line text.now) }
{
    text.iter().take_while(|byte| **byte != b'\n').count()
}

/// What is at the sign of a name of this kind, by what follows the sign.
fn named(kind: TokenKind, rest: &[u8]) -> Step
    ensures { result ≡ named kind rest.now }
{
    let len = name_len(rest);
    if len == 0 {
        Step::Bad
    } else {
        Step::Token(kind, 1 + len)
    }
}

/// What is at a `-`, by what follows it.
fn arrow(rest: &[u8]) -> Step
    ensures { result ≡ arrow_of rest.now }
{
    match rest {
        [b'>', ..] => Step::Token(TokenKind::Arrow, 2),
        _ => Step::Bad,
    }
}

/// What is at the front of a text, by its first byte and the rest.
pub fn front_of(first: u8, rest: &[u8]) -> Step
    ensures { result ≡ step_of first rest.now }
{
    if is_blank(first) {
        Step::Skip(1)
    } else if first == b';' {
        Step::Skip(1 + line_len(rest))
    } else if is_start(first) {
        Step::Token(TokenKind::Word, 1 + name_len(rest))
    } else if is_digit(first) {
        Step::Token(TokenKind::Number, 1 + digits_len(rest))
    } else if first == b'%' {
        named(TokenKind::Local, rest)
    } else if first == b'@' {
        named(TokenKind::Global, rest)
    } else if first == b'-' {
        arrow(rest)
    } else if let Some(kind) = mark_of(first) {
        Step::Token(kind, 1)
    } else {
        Step::Bad
    }
}
