//! What is at the front of a text.
ghost use Rattle.std.specs.Prelude.{◌≡◌, ◌≤◌, ◌+◌, length, take_while};
ghost use Rattle.bsan_ids.specs.Names.{is_digit, is_start, is_name};
ghost use Rattle.ll_text.specs.Bytes.{is_blank, in_line, is_part, is_figure, in_quote, begins_word, begins_number, is_mark};
ghost use Rattle.ll_text.specs.Step.{step_of, closed_len, name_len, sized};

use crate::token::TokenKind;

/// What is at the front of a text.
#[derive(Clone, Copy)]
pub enum Step {
    /// A blank or a comment of this many bytes.
    Skip(usize),
    /// A token of this many bytes, the longest that begins there.
    Token(TokenKind, usize),
    /// A byte that begins no token.
    Bad,
}

/// A space, a tab, a carriage return or a newline.
fn is_blank(byte: u8) -> bool
    ensures { result ≡ is_blank byte }
{
    matches!(byte, b' ' | b'\t' | b'\r' | b'\n')
}

/// A decimal digit.
fn is_digit(byte: u8) -> bool
    ensures { result ≡ is_digit byte }
{
    b'0' <= byte && byte <= b'9'
}

/// A letter or `_`.
fn is_start(byte: u8) -> bool
    ensures { result ≡ is_start byte }
{
    b'a' <= byte && byte <= b'z' || b'A' <= byte && byte <= b'Z' || byte == b'_'
}

/// A name byte: a letter, a digit, `_`, `.`, `-` or `$`.
fn is_part(byte: u8) -> bool
    ensures { result ≡ is_part byte }
{
    is_start(byte) || is_digit(byte) || byte == b'.' || byte == b'-' || byte == b'$'
}

/// A name byte or `+`.
fn is_figure(byte: u8) -> bool
    ensures { result ≡ is_figure byte }
{
    is_part(byte) || byte == b'+'
}

/// A letter, `_` or `.`.
fn begins_word(byte: u8) -> bool
    ensures { result ≡ begins_word byte }
{
    is_start(byte) || byte == b'.'
}

/// A digit, `-` or `+`.
fn begins_number(byte: u8) -> bool
    ensures { result ≡ begins_number byte }
{
    is_digit(byte) || byte == b'-' || byte == b'+'
}

/// A mark.
fn is_mark(byte: u8) -> bool
    ensures { result ≡ is_mark byte }
{
    matches!(
        byte,
        b'(' | b')' | b'{' | b'}' | b'[' | b']' | b'<' | b'>' | b',' | b'=' | b'*' | b':' | b'|'
    )
}

/// How many name bytes are in front.
fn parts_len(text: &[u8]) -> usize
    ensures { result ≡ length (take_while is_part text.now) }
{
    text.iter().take_while(|byte| is_part(**byte)).count()
}

/// How many name bytes and `+` are in front.
fn figures_len(text: &[u8]) -> usize
    ensures { result ≡ length (take_while is_figure text.now) }
{
    text.iter().take_while(|byte| is_figure(**byte)).count()
}

/// How many bytes are in front of the next newline.
fn line_len(text: &[u8]) -> usize
    ensures { result ≡ length (take_while in_line text.now) }
{
    text.iter().take_while(|byte| **byte != b'\n').count()
}

/// How many bytes are in front of the next `"`.
fn quote_len(text: &[u8]) -> usize
    ensures { result ≡ length (take_while in_quote text.now) }
{
    text.iter().take_while(|byte| **byte != b'"').count()
}

/// How many bytes the rest of a string has, the closing `"` among them; none if nothing closes it.
fn closed_len(text: &[u8]) -> usize
    ensures is { result ≡ closed_len text.now }
    ensures fits { result ≤ length text.now }
{
    let len = quote_len(text);
    if len < text.len() { 1 + len } else { 0 }
}

/// How many bytes the name in front has; none if there is no name.
fn name_len(text: &[u8]) -> usize
    ensures is { result ≡ name_len text.now }
    ensures fits { result ≤ length text.now }
{
    match text {
        [] => 0,
        [b'"', rest @ ..] => {
            let len = closed_len(rest);
            if len == 0 { 0 } else { 1 + len }
        }
        _ => parts_len(text),
    }
}

/// A token of this kind with so many bytes after the first, if there are any.
fn sized(kind: TokenKind, len: usize) -> Step
    requires { len ≤ 9223372036854775807 }
    ensures { result ≡ sized kind len }
{
    if len == 0 {
        Step::Bad
    } else {
        Step::Token(kind, 1 + len)
    }
}

/// What is at the front of a text, by its first byte and the rest.
pub fn front_of(first: u8, rest: &[u8]) -> Step
    ensures { result ≡ step_of first rest.now }
{
    if is_blank(first) {
        Step::Skip(1)
    } else if first == b';' {
        Step::Skip(1 + line_len(rest))
    } else if begins_word(first) {
        Step::Token(TokenKind::Word, 1 + parts_len(rest))
    } else if begins_number(first) {
        Step::Token(TokenKind::Number, 1 + figures_len(rest))
    } else if first == b'"' {
        sized(TokenKind::Quoted, closed_len(rest))
    } else if first == b'%' {
        sized(TokenKind::Local, name_len(rest))
    } else if first == b'@' {
        sized(TokenKind::Global, name_len(rest))
    } else if first == b'$' {
        sized(TokenKind::Comdat, name_len(rest))
    } else if first == b'#' {
        sized(TokenKind::Attribute, parts_len(rest))
    } else if first == b'!' {
        Step::Token(TokenKind::Meta, 1 + parts_len(rest))
    } else if is_mark(first) {
        Step::Token(TokenKind::Mark(first), 1)
    } else {
        Step::Bad
    }
}
