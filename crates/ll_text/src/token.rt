//! Tokens, and why a text has none.
ghost use Rattle.std.specs.Prelude.{◌≡◌};
ghost use Rattle.ll_text.specs.declared.token.TextFault.TheVariants.{NoMemory};

use bsan_ids::Span;
use std::alloc::{AllocError, AllocFailed};

/// What a token is.
#[derive(Clone, Copy, Debug, PartialEq, Eq)]
pub enum TokenKind {
    /// A letter, `_` or `.`, then any number of name bytes.
    Word,
    /// A digit, `-` or `+`, then any number of name bytes and `+`: an integer, or another number.
    Number,
    /// `"`, any bytes but `"`, and `"`.
    Quoted,
    /// `%` and a name: at least one name byte, or a string.
    Local,
    /// `@` and a name.
    Global,
    /// `$` and a name.
    Comdat,
    /// `#` and at least one name byte.
    Attribute,
    /// `!` and any number of name bytes.
    Meta,
    /// This byte, one of the marks.
    Mark(u8),
}

/// A token: its kind and the places of its bytes in the text, its sign and its quotes among them.
#[derive(Clone, Copy, Debug, PartialEq, Eq)]
pub struct Token {
    pub kind: TokenKind,
    pub span: Span,
}

/// Why a text is not cut into tokens.
#[derive(Clone, Copy, Debug, PartialEq, Eq)]
pub enum TextFault {
    /// The first byte outside a comment that neither is a blank nor begins a token, by its place in the text.
    BadByte { at: u32 },
    /// Out of memory.
    NoMemory,
}

impl From<AllocError> for TextFault {
    ghost from_gives = { λ _ e. e ≡ NoMemory };

    fn from(_: AllocError) -> TextFault {
        TextFault::NoMemory
    }
}

/// The token that could not be stored is dropped.
impl<T: Drop> From<AllocFailed<T>> for TextFault {
    ghost from_gives = { λ _ e. e ≡ NoMemory };

    fn from(_: AllocFailed<T>) -> TextFault {
        TextFault::NoMemory
    }
}
