//! The lexer of LLVM's text: cuts it into its tokens by the longest match.
//!
//! A text is a list of bytes. A token is
//! - a word: a letter, `_` or `.`, then any number of name bytes (so `...` is a word, and the `c` before a string);
//! - a number: a digit, `-` or `+`, then any number of name bytes and `+` (so `-1`, `2.5e+00` and `0xK00` are numbers);
//! - a string: `"`, any bytes but `"`, and `"`; an escape `\22` in it is three bytes, and stays as it is written;
//! - a local, a global or a comdat: `%`, `@` or `$`, then at least one name byte, or a string;
//! - an attribute group: `#`, then at least one name byte (so `#dbg_declare` too);
//! - a metadata sign: `!`, then any number of name bytes (so `!` alone before `{` or a string);
//! - a mark: one of `(` `)` `{` `}` `[` `]` `<` `>` `,` `=` `*` `:` `|`.
//!
//! A name byte is an ASCII letter, a digit, `_`, `.`, `-` or `$`. Space, tab, carriage return and newline separate tokens.
//! A comment begins with `;`, ends before the next newline, and may hold any bytes.
#![tactic(auto)]

mod laws;
mod lexer;
mod step;
mod token;

pub use laws::{one_outcome, spans_in_order, written_token};
pub use lexer::{MOST_BYTES, tokens};
pub use token::{TextFault, Token, TokenKind};

#[cfg(test)]
mod tests;
