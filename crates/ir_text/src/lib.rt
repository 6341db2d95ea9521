//! The lexer: cuts a text into its tokens by the longest match.
//!
//! A text is a list of bytes. A token is
//! - a word: a letter or `_`, then any number of name bytes;
//! - a local or a global: `%` or `@`, then at least one name byte;
//! - a number: at least one decimal digit;
//! - a mark: `(` `)` `{` `}` `,` `:` `=` or `->`.
//!
//! A name byte is an ASCII letter, a digit, `_` or `.`. Space, tab, carriage return and newline separate tokens. A
//! comment begins with `;`, ends before the next newline, and may hold any bytes.
#![tactic(auto)]

mod laws;
mod lexer;
mod step;
mod token;

pub use laws::{one_outcome, spans_in_order, written_token};
pub use lexer::{MOST_BYTES, tokens};
pub use token::{LexFault, Token, TokenKind};
