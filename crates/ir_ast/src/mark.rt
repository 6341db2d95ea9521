//! Tokens that are always written the same.
ghost use Rattle.std.specs.Prelude.{◌≡◌};
ghost use Rattle.ir_ast.specs.Texts.{form_text, no_space_before, no_space_after};
ghost use Rattle.ir_ast.specs.Marks.{mark_form};

/// A token that is always written the same.
#[derive(Clone, Copy, Debug, PartialEq, Eq)]
pub enum Mark {
    /// `(`
    OpenRound,
    /// `)`
    CloseRound,
    /// `{`
    OpenBrace,
    /// `}`
    CloseBrace,
    /// `,`
    Comma,
    /// `:`
    Colon,
    /// `=`
    Equals,
    /// `->`
    Arrow,
}

impl Mark {
    /// What is written.
    pub fn text(self) -> &'static str
        ensures { result.now ≡ form_text (mark_form self) }
    {
        match self {
            Mark::OpenRound => "(",
            Mark::CloseRound => ")",
            Mark::OpenBrace => "{",
            Mark::CloseBrace => "}",
            Mark::Comma => ",",
            Mark::Colon => ":",
            Mark::Equals => "=",
            Mark::Arrow => "->",
        }
    }

    /// Whether canonical text has no space before it.
    pub fn no_space_before(self) -> bool
        ensures { result ≡ no_space_before (mark_form self) }
    {
        matches!(
            self,
            Mark::Comma | Mark::OpenRound | Mark::CloseRound | Mark::Colon
        )
    }

    /// Whether canonical text has no space after it.
    pub fn no_space_after(self) -> bool
        ensures { result ≡ no_space_after (mark_form self) }
    {
        matches!(self, Mark::OpenRound)
    }
}
