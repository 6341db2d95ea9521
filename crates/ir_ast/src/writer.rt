//! Text that is written token by token.
ghost use Rattle.std.specs.Prelude.{◌≡◌, [], ◌∷◌, ◌++◌, ◌||◌, codes, OnOk};
ghost use Rattle.ir_ast.specs.Tokens.Form.{word, local, global, number};
ghost use Rattle.ir_ast.specs.Texts.{space};
ghost use Rattle.ir_ast.specs.Marks.{mark_form};
ghost use Rattle.ir_ast.specs.Written.{Adds, Begins, AddsText};

use crate::mark::Mark;
use bsan_ids::NoMemory;
use itoa::Buffer;
use std::alloc::Global;

/// A text that grows by tokens and lines.
#[derive(Drop)]
pub struct Writer {
    text: Vec<u8>,
    /// No space is due before the next token.
    tight: bool,
}

impl Writer {
    pub fn new(alloc: Global) -> Writer
        ensures { result.text.items ≡ [] }
    {
        Writer {
            text: Vec::new(alloc),
            tight: true,
        }
    }

    pub fn into_text(self) -> Vec<u8>
        ensures { result.items ≡ self.text.items }
    {
        let Writer { text, .. } = self;
        text
    }

    /// Begins a line with these spaces.
    pub fn begin(&mut self, indent: &[u8]) -> Result<(), NoMemory>
        ensures { OnOk result (Begins self.old self.new indent.now) }
    {
        self.text.extend_from_slice(indent)?;
        self.tight = true;
        Ok(())
    }

    /// Ends a line.
    pub fn end(&mut self) -> Result<(), NoMemory>
        ensures { OnOk result (AddsText self.old self.new (codes "\n")) }
    {
        self.text.extend_from_slice(b"\n")?;
        Ok(())
    }

    /// The space that is due, and then this.
    fn put(&mut self, no_space_before: bool, text: &[u8]) -> Result<(), NoMemory>
        ensures text { OnOk result (self.new.text.items ≡ self.old.text.items ++ (space (self.old.tight || no_space_before) ++ text.now)) }
    {
        if !(self.tight || no_space_before) {
            self.text.extend_from_slice(b" ")?;
        }
        self.text.extend_from_slice(text)?;
        Ok(())
    }

    pub fn word(&mut self, text: &[u8]) -> Result<(), NoMemory>
        ensures { OnOk result (Adds self.old self.new (word text.now ∷ [])) }
    {
        self.put(false, text)?;
        self.tight = false;
        Ok(())
    }

    pub fn local(&mut self, name: &[u8]) -> Result<(), NoMemory>
        ensures { OnOk result (Adds self.old self.new (local name.now ∷ [])) }
    {
        self.put(false, b"%")?;
        self.text.extend_from_slice(name)?;
        self.tight = false;
        Ok(())
    }

    pub fn global(&mut self, name: &[u8]) -> Result<(), NoMemory>
        ensures { OnOk result (Adds self.old self.new (global name.now ∷ [])) }
    {
        self.put(false, b"@")?;
        self.text.extend_from_slice(name)?;
        self.tight = false;
        Ok(())
    }

    pub fn number(&mut self, value: u64) -> Result<(), NoMemory>
        ensures { OnOk result (Adds self.old self.new (number value ∷ [])) }
    {
        let mut buffer = Buffer::new();
        self.put(false, buffer.format(value).as_bytes())?;
        self.tight = false;
        Ok(())
    }

    pub fn mark(&mut self, mark: Mark) -> Result<(), NoMemory>
        ensures { OnOk result (Adds self.old self.new (mark_form mark ∷ [])) }
    {
        self.put(mark.no_space_before(), mark.text().as_bytes())?;
        self.tight = mark.no_space_after();
        Ok(())
    }
}
