//! The plain memory of one allocation: its bytes, whether it is live, and its place.
#![tactic(auto)]

mod words;

ghost use Rattle.std.specs.Prelude.{◌≡◌, ◌+◌, ◌<◌, ◌≤◌, length, slice_get, slice_set, None, Some, IfOk, OnOk, OnErr};
ghost use Rattle.std.specs.Result.{result_err};
ghost use Rattle.history.specs.Memory.{made_memory, next_memory, trap_in, word_at};
ghost use Rattle.history.specs.declared.entry.Request.TheVariants.{CopyOut, Free, Load, Store};
ghost use Rattle.ir_ast.specs.Sizes.{most_size};
ghost use Rattle.ir_ast.specs.Words.{modulus, width_bytes};
ghost use Rattle.ir_ast.specs.declared.types.Ty.TheVariants.{Int};

use bsan_ids::{Copied, ListOf, NoMemory, Span, copy_vec};
use history::Trap;
use ir_ast::{Place, Width};
use std::alloc::Global;
use std::marker::Model;
use words::{word, write_word};

/// The bytes of an allocation, whether it is live, and its place. An access traps, and a free too,
/// where the allocation is freed; an access also where its last byte lies outside. Of two traps
/// the first of that order comes, and after a trap nothing has changed.
#[derive(Drop)]
pub struct ByteMem {
    bytes: Vec<u8>,
    live: bool,
    place: Place,
}

impl Model for ByteMem {
    ghost use Rattle.std.specs.Prelude.{◌≤◌, length};
    ghost use Rattle.history.specs.Memory.{Memory};

    ghost Value = { Memory };

    ghost view = { λ m. record { bytes = m.bytes.items; live = m.live; place = m.place } };

    ghost use Rattle.ir_ast.specs.Sizes.{most_size};

    ghost invariant = { λ m. length m.bytes.items ≤ most_size };
}

impl ByteMem {
    /// `size` bytes of 0, live: at least one, and at most 1,048,576.
    ///
    /// # Errors
    ///
    /// `NoMemory`: out of memory.
    pub fn new(alloc: Global, size: u32, place: Place) -> Result<ByteMem, NoMemory>
        requires some { 1 ≤ size }
        requires bound { size ≤ most_size }
        ensures { IfOk result (λ m. m ≡ made_memory size place) }
    {
        let list = ListOf::repeated(alloc, 0, size)?;
        Ok(ByteMem {
            bytes: list.into_vec(),
            live: true,
            place,
        })
    }

    /// How many bytes there are.
    pub fn size(&self) -> u32
        ensures value { result ≡ length self.now.bytes }
        ensures bound { result ≤ most_size }
    {
        self.bytes.len() as u32
    }

    /// Whether the allocation isn't freed.
    pub fn is_live(&self) -> bool
        ensures { result ≡ self.now.live }
    {
        self.live
    }

    /// Whether an access to these bytes traps.
    ///
    /// # Errors
    ///
    /// `Freed` where the allocation is freed, and else `OutOfBounds` where a byte lies outside.
    pub fn check(&self, span: Span) -> Result<(), Trap>
        ensures trap { result_err result ≡ trap_in self.now (CopyOut span.start span.len None) }
        ensures within { OnOk result (span.start + span.len ≤ length self.now.bytes) }
    {
        if !self.live {
            return Err(Trap::Freed);
        }
        let end = u64::from(span.start) + u64::from(span.len);
        if end > u64::from(self.size()) {
            return Err(Trap::OutOfBounds);
        }
        Ok(())
    }

    /// The number of this width in the bytes from `at` on, least byte first.
    ///
    /// # Errors
    ///
    /// A trap, where `check` has one.
    pub fn load(&self, at: u32, width: Width) -> Result<u64, Trap>
        ensures trap { result_err result ≡ trap_in self.now (Load at (Int width) None) }
        ensures value { IfOk result (λ word. word ≡ word_at self.now at (width_bytes width)) }
        ensures bound { IfOk result (λ word. word < modulus width) }
        ensures within { OnOk result (at + width_bytes width ≤ length self.now.bytes) }
    {
        let len = width.bytes();
        self.check(Span { start: at, len })?;
        let start = at as usize;
        Ok(word(&self.bytes[start..start + len as usize]))
    }

    /// Writes a number of this width into the bytes from `at` on, least byte first.
    ///
    /// # Errors
    ///
    /// A trap, where `check` has one. The memory is as before.
    pub fn store(&mut self, at: u32, width: Width, value: u64) -> Result<(), Trap>
        ensures trap { result_err result ≡ trap_in self.old (Store at (Int width) value None None) }
        ensures ok { OnOk result (self.new ≡ next_memory self.old (Store at (Int width) value None None)) }
        ensures within { OnOk result (at + width_bytes width ≤ length self.old.bytes) }
        ensures err { OnErr result (self.new ≡ self.old) }
    {
        let len = width.bytes();
        self.check(Span { start: at, len })?;
        let start = at as usize;
        write_word(&mut self.bytes[start..start + len as usize], value);
        Ok(())
    }

    /// The byte `at`.
    pub fn byte(&self, at: u32) -> Result<u8, Trap>
        ensures trap { result_err result ≡ trap_in self.now (CopyOut at 1 None) }
        ensures value { IfOk result (λ byte. slice_get self.now.bytes at ≡ Some byte) }
    {
        self.check(Span { start: at, len: 1 })?;
        Ok(self.bytes[at as usize])
    }

    /// Writes the byte `at`.
    pub fn set_byte(&mut self, at: u32, value: u8) -> Result<(), Trap>
        ensures trap { result_err result ≡ trap_in self.old (CopyOut at 1 None) }
        ensures ok { OnOk result (self.new ≡ record self.old { bytes = slice_set self.old.bytes at value }) }
        ensures err { OnErr result (self.new ≡ self.old) }
    {
        self.check(Span { start: at, len: 1 })?;
        self.bytes[at as usize] = value;
        Ok(())
    }

    /// Frees the allocation. Only at its function's return (`stack`) a stack allocation may be
    /// freed, and then at any offset; else `at` has to be 0 and the place the heap.
    pub fn free(&mut self, at: u32, stack: bool) -> Result<(), Trap>
        ensures trap { result_err result ≡ trap_in self.old (Free at stack None) }
        ensures ok { OnOk result (self.new ≡ next_memory self.old (Free at stack None)) }
        ensures err { OnErr result (self.new ≡ self.old) }
    {
        if !self.live {
            return Err(Trap::Freed);
        }
        if !stack && (at != 0 || self.place == Place::Stack) {
            return Err(Trap::BadFree);
        }
        self.live = false;
        Ok(())
    }
}

impl Copied for ByteMem {
    fn copy(&self) -> Result<ByteMem, NoMemory> {
        Ok(ByteMem {
            bytes: copy_vec(&self.bytes)?,
            live: self.live,
            place: self.place,
        })
    }
}
