//! The thread over the text, which proofs alone see. It takes no memory, and its calls do nothing.
ghost use Rattle.std.specs.Prelude.{◌≡◌};
ghost use base.Fml.{ftrue};
ghost use Rattle.source_sem.specs.Source.{Source};

use history::{Arg, Reply};
use ir_rules::Verified;
use std::marker::Model;

/// The state of the thread.
#[derive(Drop)]
pub(crate) struct TextThread {
    ghost state: { Source },
}

impl Model for TextThread {
    ghost also_owns = { λ _. ftrue };
}

// It owns nothing.
unsafe impl Send for TextThread {}

// It owns nothing.
unsafe impl Sync for TextThread {}

/// What the thread does.
#[derive(Clone, Copy, Drop)]
pub(crate) enum TextStep<'a> {
    Start { function: u32, args: &'a [Arg] },
    Turn,
    Answer(&'a Reply),
    Child,
}

/// What the thread of a program with an input does.
#[derive(Clone, Copy, Drop)]
pub(crate) struct TextCall<'a> {
    pub program: &'a Verified,
    pub input: &'a [u8],
    pub step: TextStep<'a>,
}

impl TextThread {
    ghost use Rattle.instr_sound.specs.Text.{nowhere, text_after};

    /// A thread in some state.
    pub(crate) fn new() -> TextThread
        ensures { result.state ≡ nowhere }
    {
        TextThread {}
    }

    /// The thread after it did that.
    pub(crate) fn then(&self, _call: &TextCall<'_>) -> TextThread
        ensures { result.state ≡ text_after _call.now self.now.state }
    {
        TextThread {}
    }
}
