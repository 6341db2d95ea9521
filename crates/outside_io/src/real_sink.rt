//! Standard output, or another writer of std.
ghost use Rattle.std.specs.Prelude.{◌≡◌};

use crate::{PutFault, Sink};
use std::io::Write;

/// A writer of std, as standard output is one. It tells the bytes that the writer tells.
#[derive(Drop)]
pub struct RealSink<W> {
    writer: W,
    faults: u64,
}

impl<W: Write> RealSink<W> {
    /// The writer, with the count of faults at 0.
    pub fn new(writer: W) -> RealSink<W>
        ensures taken { ⟦<RealSink<W> as Sink>⟧.taken result ≡ W.contents writer }
        ensures faults { ⟦<RealSink<W> as Sink>⟧.faults result ≡ 0 }
    {
        RealSink { writer, faults: 0 }
    }
}

impl<W: Write> Sink for RealSink<W> {
    ghost taken = { λ sink. W.contents sink.writer };

    ghost faults = { λ sink. sink.faults };

    /// Writes a piece, a part of it at a time.
    ///
    /// # Errors
    ///
    /// `Failed`: the writer failed, or took nothing of what was left; it took what came before.
    fn put(&mut self, piece: &[u8]) -> Result<(), PutFault> {
        let mut rest = piece;
        while !rest.is_empty() {
            let count = self.writer.write(rest).unwrap_or(0);
            if count == 0 {
                self.faults = self.faults.saturating_add(1);
                return Err(PutFault::Failed);
            }
            rest = &rest[count..];
        }
        Ok(())
    }
}
