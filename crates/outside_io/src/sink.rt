//! Output, piece by piece.
ghost use Rattle.std.specs.Prelude.{◌≤◌, List, ℕ, Option, OnOk, IsErrOf};
ghost use Rattle.std.specs.Io.KnownBytes.{Appends, Keeps};
ghost use Rattle.outside_io.specs.Counts.{Rose};
ghost use Rattle.outside_io.specs.Putting.{AppendsPrefix};

/// Why a piece wasn't taken whole.
#[derive(Clone, Copy, Debug, PartialEq, Eq)]
pub enum PutFault {
    /// The sink took a prefix of the piece, and no more.
    Failed,
    /// Out of memory.
    NoMemory,
}

/// A sink of bytes, which counts its faults.
///
/// A count of 2^64 - 1 or above counts as risen in each call.
pub trait Sink {
    /// The bytes taken, where that is known.
    ghost taken: { Self → Option (List ℕ) };

    /// How often a piece has failed.
    ghost faults: { Self → ℕ };

    /// Takes a piece after what was taken before.
    ///
    /// # Errors
    ///
    /// - `Failed`: a prefix of the piece was taken, and the count of faults rose.
    /// - `NoMemory`: out of memory; nothing of the piece was taken.
    fn put(&mut self, piece: &[u8]) -> Result<(), PutFault>
        ensures put { OnOk result (Appends (taken self.old) (taken self.new) piece.now) }
        ensures failed { IsErrOf result PutFault.Failed → Rose (faults self.old) (faults self.new) }
        ensures prefix { IsErrOf result PutFault.Failed
            → AppendsPrefix (taken self.old) (taken self.new) piece.now }
        ensures nothing { IsErrOf result PutFault.NoMemory → Keeps (taken self.old) (taken self.new) }
        ensures faults { faults self.old ≤ faults self.new };
}
