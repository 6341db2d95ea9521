//! Files, seen by name.
ghost use Rattle.std.specs.Prelude.{◌≡◌, ◌≤◌, List, [], ℕ, Option, length, OnOk, OnErr, IsErrOf};
ghost use Rattle.outside_io.specs.Counts.{Rose};
ghost use Rattle.outside_io.specs.Reading.{Tells, IsLongerThan};

use bsan_ids::NoMemory;

/// Why a file wasn't read.
#[derive(Clone, Copy, Debug, PartialEq, Eq)]
pub enum FileFault {
    /// It could not be opened, or not read to its end.
    Failed,
    /// It has more bytes than the limit.
    TooLong,
    /// Out of memory.
    NoMemory,
}

impl From<NoMemory> for FileFault {
    ghost use Rattle.outside_io.specs.declared.files.FileFault.TheVariants.{NoMemory};

    ghost from_gives = { λ _ fault. fault ≡ NoMemory };

    fn from(_: NoMemory) -> FileFault {
        FileFault::NoMemory
    }
}

/// Files, seen by name.
///
/// They count how often a read of a name has failed, and how often a name was longer than a limit.
/// A count of 2^64 - 1 or above counts as risen in each call.
pub trait Files {
    /// The content of a file, where that is known.
    ghost content: { Self → List ℕ → Option (List ℕ) };

    /// How often a read of a name has failed.
    ghost faults: { Self → List ℕ → ℕ };

    /// How often a name was longer than a limit.
    ghost overlong: { Self → List ℕ → ℕ → ℕ };

    /// Puts the content of a file of at most `limit` bytes into `into`, in place of what is there.
    ///
    /// # Errors
    ///
    /// Each leaves `into` empty.
    ///
    /// - `Failed`: the file could not be opened or read, and this name's count of faults rose.
    /// - `TooLong`: the file has more than `limit` bytes, and this name's and limit's count of
    ///   overlong reads rose.
    /// - `NoMemory`: out of memory.
    fn read_file(&mut self, name: &str, limit: u64, into: &mut Vec<u8>) -> Result<(), FileFault>
        ensures read { OnOk result (Tells (content self.old name.now) into.new.items) }
        ensures within { OnOk result (length into.new.items ≤ limit) }
        ensures empty { OnErr result (into.new.items ≡ []) }
        ensures failed { IsErrOf result FileFault.Failed
            → Rose (faults self.old name.now) (faults self.new name.now) }
        ensures too_long { IsErrOf result FileFault.TooLong
            → Rose (overlong self.old name.now limit) (overlong self.new name.now limit) }
        ensures longer { IsErrOf result FileFault.TooLong
            → IsLongerThan limit (content self.old name.now) }

        // Of every name: its content stays, and its counts never fall.
        ensures content { (other : List ℕ) → content self.new other ≡ content self.old other }
        ensures faults { (other : List ℕ) → faults self.old other ≤ faults self.new other }
        ensures overlong { (other : List ℕ) (most : ℕ)
            → overlong self.old other most ≤ overlong self.new other most };
}
