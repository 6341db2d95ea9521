//! Values that keep the entries of one allocation.

/// A value for one allocation, with the entries of the steps that were made on it.
pub trait Logged {
    ghost use Rattle.std.specs.Prelude.{ℕ, List};
    ghost use Rattle.history.specs.declared.entry.Entry.{Entry};

    /// The allocation's number.
    ghost number: { Self → ℕ };

    /// Its entries, oldest first.
    ghost entries: { Self → List Entry };
}
