//! Traps.

/// Why a thread stops before the end of its program.
#[derive(Clone, Copy, Debug, PartialEq, Eq)]
pub enum Trap {
    /// A division or remainder by 0.
    DivZero,
    /// A shift by at least the width.
    ShiftTooFar,
    /// A request to an allocation number that was never made.
    NoAllocation,
    /// An access whose last byte lies outside of its allocation.
    OutOfBounds,
    /// A request to a freed allocation.
    Freed,
    /// A free away from an allocation's first byte, or of a stack allocation.
    BadFree,
    /// An allocation of no byte, or of too many.
    BadSize,
    /// The drawn allocation number is above the limit.
    AllocLimit { drawn: u64 },
    /// The drawn thread number is above the greatest.
    ThreadLimit { drawn: u64 },
    /// A call with the greatest number of frames there.
    DepthLimit,
    /// The instruction `unreachable`.
    Unreachable,
}
