//! The names that a report writes.
ghost use Rattle.std.specs.Prelude.{◌≡◌};
ghost use Rattle.report.specs.Words as words;

use history::Trap;
use perm_table::Perm;

/// The name of a node's state, as a report writes it.
pub fn perm_name(perm: Perm) -> &'static str
    ensures { result.now ≡ words.perm_name perm }
{
    match perm {
        Perm::Reserved => "Reserved",
        Perm::Conflicted => "Conflicted",
        Perm::CellReserved => "CellReserved",
        Perm::Unique => "Unique",
        Perm::Frozen => "Frozen",
        Perm::Disabled => "Disabled",
        Perm::Cell => "Cell",
    }
}

/// The name of a trap, without the number that it may carry.
pub fn trap_name(trap: Trap) -> &'static str
    ensures { result.now ≡ words.trap_name trap }
{
    match trap {
        Trap::DivZero => "DivZero",
        Trap::ShiftTooFar => "ShiftTooFar",
        Trap::NoAllocation => "NoAllocation",
        Trap::OutOfBounds => "OutOfBounds",
        Trap::Freed => "Freed",
        Trap::BadFree => "BadFree",
        Trap::BadSize => "BadSize",
        Trap::AllocLimit { .. } => "AllocLimit",
        Trap::ThreadLimit { .. } => "ThreadLimit",
        Trap::DepthLimit => "DepthLimit",
        Trap::Unreachable => "Unreachable",
    }
}
