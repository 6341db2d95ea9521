//! The names of states, traps, guards and places.
ghost use Rattle.std.specs.Prelude.{◌≡◌};
ghost use Rattle.target_code.specs.Words as target;
ghost use Rattle.record_text.specs.Words as words;

use history::Trap;
use ir_ast::Place;
use perm_table::{Guard, Perm};

/// The name of a state.
pub fn perm_name(perm: Perm) -> &'static str
    ensures { result.now ≡ words.perm_name perm }
{
    match perm {
        Perm::Reserved => "Reserved",
        Perm::Conflicted => "Conflicted",
        Perm::CellReserved => "CellReserved",
        Perm::Unique => "Unique",
        Perm::Frozen => "Frozen",
        Perm::Disabled => "Disabled",
        Perm::Cell => "Cell",
    }
}

/// The name of a trap, without the number that it may carry.
pub fn trap_name(trap: Trap) -> &'static str
    ensures { result.now ≡ words.trap_name trap }
{
    match trap {
        Trap::DivZero => "DivZero",
        Trap::ShiftTooFar => "ShiftTooFar",
        Trap::NoAllocation => "NoAllocation",
        Trap::OutOfBounds => "OutOfBounds",
        Trap::Freed => "Freed",
        Trap::BadFree => "BadFree",
        Trap::BadSize => "BadSize",
        Trap::AllocLimit { .. } => "AllocLimit",
        Trap::ThreadLimit { .. } => "ThreadLimit",
        Trap::DepthLimit => "DepthLimit",
        Trap::Unreachable => "Unreachable",
    }
}

/// The word of a guard.
pub fn guard_word(guard: Guard) -> &'static str
    ensures { result.now ≡ target.guard_word guard }
{
    match guard {
        Guard::Free => "free",
        Guard::Weak => "weak",
        Guard::Strong => "strong",
    }
}

/// The word of a place.
pub fn place_word(place: Place) -> &'static str
    ensures { result.now ≡ target.place_word place }
{
    match place {
        Place::Stack => "stack",
        Place::Heap => "heap",
    }
}

/// `1` for true, `0` for false.
pub fn flag_word(flag: bool) -> &'static str
    ensures { result.now ≡ words.flag_word flag }
{
    if flag { "1" } else { "0" }
}

/// `local` for true, `foreign` for false.
pub fn side_word(local: bool) -> &'static str
    ensures { result.now ≡ words.side_word local }
{
    if local { "local" } else { "foreign" }
}
