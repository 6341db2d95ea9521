//! The permission table, and the state in which a new node begins.
ghost use Rattle.std.specs.Prelude.{◌≡◌};
ghost use Rattle.perm_table.specs.Table.{outcome, starting, is_protected, after_local, after_foreign};

use crate::{Guard, Kind, Outcome, Perm, RetagKind};

/// What an access makes of one node's state at one byte. It is local where it goes through the
/// node or a descendant of it, and else foreign.
///
/// A local access is denied where the state forbids it; otherwise the byte counts as accessed
/// afterwards. A foreign access is denied where it would disable a byte that a protected node has
/// accessed; otherwise `accessed` stays.
pub fn step(perm: Perm, accessed: bool, guard: Guard, local: bool, kind: Kind) -> Outcome
    ensures { result ≡ outcome perm accessed guard local kind }
{
    if local {
        match local_next(perm, guard, kind) {
            Some(perm) => Outcome::Next {
                perm,
                accessed: true,
            },
            None => Outcome::Denied,
        }
    } else {
        let next = foreign_next(perm, guard, kind);
        let lost = next == Perm::Disabled && perm != Perm::Disabled;
        if lost && accessed && guard.protects() {
            Outcome::Denied
        } else {
            Outcome::Next {
                perm: next,
                accessed,
            }
        }
    }
}

/// The state in which a node begins that a retag makes.
pub fn start(kind: RetagKind, guard: Guard) -> Perm
    ensures { result ≡ starting kind guard }
{
    match kind {
        RetagKind::Cell if guard.protects() => Perm::Reserved,
        RetagKind::Cell => Perm::CellReserved,
        RetagKind::Shr => Perm::Frozen,
        RetagKind::Mut | RetagKind::Boxed => Perm::Reserved,
        RetagKind::ShrCell => Perm::Cell,
    }
}

impl Guard {
    fn protects(self) -> bool
        ensures { result ≡ is_protected self }
    {
        match self {
            Guard::Free => false,
            Guard::Weak | Guard::Strong => true,
        }
    }
}

/// The state after a local access, where it is not denied.
fn local_next(perm: Perm, guard: Guard, kind: Kind) -> Option<Perm>
    ensures { result ≡ after_local kind (is_protected guard) perm }
{
    match (kind, perm) {
        (_, Perm::Disabled) | (Kind::Write, Perm::Frozen) => None,
        (Kind::Read, _) | (Kind::Write, Perm::Cell) => Some(perm),
        (Kind::Write, Perm::Conflicted) if guard.protects() => None,
        (Kind::Write, _) => Some(Perm::Unique),
    }
}

/// The state that a foreign access gives.
fn foreign_next(perm: Perm, guard: Guard, kind: Kind) -> Perm
    ensures { result ≡ after_foreign kind (is_protected guard) perm }
{
    match (kind, perm) {
        (Kind::Read, Perm::Reserved) if guard.protects() => Perm::Conflicted,
        (Kind::Read, Perm::Unique) if guard.protects() => Perm::Disabled,
        (Kind::Read, Perm::Unique) => Perm::Frozen,
        (Kind::Read, _) | (Kind::Write, Perm::CellReserved | Perm::Cell) => perm,
        (Kind::Write, _) => Perm::Disabled,
    }
}
