//! What a node keeps for a run of bytes.
ghost use Rattle.std.specs.Prelude.{◌≤◌, ◌↔◌, ◌≡◌, IsTrue};
ghost use Rattle.lazy_tree.specs.Skip.{need, rank, own_rank, lesser};

use perm_table::{Guard, Kind, Perm};

/// Which foreign accesses neither change a node and the nodes below it nor are denied there.
#[derive(Clone, Copy, Debug, PartialEq, Eq)]
pub enum Level {
    Nothing,
    Reads,
    Writes,
}

/// What a node keeps for a run of bytes: its state, whether it has accessed them, and the level.
#[derive(Clone, Copy, Debug, PartialEq, Eq)]
pub struct Slot {
    pub perm: Perm,
    pub accessed: bool,
    pub level: Level,
}

impl Level {
    /// Whether a foreign access of this kind changes nothing at this level.
    pub fn covers(self, kind: Kind) -> bool
        ensures { IsTrue result ↔ (need kind ≤ rank self) }
    {
        match self {
            Level::Nothing => false,
            Level::Reads => kind == Kind::Read,
            Level::Writes => true,
        }
    }

    /// The level of a state by itself, without the nodes below it.
    pub fn of(perm: Perm, guard: Guard) -> Level
        ensures { rank result ≡ own_rank perm guard }
    {
        match perm {
            Perm::Unique => Level::Nothing,
            Perm::Reserved if guard != Guard::Free => Level::Nothing,
            Perm::Reserved | Perm::Conflicted | Perm::Frozen => Level::Reads,
            Perm::CellReserved | Perm::Disabled | Perm::Cell => Level::Writes,
        }
    }

    /// The lesser of two levels.
    pub fn and(self, other: Level) -> Level
        ensures { result ≡ lesser self other }
    {
        match (self, other) {
            (Level::Nothing, _) | (_, Level::Nothing) => Level::Nothing,
            (Level::Writes, other) => other,
            (Level::Reads, _) => Level::Reads,
        }
    }
}
