//! The rule of the table, and what its steps tell.
use crate::view::View;
use atomic_table::{Join, Play, Split, TableRule};
use history::Logged;
use std::marker::PhantomData;

/// The rule of the table of `Turns`, which each of its steps keeps.
pub struct TurnRule<T> {
    marker: PhantomData<T>,
}

impl<T: Logged> TableRule<Option<T>, View, ()> for TurnRule<T> {
    ghost use Rattle.std.specs.Prelude.{[]};
    ghost use Rattle.turn_lock.specs.Rule.{RuleHolds, newcomer};

    ghost holds = { λ _. RuleHolds T.number T.entries };

    ghost first = { λ _. newcomer 0 0 [] };
}

pub(crate) struct DrawStamp;

impl<T> Play<Option<T>, View> for DrawStamp {
    ghost use Rattle.turn_lock.specs.Plays.{StampDrawn};

    ghost then = { StampDrawn };
}

pub(crate) struct DrawAlloc;

impl<T> Play<Option<T>, View> for DrawAlloc {
    ghost use Rattle.turn_lock.specs.Plays.{AllocDrawn};

    ghost then = { AllocDrawn };
}

pub(crate) struct DrawThread;

impl<T> Play<Option<T>, View> for DrawThread {
    ghost use Rattle.turn_lock.specs.Plays.{ThreadDrawn};

    ghost then = { ThreadDrawn };
}

pub(crate) struct ChooseName;

impl<T> Play<Option<T>, View> for ChooseName {
    ghost use Rattle.turn_lock.specs.Plays.{NameChosen};

    ghost then = { NameChosen };
}

pub(crate) struct Child;

impl Split<View> for Child {
    ghost use Rattle.turn_lock.specs.Steps.{split_left, split_right};

    ghost left = { split_left };

    ghost right = { split_right };
}

impl Join<View> for Child {
    ghost use Rattle.turn_lock.specs.Rule.{spent};
    ghost use Rattle.turn_lock.specs.Steps.{joins};

    ghost both = { joins };

    ghost spent = { spent };
}

pub(crate) struct TakeTurn;

impl<T: Logged> Play<Option<T>, View> for TakeTurn {
    ghost use Rattle.turn_lock.specs.Plays.{TurnTaken};

    ghost then = { TurnTaken T.number T.entries };
}

pub(crate) struct MarkWaited;

impl<T> Play<Option<T>, View> for MarkWaited {
    ghost use Rattle.turn_lock.specs.Plays.{WaitMarked};

    ghost then = { WaitMarked };
}

pub(crate) struct GiveTurn;

impl<T: Logged> Play<Option<T>, View> for GiveTurn {
    ghost use Rattle.turn_lock.specs.Plays.{TurnGiven};

    ghost then = { TurnGiven T.number T.entries };
}
