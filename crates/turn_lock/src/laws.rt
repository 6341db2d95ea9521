//! What the rule says of every state of the table that meets it, and what the weights of a list of
//! entries tell. The functions do nothing: each contract is a law.
ghost use Rattle.std.specs.Prelude.{Option};
ghost use Rattle.atomic_table.specs.Table.{State};
ghost use Rattle.turn_lock.specs.declared.view.View.{View};
ghost use Rattle.turn_lock.specs.Rule.{RuleHolds};
ghost use Rattle.turn_lock.specs.Laws.{WeightsTellHistories, DesksDiffer, NoDrawWraps, FreeSlotsAreWhole, CalledTwice};

use history::Logged;

/// Two lists of entries that rise by stamp and weigh the same in every way are equal.
pub fn weights_tell_histories()
    ensures { WeightsTellHistories }
{}

/// In a state that meets the rule, two desks that are there have different names, and no number of
/// one kind is on two desks, or twice on one.
pub fn desks_differ<T: Logged>()
    ensures { (s : State (Option T) View) → RuleHolds T.number T.entries s → DesksDiffer s.views }
{}

/// No word that counts comes near its end, so adding one to it never wraps.
pub fn no_draw_wraps<T: Logged>()
    ensures { (s : State (Option T) View) → RuleHolds T.number T.entries s → NoDrawWraps s.words }
{}

/// In a state that meets the rule, the slot of a turn that is free holds the value of its number,
/// whose entries rise by stamp and are exactly the calls of all desks on that number, each once.
pub fn free_slots_are_whole<T: Logged>()
    ensures { (s : State (Option T) View) → RuleHolds T.number T.entries s → FreeSlotsAreWhole T.number T.entries s }
{}

/// A worked example: what a desk knows after two calls on one number.
pub fn desk_by_example()
    ensures { CalledTwice }
{}
