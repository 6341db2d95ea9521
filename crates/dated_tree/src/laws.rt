//! What holds of the definitions themselves, and worked examples. The functions do nothing: each
//! contract is a law.
ghost use Rattle.std.specs.Prelude.{◌≡◌, ◌≤◌, ℕ, Bool, if◌then◌else◌, Some, List, false, IsTrue, IsFalse};
ghost use Rattle.perm_table.specs.declared.Kind.{Kind as Access};
ghost use Rattle.perm_table.specs.declared.Guard.{Guard as Protector};
ghost use Rattle.perm_table.specs.declared.Guard.TheVariants.{Free};
ghost use Rattle.perm_table.specs.declared.Outcome.TheVariants.{Next};
ghost use Rattle.perm_table.specs.Table.{outcome};
ghost use Rattle.eager_tree.specs.Visit.{next_cell};
ghost use Rattle.dated_tree.specs.declared.node.Dates.{Dates as Seen};
ghost use Rattle.dated_tree.specs.declared.node.Slot.{Slot as Kept};
ghost use Rattle.dated_tree.specs.Dates.{dated, is_noted, seen_below, IsBefore, IsAsMet, seen};
ghost use Rattle.bsan_ids.specs.declared.numbers.Tag.{Tag as Name};
ghost use Rattle.eager_tree.specs.Tree.{new_tree};
ghost use Rattle.dated_tree.specs.Shape.{Shape, slot_at, new_shape};
ghost use Rattle.dated_tree.specs.Eager.{eager_of, eager_cell, cell_of};
ghost use Rattle.dated_tree.specs.Seen.{IsDatedAt};
ghost use Rattle.dated_tree.specs.Ended.{IsTestOf, IsEndedAt};
ghost use Rattle.dated_tree.specs.Kept.{IsSound};
ghost use Rattle.dated_tree.specs.Examples.{after_calls, eager_calls, after_end, eager_end, after_read, eager_read};

/// A new tree stands for the new eager tree.
pub fn new_tree_by_definition()
    ensures { (root : Name) (size : ℕ) → eager_of (new_shape root size) ≡ new_tree size root }
{}

/// Two calls in a loop: the first one's node is left behind with what it met.
pub fn calls_by_example()
    ensures { eager_of after_calls ≡ eager_calls }
{}

/// A protector's end, which the node below doesn't meet, and a read after it, which it meets.
pub fn ends_by_example()
    ensures ended { eager_of after_end ≡ eager_end }
    ensures read { eager_of after_read ≡ eager_read }
{}

/// A foreign access to a node without a guard changes nothing that the node keeps: by its date the node
/// stands for the cell that the table gives.
pub fn foreign_accesses_are_put_off()
    ensures { (slot : Kept) (seen : Seen) (kind : Access) (date : ℕ) → IsBefore slot.met date → eager_cell (dated kind date seen) slot ≡ next_cell (Some kind) false Free (eager_cell seen slot) }
{}

/// A guarded node meets a foreign access at once, and then nothing that is put off changes it, also once
/// its guard is gone.
pub fn guarded_nodes_meet()
    ensures { (slot next : Kept) (seen : Seen) (guard : Protector) (kind : Access) (date : ℕ) → IsBefore slot.met date → IsAsMet seen slot → next.met ≡ slot.met → outcome slot.perm slot.accessed guard false kind ≡ Next next.perm next.accessed → IsAsMet (dated kind date seen) next }
{}

/// A date that is noted at a node hides nothing but itself: what is seen below is as before the access
/// at that date where the node keeps what it saw, and another date is seen below as at the node.
pub fn notes_hide_one_date()
    ensures noted { (ends : List ℕ) (met seen : Seen) (kind : Access) (date : ℕ) → IsTrue (is_noted ends date) → seen_below ends met seen ≡ met → seen_below ends met (dated kind date seen) ≡ met }
    ensures other { (ends : List ℕ) (met seen : Seen) (kind : Access) (date : ℕ) → IsFalse (is_noted ends date) → seen_below ends met (dated kind date seen) ≡ dated kind date (seen_below ends met seen) }
{}

/// What is seen no later than it was met leaves the kept cell.
pub fn met_dates_leave_the_kept_cell()
    ensures { (slot : Kept) (seen : Seen) → seen.access ≤ slot.met.access → seen.write ≤ slot.met.write → eager_cell seen slot ≡ record { perm = slot.perm; accessed = slot.accessed } }
{}

/// A byte's new date is seen at every node, and so a node without a guard that keeps its slot stands
/// there for the cell that the table gives for a foreign access.
pub fn new_dates_are_seen_everywhere()
    ensures seen { (b : ℕ) (kind : Access) (date : ℕ) (t u : Shape) → IsDatedAt b kind date t u → (place : ℕ) → seen u place b ≡ dated kind date (seen t place b) }
    ensures cell { (b : ℕ) (kind : Access) (date : ℕ) (t u : Shape) → IsDatedAt b kind date t u → (place : ℕ) → slot_at u.nodes place b ≡ slot_at t.nodes place b → IsBefore (slot_at t.nodes place b).met date → cell_of u place b ≡ next_cell (Some kind) false Free (cell_of t place b) }
{}

/// A new tree keeps what every dated tree keeps.
pub fn new_trees_are_sound()
    ensures { (root : Name) (size : ℕ) → 1 ≤ size → IsSound (new_shape root size) }
{}

/// The date of a protector's end, which is noted at its node, is seen at every node but that one and
/// those below it, which see what they saw before.
pub fn ends_are_not_seen_below()
    ensures { (b : ℕ) (kind : Access) (date x : ℕ) (is_in : ℕ → Bool) (t u : Shape) → IsTestOf x t.nodes is_in → IsEndedAt b kind date x is_in t u → (place : ℕ) → seen u place b ≡ (if is_in place then seen t place b else dated kind date (seen t place b)) }
{}
