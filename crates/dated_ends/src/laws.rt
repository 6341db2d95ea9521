//! The end of a protector at all nodes and bytes, in the words of the eager tree. The functions do
//! nothing: each contract is a law.
ghost use Rattle.std.specs.Prelude.{◌≡◌, ◌≤◌, ℕ, ◌+◌, Some, None, length, map};
ghost use Rattle.eager_tree.specs.declared.violation.Violation.TheVariants.{Denied};
ghost use Rattle.eager_tree.specs.Tree.{Tree};
ghost use Rattle.eager_tree.specs.Steps.{end_protector, freed_guard};
ghost use Rattle.dated_tree.specs.Shape.{Shape};
ghost use Rattle.dated_tree.specs.Eager.{eager_of, cell_of, tag_at};
ghost use Rattle.dated_tree.specs.Path.{is_on_path};
ghost use Rattle.dated_tree.specs.Access.{IsFresh, IsAccessed, NoDenial};
ghost use Rattle.dated_tree.specs.Kept.{IsSound};
ghost use Rattle.dated_ends.specs.End.{HasNoChild, NoDenialAtEnd, IsFirstDenialAtEnd, IsNoted, end_kind};
ghost use Rattle.dated_tree.specs.Guards.{without_guard};

/// A tree without a node's guard stands for the eager one without it.
pub fn guards_go()
    ensures { (t : Shape) (x : ℕ) → IsSound t → 1 ≤ x → x ≤ length t.nodes → eager_of (without_guard t x) ≡ record (eager_of t) { nodes = map (freed_guard (tag_at t x)) (eager_of t).nodes } }
{}

/// A tree without a node's guard keeps what every dated tree keeps.
pub fn trees_without_a_guard_are_sound()
    ensures { (t : Shape) (x : ℕ) → IsSound t → 1 ≤ x → x ≤ length t.nodes → IsSound (without_guard t x) }
{}

/// The end of a protector that no node denies, noted at its node, met by its path and the other guarded
/// nodes but those below it, leaves, without the guard, a tree that stands for the one that the
/// eager tree's end leaves. Nothing is done at the nodes below.
pub fn noted_ends_are_the_eager_trees()
    ensures { (t u : Shape) (x : ℕ) → IsSound t → 1 ≤ x → x ≤ length t.nodes → NoDenialAtEnd t x → IsNoted x t u → (None, eager_of (without_guard u x)) ≡ end_protector (eager_of t) (tag_at t x) }
{}

/// Such an end keeps what every dated tree keeps.
pub fn noted_ends_keep_trees_sound()
    ensures { (t u : Shape) (x : ℕ) → IsSound t → 1 ≤ x → x ≤ length t.nodes → NoDenialAtEnd t x → IsNoted x t u → IsSound u }
{}

/// At a node without a child the end of the protector is an access as any other, and needs no note.
pub fn leaf_ends_are_the_eager_trees()
    ensures { (t u : Shape) (x date : ℕ) → IsSound t → 1 ≤ x → x ≤ length t.nodes → HasNoChild t x → IsFresh t x date → NoDenial t x (end_kind t x) → IsAccessed x (end_kind t x) date t u → (None, eager_of (without_guard u x)) ≡ end_protector (eager_of t) (tag_at t x) }
{}

/// The first denial of a node that meets the end is that of the eager tree.
pub fn denied_ends_are_the_eager_trees()
    ensures { (t : Shape) (x place b : ℕ) → IsSound t → 1 ≤ x → x ≤ length t.nodes → IsFirstDenialAtEnd t x place b → (Some (Denied b (tag_at t place) (cell_of t place b).perm (is_on_path t.nodes x place)), eager_of t) ≡ end_protector (eager_of t) (tag_at t x) }
{}
