//! An access at all nodes and bytes, in the words of the eager tree. The functions do nothing: each
//! contract is a law.
ghost use Rattle.std.specs.Prelude.{◌≡◌, ◌≤◌, ◌⊎◌, ℕ, ◌+◌, Some, None, Option, length, IsTrue};
ghost use Rattle.bsan_ids.specs.declared.numbers.Span.{Span as Bytes};
ghost use Rattle.perm_table.specs.declared.Kind.{Kind as Access};
ghost use Rattle.perm_table.specs.Table.{is_protected};
ghost use Rattle.eager_tree.specs.declared.violation.Violation.TheVariants.{Denied};
ghost use Rattle.eager_tree.specs.Tree.{links, is_on_path as is_above};
ghost use Rattle.eager_tree.specs.Steps.{access as access_of, on_span};
ghost use Rattle.dated_tree.specs.Shape.{Shape, node_at};
ghost use Rattle.dated_tree.specs.Eager.{eager_of, cell_of, tag_at};
ghost use Rattle.dated_tree.specs.Path.{is_on_path};
ghost use Rattle.dated_tree.specs.Access.{IsFresh, IsAccessed, NoDenial, IsFirstDenial, denies};
ghost use Rattle.dated_tree.specs.Kept.{IsSound};

/// A node lies on the path of another one in the eager tree where it does by places.
pub fn paths_by_places()
    ensures { (t : Shape) (x place : ℕ) → IsSound t → x ≤ length t.nodes → place ≤ length t.nodes → is_above (links (eager_of t).nodes) (tag_at t x) (tag_at t place) ≡ is_on_path t.nodes x place }
{}

/// Only a node on the path or a guarded one denies an access.
pub fn others_deny_nothing()
    ensures { (t : Shape) (x : ℕ) (kinds : ℕ → Option Access) (place b : ℕ) → IsTrue (denies t x kinds place b) → IsTrue (is_on_path t.nodes x place) ⊎ IsTrue (is_protected (node_at t.nodes place).guard) }
{}

/// An access that no node denies, done at the nodes of the path and at the guarded ones alone, leaves
/// a tree that stands for the one that the eager tree's access leaves.
pub fn accesses_are_the_eager_trees()
    ensures { (t u : Shape) (x : ℕ) (span : Bytes) (kind : Access) (date : ℕ) → IsSound t → x ≤ length t.nodes → IsFresh t x date → NoDenial t x (on_span span kind) → IsAccessed x (on_span span kind) date t u → (None, eager_of u) ≡ access_of (eager_of t) (tag_at t x) span kind }
{}

/// The first of all denials is that of the eager tree.
pub fn denials_are_the_eager_trees()
    ensures { (t : Shape) (x : ℕ) (span : Bytes) (kind : Access) (place b : ℕ) → IsSound t → x ≤ length t.nodes → IsFirstDenial t x (on_span span kind) place b → (Some (Denied b (tag_at t place) (cell_of t place b).perm (is_on_path t.nodes x place)), eager_of t) ≡ access_of (eager_of t) (tag_at t x) span kind }
{}

/// An access that no node denies keeps what every dated tree keeps.
pub fn accesses_keep_trees_sound()
    ensures { (t u : Shape) (x : ℕ) (kinds : ℕ → Option Access) (date : ℕ) → IsSound t → x ≤ length t.nodes → IsFresh t x date → NoDenial t x kinds → IsAccessed x kinds date t u → IsSound u }
{}

/// The next date is fresh for every node.
pub fn next_dates_are_fresh()
    ensures { (t : Shape) (x : ℕ) → IsSound t → IsFresh t x (t.clock + 1) }
{}
