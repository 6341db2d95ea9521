//! A new node at all bytes, in the words of the eager tree. The functions do nothing: each contract is
//! a law.
ghost use Rattle.std.specs.Prelude.{◌≡◌, ◌≤◌, ℕ, [], ◌∷◌, ◌++◌, length};
ghost use Rattle.bsan_ids.specs.declared.numbers.Span.{Span as Bytes};
ghost use Rattle.bsan_ids.specs.declared.numbers.Tag.{Tag as Name};
ghost use Rattle.perm_table.specs.declared.Guard.{Guard as Protector};
ghost use Rattle.perm_table.specs.declared.RetagKind.{RetagKind as Reborrow};
ghost use Rattle.eager_tree.specs.Steps.{new_node};
ghost use Rattle.dated_tree.specs.declared.node.Node.{Node as Stored};
ghost use Rattle.dated_tree.specs.Shape.{Shape};
ghost use Rattle.dated_tree.specs.Eager.{eager_of, tag_at};
ghost use Rattle.dated_tree.specs.Kept.{IsSound};
ghost use Rattle.dated_nodes.specs.Added.{IsChild, IsNewest, with_child};

/// A tree with a new node, which has met all that there was, stands for the eager one with the new
/// node of a retag.
pub fn new_nodes_are_the_eager_trees()
    ensures { (t : Shape) (x : ℕ) (span : Bytes) (kind : Reborrow) (guard : Protector) (tag : Name) (node : Stored) → IsSound t → x ≤ length t.nodes → IsChild t x span kind guard tag node → eager_of (with_child node t) ≡ record (eager_of t) { nodes = (eager_of t).nodes ++ new_node t.size (tag_at t x) span kind guard tag ∷ [] } }
{}

/// A tree with a new node keeps what every dated tree keeps.
pub fn new_nodes_keep_trees_sound()
    ensures { (t : Shape) (x : ℕ) (span : Bytes) (kind : Reborrow) (guard : Protector) (tag : Name) (node : Stored) → IsSound t → x ≤ length t.nodes → IsNewest t tag → IsChild t x span kind guard tag node → IsSound (with_child node t) }
{}
