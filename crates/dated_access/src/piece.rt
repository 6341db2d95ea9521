//! An access on a span on which each node that it visits has one slot.
ghost use Rattle.std.specs.Prelude.{◌≡◌, ℕ, ◌+◌, ◌*◌, ◌<◌, ◌≤◌, Some, length};
ghost use Rattle.perm_table.specs.declared.Kind.TheVariants.{Write};
ghost use Rattle.eager_tree.specs.Steps.{on_span};
ghost use Rattle.dated_tree.specs.Eager.{tag_at};
ghost use Rattle.dated_tree.specs.Access.{IsAccessed};
ghost use Rattle.dated_tree.specs.Shape.{node_at};
ghost use Rattle.dated_access.specs.Path.{IsPathTo};
ghost use Rattle.dated_access.specs.Change.{AreOthers, AreUniform, IsDatedAlike};
ghost use Rattle.dated_access.specs.Pieces.{visited};

use crate::change::{meet_of_others, meet_on_path};
use bsan_ids::Span;
use dated_tree::DatedTree;
use perm_table::Kind;

/// Does an access through the node `x` at the date now, on a span on which each node of its path and
/// each other guarded node has one slot, and whose bytes have the same dates. No node denies it.
pub fn meet(
    tree: &mut DatedTree,
    x: usize,
    path: &[usize],
    others: &[usize],
    span: Span,
    kind: Kind,
)
    requires bytes { 1 ≤ span.len }
    requires within { span.start + span.len ≤ tree.old.size }
    requires actor { tree.old.actor ≡ Some (tag_at tree.old x) }
    requires path { IsPathTo tree.old.nodes x path.now }
    requires others { AreOthers tree.old x others.now }
    requires on_path { AreUniform tree.old path.now span }
    requires off_path { AreUniform tree.old others.now span }
    requires dates { IsDatedAlike tree.old span }
    requires accesses { 2 ≤ tree.old.accesses.spare }
    requires writes { kind ≡ Write → 2 ≤ tree.old.writes.spare }
    ensures accessed { IsAccessed x (on_span span kind) tree.old.clock tree.old tree.new }
    ensures visits { tree.new.visits ≤ tree.old.visits + 2 * visited path.now others.now }
    ensures spare { (place : ℕ) → (node_at tree.old.nodes place).runs.spare ≤ (node_at tree.new.nodes place).runs.spare + 2 }
    ensures date_spare { tree.old.accesses.spare ≤ tree.new.accesses.spare + 2 }
    ensures write_spare { tree.old.writes.spare ≤ tree.new.writes.spare + 2 }
{
    // the node is named for the caller's sake alone
    let _ = x;
    tree.soundness();
    meet_on_path(tree, path, span, kind);
    meet_of_others(tree, others, span, kind);
    tree.date(span, kind);
}
