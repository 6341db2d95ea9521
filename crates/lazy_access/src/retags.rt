//! Retags.
ghost use Rattle.std.specs.Prelude.{◌≡◌, ℕ, ◌+◌, ◌<◌, ◌≤◌, ◌⊎◌, length, IsTrue, All, OnSome, None};
ghost use Rattle.eager_tree.specs.Tree.{is_node};
ghost use Rattle.eager_tree.specs.Steps.{retag as retag_of};
ghost use Rattle.lazy_tree.specs.Eager.{eager_of};
ghost use Rattle.lazy_tree.specs.Ring.{is_cut};
ghost use Rattle.lazy_access.specs.Ready.{IsReadyFor};
ghost use Rattle.lazy_access.specs.declared.request.TreeRequest.TheVariants.{Retag as ToRetag};

use crate::accesses::access_at;
use crate::lower::lower;
use bsan_ids::{Span, Tag};
use eager_tree::Violation;
use lazy_tree::{LazyTree, Level};
use perm_table::{Guard, Kind, RetagKind, start};

/// Reads the span through `parent` and, where that is not denied, adds a child of it, after `prepare`
/// for it. The tag is greater than each of the tree. It takes no memory.
pub fn retag(
    tree: &mut LazyTree,
    parent: Tag,
    span: Span,
    kind: RetagKind,
    guard: Guard,
    tag: Tag,
) -> Option<Violation>
    requires node { IsTrue (is_node (eager_of tree.old) parent) }
    requires some { 1 ≤ span.len }
    requires within { span.start + span.len ≤ tree.old.size }
    requires newest { All (λ n. n.tag.0 < tag.0) (eager_of tree.old).nodes }
    requires ready { IsReadyFor tree.old (ToRetag parent span kind guard) }
    ensures size { tree.new.size ≡ tree.old.size }
    ensures rises { tree.old.visits ≤ tree.new.visits }
    ensures cuts { (s : ℕ) → IsTrue (is_cut tree.new.nodes s) → IsTrue (is_cut tree.old.nodes s) ⊎ ((s ≡ span.start) ⊎ (s ≡ span.start + span.len)) }
    ensures answer { (result, eager_of tree.new) ≡ retag_of (eager_of tree.old) parent span kind guard tag }
{
    let Some(x) = tree.find(parent) else {
        return None;
    };
    if let Some(violation) = access_at(tree, x, span, Kind::Read) {
        return Some(violation);
    }
    tree.soundness();
    lower(tree, x, Level::of(start(kind, guard), guard));
    tree.soundness();
    tree.add(x, tag, guard);
    None
}
