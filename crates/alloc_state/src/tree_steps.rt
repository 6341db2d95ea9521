//! A request to the tree of an allocation.
ghost use Rattle.std.specs.Prelude.{◌≡◌, ◌≤◌, ◌<◌, ◌⊎◌, ℕ, IsTrue, None};
ghost use Rattle.lazy_tree.specs.Eager.{eager_of};
ghost use Rattle.lazy_tree.specs.Ring.{is_cut};
ghost use Rattle.lazy_access.specs.Ready.{IsWithinRing};
ghost use Rattle.alloc_state.specs.Asking.{told, MayAsk};
ghost use Rattle.alloc_state.specs.Counted.{IsStill, IsEndOf};

use bsan_ids::Tag;
use eager_tree::Violation;
use lazy_access::{TreeRequest, access, end_protector, free_all, retag};
use lazy_tree::LazyTree;

/// Asks the tree, after `prepare` for it. The tag is that of the node which a retag adds.
pub fn ask(tree: &mut LazyTree, request: TreeRequest, new: Tag) -> Option<Violation>
    requires { MayAsk tree.old new request }
    ensures answer { (result, eager_of tree.new) ≡ told (eager_of tree.old) request new }
    ensures size { tree.new.size ≡ tree.old.size }
    ensures rises { tree.old.visits ≤ tree.new.visits }
    ensures ring { IsWithinRing tree.old tree.new request }
    ensures still { result ≡ None → IsStill tree.new request }
    ensures cuts { (at : ℕ) → at < tree.old.size → IsTrue (is_cut tree.new.nodes at) → IsTrue (is_cut tree.old.nodes at) ⊎ IsEndOf request at }
{
    match request {
        TreeRequest::Access { tag, span, kind } => access(tree, tag, span, kind),
        TreeRequest::Retag {
            parent,
            span,
            kind,
            guard,
        } => retag(tree, parent, span, kind, guard, new),
        TreeRequest::EndProtector { tag } => end_protector(tree, tag),
        TreeRequest::FreeAll { tag } => free_all(tree, tag),
    }
}
