//! Accesses through a tag.
ghost use Rattle.std.specs.Prelude.{◌≡◌, ℕ, ◌+◌, ◌*◌, ◌<◌, ◌≤◌, ◌⊎◌, length, IsTrue, true, IfSome, None};
ghost use Rattle.eager_tree.specs.Tree.{is_node, links};
ghost use Rattle.eager_tree.specs.Steps.{access as access_of};
ghost use Rattle.lazy_tree.specs.Skip.{node_at};
ghost use Rattle.lazy_tree.specs.Eager.{eager_of, eager_with};
ghost use Rattle.lazy_tree.specs.Quiet.{IsQuiet};
ghost use Rattle.lazy_tree.specs.Ring.{ring_size, is_cut, pieces};
ghost use Rattle.lazy_access.specs.Change.{AddsStarts};
ghost use Rattle.lazy_access.specs.Requests.{HasWalk, HasCuts, violation_in};
ghost use Rattle.lazy_access.specs.Ready.{IsReadyFor};
ghost use Rattle.lazy_access.specs.declared.request.TreeRequest.TheVariants.{Access as ToAccess};

use crate::check::{Access, Found};
use crate::visit::visit;
use bsan_ids::{Span, Tag};
use eager_tree::Violation;
use lazy_tree::LazyTree;
use perm_table::Kind;

/// The violation of a denial.
pub fn violation_of(tree: &LazyTree, found: Option<Found>) -> Option<Violation>
    requires { IfSome found (λ f. f.node < length tree.now.nodes) }
    ensures { result ≡ violation_in tree.now.nodes found }
{
    match found {
        None => None,
        Some(found) => Some(Violation::Denied {
            offset: found.offset,
            node: tree.tag(found.node),
            perm: found.perm,
            local: found.local,
        }),
    }
}

/// An access through the node `x`.
pub fn access_at(tree: &mut LazyTree, x: usize, span: Span, kind: Kind) -> Option<Violation>
    requires node { x < length tree.old.nodes }
    requires some { 1 ≤ span.len }
    requires within { span.start + span.len ≤ tree.old.size }
    requires walk { HasWalk tree.old }
    requires cuts { HasCuts tree.old.size tree.old.nodes x true span kind }
    ensures tree { tree.new ≡ record tree.old { nodes = tree.new.nodes; visits = tree.new.visits } }
    ensures rises { tree.old.visits ≤ tree.new.visits }
    ensures count { length tree.new.nodes ≡ length tree.old.nodes }
    ensures tags { (i : ℕ) → (node_at tree.new.nodes i).tag ≡ (node_at tree.old.nodes i).tag }
    ensures adds { AddsStarts tree.old.nodes tree.new.nodes span }
    ensures answer { (result, eager_with tree.old.root tree.old.size tree.new.nodes) ≡ access_of (eager_of tree.old) (node_at tree.old.nodes x).tag span kind }
    ensures quiet { result ≡ None → IsQuiet tree.new (node_at tree.old.nodes x).tag span kind }
    ensures ring { IsQuiet tree.old (node_at tree.old.nodes x).tag span kind → tree.new.visits ≤ tree.old.visits + ring_size (links (eager_of tree.old).nodes) (node_at tree.old.nodes x).tag * pieces tree.old.nodes span }
{
    tree.soundness();
    let access = Access {
        node: x,
        span,
        kind,
        below: true,
    };
    let found = visit(tree, access);
    tree.soundness();
    violation_of(tree, found)
}

/// An access that isn't settled.
fn access_unsettled(tree: &mut LazyTree, tag: Tag, span: Span, kind: Kind) -> Option<Violation>
    requires node { IsTrue (is_node (eager_of tree.old) tag) }
    requires some { 1 ≤ span.len }
    requires within { span.start + span.len ≤ tree.old.size }
    requires ready { IsReadyFor tree.old (ToAccess tag span kind) }
    ensures size { tree.new.size ≡ tree.old.size }
    ensures rises { tree.old.visits ≤ tree.new.visits }
    ensures answer { (result, eager_of tree.new) ≡ access_of (eager_of tree.old) tag span kind }
    ensures quiet { result ≡ None → IsQuiet tree.new tag span kind }
    ensures ring { IsQuiet tree.old tag span kind → tree.new.visits ≤ tree.old.visits + ring_size (links (eager_of tree.old).nodes) tag * pieces tree.old.nodes span }
    ensures cuts { (s : ℕ) → IsTrue (is_cut tree.new.nodes s) → IsTrue (is_cut tree.old.nodes s) ⊎ ((s ≡ span.start) ⊎ (s ≡ span.start + span.len)) }
{
    match tree.find(tag) {
        None => None,
        Some(x) => access_at(tree, x, span, kind),
    }
}

/// An access through a node, on at least one byte of the allocation, after `prepare` for it. A denied
/// one changes no state; the violation names the least offset with a denial, then the least tag there.
pub fn access(tree: &mut LazyTree, tag: Tag, span: Span, kind: Kind) -> Option<Violation>
    requires node { IsTrue (is_node (eager_of tree.old) tag) }
    requires some { 1 ≤ span.len }
    requires within { span.start + span.len ≤ tree.old.size }
    requires ready { IsReadyFor tree.old (ToAccess tag span kind) }
    ensures size { tree.new.size ≡ tree.old.size }
    ensures rises { tree.old.visits ≤ tree.new.visits }
    ensures answer { (result, eager_of tree.new) ≡ access_of (eager_of tree.old) tag span kind }
    ensures quiet { result ≡ None → IsQuiet tree.new tag span kind }
    ensures ring { IsQuiet tree.old tag span kind → tree.new.visits ≤ tree.old.visits + ring_size (links (eager_of tree.old).nodes) tag * pieces tree.old.nodes span }
    ensures cuts { (s : ℕ) → IsTrue (is_cut tree.new.nodes s) → IsTrue (is_cut tree.old.nodes s) ⊎ ((s ≡ span.start) ⊎ (s ≡ span.start + span.len)) }
{
    tree.soundness();
    if tree.is_settled(tag, span, kind) {
        None
    } else {
        access_unsettled(tree, tag, span, kind)
    }
}
