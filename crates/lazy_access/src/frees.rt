//! Frees.
ghost use Rattle.std.specs.Prelude.{◌≡◌, ℕ, ◌+◌, ◌<◌, ◌≤◌, length, IsTrue};
ghost use Rattle.eager_tree.specs.Tree.{is_node};
ghost use Rattle.eager_tree.specs.Steps.{free_all as free_of};
ghost use Rattle.lazy_tree.specs.Skip.{node_at};
ghost use Rattle.lazy_tree.specs.Eager.{eager_of};
ghost use Rattle.lazy_access.specs.Requests.{HasWalk};
ghost use Rattle.lazy_tree.specs.Ring.{is_cut};
ghost use Rattle.lazy_access.specs.Ready.{IsReadyFor};
ghost use Rattle.lazy_access.specs.declared.request.TreeRequest.TheVariants.{FreeAll as ToFree};
ghost use Rattle.lazy_access.specs.Held.{FindsAccessed, FindsHeldBy, FindsHeld, earlier_held};

use crate::accesses::{access_at, violation_of};
use crate::check::Access;
use crate::visit::denial;
use bsan_ids::{Span, Tag};
use eager_tree::Violation;
use lazy_tree::LazyTree;
use perm_table::{Guard, Kind, Perm};

/// A byte that a strongly guarded node has accessed, and the node's state there.
#[derive(Clone, Copy)]
pub struct Held {
    pub node: usize,
    pub offset: u32,
    pub perm: Perm,
}

/// The first byte that a node has accessed.
fn first_accessed(tree: &mut LazyTree, node: usize) -> Option<Held>
    requires { node < length tree.old.nodes }
    ensures tree { tree.new ≡ record tree.old { visits = tree.new.visits } }
    ensures rises { tree.old.visits ≤ tree.new.visits }
    ensures first { FindsAccessed tree.old.size tree.old.nodes node result }
{
    let size = tree.size();
    let mut at = 0;
    'runs: while at < size {
        let slot = tree.read_slot(node, at);
        if slot.accessed {
            return Some(Held {
                node,
                offset: at,
                perm: slot.perm,
            });
        }
        at = tree.run_end(node, at);
    }
    None
}

/// The first of two, by the byte and then the first one.
fn sooner_held(kept: Option<Held>, found: Option<Held>) -> Option<Held>
    ensures { result ≡ earlier_held kept found }
{
    match (kept, found) {
        (None, found) => found,
        (Some(kept), None) => Some(kept),
        (Some(kept), Some(found)) => {
            if found.offset < kept.offset {
                Some(found)
            } else {
                Some(kept)
            }
        }
    }
}

/// The first byte that a node has accessed, if its guard is strong.
fn held_by(tree: &mut LazyTree, node: usize) -> Option<Held>
    requires { node < length tree.old.nodes }
    ensures tree { tree.new ≡ record tree.old { visits = tree.new.visits } }
    ensures rises { tree.old.visits ≤ tree.new.visits }
    ensures held { FindsHeldBy tree.old.size tree.old.nodes node result }
{
    if tree.guard(node) == Guard::Strong {
        first_accessed(tree, node)
    } else {
        None
    }
}

/// The first byte that a strongly guarded node has accessed.
pub fn first_held(tree: &mut LazyTree) -> Option<Held>
    ensures tree { tree.new ≡ record tree.old { visits = tree.new.visits } }
    ensures rises { tree.old.visits ≤ tree.new.visits }
    ensures held { FindsHeld tree.old.size tree.old.nodes (length tree.old.nodes) result }
{
    let mut held = None;
    for index in 0..tree.len() {
        held = sooner_held(held, held_by(tree, index));
    }
    held
}

/// Frees the allocation through the node `x`.
fn free_at(tree: &mut LazyTree, x: usize) -> Option<Violation>
    requires node { x < length tree.old.nodes }
    requires walk { HasWalk tree.old }
    ensures size { tree.new.size ≡ tree.old.size }
    ensures rises { tree.old.visits ≤ tree.new.visits }
    ensures cuts { (s : ℕ) → s < tree.old.size → IsTrue (is_cut tree.new.nodes s) → IsTrue (is_cut tree.old.nodes s) }
    ensures answer { (result, eager_of tree.new) ≡ free_of (eager_of tree.old) (node_at tree.old.nodes x).tag }
{
    tree.soundness();
    let whole = Span {
        start: 0,
        len: tree.size(),
    };
    let access = Access {
        node: x,
        span: whole,
        kind: Kind::Write,
        below: true,
    };
    match first_held(tree) {
        None => access_at(tree, x, whole, Kind::Write),
        Some(held) => match denial(tree, access) {
            Some(found) => violation_of(tree, Some(found)),
            None => Some(Violation::StrongFree {
                offset: held.offset,
                node: tree.tag(held.node),
                perm: held.perm,
            }),
        },
    }
}

/// Frees the allocation through a node, after `prepare` for it: a write on all bytes. Where that is not
/// denied, it is a violation still if a node with a strong guard has accessed a byte.
pub fn free_all(tree: &mut LazyTree, tag: Tag) -> Option<Violation>
    requires node { IsTrue (is_node (eager_of tree.old) tag) }
    requires ready { IsReadyFor tree.old (ToFree tag) }
    ensures size { tree.new.size ≡ tree.old.size }
    ensures rises { tree.old.visits ≤ tree.new.visits }
    ensures cuts { (s : ℕ) → s < tree.old.size → IsTrue (is_cut tree.new.nodes s) → IsTrue (is_cut tree.old.nodes s) }
    ensures answer { (result, eager_of tree.new) ≡ free_of (eager_of tree.old) tag }
{
    match tree.find(tag) {
        None => None,
        Some(x) => free_at(tree, x),
    }
}
