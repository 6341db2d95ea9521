//! The end of a protector.
ghost use Rattle.std.specs.Prelude.{◌≡◌, ℕ, ◌+◌, ◌-◌, ◌*◌, ◌<◌, ◌≤◌, ◌⊎◌, length, IsTrue, IsFalse};
ghost use Rattle.eager_tree.specs.Tree.{is_node};
ghost use Rattle.eager_tree.specs.Steps.{implicit_kind, end_protector as end_of};
ghost use Rattle.lazy_tree.specs.Skip.{node_at, run_after};
ghost use Rattle.lazy_tree.specs.Eager.{eager_cell, eager_of};
ghost use Rattle.lazy_access.specs.Change.{AddsStarts};
ghost use Rattle.lazy_access.specs.Requests.{HasWalk};
ghost use Rattle.lazy_tree.specs.Ring.{is_cut};
ghost use Rattle.lazy_access.specs.Ready.{IsReadyFor};
ghost use Rattle.lazy_access.specs.declared.request.TreeRequest.TheVariants.{EndProtector as ToEnd};
ghost use Rattle.lazy_access.specs.Ends.{FindsEnd, NoEndDenial, HasEndRoomOn, HasEndRoom, IsEnded};

use crate::accesses::violation_of;
use crate::check::{Access, Found};
use crate::visit::{denial, visit};
use bsan_ids::{Span, Tag};
use eager_tree::Violation;
use lazy_tree::{LazyTree, Slot};
use perm_table::{Kind, Perm};

/// The access that the end of a protector makes at a byte, by what its node keeps there.
pub fn implicit(slot: Slot) -> Option<Kind>
    ensures { result ≡ implicit_kind (eager_cell slot) }
{
    if !slot.accessed {
        return None;
    }
    match slot.perm {
        Perm::Unique => Some(Kind::Write),
        Perm::Disabled | Perm::Cell => None,
        Perm::Reserved | Perm::Conflicted | Perm::CellReserved | Perm::Frozen => Some(Kind::Read),
    }
}

/// Finds what the end of the protector of node `x` would deny at the run of `x` that has the byte `at`.
fn run_denial(tree: &mut LazyTree, x: usize, at: u32) -> Option<Found>
    requires node { x < length tree.old.nodes }
    requires within { at < tree.old.size }
    requires walk { HasWalk tree.old }
    ensures tree { tree.new ≡ record tree.old { visits = tree.new.visits } }
    ensures rises { tree.old.visits ≤ tree.new.visits }
    ensures within { run_after tree.old.nodes x at ≤ tree.old.size }
    ensures found { FindsEnd tree.old.nodes x at (run_after tree.old.nodes x at) result }
{
    tree.soundness();
    let span = Span {
        start: at,
        len: tree.run_end(x, at) - at,
    };
    match implicit(tree.read_slot(x, at)) {
        Some(kind) => {
            let access = Access {
                node: x,
                span,
                kind,
                below: false,
            };
            denial(tree, access)
        }
        None => None,
    }
}

/// Finds what the end of the protector of node `x` would deny. No node changes.
fn end_denial(tree: &mut LazyTree, x: usize) -> Option<Found>
    requires node { x < length tree.old.nodes }
    requires walk { HasWalk tree.old }
    ensures tree { tree.new ≡ record tree.old { visits = tree.new.visits } }
    ensures rises { tree.old.visits ≤ tree.new.visits }
    ensures found { FindsEnd tree.old.nodes x 0 tree.old.size result }
{
    let size = tree.size();
    let mut at = 0;
    'runs: while at < size {
        if let Some(found) = run_denial(tree, x, at) {
            return Some(found);
        }
        at = tree.run_end(x, at);
    }
    None
}

/// Makes the access of the end of the protector of node `x` at the run of `x` that has the byte `at`,
/// which no node denies.
fn end_run(tree: &mut LazyTree, x: usize, at: u32)
    requires node { x < length tree.old.nodes }
    requires within { at < tree.old.size }
    requires walk { HasWalk tree.old }
    requires allowed { NoEndDenial tree.old.nodes x at (run_after tree.old.nodes x at) }
    requires room { HasEndRoomOn tree.old.nodes x at (run_after tree.old.nodes x at) 2 }
    ensures tree { tree.new ≡ record tree.old { nodes = tree.new.nodes; visits = tree.new.visits } }
    ensures rises { tree.old.visits ≤ tree.new.visits }
    ensures ended { IsEnded tree.old.size tree.old.nodes tree.new.nodes x at (run_after tree.old.nodes x at) }
    ensures spare { (i : ℕ) → (node_at tree.old.nodes i).runs.spare ≤ (node_at tree.new.nodes i).runs.spare + 2 }
    ensures adds { AddsStarts tree.old.nodes tree.new.nodes (record { start = at; len = run_after tree.old.nodes x at - at }) }
{
    tree.soundness();
    let span = Span {
        start: at,
        len: tree.run_end(x, at) - at,
    };
    if let Some(kind) = implicit(tree.read_slot(x, at)) {
        let access = Access {
            node: x,
            span,
            kind,
            below: false,
        };
        let _ = visit(tree, access);
    }
}

/// Makes the accesses of the end of the protector of node `x`, which no node denies.
fn end_runs(tree: &mut LazyTree, x: usize)
    requires node { x < length tree.old.nodes }
    requires walk { HasWalk tree.old }
    requires allowed { NoEndDenial tree.old.nodes x 0 tree.old.size }
    requires room { HasEndRoom tree.old.size tree.old.nodes x }
    ensures tree { tree.new ≡ record tree.old { nodes = tree.new.nodes; visits = tree.new.visits } }
    ensures rises { tree.old.visits ≤ tree.new.visits }
    ensures ended { IsEnded tree.old.size tree.old.nodes tree.new.nodes x 0 tree.old.size }
    ensures cuts { (s : ℕ) → s < tree.old.size → IsTrue (is_cut tree.new.nodes s) → IsTrue (is_cut tree.old.nodes s) }
{
    tree.soundness();
    let size = tree.size();
    let mut at = 0;
    'runs: while at < size {
        tree.soundness();
        let end = tree.run_end(x, at);
        end_run(tree, x, at);
        at = end;
    }
}

/// Ends the protector of the node `x`.
fn end_at(tree: &mut LazyTree, x: usize) -> Option<Violation>
    requires node { x < length tree.old.nodes }
    requires walk { HasWalk tree.old }
    requires room { HasEndRoom tree.old.size tree.old.nodes x }
    ensures size { tree.new.size ≡ tree.old.size }
    ensures rises { tree.old.visits ≤ tree.new.visits }
    ensures cuts { (s : ℕ) → s < tree.old.size → IsTrue (is_cut tree.new.nodes s) → IsTrue (is_cut tree.old.nodes s) }
    ensures answer { (result, eager_of tree.new) ≡ end_of (eager_of tree.old) (node_at tree.old.nodes x).tag }
{
    tree.soundness();
    match end_denial(tree, x) {
        Some(found) => violation_of(tree, Some(found)),
        None => {
            end_runs(tree, x);
            tree.soundness();
            tree.set_free(x);
            None
        }
    }
}

/// Ends the protector of a node, after `prepare` for it: at each byte that the node has accessed, a
/// write where it is Unique, none where it is Disabled or Cell, and else a read, at all nodes but those
/// below it. Where none is denied the node has no guard afterwards; a denied end changes no state, and
/// the violation names the least offset with a denial, then the least tag there. It takes no memory.
pub fn end_protector(tree: &mut LazyTree, tag: Tag) -> Option<Violation>
    requires node { IsTrue (is_node (eager_of tree.old) tag) }
    requires ready { IsReadyFor tree.old (ToEnd tag) }
    ensures size { tree.new.size ≡ tree.old.size }
    ensures rises { tree.old.visits ≤ tree.new.visits }
    ensures cuts { (s : ℕ) → s < tree.old.size → IsTrue (is_cut tree.new.nodes s) → IsTrue (is_cut tree.old.nodes s) }
    ensures answer { (result, eager_of tree.new) ≡ end_of (eager_of tree.old) tag }
{
    match tree.find(tag) {
        None => None,
        Some(x) => end_at(tree, x),
    }
}
