//! The memory for a step, taken before it.
ghost use Rattle.std.specs.Prelude.{◌≡◌, ℕ, ◌+◌, ◌*◌, ◌<◌, ◌≤◌, length, IsTrue, IsFalse, true, OnOk, OnErr, MatchOption};
ghost use Rattle.eager_tree.specs.Tree.{links};
ghost use Rattle.lazy_tree.specs.Quiet.{IsQuiet, KeepsQuiet, KeepsCuts};
ghost use Rattle.lazy_tree.specs.Ring.{ring_size, pieces};
ghost use Rattle.lazy_tree.specs.Eager.{eager_of};
ghost use Rattle.lazy_access.specs.Change.{IsRoomier};
ghost use Rattle.lazy_access.specs.Requests.{local_in, HasWalk, HasRoom, IsChild};
ghost use Rattle.lazy_access.specs.Walk.{IsQuietAll, ring_of};
ghost use Rattle.lazy_access.specs.Ready.{IsReadyToAccess, IsReadyToRetag, IsReadyToEnd, IsReadyFor, KeepsReady, IsWithinRing, Fits};

use crate::check::Access;
use crate::request::TreeRequest;
use crate::reserve::{reserve_cuts, reserve_ends};
use bsan_ids::{NoMemory, Span, Tag};
use lazy_tree::{LazyTree, Level, Slot};
use perm_table::{Guard, Kind, RetagKind, start};

/// Makes room in each node that an access through node `x` may change, and settles the access where it
/// would change nothing.
fn reserve_access(tree: &mut LazyTree, x: usize, span: Span, kind: Kind) -> Result<(), NoMemory>
    requires node { x < length tree.old.nodes }
    requires within { span.start + span.len ≤ tree.old.size }
    requires walk { HasWalk tree.old }
    ensures tree { tree.new ≡ record tree.old { nodes = tree.new.nodes; visits = tree.new.visits } }
    ensures rises { tree.old.visits ≤ tree.new.visits }
    ensures same { IsRoomier tree.old.nodes tree.new.nodes }
    ensures ring { IsQuietAll tree.old.nodes (local_in tree.old.nodes x) kind span → tree.new.visits ≤ tree.old.visits + ring_of tree.old.nodes (local_in tree.old.nodes x) * pieces tree.old.nodes span }
    ensures room { OnOk result (HasRoom tree.new.nodes x true span kind 2) }
{
    let access = Access {
        node: x,
        span,
        kind,
        below: true,
    };
    let changes = reserve_cuts(tree, access, 2)?;
    if !changes {
        let tag = tree.tag(x);
        tree.settle(tag, span, kind);
    }
    Ok(())
}

/// Takes all memory for an access that isn't settled.
fn prepare_unsettled(tree: &mut LazyTree, tag: Tag, span: Span, kind: Kind) -> Result<(), NoMemory>
    requires within { span.start + span.len ≤ tree.old.size }
    ensures ready { OnOk result (IsReadyToAccess tree.new tag span kind) }
    ensures same { eager_of tree.new ≡ eager_of tree.old }
    ensures nodes { IsRoomier tree.old.nodes tree.new.nodes }
    ensures tree { tree.new ≡ record tree.old { nodes = tree.new.nodes; visits = tree.new.visits; marks = tree.new.marks; list_room = tree.new.list_room } }
    ensures quiet { KeepsQuiet tree.old tree.new }
    ensures cuts { KeepsCuts tree.old tree.new }
    ensures rises { tree.old.visits ≤ tree.new.visits }
    ensures walk { HasWalk tree.old → HasWalk tree.new }
    ensures ring { IsQuiet tree.old tag span kind → tree.new.visits ≤ tree.old.visits + ring_size (links (eager_of tree.old).nodes) tag * pieces tree.old.nodes span }
{
    tree.reserve_walk()?;
    tree.soundness();
    match tree.find(tag) {
        Some(x) => reserve_access(tree, x, span, kind),
        None => Ok(()),
    }
}

/// Takes all memory for an access. The tree stands for the same eager tree.
fn prepare_access(tree: &mut LazyTree, tag: Tag, span: Span, kind: Kind) -> Result<(), NoMemory>
    requires within { span.start + span.len ≤ tree.old.size }
    ensures ready { OnOk result (IsReadyToAccess tree.new tag span kind) }
    ensures same { eager_of tree.new ≡ eager_of tree.old }
    ensures nodes { IsRoomier tree.old.nodes tree.new.nodes }
    ensures tree { tree.new ≡ record tree.old { nodes = tree.new.nodes; visits = tree.new.visits; marks = tree.new.marks; list_room = tree.new.list_room } }
    ensures quiet { KeepsQuiet tree.old tree.new }
    ensures cuts { KeepsCuts tree.old tree.new }
    ensures rises { tree.old.visits ≤ tree.new.visits }
    ensures walk { HasWalk tree.old → HasWalk tree.new }
    ensures ring { IsQuiet tree.old tag span kind → tree.new.visits ≤ tree.old.visits + ring_size (links (eager_of tree.old).nodes) tag * pieces tree.old.nodes span }
{
    tree.soundness();
    if tree.is_settled(tag, span, kind) {
        tree.reserve_walk()
    } else {
        prepare_unsettled(tree, tag, span, kind)
    }
}

/// Stores the root, where no node is stored yet.
fn store_root(tree: &mut LazyTree) -> Result<(), NoMemory>
    ensures stored { OnOk result (1 ≤ length tree.new.nodes) }
    ensures same { eager_of tree.new ≡ eager_of tree.old }
    ensures size { tree.new.size ≡ tree.old.size }
    ensures visits { tree.new.visits ≡ tree.old.visits }
    ensures kept { KeepsReady tree.old tree.new }
    ensures quiet { KeepsQuiet tree.old tree.new }
    ensures cuts { KeepsCuts tree.old tree.new }
{
    if tree.len() == 0 {
        tree.store_root()
    } else {
        Ok(())
    }
}

/// Makes the runs of a new child.
fn make_child(
    tree: &mut LazyTree,
    span: Span,
    kind: RetagKind,
    guard: Guard,
) -> Result<(), NoMemory>
    requires some { 1 ≤ span.len }
    requires within { span.start + span.len ≤ tree.old.size }
    ensures child { OnOk result (MatchOption tree.new.ready ⊥ (IsChild tree.old.size span kind guard)) }
    ensures spare { OnOk result (1 ≤ tree.new.spare) }
    ensures err { OnErr result (tree.new.ready ≡ tree.old.ready) }
    ensures grows { tree.old.spare ≤ tree.new.spare }
    ensures tree { tree.new ≡ record tree.old { spare = tree.new.spare; ready = tree.new.ready } }
    ensures quiet { KeepsQuiet tree.old tree.new }
    ensures cuts { KeepsCuts tree.old tree.new }
{
    let perm = start(kind, guard);
    let level = Level::of(perm, guard);
    let fresh = Slot {
        perm,
        accessed: false,
        level,
    };
    let touched = Slot {
        perm,
        accessed: true,
        level,
    };
    tree.make_child(fresh, touched, span)
}

/// Takes all memory for a retag. The tree stands for the same eager tree.
fn prepare_retag(
    tree: &mut LazyTree,
    parent: Tag,
    span: Span,
    kind: RetagKind,
    guard: Guard,
) -> Result<(), NoMemory>
    requires some { 1 ≤ span.len }
    requires within { span.start + span.len ≤ tree.old.size }
    ensures ready { OnOk result (IsReadyToRetag tree.new parent span kind guard) }
    ensures kept { OnErr result (KeepsReady tree.old tree.new) }
    ensures same { eager_of tree.new ≡ eager_of tree.old }
    ensures size { tree.new.size ≡ tree.old.size }
    ensures rises { tree.old.visits ≤ tree.new.visits }
    ensures quiet { KeepsQuiet tree.old tree.new }
    ensures cuts { KeepsCuts tree.old tree.new }
{
    store_root(tree)?;
    prepare_access(tree, parent, span, Kind::Read)?;
    make_child(tree, span, kind, guard)
}

/// Takes all memory for the end of a protector. The tree stands for the same eager tree.
fn prepare_end(tree: &mut LazyTree, tag: Tag) -> Result<(), NoMemory>
    ensures ready { OnOk result (IsReadyToEnd tree.new tag) }
    ensures same { eager_of tree.new ≡ eager_of tree.old }
    ensures nodes { IsRoomier tree.old.nodes tree.new.nodes }
    ensures tree { tree.new ≡ record tree.old { nodes = tree.new.nodes; visits = tree.new.visits; marks = tree.new.marks; list_room = tree.new.list_room } }
    ensures quiet { KeepsQuiet tree.old tree.new }
    ensures cuts { KeepsCuts tree.old tree.new }
    ensures rises { tree.old.visits ≤ tree.new.visits }
    ensures walk { HasWalk tree.old → HasWalk tree.new }
{
    tree.reserve_walk()?;
    tree.soundness();
    match tree.find(tag) {
        Some(x) => reserve_ends(tree, x),
        None => Ok(()),
    }
}

/// Whether a span has a byte and lies in the allocation.
pub fn fits(tree: &LazyTree, span: Span) -> bool
    ensures yes { IsTrue result → (1 ≤ span.len) × (span.start + span.len ≤ tree.now.size) }
    ensures no { IsFalse result → (1 ≤ span.len) → (span.start + span.len ≤ tree.now.size) → ⊥ }
{
    let end = u64::from(span.start) + u64::from(span.len);
    1 <= span.len && end <= u64::from(tree.size())
}

/// Takes all memory for a request, whose span has a byte and lies in the allocation. The tree stands
/// for the same eager tree, without memory too, and an access that changes nothing still does so.
///
/// # Errors
///
/// `NoMemory`: out of memory. The tree is not ready for the request, but still for those for which it was.
pub fn prepare(tree: &mut LazyTree, request: &TreeRequest) -> Result<(), NoMemory>
    ensures ready { Fits tree.old.size request.now → OnOk result (IsReadyFor tree.new request.now) }
    ensures kept { OnErr result (KeepsReady tree.old tree.new) }
    ensures same { eager_of tree.new ≡ eager_of tree.old }
    ensures size { tree.new.size ≡ tree.old.size }
    ensures rises { tree.old.visits ≤ tree.new.visits }
    ensures quiet { KeepsQuiet tree.old tree.new }
    ensures cuts { KeepsCuts tree.old tree.new }
    ensures ring { IsWithinRing tree.old tree.new request.now }
{
    match *request {
        TreeRequest::Access { tag, span, kind } if fits(tree, span) => {
            prepare_access(tree, tag, span, kind)
        }
        TreeRequest::Retag {
            parent,
            span,
            kind,
            guard,
        } if fits(tree, span) => prepare_retag(tree, parent, span, kind, guard),
        TreeRequest::Access { .. } | TreeRequest::Retag { .. } => Ok(()),
        TreeRequest::EndProtector { tag } => prepare_end(tree, tag),
        TreeRequest::FreeAll { .. } => tree.reserve_walk(),
    }
}
