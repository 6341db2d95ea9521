//! An access done on a span on which each node that it visits has one slot.
ghost use Rattle.std.specs.Prelude.{◌≡◌, ℕ, ◌+◌, ◌*◌, ◌<◌, ◌≤◌, [], ◌∷◌, length};
ghost use Rattle.dated_tree.specs.Shape.{node_at, slot_at};
ghost use Rattle.dated_access.specs.Path.{IsWay};
ghost use Rattle.dated_access.specs.Change.{HasChanged, AfterLocal, AfterForeign, AreUniform, AreDistinct, IsDatedAlike};

use bsan_ids::Span;
use dated_tree::{DatedTree, Slot};
use perm_table::Kind;

/// Gives a node that has one slot on a span another one there, if it differs.
fn put_new(tree: &mut DatedTree, place: usize, span: Span, slot: Slot, next: Slot)
    requires some { 1 ≤ place }
    requires stored { place ≤ length tree.old.nodes }
    requires bytes { 1 ≤ span.len }
    requires within { span.start + span.len ≤ tree.old.size }
    requires room { 2 ≤ (node_at tree.old.nodes place).runs.spare }
    requires slots { (b : ℕ) → span.start ≤ b → b < span.start + span.len → slot_at tree.old.nodes place b ≡ slot }
    ensures tree { tree.new ≡ record tree.old { nodes = tree.new.nodes; visits = tree.new.visits } }
    ensures put { HasChanged (λ p b s. s ≡ next) tree.old tree.new (place ∷ []) 1 span }
    ensures visits { tree.new.visits ≤ tree.old.visits + 1 }
{
    tree.soundness();
    if next != slot {
        tree.put(place, span, next);
    }
}

/// The nodes of a path meet a local access on a span, at the date now.
pub fn meet_on_path(tree: &mut DatedTree, path: &[usize], span: Span, kind: Kind)
    requires bytes { 1 ≤ span.len }
    requires within { span.start + span.len ≤ tree.old.size }
    requires way { IsWay tree.old.nodes path.now }
    requires uniform { AreUniform tree.old path.now span }
    requires dates { IsDatedAlike tree.old span }
    ensures tree { tree.new ≡ record tree.old { nodes = tree.new.nodes; visits = tree.new.visits } }
    ensures changed { HasChanged (AfterLocal tree.old kind) tree.old tree.new path.now (length path.now) span }
    ensures visits { tree.new.visits ≤ tree.old.visits + 1 + 2 * length path.now }
{
    tree.soundness();
    let now = tree.clock();
    let mut seen = tree.last(span.start);
    for place in path {
        let place = *place;
        let slot = tree.read_slot(place, span.start);
        seen = slot.met.below(tree.ends(place), seen);
        let next = slot.after_local(tree.guard(place), tree.ends(place), now, seen, kind);
        put_new(tree, place, span, slot, next);
    }
}

/// Some guarded nodes off the path meet a foreign access on a span at once.
pub fn meet_of_others(tree: &mut DatedTree, others: &[usize], span: Span, kind: Kind)
    requires bytes { 1 ≤ span.len }
    requires within { span.start + span.len ≤ tree.old.size }
    requires distinct { AreDistinct tree.old others.now }
    requires uniform { AreUniform tree.old others.now span }
    ensures tree { tree.new ≡ record tree.old { nodes = tree.new.nodes; visits = tree.new.visits } }
    ensures changed { HasChanged (AfterForeign tree.old kind) tree.old tree.new others.now (length others.now) span }
    ensures visits { tree.new.visits ≤ tree.old.visits + 2 * length others.now }
{
    tree.soundness();
    for place in others {
        let place = *place;
        let slot = tree.read_slot(place, span.start);
        let next = slot.after_foreign(tree.guard(place), kind);
        put_new(tree, place, span, slot, next);
    }
}
