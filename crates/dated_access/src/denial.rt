//! The first denial of an access at a byte.
ghost use Rattle.std.specs.Prelude.{◌≡◌, ℕ, ◌+◌, ◌<◌, ◌≤◌, length};
ghost use Rattle.dated_tree.specs.Shape.{Shape};
ghost use Rattle.dated_access.specs.Path.{IsWay, entry};
ghost use Rattle.dated_access.specs.Denial.{refuses_local, refuses_foreign, perm_at, kept_perm, FindsFirst};

use dated_tree::DatedTree;
use perm_table::{Kind, Perm};

/// A node that denies an access at a byte, and its state there.
#[derive(Clone, Copy)]
pub struct Found {
    pub place: usize,
    pub perm: Perm,
}

/// The first node of a path that denies a local access at a byte.
pub fn denial_on_path(tree: &mut DatedTree, path: &[usize], at: u32, kind: Kind) -> Option<Found>
    requires within { at < tree.old.size }
    requires way { IsWay tree.old.nodes path.now }
    ensures tree { tree.new ≡ record tree.old { visits = tree.new.visits } }
    ensures found { FindsFirst (refuses_local tree.old kind at) (perm_at tree.old at) path.now result }
    ensures visits { tree.new.visits ≤ tree.old.visits + 1 + length path.now }
{
    tree.soundness();
    let mut seen = tree.last(at);
    for place in path {
        let place = *place;
        let slot = tree.read_slot(place, at);
        seen = slot.met.below(tree.ends(place), seen);
        if slot.denies_local(tree.guard(place), seen, kind) {
            return Some(Found {
                place,
                perm: slot.perm_by(seen),
            });
        }
    }
    None
}

/// The first of some guarded nodes off the path that denies a foreign access at a byte.
pub fn denial_of_others(
    tree: &mut DatedTree,
    others: &[usize],
    at: u32,
    kind: Kind,
) -> Option<Found>
    requires within { at < tree.old.size }
    requires some { (k : ℕ) → k < length others.now → 1 ≤ entry others.now k }
    requires stored { (k : ℕ) → k < length others.now → entry others.now k ≤ length tree.old.nodes }
    ensures tree { tree.new ≡ record tree.old { visits = tree.new.visits } }
    ensures found { FindsFirst (refuses_foreign tree.old kind at) (kept_perm tree.old at) others.now result }
    ensures visits { tree.new.visits ≤ tree.old.visits + length others.now }
{
    for place in others {
        let place = *place;
        let slot = tree.read_slot(place, at);
        if slot.denies_foreign(tree.guard(place), kind) {
            return Some(Found {
                place,
                perm: slot.perm,
            });
        }
    }
    None
}
