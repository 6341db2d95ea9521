//! The guarded nodes off a path.
ghost use Rattle.std.specs.Prelude.{◌≡◌, ℕ, ◌<◌, ◌≤◌, length, [], Contains, IsTrue, IsFalse, vec_capacity};
ghost use Rattle.dated_tree.specs.Kept.{IsSound};
ghost use Rattle.dated_access.specs.Path.{IsPathTo, entry};
ghost use Rattle.dated_access.specs.Change.{AreOthers};
ghost use Rattle.dated_access.specs.Others.{others_to, IsRising};

use dated_tree::DatedTree;

/// Whether a place is among rising ones.
fn is_among(places: &[usize], place: usize) -> bool
    requires { IsRising places.now }
    ensures yes { IsTrue result → Contains places.now place }
    ensures no { IsFalse result → (k : ℕ) → k < length places.now → entry places.now k ≡ place → ⊥ }
{
    let at = places.partition_point(|before| *before < place);
    at < places.len() && places[at] == place
}

/// Puts the places of the guarded nodes off the path of `x` into an empty list with room for them.
pub fn others_of(tree: &DatedTree, x: usize, path: &[usize], others: &mut Vec<usize>)
    requires sound { IsSound tree.now }
    requires stored { x ≤ length tree.now.nodes }
    requires path { IsPathTo tree.now.nodes x path.now }
    requires empty { others.old.items ≡ [] }
    requires room { length tree.now.guarded ≤ vec_capacity others.old }
    ensures list { others.new.items ≡ others_to tree.now x }
    ensures others { AreOthers tree.now x others.new.items }
    ensures capacity { vec_capacity others.new ≡ vec_capacity others.old }
{
    // the node is named for the caller's sake alone
    let _ = x;
    for place in tree.guarded() {
        if !is_among(path, *place) {
            others.push_reserved(*place);
        }
    }
}
