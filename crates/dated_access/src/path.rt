//! The path of a node.
ghost use Rattle.std.specs.Prelude.{◌≡◌, ◌≤◌, ◌-◌, length, [], reverse, vec_capacity};
ghost use Rattle.dated_access.specs.Path.{IsPathTo};

use dated_tree::DatedTree;

/// Puts the places from below the root down to `x` into an empty list with room for them.
pub fn path_to(tree: &DatedTree, x: usize, path: &mut Vec<usize>)
    requires stored { x ≤ length tree.now.nodes }
    requires empty { path.old.items ≡ [] }
    requires room { length tree.now.nodes ≤ vec_capacity path.old }
    ensures path { IsPathTo tree.now.nodes x path.new.items }
    ensures capacity { vec_capacity path.new ≡ vec_capacity path.old }
{
    tree.soundness();
    let mut here = x;
    'up: while here > 0 {
        path.push_reserved(here);
        here = tree.parent(here);
    }
    path.as_mut_slice().reverse();
}
