//! An access on a whole span.
ghost use Rattle.std.specs.Prelude.{◌≡◌, ◌+◌, ◌-◌, ◌*◌, ◌^◌, ◌<◌, ◌≤◌, [], length, IsSome, vec_capacity};
ghost use Rattle.eager_tree.specs.Steps.{access as access_of};
ghost use Rattle.dated_tree.specs.Eager.{eager_of, tag_at};
ghost use Rattle.dated_tree.specs.Kept.{IsSound};
ghost use Rattle.dated_access.specs.Path.{IsPathTo};
ghost use Rattle.dated_access.specs.Change.{AreOthers};
ghost use Rattle.dated_access.specs.Pieces.{pieces, visited, HasRoom};

use crate::denied::{Access, first_denial};
use crate::span::meet_pieces;
use dated_tree::DatedTree;
use eager_tree::Violation;

/// An access through a node, whose path and other guarded nodes are given. The list of the pieces' ends
/// is empty, with room for them. A denied access changes nothing but the counter; the violation names
/// the least offset with a denial, then the least tag there.
pub fn access_on(
    tree: &mut DatedTree,
    access: Access,
    path: &[usize],
    others: &[usize],
    ends: &mut Vec<u32>,
) -> Option<Violation>
    requires sound { IsSound tree.old }
    requires node { access.node ≤ length tree.old.nodes }
    requires bytes { 1 ≤ access.span.len }
    requires within { access.span.start + access.span.len ≤ tree.old.size }
    requires clock { tree.old.clock < 2 ^ 64 - 1 }
    requires path { IsPathTo tree.old.nodes access.node path.now }
    requires others { AreOthers tree.old access.node others.now }
    requires empty { ends.old.items ≡ [] }
    requires list { pieces tree.old path.now others.now access.span ≤ vec_capacity ends.old }
    requires room { HasRoom tree.old path.now others.now (2 * pieces tree.old path.now others.now access.span) }
    ensures sound { IsSound tree.new }
    ensures answer { (result, eager_of tree.new) ≡ access_of (eager_of tree.old) (tag_at tree.old access.node) access.span access.kind }
    ensures denied { IsSome result → tree.new ≡ record tree.old { visits = tree.new.visits } }
    ensures visits { tree.new.visits ≤ tree.old.visits + pieces tree.old path.now others.now access.span * (3 * visited path.now others.now) }
    ensures capacity { vec_capacity ends.new ≡ vec_capacity ends.old }
{
    match first_denial(tree, access, path, others, ends) {
        Some(denial) => Some(Violation::Denied {
            offset: denial.offset,
            node: tree.tag(denial.place),
            perm: denial.perm,
            local: denial.local,
        }),
        None => {
            let tag = tree.tag(access.node);
            tree.begin(tag);
            meet_pieces(tree, access, path, others, ends.as_slice());
            None
        }
    }
}
