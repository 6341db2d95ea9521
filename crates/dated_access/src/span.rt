//! An access piece by piece.
ghost use Rattle.std.specs.Prelude.{◌≡◌, ◌+◌, ◌-◌, ◌*◌, ◌<◌, ◌≤◌, Some, length};
ghost use Rattle.eager_tree.specs.Steps.{on_span};
ghost use Rattle.dated_tree.specs.Eager.{tag_at};
ghost use Rattle.dated_tree.specs.Access.{IsFresh, IsAccessed};
ghost use Rattle.dated_access.specs.Path.{IsPathTo};
ghost use Rattle.dated_access.specs.Change.{AreOthers};
ghost use Rattle.dated_access.specs.Pieces.{visited, piece_start, ArePieces, HasRoom};

use crate::denied::Access;
use crate::piece::meet;
use bsan_ids::Span;
use dated_tree::DatedTree;

/// Does an access at the date now, piece by piece. No node denies it.
pub fn meet_pieces(
    tree: &mut DatedTree,
    access: Access,
    path: &[usize],
    others: &[usize],
    ends: &[u32],
)
    requires actor { tree.old.actor ≡ Some (tag_at tree.old access.node) }
    requires fresh { IsFresh tree.old access.node tree.old.clock }
    requires path { IsPathTo tree.old.nodes access.node path.now }
    requires others { AreOthers tree.old access.node others.now }
    requires pieces { ArePieces tree.old path.now others.now access.span.start ends.now }
    requires whole { piece_start access.span.start ends.now (length ends.now) ≡ access.span.start + access.span.len }
    requires room { HasRoom tree.old path.now others.now (2 * length ends.now) }
    ensures accessed { IsAccessed access.node (on_span access.span access.kind) tree.old.clock tree.old tree.new }
    ensures visits { tree.new.visits ≤ tree.old.visits + length ends.now * (2 * visited path.now others.now) }
{
    tree.soundness();
    let mut from = access.span.start;
    for end in ends {
        let end = *end;
        let piece = Span {
            start: from,
            len: end - from,
        };
        meet(tree, access.node, path, others, piece, access.kind);
        from = end;
    }
}
