//! Room made in the nodes that a step may change.
ghost use Rattle.std.specs.Prelude.{◌≡◌, ◌⊎◌, ℕ, ◌+◌, ◌*◌, ◌<◌, ◌≤◌, length, IsTrue, IsFalse, IfOk, OnOk, false};
ghost use Rattle.lazy_tree.specs.Skip.{node_at, bool_at, run_after};
ghost use Rattle.lazy_tree.specs.Quiet.{IsQuietNode};
ghost use Rattle.lazy_tree.specs.Ring.{pieces};
ghost use Rattle.lazy_access.specs.Walk.{IsPath, IsMet, IsCovered, IsQuietAll, ring_of};
ghost use Rattle.lazy_access.specs.Change.{IsRoomier};
ghost use Rattle.lazy_access.specs.Requests.{local_in, HasWalk, HasRoom};
ghost use Rattle.lazy_access.specs.Ends.{HasEndRoomOn, HasEndRoom, runs_from};

use crate::check::{Access, see_node};
use crate::ends::implicit;
use crate::path::{clear_path, goes_below, mark_path, onward};
use crate::slots::either;
use bsan_ids::{NoMemory, Span};
use lazy_tree::{LazyTree, Scratch};

/// Makes room for `runs` more runs in a node, if it may be changed.
fn reserve_node(
    tree: &mut LazyTree,
    node: usize,
    runs: u32,
    local: bool,
    opens: bool,
) -> Result<(), NoMemory>
    requires { node < length tree.old.nodes }
    ensures tree { tree.new ≡ record tree.old { nodes = tree.new.nodes } }
    ensures room { OnOk result ((runs ≤ (node_at tree.new.nodes node).runs.spare) ⊎ (IsFalse local × IsFalse opens)) }
    ensures same { IsRoomier tree.old.nodes tree.new.nodes }
{
    if local || opens {
        tree.reserve_runs(node, runs)
    } else {
        Ok(())
    }
}

/// Makes room for `runs` more runs in each node that an access may change, and answers whether it would
/// change anything.
fn reserve_marked(
    tree: &mut LazyTree,
    access: Access,
    runs: u32,
    path: &[bool],
) -> Result<bool, NoMemory>
    requires node { access.node < length tree.old.nodes }
    requires within { access.span.start + access.span.len ≤ tree.old.size }
    requires path { IsPath tree.old.nodes access.node path.now }
    ensures tree { tree.new ≡ record tree.old { nodes = tree.new.nodes; visits = tree.new.visits } }
    ensures rises { tree.old.visits ≤ tree.new.visits }
    ensures same { IsRoomier tree.old.nodes tree.new.nodes }
    ensures ring { IsTrue access.below → IsQuietAll tree.old.nodes (bool_at path.now) access.kind access.span → tree.new.visits ≤ tree.old.visits + ring_of tree.old.nodes (bool_at path.now) * pieces tree.old.nodes access.span }
    ensures quiet { IfOk result (λ changes. IsFalse changes → (i : ℕ) → IsMet tree.old.nodes access.node access.below (length tree.old.nodes) i → IsQuietNode tree.old.nodes (bool_at path.now) access.kind access.span i) }
    ensures room { OnOk result ((i : ℕ) → IsMet tree.old.nodes access.node access.below (length tree.old.nodes) i → (runs ≤ (node_at tree.new.nodes i).runs.spare) ⊎ (IsFalse (bool_at path.now i) × IsCovered tree.old.nodes access.kind access.span i)) }
{
    let Access {
        node: x,
        span,
        kind,
        below,
    } = access;
    tree.soundness();
    let mut changes = false;
    let mut here = Some(0);
    'walk: while let Some(at) = here {
        let local = path[at];
        let seen = see_node(tree, at, span, kind, local);
        reserve_node(tree, at, runs, local, seen.opens)?;
        changes = either(changes, seen.changes);
        here = onward(tree, at, goes_below(seen.opens, local, below, at, x));
    }
    Ok(changes)
}

/// Makes room for `runs` more runs in each node that an access may change, with the room of a walk, and
/// answers whether the access would change anything.
pub fn reserve_cuts(tree: &mut LazyTree, access: Access, runs: u32) -> Result<bool, NoMemory>
    requires node { access.node < length tree.old.nodes }
    requires within { access.span.start + access.span.len ≤ tree.old.size }
    requires walk { HasWalk tree.old }
    ensures tree { tree.new ≡ record tree.old { nodes = tree.new.nodes; visits = tree.new.visits } }
    ensures rises { tree.old.visits ≤ tree.new.visits }
    ensures same { IsRoomier tree.old.nodes tree.new.nodes }
    ensures ring { IsTrue access.below → IsQuietAll tree.old.nodes (local_in tree.old.nodes access.node) access.kind access.span → tree.new.visits ≤ tree.old.visits + ring_of tree.old.nodes (local_in tree.old.nodes access.node) * pieces tree.old.nodes access.span }
    ensures quiet { IfOk result (λ changes. IsFalse changes → IsTrue access.below → IsQuietAll tree.new.nodes (local_in tree.new.nodes access.node) access.kind access.span) }
    ensures room { OnOk result (HasRoom tree.new.nodes access.node access.below access.span access.kind runs) }
{
    tree.soundness();
    let Scratch { mut path, opened } = tree.take_scratch();
    mark_path(tree, access.node, &mut path);
    let made = reserve_marked(tree, access, runs, path.as_slice());
    clear_path(tree, access.node, &mut path);
    tree.return_scratch(Scratch { path, opened });
    made
}

/// How many runs a node has.
fn count_runs(tree: &LazyTree, node: usize) -> u32
    requires { node < length tree.now.nodes }
    ensures { runs_from tree.now.size tree.now.nodes node 0 ≤ result }
{
    let size = tree.size();
    let mut runs = 0;
    let mut at = 0;
    'runs: while at < size {
        tree.soundness();
        tree.soundness_of(node);
        at = tree.run_end(node, at);
        runs += 1;
    }
    runs
}

/// Makes room for `runs` more runs in each node that the end of the protector of node `x` may change by
/// its access at the run of `x` that has the byte `at`.
fn reserve_run(tree: &mut LazyTree, x: usize, at: u32, runs: u32) -> Result<(), NoMemory>
    requires node { x < length tree.old.nodes }
    requires within { at < tree.old.size }
    requires walk { HasWalk tree.old }
    ensures tree { tree.new ≡ record tree.old { nodes = tree.new.nodes; visits = tree.new.visits } }
    ensures rises { tree.old.visits ≤ tree.new.visits }
    ensures same { IsRoomier tree.old.nodes tree.new.nodes }
    ensures room { OnOk result (HasEndRoomOn tree.new.nodes x at (run_after tree.old.nodes x at) runs) }
{
    let span = Span {
        start: at,
        len: tree.run_end(x, at) - at,
    };
    match implicit(tree.read_slot(x, at)) {
        Some(kind) => {
            let access = Access {
                node: x,
                span,
                kind,
                below: false,
            };
            let _ = reserve_cuts(tree, access, runs)?;
        }
        None => (),
    }
    Ok(())
}

/// Makes room in each node that the end of the protector of node `x` may change.
pub fn reserve_ends(tree: &mut LazyTree, x: usize) -> Result<(), NoMemory>
    requires node { x < length tree.old.nodes }
    requires walk { HasWalk tree.old }
    ensures tree { tree.new ≡ record tree.old { nodes = tree.new.nodes; visits = tree.new.visits } }
    ensures rises { tree.old.visits ≤ tree.new.visits }
    ensures same { IsRoomier tree.old.nodes tree.new.nodes }
    ensures room { OnOk result (HasEndRoom tree.new.size tree.new.nodes x) }
{
    let Some(runs) = count_runs(tree, x).checked_mul(2) else {
        return Err(NoMemory);
    };
    let size = tree.size();
    let mut at = 0;
    'runs: while at < size {
        reserve_run(tree, x, at, runs)?;
        at = tree.run_end(x, at);
    }
    Ok(())
}
