//! The pieces of a span, on each of which what a step visits is the same at every byte.
ghost use Rattle.std.specs.Prelude.{◌≡◌, ℕ, ◌<◌, ◌≤◌, ◌⊎◌, length, IsTrue};
ghost use Rattle.dated_access.specs.Path.{entry};
ghost use Rattle.dated_access.specs.Pieces.{IsRunEnd, IsPiece, is_cut};

use dated_tree::DatedTree;

/// The next byte after `at` at which a run of one of these nodes begins, but no later than `end`.
fn run_end(tree: &DatedTree, places: &[usize], at: u32, end: u32) -> u32
    requires some { at < end }
    requires within { end ≤ tree.now.size }
    requires places { (k : ℕ) → k < length places.now → 1 ≤ entry places.now k }
    requires stored { (k : ℕ) → k < length places.now → entry places.now k ≤ length tree.now.nodes }
    ensures { IsRunEnd tree.now places.now at end result }
{
    let mut next = end;
    for place in places {
        next = next.min(tree.run_end(*place, at));
    }
    next
}

/// Where the piece that begins at the byte `at` ends, no later than `end`.
pub fn piece_end(tree: &DatedTree, path: &[usize], others: &[usize], at: u32, end: u32) -> u32
    requires some { at < end }
    requires within { end ≤ tree.now.size }
    requires on_path { (k : ℕ) → k < length path.now → 1 ≤ entry path.now k }
    requires path_stored { (k : ℕ) → k < length path.now → entry path.now k ≤ length tree.now.nodes }
    requires off_path { (k : ℕ) → k < length others.now → 1 ≤ entry others.now k }
    requires others_stored { (k : ℕ) → k < length others.now → entry others.now k ≤ length tree.now.nodes }
    ensures piece { IsPiece tree.now path.now others.now at result }
    ensures within { result ≤ end }
    ensures cut { (result ≡ end) ⊎ IsTrue (is_cut tree.now path.now others.now result) }
{
    let dates = tree.dates_end(at);
    let same = dates.min(end);
    let local = run_end(tree, path, at, same);
    run_end(tree, others, at, local)
}
