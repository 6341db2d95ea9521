//! The last change of a node's state at a byte.
ghost use Rattle.std.specs.Prelude.{◌≡◌, ◌≤◌, All, IfOk, MatchOption, None, false, length, take};
ghost use Rattle.std.specs.Option.{option_copied};
ghost use Rattle.history.specs.Histories.{IsHistory};
ghost use Rattle.history.specs.Records.{violates};
ghost use Rattle.explain.specs.Explanations.{IsChanger};
ghost use Rattle.explain.specs.Searches.{perm_at};

use crate::replay::Replay;
use bsan_ids::{NoMemory, Tag};
use history::{AllocLog, Entry};
use std::alloc::Global;

/// The last of the first `len` entries of a log after which the node has another state at the byte than
/// before it. There is none where the node or the byte isn't there. None of these entries violates the
/// rules.
///
/// # Errors
///
/// `NoMemory`: out of memory.
pub fn last_change<'a>(
    alloc: Global,
    log: &'a AllocLog,
    len: usize,
    node: Tag,
    at: u32,
) -> Result<Option<&'a Entry>, NoMemory>
    requires history { IsHistory log.now.number.0 log.now.entries }
    requires len { len ≤ length log.now.entries }
    requires clean { All (λ e. violates e ≡ false) (take len log.now.entries) }
    ensures { IfOk result (λ told. MatchOption (option_copied told) (perm_at log.now node at len ≡ None) (IsChanger log.now.number.0 (take len log.now.entries) node at)) }
{
    let entries = log.entries.as_slice();
    let mut replay = Replay::new();
    let mut perm = None;
    let mut found = None;
    for index in 0..len {
        replay.advance(alloc, &entries[index])?;
        let next = replay.perm(node, at);
        if next != perm {
            perm = next;
            found = Some(index);
        }
    }
    match found {
        Some(index) => Ok(Some(&entries[index])),
        None => Ok(None),
    }
}
