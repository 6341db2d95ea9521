//! Whether logs of allocations are the same.
ghost use Rattle.std.specs.Prelude.{◌≡◌, ◌↔◌, IsTrue};

use history::{AllocLog, Entry};

fn are_same_entries(entries: &[Entry], others: &[Entry]) -> bool
    ensures { IsTrue result ↔ (entries.now ≡ others.now) }
{
    if entries.len() != others.len() {
        return false;
    }
    for at in 0..entries.len() {
        if !entries[at].equals(&others[at]) {
            return false;
        }
    }
    true
}

fn is_same_log(log: &AllocLog, other: &AllocLog) -> bool
    ensures { IsTrue result ↔ (log.now ≡ other.now) }
{
    log.number == other.number && are_same_entries(log.entries.as_slice(), other.entries.as_slice())
}

/// Whether these are the same logs.
pub(crate) fn are_same_logs(logs: &[AllocLog], others: &[AllocLog]) -> bool
    ensures { IsTrue result ↔ (logs.now ≡ others.now) }
{
    if logs.len() != others.len() {
        return false;
    }
    for at in 0..logs.len() {
        if !is_same_log(&logs[at], &others[at]) {
            return false;
        }
    }
    true
}
