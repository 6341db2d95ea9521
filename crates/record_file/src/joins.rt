//! What the threads that are joined have come to.
ghost use Rattle.std.specs.Prelude.{◌≡◌, ◌↔◌, IsTrue};
ghost use Rattle.runs.specs.Right.{NumbersRiseFrom};
ghost use Rattle.record_file.specs.Joins.{AreJoinedRight, EndsRight, IsReturned, JoinAll, JoinsRight};

use crate::logs::log_of;
use history::{End, Entry, Plain, Request, ThreadLog};

fn has_ended(log: &ThreadLog, end: End) -> bool
    ensures { IsTrue result ↔ (log.now.«end» ≡ end) }
{
    log.end == end
}

fn has_not_returned(log: &ThreadLog) -> bool
    ensures { IsTrue result ↔ (IsReturned log.now.«end» → ⊥) }
{
    !matches!(log.end, End::Returned { .. })
}

/// Whether the entry, where it joins a thread, answers what that thread returned.
fn joins_right(logs: &[ThreadLog], entry: &Entry) -> bool
    requires { NumbersRiseFrom 0 logs.now }
    ensures { IsTrue result ↔ JoinsRight logs.now entry.now entry.now.request }
{
    let Request::Join { child } = entry.request else {
        return true;
    };
    let Plain::Value(value) = entry.reply.plain else {
        return false;
    };
    let returned = End::Returned {
        value,
        carried: entry.reply.carried,
    };
    match log_of(logs, child) {
        Some(at) => has_ended(&logs[at], returned),
        None => false,
    }
}

fn join_all(logs: &[ThreadLog], entries: &[Entry]) -> bool
    requires { NumbersRiseFrom 0 logs.now }
    ensures { IsTrue result ↔ JoinAll logs.now entries.now }
{
    for entry in entries {
        if !joins_right(logs, entry) {
            return false;
        }
    }
    true
}

/// Whether a thread that ended by a child's end has a child that is there and has not returned.
fn ends_right(logs: &[ThreadLog], end: End) -> bool
    requires { NumbersRiseFrom 0 logs.now }
    ensures { IsTrue result ↔ EndsRight logs.now end }
{
    let End::ChildEnded(child) = end else {
        return true;
    };
    match log_of(logs, child) {
        Some(at) => has_not_returned(&logs[at]),
        None => false,
    }
}

/// Whether each thread that is joined has returned what its joiner was answered, and none that ended its joiner has returned.
pub(crate) fn are_joined_right(logs: &[ThreadLog]) -> bool
    requires { NumbersRiseFrom 0 logs.now }
    ensures { IsTrue result ↔ AreJoinedRight logs.now }
{
    for log in logs {
        if !join_all(logs, log.entries.as_slice()) || !ends_right(logs, log.end) {
            return false;
        }
    }
    true
}
