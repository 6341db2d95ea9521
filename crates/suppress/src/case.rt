//! What a rule is asked about.
ghost use Rattle.std.specs.Prelude.{◌≡◌};
ghost use Rattle.suppress.specs.Cases as cases;

use bsan_ids::{AllocNo, ThreadNo};
use eager_tree::Violation;
use history::{Entry, Verdict};

/// Why a step broke the aliasing rules.
#[derive(Clone, Copy, Debug, PartialEq, Eq)]
pub enum Cause {
    /// A node's state or its protector denied the access.
    Denied,
    /// The allocation was freed beside a strongly protected node.
    StrongFree,
    /// The pointer names no node of the allocation.
    Stranger,
    /// The allocation was freed before.
    Freed,
    /// The range ends after the allocation's last byte.
    OutOfRange,
}

/// A violation, as rules see it.
#[derive(Clone, Copy, Debug, PartialEq, Eq)]
pub struct Case {
    pub alloc: AllocNo,
    pub thread: ThreadNo,
    /// The number of the step's instruction.
    pub site: u32,
    pub cause: Cause,
}

fn cause_of(violation: Violation) -> Cause
    ensures { result ≡ cases.cause_of violation }
{
    match violation {
        Violation::Denied { .. } => Cause::Denied,
        Violation::StrongFree { .. } => Cause::StrongFree,
        Violation::Stranger => Cause::Stranger,
        Violation::Freed => Cause::Freed,
        Violation::OutOfRange => Cause::OutOfRange,
    }
}

/// The case of an entry. There is none exactly where its verdict is no violation or it names no
/// allocation.
pub fn case_of(entry: &Entry) -> Option<Case>
    ensures { result ≡ cases.case_of entry.now }
{
    match (entry.alloc, entry.reply.verdict) {
        (Some(alloc), Verdict::Violated(violation)) => Some(Case {
            alloc,
            thread: entry.thread,
            site: entry.site,
            cause: cause_of(violation),
        }),
        _ => None,
    }
}
