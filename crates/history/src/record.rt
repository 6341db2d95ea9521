//! The record of a run.
ghost use Rattle.std.specs.Prelude.{◌≡◌};

use crate::log::{AllocLog, ThreadLog};
use bsan_ids::{Counters, ListOf};
use std::alloc::Global;

/// The logs of all threads in the order of their numbers, those of the allocations that a step
/// named, and how many numbers were drawn.
#[derive(Drop)]
pub struct RunRecord {
    pub threads: ListOf<ThreadLog>,
    pub allocs: ListOf<AllocLog>,
    pub words: Counters,
}

const NONE_DRAWN: Counters = Counters {
    stamps: 0,
    allocs: 0,
    threads: 0,
};

impl RunRecord {
    ghost use Rattle.history.specs.Records.{empty_record};

    /// The record without logs, of a run that drew no number.
    pub fn new(alloc: Global) -> RunRecord
        ensures { result ≡ empty_record }
    {
        RunRecord {
            threads: ListOf::new(alloc),
            allocs: ListOf::new(alloc),
            words: NONE_DRAWN,
        }
    }

    /// Makes the record empty.
    pub fn clear(&mut self)
        ensures { self.new ≡ empty_record }
    {
        self.threads.clear();
        self.allocs.clear();
        self.words = NONE_DRAWN;
    }
}
