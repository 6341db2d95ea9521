//! The lines of a record's text.
use bsan_ids::{AllocNo, Counters, Stamp, ThreadNo};
use history::{End, Reply, Request};

/// A thread's log without its steps.
#[derive(Drop)]
pub struct Head {
    pub number: ThreadNo,
    pub parent: Option<ThreadNo>,
    pub entry_function: u32,
    pub instructions: u64,
    pub last: u32,
    pub end: End,
}

/// A step of a thread's log, without the thread's number.
#[derive(Drop)]
pub struct Step {
    pub stamp: Stamp,
    pub site: u32,
    pub alloc: Option<AllocNo>,
    pub request: Request,
    pub reply: Reply,
}

/// A line of a record's text.
#[derive(Drop)]
pub enum Line {
    /// The first line.
    Title,
    /// How many numbers were drawn.
    Words(Counters),
    /// A thread's log begins.
    Thread(Head),
    /// A step of the thread's log that was begun last.
    Step(Step),
    /// The last line.
    End,
}
