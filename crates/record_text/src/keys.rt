//! The words that requests, replies, verdicts, ends and lines begin with.

/// The word that a request begins with.
#[derive(Clone, Copy)]
pub enum RequestKey {
    Load,
    Store,
    Modify,
    CmpXchg,
    CopyOut,
    CopyIn,
    Retag,
    EndProtector,
    Free,
    Make,
    Print,
    Host,
    Spawn,
    Join,
}

/// The word that what the program sees of a reply begins with.
#[derive(Clone, Copy)]
pub enum PlainKey {
    Made,
    Value,
    Copied,
    Done,
    Retagged,
    Spawned,
    Trapped,
}

/// The word that a verdict begins with.
#[derive(Clone, Copy)]
pub enum VerdictKey {
    Clean,
    Closed,
    Denied,
    StrongFree,
    Stranger,
    Freed,
    OutOfRange,
}

/// The word that the end of a thread begins with.
#[derive(Clone, Copy)]
pub enum EndKey {
    Returned,
    Trapped,
    StepLimit,
    TurnLimit,
    NoMemory,
    ChildEnded,
}

/// The word that a line begins with, which is no step's.
#[derive(Clone, Copy)]
pub enum LineKey {
    Title,
    Words,
    Thread,
    End,
}
