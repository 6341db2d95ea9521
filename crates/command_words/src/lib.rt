//! What the words of a command line ask for. The first word names the command, and `clap` reads the rest.
#![tactic(auto)]

ghost use Rattle.std.specs.Prelude.{◌≡◌};

mod commands;
mod jobs;
mod numbers;
mod program_words;

use bsan_ids::NoMemory;
pub use jobs::{
    HeldRun, Job, LoadRun, NativeJob, NativeRun, RecordCheck, ScheduledRun, Settings, read_job,
};
pub use program_words::words_of;
use std::alloc::AllocError;

/// Why the words ask for nothing.
#[derive(Clone, Copy, Debug, PartialEq, Eq)]
pub enum WordsFault {
    /// They are no command's.
    Refused,
    /// Out of memory.
    NoMemory,
}

impl From<AllocError> for WordsFault {
    ghost use Rattle.command_words.specs.declared.WordsFault.TheVariants.{NoMemory};

    ghost from_gives = { λ _ fault. fault ≡ NoMemory };

    fn from(_: AllocError) -> WordsFault {
        WordsFault::NoMemory
    }
}

impl From<NoMemory> for WordsFault {
    ghost use Rattle.command_words.specs.declared.WordsFault.TheVariants.{NoMemory};

    ghost from_gives = { λ _ fault. fault ≡ NoMemory };

    fn from(_: NoMemory) -> WordsFault {
        WordsFault::NoMemory
    }
}
