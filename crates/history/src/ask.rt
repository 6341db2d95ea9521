//! What a thread asks next.
use crate::entry::Request;
use crate::trap::Trap;
use bsan_ids::{AllocNo, Prov, ThreadNo};
use ir_ast::Place;

/// An argument of a function: a word, and for a pointer its provenance.
#[derive(Clone, Copy, Debug, PartialEq, Eq)]
pub struct Arg {
    pub value: u64,
    pub prov: Option<Prov>,
}

/// How a thread's own instructions end it.
#[derive(Clone, Copy, Debug, PartialEq, Eq)]
pub enum MachineEnd {
    /// Its first function returned. `carried` is the provenance of a returned pointer.
    Returned { value: u64, carried: Option<Prov> },
    /// An instruction or a step was refused.
    Trapped(Trap),
}

/// What a thread does next: a local instruction, a step with its request, or nothing more.
#[derive(Drop)]
pub enum Ask {
    /// A part of an instruction that touches the thread's own state alone.
    Turn,
    /// An allocation of `size` bytes.
    Make {
        size: u32,
        place: Place,
    },
    /// A request to the allocation of this number.
    At {
        alloc: AllocNo,
        request: Request,
    },
    /// Prints a value.
    Print {
        value: u64,
    },
    /// Calls the host's function of this number, with 0 as `second` where it takes one value.
    Host {
        number: u32,
        first: u64,
        second: u64,
    },
    /// Starts a thread in the function of this number.
    Spawn {
        function: u32,
    },
    /// Waits for the end of a thread.
    Join {
        child: ThreadNo,
    },
    /// The thread has ended.
    Ended(MachineEnd),
}
