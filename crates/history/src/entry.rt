//! Requests, replies, and the entries that record both.
use crate::piece::Piece;
use crate::trap::Trap;
use bsan_ids::{AllocNo, Prov, Stamp, Tag, ThreadNo};
use eager_tree::Violation;
use ir_ast::{ModifyOp, Place, Ty, Width};
use perm_table::{Guard, RetagKind};

/// What an allocation's tree says of a step.
#[derive(Clone, Copy, Debug, PartialEq, Eq)]
pub enum Verdict {
    /// The step keeps the aliasing rules, or no tree has to do with it.
    Clean,
    /// The tree was closed by an earlier violation, and the step isn't judged.
    Closed,
    /// The allocation's first violation, which closes its tree.
    Violated(Violation),
}

/// What a step asks: the first ten of an allocation, the last four of the run as a whole.
///
/// `at` and `len` count bytes of the allocation, `at` from its first byte, which is 0. `prov` is
/// the provenance of the pointer that is used, and says what it may do: the allocation that it may
/// use and the node of its tree, or `None`, which may use none.
#[derive(Drop)]
pub enum Request {
    /// The allocation is made, with `size` bytes that are 0.
    Make {
        size: u32,
        place: Place,
    },
    /// Reads a value of type `ty`.
    Load {
        at: u32,
        ty: Ty,
        prov: Option<Prov>,
    },
    /// Writes `value`, less than 2 to the bits of `ty`. `carried` is the provenance of the pointer
    /// that is stored, and `None` where none is.
    Store {
        at: u32,
        ty: Ty,
        value: u64,
        carried: Option<Prov>,
        prov: Option<Prov>,
    },
    /// Reads an integer and writes what `op` makes of it and `value`, in one step.
    Modify {
        at: u32,
        width: Width,
        op: ModifyOp,
        value: u64,
        prov: Option<Prov>,
    },
    /// Reads an integer and writes `value` where it is `expected`, in one step.
    CmpXchg {
        at: u32,
        width: Width,
        expected: u64,
        value: u64,
        prov: Option<Prov>,
    },
    /// Reads `len` bytes, 1 to 32, with their fragments of pointers.
    CopyOut {
        at: u32,
        len: u8,
        prov: Option<Prov>,
    },
    /// Writes the bytes of a piece, 1 to 32, with their fragments of pointers.
    CopyIn {
        at: u32,
        piece: Piece,
        prov: Option<Prov>,
    },
    /// Reborrows `len` bytes: a child of the pointer's node, whose tag is the step's stamp.
    Retag {
        at: u32,
        len: u32,
        kind: RetagKind,
        guard: Guard,
        prov: Option<Prov>,
    },
    /// The function returns that the node `tag` was guarded for.
    EndProtector {
        tag: Tag,
    },
    /// Frees the allocation. `stack` says that its function returns, and no instruction frees it.
    Free {
        at: u32,
        stack: bool,
        prov: Option<Prov>,
    },
    /// Prints a value.
    Print {
        value: u64,
    },
    /// Calls the host's function of this number, with 0 as `second` where it takes one value.
    Host {
        number: u32,
        first: u64,
        second: u64,
    },
    /// Starts a thread in the function of this number.
    Spawn {
        function: u32,
    },
    /// Waits for the end of a thread.
    Join {
        child: ThreadNo,
    },
}

/// What the program sees of a reply.
#[derive(Drop)]
pub enum Plain {
    /// The number of the allocation that was made.
    Made(AllocNo),
    /// The value that was read, as it was before the step, or that a host call or a join answers.
    Value(u64),
    /// The bytes that were copied out.
    Copied(Piece),
    /// The step was done, and has no value.
    Done,
    /// A retag was done: whether the tree has a new node for it.
    Retagged { added: bool },
    /// The number of the thread that was started.
    Spawned(ThreadNo),
    /// The step was refused, and its thread ends.
    Trapped(Trap),
}

/// What a step is answered.
#[derive(Drop)]
pub struct Reply {
    /// What the program sees.
    pub plain: Plain,
    /// The provenance of the pointer that was loaded, made, retagged or joined, if one was.
    pub carried: Option<Prov>,
    /// What the allocation's tree says of the step.
    pub verdict: Verdict,
}

/// One step of a run: who made it and when, what it asked and what it was answered.
#[derive(Drop)]
pub struct Entry {
    /// The thread that made the step.
    pub thread: ThreadNo,
    /// The step's place in the order of all steps of the run.
    pub stamp: Stamp,
    /// The number of the step's instruction, among all of the program in text order, from 0.
    pub site: u32,
    /// The allocation that was asked, if one was.
    pub alloc: Option<AllocNo>,
    /// What was asked.
    pub request: Request,
    /// What was answered.
    pub reply: Reply,
}
