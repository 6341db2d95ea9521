//! The numbers that name things, and what is made of them.
use crate::list_of::ListOf;
use std::alloc::{AllocError, AllocFailed};

/// A node of an allocation's tree: the stamp of the step that made it.
#[derive(Clone, Copy, Debug, PartialEq, Eq, PartialOrd, Ord)]
pub struct Tag(pub u64);

/// A step's place in the order of all steps of a run, from 1.
#[derive(Clone, Copy, Debug, PartialEq, Eq, PartialOrd, Ord)]
pub struct Stamp(pub u64);

/// The number of an allocation, from 1.
#[derive(Clone, Copy, Debug, PartialEq, Eq, PartialOrd, Ord)]
pub struct AllocNo(pub u32);

/// The number of a thread. The main thread is 0.
#[derive(Clone, Copy, Debug, PartialEq, Eq, PartialOrd, Ord)]
pub struct ThreadNo(pub u32);

/// Bytes of an allocation, or places of a text: `len` of them, from `start` on.
#[derive(Clone, Copy, Debug, PartialEq, Eq)]
pub struct Span {
    pub start: u32,
    pub len: u32,
}

/// A provenance: the allocation that a pointer may use, and the node of its tree.
#[derive(Clone, Copy, Debug, PartialEq, Eq)]
pub struct Prov {
    pub alloc: AllocNo,
    pub tag: Tag,
}

/// A fragment: byte `index` (0 to 7) of a stored pointer with this provenance.
#[derive(Clone, Copy, Debug, PartialEq, Eq)]
pub struct Frag {
    pub prov: Prov,
    pub index: u8,
}

/// The most steps of a run, instructions of a thread and allocations of a run.
#[derive(Clone, Copy, Debug, PartialEq, Eq)]
pub struct Limits {
    pub steps: u64,
    pub turns: u64,
    pub allocs: u32,
}

/// How many stamps, allocation numbers and thread numbers were drawn.
#[derive(Clone, Copy, Debug, PartialEq, Eq)]
pub struct Counters {
    pub stamps: u64,
    pub allocs: u64,
    pub threads: u64,
}

/// Out of memory.
#[derive(Clone, Copy, Debug, PartialEq, Eq)]
pub struct NoMemory;

impl From<AllocError> for NoMemory {
    fn from(_: AllocError) -> NoMemory {
        NoMemory
    }
}

/// What could not be stored is dropped.
impl<T: Drop> From<AllocFailed<T>> for NoMemory {
    fn from(_: AllocFailed<T>) -> NoMemory {
        NoMemory
    }
}

/// A name of the program's text, as its bytes.
pub type Name = ListOf<u8>;
