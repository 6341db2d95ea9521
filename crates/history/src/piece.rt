//! A piece of at most 32 bytes with their fragments, which are kept as runs.
ghost use Rattle.std.specs.Prelude.{◌≡◌, ◌+◌, ◌<◌, ◌≤◌, [], ◌∷◌, ◌++◌, length, slice_get, Some, All, IfOk, OnOk, OnErr, IsTrue, ◌↔◌, vec_len, vec_capacity, true};
ghost use Rattle.history.specs.Pieces.{run_of, fragments_of, IsSmall};

use bsan_ids::{Copied, Frag, NoMemory};
use std::alloc::Global;
use std::marker::Model;

/// Bytes with fragments that follow one another: byte k of the run has the index `first.index + k`.
/// Without a first fragment none of the bytes has one.
#[derive(Clone, Copy, Debug, PartialEq, Eq)]
pub struct Run {
    pub len: u8,
    pub first: Option<Frag>,
}

/// At most 32 bytes of memory, each with its fragment.
#[derive(Debug, Drop)]
pub struct Piece {
    bytes: Vec<u8>,
    runs: Vec<Run>,
}

impl Model for Piece {
    ghost use Rattle.std.specs.Prelude.{List, ℕ, Option, ◌≡◌, ◌≤◌, length, zip};
    ghost use Rattle.bsan_ids.specs.declared.numbers.Frag.{Frag};

    ghost Value = { List (ℕ × Option Frag) };

    ghost use Rattle.history.specs.Pieces.{fragments_of, IsRuns};

    ghost view = { λ p. zip p.bytes.items (fragments_of p.runs.items) };

    ghost invariant = { λ p. IsRuns p.bytes.items p.runs.items };
}

impl Run {
    /// Whether the run with one more byte ends in this fragment.
    fn leads_to(&self, frag: Option<Frag>) -> bool
        requires { self.now.len < 32 }
        ensures longer { result ≡ true → run_of (self.now.len + 1) self.now.first ≡ run_of self.now.len self.now.first ++ frag ∷ [] }
        ensures small { result ≡ true → IsSmall (record self.now { len = self.now.len + 1 }) }
    {
        match (self.first, frag) {
            (None, None) => true,
            (Some(first), Some(next)) => {
                next.prov == first.prov
                    && next.index >= first.index
                    && next.index - first.index == self.len
            }
            _ => false,
        }
    }

    /// The fragment of a byte of the run.
    #[tactic(auto, using(crate::proofs::Indexed::some_run_at, crate::proofs::Indexed::none_run_at))]
    fn frag(&self, at: u8) -> Option<Frag>
        requires within { at < self.now.len }
        requires small { IsSmall self.now }
        ensures { slice_get (run_of self.now.len self.now.first) at ≡ Some result }
    {
        match self.first {
            None => None,
            Some(first) => Some(Frag {
                prov: first.prov,
                index: first.index + at,
            }),
        }
    }
}

/// The fragment of a byte of runs.
#[tactic(auto, using(crate::proofs::Indexed::first_run_at, crate::proofs::Indexed::later_run_at, crate::proofs::Indexed::length_fragments))]
fn fragment_at(runs: &[Run], at: usize) -> Option<Frag>
    requires within { at < length (fragments_of runs.now) }
    requires small { All IsSmall runs.now }
    ensures { slice_get (fragments_of runs.now) at ≡ Some result }
{
    let mut left = at;
    for run in runs {
        let len = run.len as usize;
        if left < len {
            return run.frag(left as u8);
        }
        left -= len;
    }
    None
}

/// Appends a fragment to runs, where there is room for a run.
fn push_fragment(runs: &mut Vec<Run>, frag: Option<Frag>)
    requires room { vec_len runs.old < vec_capacity runs.old }
    requires short { length (fragments_of runs.old.items) < 32 }
    requires small { All IsSmall runs.old.items }
    ensures fragments { fragments_of runs.new.items ≡ fragments_of runs.old.items ++ frag ∷ [] }
    ensures few { length runs.new.items ≤ length runs.old.items + 1 }
    ensures small { All IsSmall runs.new.items }
{
    let next = Run {
        len: 1,
        first: frag,
    };
    match runs.pop() {
        Some(last) if last.len < 32 && last.leads_to(frag) => {
            runs.push_reserved(Run {
                len: last.len + 1,
                first: last.first,
            });
        }
        Some(last) => {
            runs.push_reserved(last);
            runs.push_reserved(next);
        }
        None => runs.push_reserved(next),
    }
}

impl Piece {
    /// A piece of no byte. It takes no memory.
    pub fn new(alloc: Global) -> Piece
        ensures { result ≡ [] }
    {
        Piece {
            bytes: Vec::new(alloc),
            runs: Vec::new(alloc),
        }
    }

    /// How many bytes it has.
    pub fn len(&self) -> usize
        ensures value { result ≡ length self.now }
        ensures few { result ≤ 32 }
    {
        self.bytes.len()
    }

    /// The byte at an index below the length, with its fragment.
    #[tactic(auto, using(crate::proofs::Indexed::pair_at, crate::proofs::Indexed::length_pairs))]
    pub fn get(&self, at: usize) -> (u8, Option<Frag>)
        requires { at < length self.now }
        ensures value { slice_get self.now at ≡ Some result }
        ensures byte { result.0 < 256 }
    {
        (self.bytes[at], fragment_at(&self.runs, at))
    }

    /// Appends a byte with its fragment, to at most 31 that are there.
    ///
    /// # Errors
    ///
    /// `NoMemory`: out of memory; then the piece is as before.
    pub fn push(&mut self, byte: u8, frag: Option<Frag>) -> Result<(), NoMemory>
        requires { length self.old < 32 }
        ensures ok { OnOk result (self.new ≡ self.old ++ (byte, frag) ∷ []) }
        ensures err { OnErr result (self.new ≡ self.old) }
    {
        self.bytes.reserve(1)?;
        self.runs.reserve(1)?;
        self.bytes.push_reserved(byte);
        push_fragment(&mut self.runs, frag);
        Ok(())
    }

    /// Whether the other piece has the same bytes with the same fragments.
    pub fn equals(&self, other: &Piece) -> bool
        ensures { IsTrue result ↔ (self.now ≡ other.now) }
    {
        if self.len() != other.len() {
            return false;
        }
        for at in 0..self.len() {
            if self.get(at) != other.get(at) {
                return false;
            }
        }
        true
    }
}

impl Copied for Piece {
    fn copy(&self) -> Result<Piece, NoMemory> {
        let alloc = *self.bytes.allocator();
        Ok(Piece {
            bytes: Vec::from_slice(alloc, &self.bytes)?,
            runs: Vec::from_slice(alloc, &self.runs)?,
        })
    }
}

/// The greatest number of bytes of a piece, and so of its runs.
const MOST_BYTES: usize = 32;

/// A piece with room for as many bytes and runs as a piece can have, so that it takes no memory to
/// become another piece.
#[derive(Debug, Drop)]
pub struct PieceBuffer {
    bytes: Vec<u8>,
    runs: Vec<Run>,
}

impl Model for PieceBuffer {
    ghost use Rattle.std.specs.Prelude.{List, ℕ, Option, ◌≡◌, ◌≤◌, length, zip, vec_capacity};
    ghost use Rattle.bsan_ids.specs.declared.numbers.Frag.{Frag};

    ghost Value = { List (ℕ × Option Frag) };

    ghost use Rattle.history.specs.Pieces.{fragments_of, IsRuns};

    ghost view = { λ p. zip p.bytes.items (fragments_of p.runs.items) };

    ghost invariant = { λ p. IsRuns p.bytes.items p.runs.items × ((32 ≤ vec_capacity p.bytes) × (32 ≤ vec_capacity p.runs)) };
}

/// Puts these items in place of those that are there, where there is room.
fn refill<T: Copy + Drop>(into: &mut Vec<T>, items: &[T])
    requires room { length items.now ≤ vec_capacity into.old }
    ensures items { into.new.items ≡ items.now }
    ensures room { vec_capacity into.old ≤ vec_capacity into.new }
{
    into.clear();
    match into.extend_from_slice(items) {
        Ok(()) => {}
        Err(_) => unreachable!(),
    }
}

impl PieceBuffer {
    /// A piece of no byte, with room for any other.
    ///
    /// # Errors
    ///
    /// `NoMemory`: out of memory.
    pub fn new(alloc: Global) -> Result<PieceBuffer, NoMemory>
        ensures { IfOk result (λ buffer. buffer ≡ []) }
    {
        Ok(PieceBuffer {
            bytes: Vec::with_capacity(alloc, MOST_BYTES)?,
            runs: Vec::with_capacity(alloc, MOST_BYTES)?,
        })
    }

    /// Becomes the other piece, and keeps its room. It takes no memory.
    pub fn assign(&mut self, piece: &Piece)
        ensures { self.new ≡ piece.now }
    {
        refill(&mut self.bytes, &piece.bytes);
        refill(&mut self.runs, &piece.runs);
    }

    /// The piece that it holds, with memory of its own.
    ///
    /// # Errors
    ///
    /// `NoMemory`: out of memory.
    pub fn to_piece(&self) -> Result<Piece, NoMemory>
        ensures { IfOk result (λ piece. piece ≡ self.now) }
    {
        let alloc = *self.bytes.allocator();
        Ok(Piece {
            bytes: Vec::from_slice(alloc, &self.bytes)?,
            runs: Vec::from_slice(alloc, &self.runs)?,
        })
    }
}
