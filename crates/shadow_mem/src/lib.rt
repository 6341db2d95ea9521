//! The fragments of stored pointers, one for each byte of an allocation, kept as runs.
#![tactic(auto)]

ghost use Rattle.std.specs.Prelude.{[], ◌∷◌, ◌≡◌, ◌+◌, ◌<◌, ◌≤◌, ◌^◌, None, Some, length, replicate, slice_get, All, IfOk, IsOk, OnOk, OnErr, true};
ghost use Rattle.history.specs.Memory.{in_range, put};
ghost use Rattle.history.specs.Fragments.{is_run, loaded, stored};
ghost use Rattle.shadow_mem.specs.Origins.{is_at, is_small, frags_from};

use bsan_ids::{Copied, Frag, NoMemory, Prov, Span};
use range_map::RangeMap;
use std::alloc::Global;
use std::marker::Model;

/// A pointer's provenance, and the place, modulo 2^32, at which its fragment 0 would stand.
#[derive(Clone, Copy, PartialEq, Eq)]
struct Origin {
    prov: Prov,
    zero_at: u32,
}

/// One optional fragment for each byte of an allocation, beside the number of runs that may be
/// added without memory. All bytes of a stored pointer have one origin, so they are one run.
#[derive(Drop)]
pub struct ShadowMem {
    map: RangeMap<Option<Origin>>,
}

impl Model for ShadowMem {
    ghost use Rattle.shadow_mem.specs.Origins.{Fragments, IsShadow, frags_from};

    ghost Value = { Fragments };

    ghost view = { λ s. record { frags = frags_from 0 s.map.bytes; spare = s.map.spare } };

    ghost invariant = { λ s. IsShadow s.map };
}

// Whether this is one fragment of a provenance.
fn is_fragment(frag: Option<Frag>, prov: Prov, index: u8) -> bool
    ensures { result ≡ is_at prov index frag }
{
    match frag {
        None => false,
        Some(frag) => frag.prov == prov && frag.index == index,
    }
}

impl ShadowMem {
    /// `size` bytes, at least one, without a fragment.
    ///
    /// # Errors
    ///
    /// `NoMemory`: out of memory.
    pub fn new(alloc: Global, size: u32) -> Result<ShadowMem, NoMemory>
        requires { 1 ≤ size }
        ensures { IfOk result (λ s. s.frags ≡ replicate size None) }
    {
        Ok(ShadowMem {
            map: RangeMap::new(alloc, size, None)?,
        })
    }

    /// The fragment of the byte `at`, which lies below the size.
    pub fn frag(&self, at: u32) -> Option<Frag>
        requires { at < length self.now.frags }
        ensures value { slice_get self.now.frags at ≡ Some result }
        ensures size { length self.now.frags < 2 ^ 32 }
    {
        match self.map.get(at) {
            None => None,
            Some(origin) => Some(Frag {
                prov: origin.prov,
                index: at.wrapping_sub(origin.zero_at) as u8,
            }),
        }
    }

    // Whether so many bytes have the fragments of one provenance, from an index on. It is a recursion as
    // `is_run` is, with the place and the index as numbers, since the proof of an `all` over them stays open.
    fn runs_on(&self, prov: Prov, at: u32, index: u8, left: u8) -> bool
        requires within { at + left ≤ length self.now.frags }
        requires few { index + left ≤ 8 }
        requires short { length self.now.frags < 2 ^ 32 }
        ensures { result ≡ is_run prov index (in_range at left self.now.frags) }
    {
        if left == 0 {
            return true;
        }
        if !is_fragment(self.frag(at), prov, index) {
            return false;
        }
        self.runs_on(prov, at + 1, index + 1, left - 1)
    }

    /// The provenance of the pointer in the eight bytes from `at` on, which lie below the size:
    /// there is one exactly where they carry its fragments 0 to 7.
    pub fn load_ptr(&self, at: u32) -> Option<Prov>
        requires { at + 8 ≤ length self.now.frags }
        ensures { result ≡ loaded (in_range at 8 self.now.frags) }
    {
        match self.frag(at) {
            None => None,
            Some(first) => {
                if self.runs_on(first.prov, at, 0, 8) {
                    Some(first.prov)
                } else {
                    None
                }
            }
        }
    }

    /// Makes room for `runs` more runs, where there isn't as much yet.
    ///
    /// # Errors
    ///
    /// `NoMemory`: out of memory, where there was less room. The shadow is as before.
    pub fn reserve(&mut self, runs: u32) -> Result<(), NoMemory>
        ensures room { OnOk result (runs ≤ self.new.spare) }
        ensures succeeds { runs ≤ self.old.spare → IsOk result }
        ensures frags { self.new.frags ≡ self.old.frags }
        ensures spare { self.old.spare ≤ self.new.spare }
        ensures err { OnErr result (self.new ≡ self.old) }
    {
        self.map.reserve(runs)
    }

    // Whether one run without a fragment has all bytes of a span: then there is nothing to take from them.
    fn is_clear(&self, span: Span) -> bool
        requires some { 1 ≤ span.len }
        requires within { span.start + span.len ≤ length self.now.frags }
        ensures { result ≡ true → put span.start (replicate span.len None) self.now.frags ≡ self.now.frags }
    {
        match self.map.get(span.start) {
            None => span.start + span.len <= self.map.run_end(span.start),
            Some(_) => false,
        }
    }

    // Gives the bytes of a span one origin.
    fn set(&mut self, span: Span, origin: Option<Origin>)
        requires some { 1 ≤ span.len }
        requires within { span.start + span.len ≤ length self.old.frags }
        requires room { 2 ≤ self.old.spare }
        requires small { All is_small (frags_from span.start (replicate span.len origin)) }
        ensures frags { self.new.frags ≡ put span.start (frags_from span.start (replicate span.len origin)) self.old.frags }
        ensures size { length self.new.frags ≡ length self.old.frags }
        ensures spare { self.old.spare ≤ self.new.spare + 2 }
    {
        self.map.set_run(span, origin);
    }

    /// Stores a pointer into the eight bytes from `at` on, which lie below the size: its fragments
    /// 0 to 7, or none where it has no provenance. It takes room for two runs at most.
    pub fn store_ptr(&mut self, at: u32, prov: Option<Prov>)
        requires within { at + 8 ≤ length self.old.frags }
        requires room { 2 ≤ self.old.spare }
        ensures frags { self.new.frags ≡ put at (stored prov) self.old.frags }
        ensures size { length self.new.frags ≡ length self.old.frags }
        ensures spare { self.old.spare ≤ self.new.spare + 2 }
    {
        let span = Span { start: at, len: 8 };
        match prov {
            None => self.clear(span),
            Some(prov) => self.set(span, Some(Origin { prov, zero_at: at })),
        }
    }

    /// Takes the fragments from the bytes of a span, at least one and all below the size. It takes
    /// room for two runs at most.
    pub fn clear(&mut self, span: Span)
        requires some { 1 ≤ span.len }
        requires within { span.start + span.len ≤ length self.old.frags }
        requires room { 2 ≤ self.old.spare }
        ensures frags { self.new.frags ≡ put span.start (replicate span.len None) self.old.frags }
        ensures size { length self.new.frags ≡ length self.old.frags }
        ensures spare { self.old.spare ≤ self.new.spare + 2 }
    {
        if !self.is_clear(span) {
            self.set(span, None);
        }
    }

    /// Gives the byte `at`, which lies below the size, this fragment or none. It takes room for two
    /// runs at most.
    pub fn set_frag(&mut self, at: u32, frag: Option<Frag>)
        requires within { at < length self.old.frags }
        requires room { 2 ≤ self.old.spare }
        ensures frags { self.new.frags ≡ put at (frag ∷ []) self.old.frags }
        ensures size { length self.new.frags ≡ length self.old.frags }
        ensures spare { self.old.spare ≤ self.new.spare + 2 }
    {
        let span = Span { start: at, len: 1 };
        match frag {
            None => self.clear(span),
            Some(frag) => {
                let zero_at = at.wrapping_sub(u32::from(frag.index));
                let prov = frag.prov;
                self.set(span, Some(Origin { prov, zero_at }));
            }
        }
    }
}

impl Copied for ShadowMem {
    fn copy(&self) -> Result<ShadowMem, NoMemory> {
        Ok(ShadowMem {
            map: self.map.copy()?,
        })
    }
}
