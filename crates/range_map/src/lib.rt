//! A list with one value per byte, kept as runs of bytes that have one value.
#![tactic(auto)]

ghost use Rattle.std.specs.Prelude.{◌≡◌, ℕ, ◌+◌, ◌-◌, ◌*◌, ◌<◌, ◌≤◌, ◌↔◌, List, [], ◌∷◌, ◌++◌, length, IfOk, IsOk, OnOk, OnErr, IsTrue, slice_get, Bool, true, take, replicate, Some, vec_len, vec_capacity};
ghost use Rattle.std.specs.List.{filter};
ghost use Rattle.range_map.specs.Ranges.{stays, with_start, with_end, has_start, next_start, overwrite, starts_after_set, boundaries, IsRanges};
ghost use Rattle.range_map.specs.Runs.{runs_until, run_at, compacted, IsRising};

use bsan_ids::{Copied, NoMemory, Span, copy_vec};
use std::alloc::Global;
use std::marker::Model;

/// A run of bytes with one value, from `start` to the next run's start.
#[derive(Clone, Copy)]
struct Run<T> {
    start: u32,
    value: T,
}

/// A list with one value per byte, beside the rising list of its run starts and the number of
/// run starts that may be added without memory. All bytes of a run have one value.
#[derive(Drop)]
pub struct RangeMap<T> {
    // the value of the run that begins at 0
    first: T,
    // the further runs, their starts rising
    later: Vec<Run<T>>,
    len: u32,
}

impl<T> Model for RangeMap<T> {
    ghost use Rattle.range_map.specs.Ranges.{Ranges};

    ghost Value = { Ranges T };

    ghost use Rattle.range_map.specs.Runs.{ranges_of, IsRisingTo};

    ghost view = { ranges_of };

    ghost invariant = { λ m. IsRisingTo m.len 0 m.later.items };
}

// How many of the runs begin at or before `at`.
fn runs_up_to<T: Copy>(later: &[Run<T>], at: u32) -> usize
    requires { IsRising later.now }
    ensures { result ≡ runs_until at later.now }
{
    later.partition_point(|run| run.start <= at)
}

// The run that has `at`.
fn run_with<T: Copy>(first: T, later: &[Run<T>], at: u32) -> Run<T>
    requires { IsRising later.now }
    ensures { result ≡ run_at at record { start = 0; value = first } later.now }
{
    match runs_up_to(later, at).checked_sub(1) {
        Some(index) => later[index],
        None => Run {
            start: 0,
            value: first,
        },
    }
}

// Drops the runs that begin between two places. It goes through them only where there is one.
fn drop_between<T: Copy>(later: &mut Vec<Run<T>>, from: u32, end: u32)
    requires { IsRising later.old.items }
    ensures kept { later.new.items ≡ filter (λ run. stays from end run.start) later.old.items }
    ensures len { vec_len later.new ≤ vec_len later.old }
    ensures capacity { vec_capacity later.new ≡ vec_capacity later.old }
{
    match later.get(runs_up_to(later, from)) {
        None => (),
        Some(run) => {
            if run.start < end {
                later.retain(|run| run.start <= from || end <= run.start);
            }
        }
    }
}

// Moves the runs that differ from the run before them to the front, and answers how many they are.
fn compact<T: Copy + Eq>(first: T, later: &mut [Run<T>]) -> usize
    ensures bound { result ≤ length later.old }
    ensures kept { take result later.new ≡ compacted T.eq first later.old }
{
    let mut kept = 0;
    let mut last = first;
    for index in 0..later.len() {
        let run = later[index];
        if last != run.value {
            later[kept] = run;
            kept += 1;
            last = run.value;
        }
    }
    kept
}

impl<T: Copy + Eq> RangeMap<T> {
    /// `len` bytes, at least one, in one run with this value. It takes no memory.
    pub fn uniform(alloc: Global, len: u32, value: T) -> RangeMap<T>
        requires { 1 ≤ len }
        ensures bytes { result.bytes ≡ replicate len value }
        ensures starts { result.starts ≡ 0 ∷ [] }
    {
        RangeMap {
            first: value,
            later: Vec::new(alloc),
            len,
        }
    }

    /// `len` bytes, at least one, in one run with this value.
    ///
    /// # Errors
    ///
    /// `NoMemory`: out of memory.
    pub fn new(alloc: Global, len: u32, value: T) -> Result<RangeMap<T>, NoMemory>
        requires { 1 ≤ len }
        ensures bytes { IfOk result (λ m. m.bytes ≡ replicate len value) }
        ensures starts { IfOk result (λ m. m.starts ≡ 0 ∷ []) }
    {
        Ok(RangeMap::uniform(alloc, len, value))
    }

    /// The value of the byte `at`, which lies below the length.
    pub fn get(&self, at: u32) -> T
        requires { at < length self.now.bytes }
        ensures { slice_get self.now.bytes at ≡ Some result }
    {
        run_with(self.first, &self.later, at).value
    }

    /// The least run start above the byte `at`, or the length where there is none. Up to it all
    /// bytes from `at` on have one value.
    pub fn run_end(&self, at: u32) -> u32
        requires { at < length self.now.bytes }
        ensures next { result ≡ next_start (length self.now.bytes) at self.now.starts }
        ensures after { at < result }
        ensures within { result ≤ length self.now.bytes }
        ensures uniform { (b : ℕ) → at ≤ b → b < result → slice_get self.now.bytes b ≡ slice_get self.now.bytes at }
        ensures runs { IsRanges self.now }
    {
        match self.later.get(runs_up_to(&self.later, at)) {
            Some(run) => run.start,
            None => self.len,
        }
    }

    /// Tells the caller's proof what holds of every range map. Nothing is done.
    pub fn soundness(&self)
        ensures { IsRanges self.now }
    {
        // read, so that the proof knows what the map's type keeps
        let _ = &self.len;
    }

    /// Whether `runs` more run starts fit without memory.
    pub fn has_room(&self, runs: u32) -> bool
        ensures { IsTrue result ↔ (runs ≤ self.now.spare) }
    {
        runs as usize <= self.later.capacity() - self.later.len()
    }

    /// Makes room for `runs` more run starts, where there isn't as much yet.
    ///
    /// # Errors
    ///
    /// `NoMemory`: out of memory, where there was less room. The map is as before.
    pub fn reserve(&mut self, runs: u32) -> Result<(), NoMemory>
        ensures room { OnOk result (runs ≤ self.new.spare) }
        ensures succeeds { runs ≤ self.old.spare → IsOk result }
        ensures bytes { self.new.bytes ≡ self.old.bytes }
        ensures starts { self.new.starts ≡ self.old.starts }
        ensures spare { self.old.spare ≤ self.new.spare }
        ensures err { OnErr result (self.new ≡ self.old) }
    {
        self.later.reserve(runs as usize)?;
        Ok(())
    }

    /// Lets a run begin at the byte `at`, which lies below the length. It takes room for one run
    /// start at most.
    pub fn split_at(&mut self, at: u32)
        requires within { at < length self.old.bytes }
        requires room { 1 ≤ self.old.spare }
        ensures bytes { self.new.bytes ≡ self.old.bytes }
        ensures starts { self.new.starts ≡ with_start at self.old.starts }
        ensures spare { self.old.spare ≤ self.new.spare + 1 }
    {
        let run = run_with(self.first, &self.later, at);
        if run.start < at {
            let index = runs_up_to(&self.later, at);
            let split = Run {
                start: at,
                value: run.value,
            };
            // there is room for it, so it succeeds
            let _ = self.later.insert(index, split);
        }
    }

    /// Gives the whole run that begins at the byte `at` one value. It takes no room.
    pub fn put(&mut self, at: u32, value: T)
        requires within { at < length self.old.bytes }
        requires begins { IsTrue (has_start at self.old.starts) }
        ensures bytes { self.new.bytes ≡ overwrite at (next_start (length self.old.bytes) at self.old.starts) value self.old.bytes }
        ensures after { at < next_start (length self.old.bytes) at self.old.starts }
        ensures within { next_start (length self.old.bytes) at self.old.starts ≤ length self.old.bytes }
        ensures size { length self.new.bytes ≡ length self.old.bytes }
        ensures starts { self.new.starts ≡ self.old.starts }
        ensures spare { self.new.spare ≡ self.old.spare }
    {
        match runs_up_to(&self.later, at).checked_sub(1) {
            Some(index) => self.later[index].value = value,
            None => self.first = value,
        }
    }

    // Lets a run begin at `at`, where that is no end of the bytes.
    fn end_at(&mut self, at: u32)
        requires room { 1 ≤ self.old.spare }
        ensures bytes { self.new.bytes ≡ self.old.bytes }
        ensures starts { self.new.starts ≡ with_end (length self.old.bytes) at self.old.starts }
        ensures spare { self.old.spare ≤ self.new.spare + 1 }
    {
        if at < self.len {
            self.split_at(at);
        }
    }

    /// Gives the bytes of a span, at least one and all below the length, one value, and lets a run
    /// begin where the span begins and where it ends. It takes room for two run starts at most.
    pub fn set_run(&mut self, span: Span, value: T)
        requires bytes { 1 ≤ span.len }
        requires within { span.start + span.len ≤ length self.old.bytes }
        requires room { 2 ≤ self.old.spare }
        ensures bytes { self.new.bytes ≡ overwrite span.start (span.start + span.len) value self.old.bytes }
        ensures size { length self.new.bytes ≡ length self.old.bytes }
        ensures starts { self.new.starts ≡ starts_after_set (length self.old.bytes) span.start (span.start + span.len) self.old.starts }
        ensures spare { self.old.spare ≤ self.new.spare + 2 }
    {
        // that the end is no more than the length, and so doesn't wrap, is known once this is read
        let _len = self.len;
        let end = span.start + span.len;
        self.end_at(end);
        self.split_at(span.start);
        drop_between(&mut self.later, span.start, end);
        self.put(span.start, value);
    }

    /// Joins neighbours that have one value. It needs that `==` of the values is identity: with
    /// another `==` the list couldn't stay as it was.
    pub fn merge(&mut self)
        requires { (a : T) → (b : T) → IsTrue (T.eq a b) ↔ (a ≡ b) }
        ensures bytes { self.new.bytes ≡ self.old.bytes }
        ensures starts { self.new.starts ≡ boundaries T.eq self.old.bytes }
        ensures fewer { (s : ℕ) → IsTrue (has_start s self.new.starts) → IsTrue (has_start s self.old.starts) }
        ensures spare { self.old.spare ≤ self.new.spare }
    {
        let kept = compact(self.first, self.later.as_mut_slice());
        self.later.truncate(kept);
    }
}

impl<T: Copy> Copied for Run<T> {
    fn copy(&self) -> Result<Run<T>, NoMemory> {
        Ok(*self)
    }
}

impl<T: Copy> Copied for RangeMap<T> {
    fn copy(&self) -> Result<RangeMap<T>, NoMemory> {
        Ok(RangeMap {
            first: self.first,
            later: copy_vec(&self.later)?,
            len: self.len,
        })
    }
}
