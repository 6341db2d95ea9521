//! Which entries go before an entry, by vectors with a mark for each thread.
ghost use Rattle.std.specs.Prelude.{◌≡◌, false, ◌≢◌, ◌⊎◌, ◌<◌, ◌≤◌, ◌+◌, ◌==◌, ℕ, All, Contains, Option, Some, IfOk, OnOk, max, length, vec_len, slice_index, slice_index_or, if◌then◌else◌};
ghost use Rattle.history.specs.declared.entry.Entry.{Entry};
ghost use Rattle.race_check.specs.declared.key.Key.{Key};
ghost use Rattle.race_check.specs.Clocks.{mark_at, mark_if, clock_mark, start_key, join_key, place_key};
ghost use Rattle.race_check.specs.Keys.{Gives};

use crate::access::{has_trapped, is_atomic, start_of};
use crate::key::Key;
use bsan_ids::{NoMemory, Stamp, ThreadNo};
use history::{Entry, Plain, Request};
use std::alloc::Global;
use std::collections::BTreeMap;

/// Raises each mark of the row to that of another row, where it is lower.
fn raise(row: &mut Vec<u128>, other: &[u128])
    ensures len { vec_len row.new ≡ vec_len row.old }
    ensures raised { (s : ℕ) → s < vec_len row.old → slice_index row.new.items s ≡ max (slice_index row.old.items s) (slice_index other.now s) }
{
    for slot in 0..row.len() {
        if slot < other.len() && row[slot] < other[slot] {
            row[slot] = other[slot];
        }
    }
}

/// The vector of each set of entries.
#[derive(Drop)]
pub struct Clocks {
    rows: BTreeMap<Key, Vec<u128>>,
}

impl Clocks {
    pub fn new(alloc: Global) -> Clocks
        ensures { (k : Key) (s : ℕ) → mark_at result k s ≡ 0 }
    {
        Clocks {
            rows: BTreeMap::new(alloc),
        }
    }

    /// Raises the marks of a clock to those of the set.
    fn join(&self, key: Key, clock: &mut Vec<u128>)
        ensures len { vec_len clock.new ≡ vec_len clock.old }
        ensures raised { (s : ℕ) → s < vec_len clock.old → slice_index clock.new.items s ≡ max (slice_index clock.old.items s) (mark_at self.now key s) }
    {
        if let Some(row) = self.rows.get(&key) {
            raise(clock, row);
        }
    }

    /// Raises the marks of the set to those of a clock.
    fn add(&mut self, alloc: Global, key: Key, clock: &[u128]) -> Result<(), NoMemory>
        ensures raised { OnOk result ((s : ℕ) → s < length clock.now → mark_at self.new key s ≡ max (slice_index clock.now s) (mark_at self.old key s)) }
        ensures others { OnOk result ((k : Key) → k ≢ key → (s : ℕ) → mark_at self.new k s ≡ mark_at self.old k s) }
    {
        let mut row = Vec::from_slice(alloc, clock)?;
        if let Some(old) = self.rows.get(&key) {
            raise(&mut row, old);
        }
        self.rows.insert(key, row)?;
        Ok(())
    }

    fn join_if(&self, key: Option<Key>, clock: &mut Vec<u128>)
        ensures len { vec_len clock.new ≡ vec_len clock.old }
        ensures raised { (s : ℕ) → s < vec_len clock.old → slice_index clock.new.items s ≡ max (slice_index clock.old.items s) (mark_if self.now key s) }
    {
        if let Some(key) = key {
            self.join(key, clock);
        }
    }

    fn add_if(&mut self, alloc: Global, key: Option<Key>, clock: &[u128]) -> Result<(), NoMemory>
        ensures raised { OnOk result ((k : Key) → key ≡ Some k → (s : ℕ) → s < length clock.now → mark_at self.new k s ≡ max (slice_index clock.now s) (mark_at self.old k s)) }
        ensures others { OnOk result ((k : Key) → key ≢ Some k → (s : ℕ) → mark_at self.new k s ≡ mark_at self.old k s) }
    {
        if let Some(key) = key {
            self.add(alloc, key, clock)?;
        }
        Ok(())
    }

    /// The clock of an entry: for each of so many slots, the mark of the entries that go before it.
    pub fn clock(&self, alloc: Global, slots: usize, entry: &Entry) -> Result<Vec<u128>, NoMemory>
        ensures len { IfOk result (λ clock. vec_len clock ≡ slots) }
        ensures marks { IfOk result (λ clock. (s : ℕ) → s < slots → slice_index clock.items s ≡ clock_mark self.now entry.now s) }
    {
        let mut clock = vec![in alloc; 0u128; slots]?;
        self.join(Key::Thread(entry.thread), &mut clock);
        self.join(Key::Start(entry.thread), &mut clock);
        self.join_if(joined(entry), &mut clock);
        self.join_if(place_of(entry), &mut clock);
        Ok(clock)
    }

    /// Notes an entry with its clock in each set that it belongs to.
    pub fn note(&mut self, alloc: Global, entry: &Entry, clock: &[u128]) -> Result<(), NoMemory>
        ensures given { OnOk result ((k : Key) → Gives k entry.now → (s : ℕ) → s < length clock.now → mark_at self.new k s ≡ max (slice_index clock.now s) (mark_at self.old k s)) }
        ensures others { OnOk result ((k : Key) → (Gives k entry.now → ⊥) → (s : ℕ) → mark_at self.new k s ≡ mark_at self.old k s) }
    {
        self.add(alloc, Key::Thread(entry.thread), clock)?;
        self.add_if(alloc, started(entry), clock)?;
        self.add_if(alloc, place_of(entry), clock)?;
        Ok(())
    }
}

/// The set of entries that started a thread, where the entry is one.
fn started(entry: &Entry) -> Option<Key>
    ensures { result ≡ start_key entry.now }
{
    match (&entry.request, &entry.reply.plain) {
        (Request::Spawn { .. }, Plain::Spawned(thread)) => Some(Key::Start(*thread)),
        _ => None,
    }
}

/// The entries of a thread, where the entry joined it.
fn joined(entry: &Entry) -> Option<Key>
    ensures { result ≡ join_key entry.now }
{
    match entry.request {
        Request::Join { child } => Some(Key::Thread(child)),
        _ => None,
    }
}

/// The atomic entries at one place, where the entry is one.
fn place_of(entry: &Entry) -> Option<Key>
    ensures { result ≡ place_key entry.now }
{
    if !is_atomic(&entry.request) || has_trapped(entry) {
        return None;
    }
    match entry.alloc {
        Some(number) => Some(Key::Place(number, start_of(&entry.request))),
        None => None,
    }
}

/// Sets the marks of a thread to that of its entry with this stamp.
pub fn set_own(clock: &mut Vec<u128>, threads: &[ThreadNo], thread: ThreadNo, stamp: Stamp)
    requires { vec_len clock.old ≡ length threads.now }
    ensures len { vec_len clock.new ≡ vec_len clock.old }
    ensures own { (s : ℕ) → s < length threads.now → slice_index_or threads.now s thread ≡ thread → slice_index clock.new.items s ≡ stamp.0 + 1 }
    ensures others { (s : ℕ) → s < length threads.now → slice_index_or threads.now s thread ≢ thread → slice_index clock.new.items s ≡ slice_index clock.old.items s }
{
    for slot in 0..threads.len() {
        if threads[slot] == thread {
            clock[slot] = u128::from(stamp.0) + 1;
        }
    }
}
