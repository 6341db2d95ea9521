//! How the threads used the bytes of an allocation.
ghost use Rattle.std.specs.Prelude.{◌≡◌, ◌≤◌, ◌<◌, ◌+◌, ℕ, [], true, false, IfOk, OnOk, IfSome, length, slice_index_or};
ghost use Rattle.std.specs.BTreeMap.{get};
ghost use Rattle.std.specs.Ordering.{nat_cmp};
ghost use Rattle.history.specs.declared.entry.Entry.{Entry};
ghost use Rattle.race_check.specs.declared.uses.Access.{Access};
ghost use Rattle.race_check.specs.declared.uses.Kind.{Kind};
ghost use Rattle.race_check.specs.declared.uses.LastUses.{LastUses};
ghost use Rattle.race_check.specs.Uses.{clash, mark_of, HasUse, AllBelow, row_of};
ghost use Rattle.race_check.specs.Uses as uses;

use crate::access::{is_atomic, writes};
use bsan_ids::NoMemory;
use history::{Entry, Request};
use std::alloc::Global;
use std::collections::BTreeMap;

/// How an access uses its bytes.
#[derive(Clone, Copy)]
pub enum Kind {
    /// It reads them, and is not atomic.
    Read,
    /// It writes them, and is not atomic.
    Write,
    Atomic,
}

fn kind_of(request: &Request) -> Kind
    ensures { result ≡ uses.kind_of request.now }
{
    if is_atomic(request) {
        Kind::Atomic
    } else if writes(request) {
        Kind::Write
    } else {
        Kind::Read
    }
}

/// An access: its place in the list of entries, the slot of its thread, how it uses its bytes, and
/// one more than its stamp.
#[derive(Clone, Copy)]
pub struct Access {
    pub place: usize,
    pub slot: usize,
    pub kind: Kind,
    pub mark: u128,
}

/// An entry as the access at this place, by the thread of this slot.
pub fn access_of(entry: &Entry, place: usize, slot: usize) -> Access
    ensures { result ≡ uses.access_of entry.now place slot }
{
    Access {
        place,
        slot,
        kind: kind_of(&entry.request),
        mark: u128::from(entry.stamp.0) + 1,
    }
}

/// The last uses by the thread of a slot, one for each kind, as one more than its stamp; 0 where
/// there is none.
#[derive(Clone, Copy)]
pub struct LastUses {
    slot: usize,
    read: u128,
    write: u128,
    atomic: u128,
}

impl LastUses {
    fn none(slot: usize) -> LastUses
        ensures { result.slot ≡ slot }
    {
        LastUses {
            slot,
            read: 0,
            write: 0,
            atomic: 0,
        }
    }

    /// Raises the mark of a kind, where it is lower.
    fn raise(&mut self, kind: Kind, mark: u128)
        ensures slot { self.new.slot ≡ self.old.slot }
        ensures raised { mark ≤ mark_of self.new kind }
        ensures kept { (k : Kind) → mark_of self.old k ≤ mark_of self.new k }
    {
        match kind {
            Kind::Read => self.read = self.read.max(mark),
            Kind::Write => self.write = self.write.max(mark),
            Kind::Atomic => self.atomic = self.atomic.max(mark),
        }
    }

    /// The greatest mark of those kinds that clash with this one.
    fn latest_clash(&self, kind: Kind) -> u128
        ensures { (k : Kind) → clash k kind ≡ true → mark_of self.now k ≤ result }
    {
        match kind {
            Kind::Read => self.write.max(self.atomic),
            Kind::Write => self.read.max(self.write).max(self.atomic),
            Kind::Atomic => self.read.max(self.write),
        }
    }
}

fn find_slot(row: &[LastUses], slot: usize) -> Option<usize>
    ensures { IfSome result (λ k. (k < length row.now) × ((d : LastUses) → (slice_index_or row.now k d).slot ≡ slot)) }
{
    for place in 0..row.len() {
        if row[place].slot == slot {
            return Some(place);
        }
    }
    None
}

/// Notes an access in the last uses of a byte.
pub fn note_use(row: &mut Vec<LastUses>, access: Access) -> Result<(), NoMemory>
    ensures noted { OnOk result (HasUse row.new.items access) }
    ensures kept { OnOk result ((other : Access) → HasUse row.old.items other → HasUse row.new.items other) }
{
    if let Some(place) = find_slot(row, access.slot) {
        row[place].raise(access.kind, access.mark);
        return Ok(());
    }
    let mut last = LastUses::none(access.slot);
    last.raise(access.kind, access.mark);
    row.push(last)?;
    Ok(())
}

/// Whether some last use that clashes with this kind does not go before the entry of the clock.
pub fn is_unordered(row: &[LastUses], kind: Kind, clock: &[u128]) -> bool
    ensures { result ≡ false → AllBelow kind clock.now row.now }
{
    for last in row {
        if last.slot >= clock.len() || clock[last.slot] < last.latest_clash(kind) {
            return true;
        }
    }
    false
}

/// Notes an access of a byte. The answer is whether some last use of the byte that clashes with it
/// does not go before it, by its clock.
fn note_byte(
    alloc: Global,
    bytes: &mut BTreeMap<u64, Vec<LastUses>>,
    byte: u64,
    access: Access,
    clock: &[u128],
) -> Result<bool, NoMemory>
    ensures below { IfOk result (λ unordered. unordered ≡ false → AllBelow access.kind clock.now (row_of (get nat_cmp bytes.old byte))) }
    ensures noted { OnOk result (HasUse (row_of (get nat_cmp bytes.new byte)) access) }
    ensures kept { OnOk result ((b : ℕ) (other : Access) → HasUse (row_of (get nat_cmp bytes.old b)) other → HasUse (row_of (get nat_cmp bytes.new b)) other) }
{
    match bytes.get_mut(&byte) {
        Some(row) => {
            let unordered = is_unordered(row, access.kind, clock);
            note_use(row, access)?;
            Ok(unordered)
        }
        None => {
            let mut row = Vec::new(alloc);
            note_use(&mut row, access)?;
            bytes.insert(byte, row)?;
            Ok(false)
        }
    }
}

/// Notes an access of the bytes from `start` to before `end`. The answer is whether some last use of
/// one of them that clashes with it does not go before it, by its clock.
pub fn note_bytes(
    alloc: Global,
    bytes: &mut BTreeMap<u64, Vec<LastUses>>,
    start: u64,
    end: u64,
    access: Access,
    clock: &[u128],
) -> Result<bool, NoMemory>
    ensures below { IfOk result (λ unordered. unordered ≡ false → (b : ℕ) → start ≤ b → b < end → AllBelow access.kind clock.now (row_of (get nat_cmp bytes.old b))) }
    ensures noted { OnOk result ((b : ℕ) → start ≤ b → b < end → HasUse (row_of (get nat_cmp bytes.new b)) access) }
    ensures kept { OnOk result ((b : ℕ) (other : Access) → HasUse (row_of (get nat_cmp bytes.old b)) other → HasUse (row_of (get nat_cmp bytes.new b)) other) }
{
    let mut unordered = false;
    for byte in start..end {
        if note_byte(alloc, bytes, byte, access, clock)? {
            unordered = true;
        }
    }
    Ok(unordered)
}
