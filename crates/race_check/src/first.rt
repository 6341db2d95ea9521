//! The first race on each allocation.
ghost use Rattle.std.specs.Prelude.{◌≡◌, ◌<◌, ◌+◌, ℕ, All, Contains, Some, map, length, vec_len, slice_index_or, false, true, IfOk, OnOk, MatchOption};
ghost use Rattle.std.specs.List.Sorted.{IsStrictlyIncreasing};
ghost use Rattle.bsan_ids.specs.declared.numbers.AllocNo.{AllocNo};
ghost use Rattle.history.specs.declared.entry.Entry.{Entry};
ghost use Rattle.history.specs.Merge.{stamp_of};
ghost use Rattle.history.specs.Records.{HasDistinctStamps, merged};
ghost use Rattle.race_check.specs.Accesses.{accessed};
ghost use Rattle.race_check.specs.Races.{AreFirstRaces};
ghost use Rattle.race_check.specs.Tracked.{is_raced, tracked_at};
ghost use Rattle.race_check.specs.Vectors.{AreSlots, AreClocks, IsClock, is_open, open_at};
ghost use Rattle.race_check.specs.Found.{IsFound, IsFirstPlace};

use crate::access::{accessed, conflict};
use crate::clocks::{Clocks, set_own};
use crate::found::Found;
use crate::race::Race;
use crate::slots::{Slots, slots_of};
use crate::uses::access_of;
use bsan_ids::{Copied, NoMemory};
use history::Entry;
use run_record::RunRecord;
use std::alloc::Global;

/// Whether the earlier entry conflicts with the later one and, by the mark of its thread in the
/// later one's clock, does not go before it.
fn is_open(earlier: &Entry, later: &Entry, mark: u128) -> bool
    ensures { result ≡ is_open earlier.now later.now mark }
{
    mark <= u128::from(earlier.stamp.0) && conflict(earlier, later)
}

/// The first of these places before `later` whose entry is open to the one at `later`.
fn first_open(
    entries: &[Entry],
    slots: &Slots,
    places: &[usize],
    later: usize,
    clock: &[u128],
) -> Option<usize>
    requires later { later < length entries.now }
    requires slots { AreSlots entries.now slots.now }
    requires rising { IsStrictlyIncreasing places.now }
    requires clock { length clock.now ≡ vec_len slots.now.threads }
    ensures { (d : Entry) → MatchOption result ((j : ℕ) → j < later → Contains places.now j → open_at entries.now slots.now (slice_index_or entries.now later d) clock.now j ≡ false) (λ j. IsFirstPlace entries.now slots.now (slice_index_or entries.now later d) clock.now places.now later j) }
{
    for place in places {
        let earlier = *place;
        if earlier < later {
            let entry = &entries[earlier];
            let slot = slots.of_entry[earlier];
            if is_open(entry, &entries[later], clock[slot]) {
                return Some(earlier);
            }
        }
    }
    None
}

/// Adds the first race on its allocation of which the entry at `later` is the later one, if there
/// is one. No race on the allocation is found yet.
fn add_race(
    alloc: Global,
    entries: &[Entry],
    slots: &Slots,
    later: usize,
    clock: &[u128],
    found: &mut Found,
) -> Result<(), NoMemory>
    requires rising { IsStrictlyIncreasing (map stamp_of entries.now) }
    requires later { later < length entries.now }
    requires slots { AreSlots entries.now slots.now }
    requires len { length clock.now ≡ vec_len slots.now.threads }
    requires clock { (d : Entry) → IsClock entries.now slots.now.threads.items later (slice_index_or entries.now later d) clock.now }
    requires fresh { (d : Entry) (n : AllocNo) → accessed (slice_index_or entries.now later d) ≡ Some n → is_raced (tracked_at found.old.allocs n.0) ≡ false }
    requires found { IsFound entries.now slots.now (later + 1) later found.old }
    ensures { OnOk result (IsFound entries.now slots.now (later + 1) (later + 1) found.new) }
{
    let entry = &entries[later];
    let Some(number) = accessed(entry) else {
        return Ok(());
    };
    let places = found.allocs.places(number);
    let Some(earlier) = first_open(entries, slots, places, later, clock) else {
        return Ok(());
    };
    found.races.push(Race {
        alloc: number,
        earlier: entries[earlier].copy()?,
        later: entry.copy()?,
    })?;
    found.allocs.close(alloc, number)?;
    Ok(())
}

/// Notes what the entry at `later` accesses, and adds the race that it is the later one of.
fn look(
    alloc: Global,
    entries: &[Entry],
    slots: &Slots,
    later: usize,
    clock: &[u128],
    found: &mut Found,
) -> Result<(), NoMemory>
    requires rising { IsStrictlyIncreasing (map stamp_of entries.now) }
    requires later { later < length entries.now }
    requires slots { AreSlots entries.now slots.now }
    requires len { length clock.now ≡ vec_len slots.now.threads }
    requires clock { (d : Entry) → IsClock entries.now slots.now.threads.items later (slice_index_or entries.now later d) clock.now }
    requires found { IsFound entries.now slots.now later later found.old }
    ensures { OnOk result (IsFound entries.now slots.now (later + 1) (later + 1) found.new) }
{
    let entry = &entries[later];
    let Some(number) = accessed(entry) else {
        return Ok(());
    };
    let slot = slots.of_entry[later];
    let access = access_of(entry, later, slot);
    let is_unordered = found
        .allocs
        .note(alloc, number, &entry.request, access, clock)?;
    if is_unordered {
        add_race(alloc, entries, slots, later, clock, found)?;
    }
    Ok(())
}

/// The clock of the entry at `later`, which is noted.
fn advance(
    alloc: Global,
    entries: &[Entry],
    slots: &Slots,
    later: usize,
    clocks: &mut Clocks,
) -> Result<Vec<u128>, NoMemory>
    requires rising { IsStrictlyIncreasing (map stamp_of entries.now) }
    requires later { later < length entries.now }
    requires slots { AreSlots entries.now slots.now }
    requires clocks { AreClocks entries.now slots.now.threads.items later clocks.old }
    ensures clocks { OnOk result (AreClocks entries.now slots.now.threads.items (later + 1) clocks.new) }
    ensures len { IfOk result (λ clock. vec_len clock ≡ vec_len slots.now.threads) }
    ensures clock { IfOk result (λ clock. (d : Entry) → IsClock entries.now slots.now.threads.items later (slice_index_or entries.now later d) clock.items) }
{
    let entry = &entries[later];
    let clock = clocks.clock(alloc, slots.threads.len(), entry)?;
    let mut own = Vec::from_slice(alloc, &clock)?;
    set_own(&mut own, &slots.threads, entry.thread, entry.stamp);
    clocks.note(alloc, entry, &own)?;
    Ok(clock)
}

/// The first race on each allocation that has one among these entries, whose stamps rise, in the
/// order of the later stamps.
///
/// # Errors
///
/// `NoMemory`: out of memory.
pub fn first_races(alloc: Global, entries: &[Entry]) -> Result<Vec<Race>, NoMemory>
    requires { IsStrictlyIncreasing (map stamp_of entries.now) }
    ensures { IfOk result (λ races. AreFirstRaces entries.now races.items) }
{
    let slots = slots_of(alloc, entries)?;
    let mut clocks = Clocks::new(alloc);
    let mut found = Found::new(alloc);
    for later in 0..entries.len() {
        let clock = advance(alloc, entries, &slots, later, &mut clocks)?;
        look(alloc, entries, &slots, later, &clock, &mut found)?;
    }
    Ok(found.races)
}

/// The first race on each allocation of a run that has one, in the order of the later stamps.
///
/// In the record no stamp may stand twice.
///
/// # Errors
///
/// `NoMemory`: out of memory.
pub fn races(alloc: Global, kept: &RunRecord) -> Result<Vec<Race>, NoMemory>
    requires { HasDistinctStamps kept.now }
    ensures { IfOk result (λ races. AreFirstRaces (merged kept.now) races.items) }
{
    let entries = kept.merged()?;
    first_races(alloc, &entries)
}
