//! Notes on data races.
ghost use Rattle.std.specs.Prelude.{◌≡◌, ◌++◌, IfOk, OnOk, string_bytes};
ghost use Rattle.std.specs.List.{flat_map};
ghost use Rattle.notes.specs.Meaning.{listing_meant};
ghost use Rattle.notes.specs.Races as races;

use crate::deeds::deed_phrase;
use crate::source::{Listing, push_heading, push_help, push_note};
use bsan_ids::NoMemory;
use history::Entry;
use race_check::Race;
use std::alloc::{AllocError, Global};

const HELP: &str =
    "nothing orders the two accesses; let one thread join the other before it goes on, or order them by atomic accesses";

fn race_line(alloc: Global, race: &Race) -> Result<String, AllocError>
    ensures { IfOk result (λ line. string_bytes line ≡ races.race_line race.now) }
{
    let number = race.alloc.0;
    format!(in alloc; "race on allocation {number}\n")
}

fn access_phrase(alloc: Global, which: &str, step: &Entry) -> Result<String, AllocError>
    ensures { IfOk result (λ what. string_bytes what ≡ races.access_phrase which.now step.now) }
{
    let deed = deed_phrase(alloc, "a non-atomic ", &step.request)?;
    format!(in alloc; "{which}, {deed}, was made")
}

fn push_access(
    alloc: Global,
    listing: &Listing<'_>,
    which: &str,
    step: &Entry,
    notes: &mut Vec<u8>,
) -> Result<(), NoMemory>
    ensures { OnOk result (notes.new.items ≡ notes.old.items ++ races.access_note (listing_meant listing.now) which.now step.now) }
{
    let what = access_phrase(alloc, which, step)?;
    push_note(alloc, listing, what.as_str(), step, notes)
}

fn push_race(
    alloc: Global,
    listing: &Listing<'_>,
    race: &Race,
    notes: &mut Vec<u8>,
) -> Result<(), NoMemory>
    ensures { OnOk result (notes.new.items ≡ notes.old.items ++ races.race_note (listing_meant listing.now) race.now) }
{
    push_heading(&listing.source, race_line(alloc, race)?.as_bytes(), notes)?;
    push_access(alloc, listing, "one access", &race.earlier, notes)?;
    push_access(alloc, listing, "the other access", &race.later, notes)?;
    push_help(&listing.source, HELP, notes)?;
    Ok(())
}

/// Adds the notes on data races: for each, in their order, what both accesses did, the excerpts of their instructions and a
/// sentence of help.
pub fn push_races(
    alloc: Global,
    listing: &Listing<'_>,
    found: &[Race],
    notes: &mut Vec<u8>,
) -> Result<(), NoMemory>
    ensures { OnOk result (notes.new.items ≡ notes.old.items ++ flat_map (races.race_note (listing_meant listing.now)) found.now) }
{
    for race in found {
        push_race(alloc, listing, race, notes)?;
    }
    Ok(())
}
