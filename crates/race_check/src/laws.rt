//! A law of races. The function does nothing: its contract is what is promised.
ghost use Rattle.std.specs.Prelude.{◌≡◌, List, map};
ghost use Rattle.std.specs.List.Sorted.{IsStrictlyIncreasing};
ghost use Rattle.history.specs.declared.entry.Entry.{Entry};
ghost use Rattle.history.specs.Merge.{stamp_of};
ghost use Rattle.race_check.specs.declared.race.Race.{Race};
ghost use Rattle.race_check.specs.Races.{AreFirstRaces};

/// Entries whose stamps rise have one list of first races.
pub fn first_races_are_one()
    ensures { (entries : List Entry) → IsStrictlyIncreasing (map stamp_of entries) → (a b : List Race) → AreFirstRaces entries a → AreFirstRaces entries b → a ≡ b }
{}
