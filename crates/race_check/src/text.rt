//! The text of the races of a run, and its status.
ghost use Rattle.std.specs.Prelude.{◌≡◌, ◌++◌, All, IfOk, OnOk, string_bytes};
ghost use Rattle.std.specs.List.{flat_map};
ghost use Rattle.history.specs.Records.{HasDistinctStamps, merged};
ghost use Rattle.report.specs.Violation.{IsDescribable};
ghost use Rattle.race_check.specs.Races.{AreFirstRaces};
ghost use Rattle.race_check.specs.Text as text;

use crate::race::Race;
use bsan_ids::NoMemory;
use history::Entry;
use report::{status_of, what};
use run_record::RunRecord;
use std::alloc::Global;

fn push_side(alloc: Global, entry: &Entry, line: &mut Vec<u8>) -> Result<(), NoMemory>
    requires { IsDescribable entry.now }
    ensures { OnOk result (line.new.items ≡ line.old.items ++ text.side_text entry.now) }
{
    let thread = entry.thread.0;
    let site = entry.site;
    let stamp = entry.stamp.0;
    let place = format!(in alloc; "thread {thread} at instruction {site}, step {stamp}, ")?;
    line.extend_from_slice(place.as_bytes())?;
    line.extend_from_slice(&what(alloc, entry, false)?)?;
    Ok(())
}

fn push_line(alloc: Global, race: &Race, lines: &mut Vec<u8>) -> Result<(), NoMemory>
    requires earlier { IsDescribable race.now.earlier }
    requires later { IsDescribable race.now.later }
    ensures { OnOk result (lines.new.items ≡ lines.old.items ++ text.race_line race.now) }
{
    let number = race.alloc.0;
    let start = format!(in alloc; "race on allocation {number}: ")?;
    lines.extend_from_slice(start.as_bytes())?;
    push_side(alloc, &race.earlier, lines)?;
    lines.extend_from_slice(b"; ")?;
    push_side(alloc, &race.later, lines)?;
    lines.push(b'\n')?;
    Ok(())
}

fn race_lines(alloc: Global, races: &[Race]) -> Result<Vec<u8>, NoMemory>
    requires earlier { All (λ race. IsDescribable race.earlier) races.now }
    requires later { All (λ race. IsDescribable race.later) races.now }
    ensures { IfOk result (λ lines. lines.items ≡ flat_map text.race_line races.now) }
{
    let mut lines = Vec::new(alloc);
    for race in races {
        push_line(alloc, race, &mut lines)?;
    }
    Ok(lines)
}

/// The status of a run with these races: 10 where there is one and the run's own status is 0 or 1,
/// else the run's own.
pub fn race_status(kept: &RunRecord, races: &[Race]) -> u8
    ensures { result ≡ text.race_status kept.now races.now }
{
    let status = status_of(kept);
    if status <= 1 && !races.is_empty() {
        10
    } else {
        status
    }
}

/// The line of each race, their number and the status, each line with its newline.
///
/// In the record no stamp may stand twice, and the races have to be its own.
///
/// # Errors
///
/// `NoMemory`: out of memory.
pub fn race_text(alloc: Global, kept: &RunRecord, races: &[Race]) -> Result<Vec<u8>, NoMemory>
    requires distinct { HasDistinctStamps kept.now }
    requires races { AreFirstRaces (merged kept.now) races.now }
    ensures { IfOk result (λ bytes. bytes.items ≡ text.race_text kept.now races.now) }
{
    let mut lines = race_lines(alloc, races)?;
    let count = races.len();
    let status = race_status(kept, races);
    let end = format!(in alloc; "races {count}\nstatus {status}\n")?;
    lines.extend_from_slice(end.as_bytes())?;
    Ok(lines)
}
