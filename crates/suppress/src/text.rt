//! The report of a run without the violations that rules hold, and its status.
ghost use Rattle.std.specs.Prelude.{◌≡◌, ◌==◌, ◌&&◌, not, if◌then◌else◌, All, IfOk, IsTrue, count_by, filter, length, string_bytes};
ghost use Rattle.std.specs.List.{flat_map};
ghost use Rattle.history.specs.Records.{violates, first_violation};
ghost use Rattle.report.specs.Report.{IsReportable};
ghost use Rattle.report.specs.Violation.{IsDescribable};
ghost use Rattle.suppress.specs.Held as hushed;
ghost use Rattle.suppress.specs.Held.{is_held, is_shown};

use crate::case::case_of;
use crate::hold::Hold;
use bsan_ids::NoMemory;
use history::Entry;
use report::{make_count, part, status_of, step_count, violation_line};
use run_record::{AllocLog, RunRecord};
use std::alloc::{AllocError, Global};

/// The numbers of the report's parts that stay as they are.
const PRINTS: u8 = 1;

const ENDS: u8 = 3;

fn is_held(hold: &Hold, entry: &Entry) -> bool
    ensures { result ≡ is_held hold.now.rules entry.now }
{
    match case_of(entry) {
        Some(case) => hold.asks(case),
        None => false,
    }
}

/// The line of a violation, if it is shown.
fn shown_line(alloc: Global, hold: &Hold, entry: &Entry) -> Result<Vec<u8>, NoMemory>
    requires described { IsDescribable entry.now }
    requires violation { IsTrue (violates entry.now) }
    ensures { IfOk result (λ line. line.items ≡ hushed.shown_line hold.now.rules entry.now) }
{
    if is_held(hold, entry) {
        Ok(Vec::new(alloc))
    } else {
        violation_line(alloc, entry)
    }
}

/// The lines of the violations that are shown.
fn shown_lines(alloc: Global, hold: &Hold, found: &[Entry]) -> Result<Vec<u8>, NoMemory>
    requires described { All IsDescribable found.now }
    requires violations { All (λ entry. IsTrue (violates entry)) found.now }
    ensures { IfOk result (λ lines. lines.items ≡ flat_map (hushed.shown_line hold.now.rules) found.now) }
{
    let mut lines = Vec::new(alloc);
    for entry in found {
        lines.extend_from_slice(&shown_line(alloc, hold, entry)?)?;
    }
    Ok(lines)
}

/// How many of the violations are held.
fn held_count(hold: &Hold, found: &[Entry]) -> usize
    ensures { result ≡ count_by (is_held hold.now.rules) found.now }
{
    let mut held = 0;
    for entry in found {
        if is_held(hold, entry) {
            held += 1;
        }
    }
    held
}

/// How many of the violations are shown.
fn shown_count(hold: &Hold, found: &[Entry]) -> usize
    ensures { result ≡ length (filter (is_shown hold.now.rules) found.now) }
{
    found.len() - held_count(hold, found)
}

/// The summary, with so many violations that are shown, and so many that are held.
fn summary(
    alloc: Global,
    kept: &RunRecord,
    violations: usize,
    held: usize,
) -> Result<String, AllocError>
    ensures { IfOk result (λ line. string_bytes line ≡ hushed.summary_with kept.now violations held) }
{
    let steps = step_count(kept.threads.as_slice());
    let makes = make_count(kept.threads.as_slice());
    let threads = kept.threads.len();
    format!(in alloc;
        "steps {steps}, allocations {makes}, threads {threads}, violations {violations}, held {held}\n"
    )
}

/// Whether there is a first violation on an allocation that is shown.
fn has_shown(hold: &Hold, log: &AllocLog) -> bool
    ensures { result ≡ hushed.is_some_shown hold.now.rules (first_violation log.now) }
{
    match log.first_violation() {
        Some(entry) => !is_held(hold, entry),
        None => false,
    }
}

/// Whether there is one on some allocation.
fn is_any_shown(hold: &Hold, logs: &[AllocLog]) -> bool
    ensures { result ≡ hushed.is_any_shown hold.now.rules logs.now }
{
    for log in logs {
        if has_shown(hold, log) {
            return true;
        }
    }
    false
}

/// A run's status, where violations count as this says.
fn status_by(status: u8, is_any_shown: bool) -> u8
    ensures { result ≡ (if status == 1 && not is_any_shown then 0 else status) }
{
    if status == 1 && !is_any_shown {
        0
    } else {
        status
    }
}

/// The status of a run: 9 where a thread found no memory, else 6 where one reached a limit, else 5 where one trapped,
/// else 1 where the first violation on some allocation is not held, else 0.
pub fn held_status(kept: &RunRecord, hold: &Hold) -> u8
    ensures { result ≡ hushed.held_status hold.now.rules kept.now }
{
    status_by(status_of(kept), is_any_shown(hold, kept.allocs.as_slice()))
}

fn status_line(alloc: Global, kept: &RunRecord, hold: &Hold) -> Result<String, AllocError>
    ensures { IfOk result (λ line. string_bytes line ≡ hushed.status_line hold.now.rules kept.now) }
{
    let status = held_status(kept, hold);
    format!(in alloc; "status {status}\n")
}

/// The report of a run without the violations that are held: what was printed, the lines of the first violations that
/// are not held, the threads' ends, a summary that counts those violations and apart from them the held ones, and the
/// status without the held ones.
///
/// In the record no stamp may be twice, and each violation has to be of an operation on an allocation that its entry
/// names.
///
/// # Errors
///
/// `NoMemory`: out of memory.
pub fn held_text(alloc: Global, kept: &RunRecord, hold: &Hold) -> Result<Vec<u8>, NoMemory>
    requires { IsReportable kept.now }
    ensures { IfOk result (λ text. text.items ≡ hushed.held_text hold.now.rules kept.now) }
{
    let first = kept.first_violations()?;
    let found = first.as_slice();
    let shown = shown_lines(alloc, hold, found)?;
    let summary = summary(
        alloc,
        kept,
        shown_count(hold, found),
        held_count(hold, found),
    )?;
    let status = status_line(alloc, kept, hold)?;
    let ends = part(alloc, kept, ENDS)?;
    let mut text = part(alloc, kept, PRINTS)?;
    text.extend_from_slice(&shown)?;
    text.extend_from_slice(&ends)?;
    text.extend_from_slice(summary.as_bytes())?;
    text.extend_from_slice(status.as_bytes())?;
    Ok(text)
}
