//! The whole report, its parts, and the status.
ghost use Rattle.std.specs.Prelude.{◌≡◌, ◌≤◌, All, IfOk, IsTrue, string_bytes};
ghost use Rattle.std.specs.List.{flat_map, list_any};
ghost use Rattle.history.specs.Records.{violates, has_violation};
ghost use Rattle.report.specs.Violation as violations;
ghost use Rattle.report.specs.Violation.{IsDescribable};
ghost use Rattle.report.specs.End as ends;
ghost use Rattle.report.specs.Report as report;
ghost use Rattle.report.specs.Report.{IsReportable, is_no_memory, is_limit, is_trap, any_end};

use crate::counts::{make_count, step_count, violation_count};
use crate::end::end_line;
use crate::prints::prints;
use crate::violation::violation_string;
use bsan_ids::NoMemory;
use history::Entry;
use run_record::{AllocLog, End, RunRecord, ThreadLog};
use std::alloc::{AllocError, Global};

fn violation_lines(alloc: Global, entries: &[Entry]) -> Result<String, AllocError>
    requires described { All IsDescribable entries.now }
    requires violations { All (λ entry. IsTrue (violates entry)) entries.now }
    ensures { IfOk result (λ lines. string_bytes lines ≡ flat_map violations.violation_line entries.now) }
{
    let mut lines = String::new(alloc);
    for entry in entries {
        lines.push_str(violation_string(alloc, entry)?.as_str())?;
    }
    Ok(lines)
}

fn end_lines(alloc: Global, logs: &[ThreadLog]) -> Result<String, AllocError>
    ensures { IfOk result (λ lines. string_bytes lines ≡ flat_map ends.end_line logs.now) }
{
    let mut lines = String::new(alloc);
    for log in logs {
        lines.push_str(end_line(alloc, log)?.as_str())?;
    }
    Ok(lines)
}

fn summary(alloc: Global, kept: &RunRecord) -> Result<String, AllocError>
    ensures { IfOk result (λ line. string_bytes line ≡ report.summary kept.now) }
{
    let steps = step_count(kept.threads.as_slice());
    let makes = make_count(kept.threads.as_slice());
    let threads = kept.threads.len();
    let violations = violation_count(kept.allocs.as_slice());
    format!(in alloc;
        "steps {steps}, allocations {makes}, threads {threads}, violations {violations}\n"
    )
}

fn is_no_memory(log: &ThreadLog) -> bool
    ensures { result ≡ is_no_memory log.now.end }
{
    matches!(log.end, End::NoMemory)
}

fn is_limit(log: &ThreadLog) -> bool
    ensures { result ≡ is_limit log.now.end }
{
    matches!(log.end, End::StepLimit(_) | End::TurnLimit)
}

fn is_trap(log: &ThreadLog) -> bool
    ensures { result ≡ is_trap log.now.end }
{
    matches!(log.end, End::Trapped(_))
}

fn any_no_memory(kept: &RunRecord) -> bool
    ensures { result ≡ any_end is_no_memory kept.now }
{
    kept.threads.as_slice().iter().any(is_no_memory)
}

fn any_limit(kept: &RunRecord) -> bool
    ensures { result ≡ any_end is_limit kept.now }
{
    kept.threads.as_slice().iter().any(is_limit)
}

fn any_trap(kept: &RunRecord) -> bool
    ensures { result ≡ any_end is_trap kept.now }
{
    kept.threads.as_slice().iter().any(is_trap)
}

fn any_violation(kept: &RunRecord) -> bool
    ensures { result ≡ list_any has_violation kept.now.allocs }
{
    kept.allocs.as_slice().iter().any(AllocLog::has_violation)
}

/// The status of a run: 9 where a thread found no memory, else 6 where one reached a limit, else 5
/// where one trapped, else 1 where there is a violation on an allocation, else 0.
pub fn status_of(kept: &RunRecord) -> u8
    ensures { result ≡ report.status_of kept.now }
{
    if any_no_memory(kept) {
        9
    } else if any_limit(kept) {
        6
    } else if any_trap(kept) {
        5
    } else if any_violation(kept) {
        1
    } else {
        0
    }
}

fn status_line(alloc: Global, kept: &RunRecord) -> Result<String, AllocError>
    ensures { IfOk result (λ line. string_bytes line ≡ report.status_line kept.now) }
{
    let status = status_of(kept);
    format!(in alloc; "status {status}\n")
}

fn violations(alloc: Global, kept: &RunRecord) -> Result<String, NoMemory>
    requires { IsReportable kept.now }
    ensures { IfOk result (λ lines. string_bytes lines ≡ report.violation_lines kept.now) }
{
    let found = kept.first_violations()?;
    Ok(violation_lines(alloc, &found)?)
}

/// The lines of one part of the report, each with its newline: what was printed (1), the first
/// violations (2), the threads' ends (3), the summary (4), the status (5).
///
/// In the record no stamp may be twice, and each violation has to be of an operation on an allocation
/// that its entry names; `item` is 1 to 5.
///
/// # Errors
///
/// `NoMemory`: out of memory.
pub fn part(alloc: Global, kept: &RunRecord, item: u8) -> Result<Vec<u8>, NoMemory>
    requires reportable { IsReportable kept.now }
    requires least { 1 ≤ item }
    requires most { item ≤ 5 }
    ensures { IfOk result (λ text. text.items ≡ report.part_of item kept.now) }
{
    let text = match item {
        1 => prints(alloc, kept)?,
        2 => violations(alloc, kept)?,
        3 => end_lines(alloc, kept.threads.as_slice())?,
        4 => summary(alloc, kept)?,
        _ => status_line(alloc, kept)?,
    };
    Ok(text.into_bytes())
}

/// The report of a run: its five parts in order.
///
/// In the record no stamp may be twice, and each violation has to be of an operation on an allocation
/// that its entry names.
///
/// # Errors
///
/// `NoMemory`: out of memory.
pub fn text_of(alloc: Global, kept: &RunRecord) -> Result<Vec<u8>, NoMemory>
    requires { IsReportable kept.now }
    ensures { IfOk result (λ text. text.items ≡ report.text_of kept.now) }
{
    let prints = prints(alloc, kept)?;
    let violations = violations(alloc, kept)?;
    let ends = end_lines(alloc, kept.threads.as_slice())?;
    let summary = summary(alloc, kept)?;
    let status = status_line(alloc, kept)?;
    Ok(format!(in alloc; "{prints}{violations}{ends}{summary}{status}")?.into_bytes())
}
