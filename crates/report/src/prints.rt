//! The lines of what the threads printed.
ghost use Rattle.std.specs.Prelude.{◌≡◌, ◌++◌, IfOk, OnOk, filter, string_bytes};
ghost use Rattle.std.specs.List.{flat_map};
ghost use Rattle.report.specs.Report as report;
ghost use Rattle.report.specs.Report.{is_print};

use bsan_ids::{Copied, NoMemory};
use history::{Entry, Request, sort_by_stamp};
use run_record::{RunRecord, ThreadLog};
use std::alloc::{AllocError, Global};

fn print_line(alloc: Global, entry: &Entry) -> Result<String, AllocError>
    ensures { IfOk result (λ line. string_bytes line ≡ report.print_line entry.now) }
{
    let thread = entry.thread.0;
    match entry.request {
        Request::Print { value } => format!(in alloc; "thread {thread} prints {value}\n"),
        _ => Ok(String::new(alloc)),
    }
}

fn print_lines(alloc: Global, entries: &[Entry]) -> Result<String, AllocError>
    ensures { IfOk result (λ lines. string_bytes lines ≡ flat_map report.print_line entries.now) }
{
    let mut lines = String::new(alloc);
    for entry in entries {
        lines.push_str(print_line(alloc, entry)?.as_str())?;
    }
    Ok(lines)
}

/// Whether a step prints a value.
fn is_print(entry: &Entry) -> bool
    ensures { result ≡ is_print entry.now }
{
    matches!(entry.request, Request::Print { .. })
}

/// Appends copies of the steps that print.
fn push_prints(entries: &[Entry], found: &mut Vec<Entry>) -> Result<(), NoMemory>
    ensures { OnOk result (found.new.items ≡ found.old.items ++ filter is_print entries.now) }
{
    for entry in entries {
        if is_print(entry) {
            found.push(entry.copy()?)?;
        }
    }
    Ok(())
}

/// The steps of all threads that print, log by log.
fn print_steps(alloc: Global, logs: &[ThreadLog]) -> Result<Vec<Entry>, NoMemory>
    ensures { IfOk result (λ steps. steps.items ≡ filter is_print (flat_map (λ log. log.entries) logs.now)) }
{
    let mut found = Vec::new(alloc);
    for log in logs {
        push_prints(log.entries.as_slice(), &mut found)?;
    }
    Ok(found)
}

/// The lines of what was printed, in the order of the stamps. The steps that print nothing are not sorted.
pub fn prints(alloc: Global, kept: &RunRecord) -> Result<String, NoMemory>
    ensures { IfOk result (λ lines. string_bytes lines ≡ report.prints kept.now) }
{
    let mut steps = print_steps(alloc, kept.threads.as_slice())?;
    sort_by_stamp(&mut steps)?;
    Ok(print_lines(alloc, &steps)?)
}
