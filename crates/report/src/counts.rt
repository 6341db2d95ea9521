//! How many steps and allocations a run made, and on how many allocations there is a violation.
ghost use Rattle.std.specs.Prelude.{◌≡◌, ◌^◌, ◌<◌, count_by};
ghost use Rattle.history.specs.Histories.{is_make_step};
ghost use Rattle.report.specs.Report as report;

use history::{Entry, Request};
use run_record::{AllocLog, ThreadLog};

/// How many steps the threads made. A sum of lengths may pass 64 bits, as far as types say.
pub fn step_count(logs: &[ThreadLog]) -> u128
    ensures { result ≡ report.steps_of logs.now }
{
    let mut steps = 0u128;
    for log in logs {
        steps += log.entries.len() as u128;
    }
    steps
}

fn is_make(entry: &Entry) -> bool
    ensures { result ≡ is_make_step entry.now }
{
    matches!(entry.request, Request::Make { .. })
}

fn makes_in(entries: &[Entry]) -> u64
    ensures { result ≡ count_by is_make_step entries.now }
{
    let mut makes = 0;
    for entry in entries {
        if is_make(entry) {
            makes += 1;
        }
    }
    makes
}

/// How many allocations the threads made.
pub fn make_count(logs: &[ThreadLog]) -> u128
    ensures { result ≡ report.makes_of logs.now }
{
    let mut makes = 0u128;
    for log in logs {
        makes += u128::from(makes_in(log.entries.as_slice()));
    }
    makes
}

/// On how many allocations there is a violation.
pub fn violation_count(logs: &[AllocLog]) -> u64
    ensures { result ≡ report.violations_of logs.now }
{
    let mut violations = 0;
    for log in logs {
        if log.has_violation() {
            violations += 1;
        }
    }
    violations
}
