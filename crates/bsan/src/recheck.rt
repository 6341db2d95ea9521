//! The command `recheck`: whether a record is right for a program.
ghost use Rattle.std.specs.Prelude.{◌≡◌, IfOk, OnOk, IsErrOf};
ghost use Rattle.command_words.specs.Jobs as jobs;
ghost use Rattle.command_words.specs.Meaning.{recheck_meant};
ghost use Rattle.core_model.specs.Running.{AreLimits};
ghost use Rattle.history.specs.Records.{empty_record};
ghost use Rattle.bsan.specs.Answer.{FindsIn};
ghost use Rattle.bsan.specs.Rechecks.{most_record_bytes, IsFoundOf};
ghost use Rattle.bsan.specs.Seen.{seen_by, Failed, WasTooLong, WasRead};

use crate::load::{read_input, unread_file, unread_input};
use crate::outcome::{Outcome, Role};
use bsan_ids::{Limits, NoMemory};
use command_words::RecordCheck;
use hosts::Hosts;
use ir_rules::Verified;
use outside_io::{FileFault, Files};
use record_file::{Checked, check};
use record_text::{RecordFault, read_record};
use report::step_count;
use std::alloc::Global;

/// The most bytes of a record's text.
const RECORD_LIMIT: u64 = 67_108_864;

/// Reads a file with a record, which is to have at most 67,108,864 bytes.
fn read_record_file<S: Files>(
    files: &mut S,
    name: &str,
    bytes: &mut Vec<u8>,
) -> Result<(), FileFault>
    ensures read { OnOk result (WasRead
        (seen_by S.content S.faults S.overlong files.old files.new)
        name.now most_record_bytes bytes.new.items) }
    ensures failed { IsErrOf result FileFault.Failed → Failed
        (seen_by S.content S.faults S.overlong files.old files.new)
        name.now }
    ensures too_long { IsErrOf result FileFault.TooLong → WasTooLong
        (seen_by S.content S.faults S.overlong files.old files.new)
        name.now most_record_bytes }
{
    files.read_file(name, RECORD_LIMIT, bytes)
}

/// What is found of a text as that of a record of a run of the program with this input and within these limits.
///
/// # Errors
///
/// `NoMemory`: out of memory.
fn check_text(
    alloc: Global,
    text: &[u8],
    verified: &Verified,
    input: &[u8],
    limits: &Limits,
    hosts: &Hosts,
) -> Result<Outcome, NoMemory>
    requires hosts { verified.now.hosts ≡ hosts.now.table }
    requires limits { AreLimits limits.now }
    ensures { IfOk result (IsFoundOf verified.now.program input.now hosts.now.table limits.now text.now) }
{
    let kept = match read_record(alloc, text, limits.allocs) {
        Ok(kept) => kept,
        Err(RecordFault::NotRecord { line }) => return Ok(Outcome::NotRecord { line }),
        Err(RecordFault::NoMemory) => return Err(NoMemory),
    };
    match check(alloc, verified, input, limits, hosts.table(), &kept)? {
        Checked::Holds => Ok(Outcome::RecordHolds {
            steps: step_count(kept.threads.as_slice()),
            threads: kept.threads.len(),
        }),
        Checked::Fails(clause) => Ok(Outcome::RecordBroken { clause }),
    }
}

/// Reads the input and the record of a check, and makes it. No record is kept.
///
/// # Errors
///
/// `NoMemory`: out of memory.
pub(crate) fn serve_recheck<S: Files>(
    alloc: Global,
    asked: &RecordCheck<'_>,
    verified: &Verified,
    files: &mut S,
    hosts: &Hosts,
) -> Result<Outcome, NoMemory>
    requires hosts { verified.now.hosts ≡ hosts.now.table }
    requires limits { AreLimits asked.now.settings.limits }
    ensures { IfOk result (λ found. FindsIn
        (seen_by S.content S.faults S.overlong files.old files.new)
        hosts.now.table empty_record found (jobs.Recheck (recheck_meant asked.now)) verified.now.program) }
{
    let settings = &asked.settings;
    let mut input = Vec::new(alloc);
    match read_input(files, settings.input, &mut input) {
        Ok(()) => {}
        Err(fault) => return unread_input(fault),
    }
    let mut text = Vec::new(alloc);
    match read_record_file(files, asked.record, &mut text) {
        Ok(()) => check_text(
            alloc,
            text.as_slice(),
            verified,
            input.as_slice(),
            &settings.limits,
            hosts,
        ),
        Err(fault) => unread_file(Role::Record, fault),
    }
}
