//! The files of a call: the program's, which is read and verified, and the input's.
ghost use Rattle.std.specs.Prelude.{◌≡◌, ◌≢◌, ◌≤◌, ℕ, List, [], MatchResult, IfOk, OnOk, OnErr, IsErrOf};
ghost use Rattle.std.specs.Option.{option_map, IsSomeAnd};
ghost use Rattle.ir_text.specs.Bytes.{most_bytes};
ghost use Rattle.bsan.specs.Answer.{IsBrokenRule, IsUnreadFile, IsParsed, IsNoProgram, IsLoaded, IsUnloaded};
ghost use Rattle.bsan.specs.Seen.{seen_by, Failed, WasTooLong, WasRead};
ghost use Rattle.bsan.specs.Runs.{IsInput};
ghost use Rattle.bsan.specs.Words.Origin.{InFile};

use crate::outcome::{Outcome, Role};
use bsan_ids::NoMemory;
use hosts::Hosts;
use ir_reader::{ReadFault, read};
use ir_rules::Verified;
use ir_verify::{VerifyFault, verify};
use outside_io::{FileFault, Files};
use std::alloc::Global;

/// The most bytes of a program's text, and of an input.
const FILE_LIMIT: u64 = 1_048_576;

/// Reads a file, which is to have at most 1,048,576 bytes.
pub(crate) fn read_file<S: Files>(
    files: &mut S,
    name: &str,
    bytes: &mut Vec<u8>,
) -> Result<(), FileFault>
    ensures read { OnOk result (WasRead
        (seen_by S.content S.faults S.overlong files.old files.new)
        name.now most_bytes bytes.new.items) }
    ensures failed { IsErrOf result FileFault.Failed → Failed
        (seen_by S.content S.faults S.overlong files.old files.new)
        name.now }
    ensures too_long { IsErrOf result FileFault.TooLong → WasTooLong
        (seen_by S.content S.faults S.overlong files.old files.new)
        name.now most_bytes }
    ensures content { (other : List ℕ) → S.content files.new other ≡ S.content files.old other }
    ensures faults { (other : List ℕ) → S.faults files.old other ≤ S.faults files.new other }
    ensures overlong { (other : List ℕ) (most : ℕ) → S.overlong files.old other most ≤ S.overlong files.new other most }
{
    files.read_file(name, FILE_LIMIT, bytes)
}

/// Reads the input of a run, which is empty where no file is named.
pub(crate) fn read_input<S: Files>(
    files: &mut S,
    name: Option<&str>,
    input: &mut Vec<u8>,
) -> Result<(), FileFault>
    requires { input.old.items ≡ [] }
    ensures read { OnOk result (IsInput
        (seen_by S.content S.faults S.overlong files.old files.new)
        (option_map (λ name. name.now) name.entry) input.new.items) }
    ensures failed { IsErrOf result FileFault.Failed → IsSomeAnd (option_map (λ name. name.now) name.entry) (λ file. Failed
        (seen_by S.content S.faults S.overlong files.old files.new)
        file) }
    ensures too_long { IsErrOf result FileFault.TooLong → IsSomeAnd (option_map (λ name. name.now) name.entry) (λ file. WasTooLong
        (seen_by S.content S.faults S.overlong files.old files.new)
        file most_bytes) }
    ensures content { (other : List ℕ) → S.content files.new other ≡ S.content files.old other }
    ensures faults { (other : List ℕ) → S.faults files.old other ≤ S.faults files.new other }
    ensures overlong { (other : List ℕ) (most : ℕ) → S.overlong files.old other most ≤ S.overlong files.new other most }
{
    match name {
        Some(name) => read_file(files, name, input),
        None => Ok(()),
    }
}

/// What is found where a file of this role is not read.
pub(crate) fn unread_file(role: Role, fault: FileFault) -> Result<Outcome, NoMemory>
    ensures found { IfOk result (IsUnreadFile role fault) }
    ensures memory { OnErr result (fault ≡ FileFault.NoMemory) }
{
    match fault {
        FileFault::Failed => Ok(Outcome::FileFault { role }),
        FileFault::TooLong => Ok(Outcome::TooLong { role }),
        FileFault::NoMemory => Err(NoMemory),
    }
}

/// What is found where the input is not read.
pub(crate) fn unread_input(fault: FileFault) -> Result<Outcome, NoMemory>
    ensures found { IfOk result (IsUnreadFile Role.Input fault) }
    ensures memory { OnErr result (fault ≡ FileFault.NoMemory) }
{
    unread_file(Role::Input, fault)
}

/// What is found where the program is not verified.
fn unverified(fault: VerifyFault) -> Result<Outcome, NoMemory>
    ensures found { IfOk result (IsBrokenRule fault) }
    ensures memory { OnErr result (fault ≡ VerifyFault.NoMemory) }
{
    match fault {
        VerifyFault::Refused { rule, at } => Ok(Outcome::NotVerified { rule, at }),
        VerifyFault::NoMemory => Err(NoMemory),
    }
}

/// What is found where the text is not read.
fn unread(fault: ReadFault) -> Result<Outcome, NoMemory>
    ensures found { IfOk result (λ found. found ≡ Outcome.NotRead fault) }
    ensures refused { OnOk result (fault ≢ ReadFault.NoMemory) }
    ensures memory { OnErr result (fault ≡ ReadFault.NoMemory) }
{
    match fault {
        ReadFault::NoMemory => Err(NoMemory),
        _ => Ok(Outcome::NotRead { fault }),
    }
}

/// The verified program of a text; or what is found where there is none.
///
/// # Errors
///
/// `NoMemory`: out of memory.
fn parse(alloc: Global, text: &[u8], hosts: &Hosts) -> Result<Result<Verified, Outcome>, NoMemory>
    ensures { IfOk result (λ parsed. MatchResult parsed (IsParsed hosts.now.table text.now) (IsNoProgram hosts.now.table text.now)) }
{
    let program = match read(alloc, text) {
        Ok(program) => program,
        Err(fault) => return Ok(Err(unread(fault)?)),
    };
    match verify(alloc, program, hosts.table()) {
        Ok(verified) => Ok(Ok(verified)),
        Err(fault) => Ok(Err(unverified(fault)?)),
    }
}

/// Reads the program of a file and verifies it; or says what is found where there is none.
///
/// # Errors
///
/// `NoMemory`: out of memory.
pub(crate) fn load<S: Files>(
    alloc: Global,
    file: &str,
    files: &mut S,
    hosts: &Hosts,
) -> Result<Result<Verified, Outcome>, NoMemory>
    ensures loaded { IfOk result (λ loaded. MatchResult loaded
        (IsLoaded
        (seen_by S.content S.faults S.overlong files.old files.new)
        hosts.now.table (InFile file.now))
        (IsUnloaded
        (seen_by S.content S.faults S.overlong files.old files.new)
        hosts.now.table (InFile file.now))) }
    ensures content { (other : List ℕ) → S.content files.new other ≡ S.content files.old other }
    ensures faults { (other : List ℕ) → S.faults files.old other ≤ S.faults files.new other }
    ensures overlong { (other : List ℕ) (most : ℕ) → S.overlong files.old other most ≤ S.overlong files.new other most }
{
    let mut text = Vec::new(alloc);
    match read_file(files, file, &mut text) {
        Ok(()) => parse(alloc, text.as_slice(), hosts),
        Err(fault) => Ok(Err(unread_file(Role::Program, fault)?)),
    }
}
