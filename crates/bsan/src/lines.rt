//! How refusals, faults, acceptance and right records are told.
ghost use Rattle.std.specs.Prelude.{◌≡◌, IfOk};
ghost use Rattle.report.specs.Report.{IsReportable};
ghost use Rattle.bsan.specs.Lines as lines;

use crate::outcome::{LineFault, Role};
use bsan_ids::NoMemory;
use ir_reader::ReadFault;
use ir_rules::Rule;
use record_file::Clause;
use report::part;
use run_record::RunRecord;
use std::alloc::Global;

/// How the program is used.
pub(crate) const USAGE: &str =
    "usage: bsan check FILE | instrument FILE | solo FILE | replay FILE SCHEDULE | run FILE | load SEED SIZE | races FILE SCHEDULE | record FILE | recheck FILE RECORD | hush FILE RULES | explain FILE SCHEDULE\n\
options of solo, replay, run, races, record, recheck, hush and explain: --input FILE --steps N --turns N --allocs N\n";

/// A file's role in a word.
fn role_name(role: Role) -> &'static str
    ensures { result.now ≡ lines.role_text role }
{
    match role {
        Role::Program => "program",
        Role::Rules => "rules",
        Role::Input => "input",
        Role::Record => "record",
    }
}

/// The line of a file of which a read failed: `read fault: ROLE`.
///
/// # Errors
///
/// `NoMemory`: out of memory.
pub(crate) fn file_fault_line(alloc: Global, role: Role) -> Result<Vec<u8>, NoMemory>
    ensures { IfOk result (λ line. line.items ≡ lines.file_fault_line role) }
{
    let name = role_name(role);
    let line = format!(in alloc; "read fault: {name}\n")?;
    Ok(Vec::from_slice(alloc, line.as_bytes())?)
}

/// The line of a file that is longer than the limit: `too long: ROLE`.
///
/// # Errors
///
/// `NoMemory`: out of memory.
pub(crate) fn too_long_line(alloc: Global, role: Role) -> Result<Vec<u8>, NoMemory>
    ensures { IfOk result (λ line. line.items ≡ lines.too_long_line role) }
{
    let name = role_name(role);
    let line = format!(in alloc; "too long: {name}\n")?;
    Ok(Vec::from_slice(alloc, line.as_bytes())?)
}

/// The line of a refusal: `not read: FAULT at PLACE`.
///
/// # Errors
///
/// `NoMemory`: out of memory.
pub(crate) fn fault_line(alloc: Global, fault: ReadFault) -> Result<Vec<u8>, NoMemory>
    ensures { IfOk result (λ line. line.items ≡ lines.fault_line fault) }
{
    let line = format!(in alloc; "not read: {fault}\n")?;
    Ok(Vec::from_slice(alloc, line.as_bytes())?)
}

/// The line of a broken rule: `not verified: RULE at PLACE`.
///
/// # Errors
///
/// `NoMemory`: out of memory.
pub(crate) fn rule_line(alloc: Global, rule: Rule, at: u32) -> Result<Vec<u8>, NoMemory>
    ensures { IfOk result (λ line. line.items ≡ lines.rule_line rule at) }
{
    let line = format!(in alloc; "not verified: {rule} at {at}\n")?;
    Ok(Vec::from_slice(alloc, line.as_bytes())?)
}

/// Why a line is refused, in a word.
fn line_fault_name(fault: LineFault) -> &'static str
    ensures { result.now ≡ lines.line_fault_text fault }
{
    match fault {
        LineFault::BadLine => "BadLine",
        LineFault::NoFunction => "NoFunction",
    }
}

/// The line of rules that are refused: `rules refused: FAULT at line LINE`.
///
/// # Errors
///
/// `NoMemory`: out of memory.
pub(crate) fn rules_line(alloc: Global, fault: LineFault, line: u32) -> Result<Vec<u8>, NoMemory>
    ensures { IfOk result (λ text. text.items ≡ lines.rules_line fault line) }
{
    let name = line_fault_name(fault);
    let text = format!(in alloc; "rules refused: {name} at line {line}\n")?;
    Ok(Vec::from_slice(alloc, text.as_bytes())?)
}

/// The line of a text that is no record's: `record refused: line LINE`.
///
/// # Errors
///
/// `NoMemory`: out of memory.
pub(crate) fn record_line(alloc: Global, line: u64) -> Result<Vec<u8>, NoMemory>
    ensures { IfOk result (λ text. text.items ≡ lines.record_line line) }
{
    let text = format!(in alloc; "record refused: line {line}\n")?;
    Ok(Vec::from_slice(alloc, text.as_bytes())?)
}

/// The letter of a clause.
fn clause_name(clause: Clause) -> &'static str
    ensures { result.now ≡ lines.clause_text clause }
{
    match clause {
        Clause::A => "a",
        Clause::B => "b",
        Clause::C => "c",
        Clause::D => "d",
        Clause::F => "f",
    }
}

/// The line of a record of which a clause is broken: `record refused: clause CLAUSE`.
///
/// # Errors
///
/// `NoMemory`: out of memory.
pub(crate) fn clause_line(alloc: Global, clause: Clause) -> Result<Vec<u8>, NoMemory>
    ensures { IfOk result (λ text. text.items ≡ lines.clause_line clause) }
{
    let name = clause_name(clause);
    let text = format!(in alloc; "record refused: clause {name}\n")?;
    Ok(Vec::from_slice(alloc, text.as_bytes())?)
}

/// The line of a right record: `record holds: steps N, threads T`.
///
/// # Errors
///
/// `NoMemory`: out of memory.
pub(crate) fn holds_line(alloc: Global, steps: u128, threads: usize) -> Result<Vec<u8>, NoMemory>
    ensures { IfOk result (λ text. text.items ≡ lines.holds_line steps threads) }
{
    let text = format!(in alloc; "record holds: steps {steps}, threads {threads}\n")?;
    Ok(Vec::from_slice(alloc, text.as_bytes())?)
}

/// The two lines of a run of a generated program: `load SEED SIZE: ` with the summary of its report, and its status.
///
/// # Errors
///
/// `NoMemory`: out of memory.
pub(crate) fn load_text(
    alloc: Global,
    seed: u32,
    size: u32,
    kept: &RunRecord,
) -> Result<Vec<u8>, NoMemory>
    requires { IsReportable kept.now }
    ensures { IfOk result (λ text. text.items ≡ lines.load_text seed size kept.now) }
{
    let start = format!(in alloc; "load {seed} {size}: ")?;
    let mut text = Vec::from_slice(alloc, start.as_bytes())?;
    text.extend_from_slice(&part(alloc, kept, 4)?)?;
    text.extend_from_slice(&part(alloc, kept, 5)?)?;
    Ok(text)
}

/// The line of an accepted program: `accepted: F functions, I instructions`.
///
/// # Errors
///
/// `NoMemory`: out of memory.
pub(crate) fn accepted_line(
    alloc: Global,
    functions: u32,
    instructions: u32,
) -> Result<Vec<u8>, NoMemory>
    ensures { IfOk result (λ line. line.items ≡ lines.accepted_line functions instructions) }
{
    let line = format!(in alloc; "accepted: {functions} functions, {instructions} instructions\n")?;
    Ok(Vec::from_slice(alloc, line.as_bytes())?)
}
