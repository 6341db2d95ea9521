//! Whether a record is right, and if not, the first of its clauses that is broken.
ghost use Rattle.std.specs.Prelude.{◌≡◌, ◌↔◌, ◌<◌, ◌≤◌, ◌^◌, IfOk, length};
ghost use Rattle.ir_ast.specs.Numbers.{function_place};
ghost use Rattle.source_sem.specs.Starting.{main_of};
ghost use Rattle.record_file.specs.Rest.{RestIs};
ghost use Rattle.source_sem.specs.Records.{IsRightRecord};
ghost use Rattle.record_file.specs.Checked.{IsAnswer};
ghost use Rattle.record_file.specs.declared.clauses.Checked.TheVariants.{Holds};

use crate::by_number::logs_on;
use crate::counters::{Asking, has_counts};
use crate::family::has_threads;
use crate::good_merge::is_good_merge;
use crate::merge::merge;
use crate::reached::has_runs;
use crate::run::stamps_rise;
use crate::same::are_same_logs;
use bsan_ids::{Limits, NoMemory};
use history::RunRecord;
use ir_ast::{Function, HostTable};
use ir_rules::Verified;
use source_machine::SourceMachine;
use std::alloc::Global;

/// A clause of what makes a record right.
#[derive(Clone, Copy, Debug, PartialEq, Eq)]
pub enum Clause {
    /// The threads started each other.
    A,
    /// Each log is a run of its thread as it is written, with its end.
    B,
    /// Stamps rise along each log, and the merge is an interleaving run.
    C,
    /// The allocation logs are the histories.
    D,
    /// The counters are those of the logs.
    F,
}

/// What is found of a record.
#[derive(Clone, Copy, Debug, PartialEq, Eq)]
pub enum Checked {
    Holds,
    /// This is the first clause that is broken.
    Fails(Clause),
}

/// The number of the first function of this name, and the number of functions where there is none.
#[tactic(auto, using(crate::proofs::Places::place_steps))]
fn function_number(functions: &[Function], name: &[u8]) -> u32
    requires { length functions.now ≤ 256 }
    ensures { result ≡ function_place functions.now name.now }
{
    for (at, function) in functions.iter().enumerate() {
        if function.name.name.as_slice() == name {
            return at as u32;
        }
    }
    functions.len() as u32
}

/// The number of `@main`.
fn main_number(program: &Verified) -> u32
    ensures { result ≡ main_of program.now.program }
{
    let functions = program.program().functions.as_slice();
    function_number(functions, b"main")
}

/// Checks the last three clauses, of a record of whose logs so many stand asking for a number.
fn check_rest(
    alloc: Global,
    limits: &Limits,
    hosts: &HostTable,
    kept: &RunRecord,
    asking: Asking,
) -> Result<Checked, NoMemory>
    requires { limits.now.steps < 2 ^ 63 }
    ensures { IfOk result (RestIs limits.now hosts.now kept.now asking) }
{
    let entries = merge(alloc, kept.threads.as_slice())?;
    if !is_good_merge(alloc, limits, hosts, &entries)? {
        return Ok(Checked::Fails(Clause::C));
    }
    let logs = logs_on(alloc, &entries, 1, u64::from(limits.allocs))?;
    if !are_same_logs(kept.allocs.as_slice(), logs.as_slice()) {
        return Ok(Checked::Fails(Clause::D));
    }
    if !has_counts(alloc, kept, &entries, limits, asking)? {
        return Ok(Checked::Fails(Clause::F));
    }
    Ok(Checked::Holds)
}

/// Checks the record of a run of the program, which was verified with this table of host functions. It costs the instructions
/// of the logs, the work of the trees, and the entries times the logarithm of their number.
///
/// # Errors
///
/// `NoMemory`: out of memory.
pub fn check(
    alloc: Global,
    program: &Verified,
    input: &[u8],
    limits: &Limits,
    hosts: &HostTable,
    kept: &RunRecord,
) -> Result<Checked, NoMemory>
    requires table { program.now.hosts ≡ hosts.now }
    requires limits { limits.now.steps < 2 ^ 63 }
    ensures holds { IfOk result (λ found. (found ≡ Holds) ↔ IsRightRecord program.now.program input.now hosts.now limits.now kept.now) }
    ensures clause { IfOk result (IsAnswer program.now.program input.now hosts.now limits.now kept.now) }
{
    let logs = kept.threads.as_slice();
    let main = main_number(program);
    if !has_threads(alloc, main, logs)? {
        return Ok(Checked::Fails(Clause::A));
    }
    let machine = SourceMachine::start(alloc, program, main, &[], input)?;
    let Some(asking) = has_runs(alloc, machine, main, limits, logs)? else {
        return Ok(Checked::Fails(Clause::B));
    };
    if !stamps_rise(logs) {
        return Ok(Checked::Fails(Clause::C));
    }
    check_rest(alloc, limits, hosts, kept, asking)
}
