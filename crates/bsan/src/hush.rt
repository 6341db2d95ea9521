//! The command `hush`: a run on native threads, told of without the reports that rules hold back.
ghost use Rattle.std.specs.Prelude.{◌≡◌, ◌≤◌, ℕ, List, MatchResult, IfOk, length};
ghost use Rattle.command_words.specs.Jobs as jobs;
ghost use Rattle.command_words.specs.Meaning.{held_meant};
ghost use Rattle.core_model.specs.Running.{AreLimits};
ghost use Rattle.history.specs.Records.{empty_record};
ghost use Rattle.ir_text.specs.Bytes.{most_bytes};
ghost use Rattle.report.specs.Report.{IsReportable};
ghost use Rattle.suppress.specs.Held as held;
ghost use Rattle.bsan.specs.Answer.{FindsIn};
ghost use Rattle.bsan.specs.Rules.{AreRulesIn, AreNoRules, AreUnloaded, OfRead};
ghost use Rattle.bsan.specs.Seen.{seen_by};

use crate::load::{read_file, unread_file, unread_input};
use crate::native::Native;
use crate::outcome::{LineFault, Outcome, Role};
use bsan_ids::{Copied, NoMemory};
use command_words::HeldRun;
use ir_rules::Verified;
use outside_io::{Files, Gate};
use run_record::RunRecord;
use std::alloc::Global;
use std::sync::Wait;
use std::thread::Threads;
use suppress::{Case, Hold, Rules, RulesFault, held_status, held_text, holds, read_rules};

/// The report of a run without the reports that the rules hold back.
///
/// # Errors
///
/// `NoMemory`: out of memory.
pub(crate) fn hushed_text(
    alloc: Global,
    rules: &Rules,
    kept: &RunRecord,
) -> Result<Vec<u8>, NoMemory>
    requires { IsReportable kept.now }
    ensures { IfOk result (λ text. text.items ≡ held.held_text rules.now kept.now) }
{
    let copy = rules.copy()?;
    let holder = Box::new(alloc, move |case: Case| holds(&copy, case))?;
    held_text(alloc, kept, &Hold::new(rules.copy()?, holder))
}

/// Its status.
///
/// # Errors
///
/// `NoMemory`: out of memory.
pub(crate) fn hushed_status(alloc: Global, rules: &Rules, kept: &RunRecord) -> Result<u8, NoMemory>
    ensures { IfOk result (λ status. status ≡ held.held_status rules.now kept.now) }
{
    let copy = rules.copy()?;
    let holder = Box::new(alloc, move |case: Case| holds(&copy, case))?;
    Ok(held_status(kept, &Hold::new(rules.copy()?, holder)))
}

/// The rules of a text, for a verified program; or what is found where a line is refused.
fn parse_rules(
    alloc: Global,
    text: &[u8],
    verified: &Verified,
) -> Result<Result<Rules, Outcome>, NoMemory>
    requires { length text.now ≤ most_bytes }
    ensures { IfOk result (λ parsed. MatchResult parsed (AreRulesIn verified.now.program text.now) (AreNoRules verified.now.program text.now)) }
{
    let (fault, line) = match read_rules(alloc, text, verified) {
        Ok(rules) => return Ok(Ok(rules)),
        Err(RulesFault::BadLine { line }) => (LineFault::BadLine, line),
        Err(RulesFault::NoFunction { line }) => (LineFault::NoFunction, line),
        Err(RulesFault::NoMemory) => return Err(NoMemory),
    };
    Ok(Err(Outcome::RulesRefused { fault, line }))
}

/// Reads the rules of a file, for a verified program; or says what is found where there are none.
fn load_rules<S: Files>(
    alloc: Global,
    file: &str,
    verified: &Verified,
    files: &mut S,
) -> Result<Result<Rules, Outcome>, NoMemory>
    ensures loaded { IfOk result (λ loaded. MatchResult loaded
        (λ rules. OfRead
        (seen_by S.content S.faults S.overlong files.old files.new)
        file.now (λ text. AreRulesIn verified.now.program text rules))
        (AreUnloaded
        (seen_by S.content S.faults S.overlong files.old files.new)
        verified.now.program file.now)) }
    ensures content { (other : List ℕ) → S.content files.new other ≡ S.content files.old other }
    ensures faults { (other : List ℕ) → S.faults files.old other ≤ S.faults files.new other }
    ensures overlong { (other : List ℕ) (most : ℕ) → S.overlong files.old other most ≤ S.overlong files.new other most }
{
    let mut text = Vec::new(alloc);
    match read_file(files, file, &mut text) {
        Ok(()) => parse_rules(alloc, text.as_slice(), verified),
        Err(fault) => Ok(Err(unread_file(Role::Rules, fault)?)),
    }
}

impl<'a, R: Threads + Wait + Sync, G: Gate + Sync> Native<'a, R, G> {
    /// Reads the rules and the input of a run, and makes it.
    pub(crate) fn serve_hush<S: Files>(
        &self,
        asked: &HeldRun<'_>,
        verified: &Verified,
        files: &mut S,
        kept: &mut RunRecord,
    ) -> Result<Outcome, NoMemory>
        requires hosts { verified.now.hosts ≡ self.now.hosts.now.table }
        requires limits { AreLimits asked.now.settings.limits }
        requires empty { kept.old ≡ empty_record }
        ensures { MatchResult result (λ found. FindsIn
            (seen_by S.content S.faults S.overlong files.old files.new)
            self.now.hosts.now.table kept.new found (jobs.Hush (held_meant asked.now)) verified.now.program)
            (λ _. kept.new ≡ empty_record) }
    {
        let rules = match load_rules(self.alloc, asked.rules, verified, files)? {
            Ok(rules) => rules,
            Err(found) => return Ok(found),
        };
        match self.run_with(&asked.settings, verified, files, kept) {
            Ok(()) => Ok(Outcome::Hushed { rules }),
            Err(fault) => unread_input(fault),
        }
    }
}
