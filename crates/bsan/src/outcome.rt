//! What the work of a call can find, and the status and the text of each.
ghost use Rattle.std.specs.Prelude.{◌≡◌, IfOk};
ghost use Rattle.bsan.specs.Answer as answer;

use crate::hush::{hushed_status, hushed_text};
use crate::lines::{
    USAGE, accepted_line, clause_line, fault_line, file_fault_line, holds_line, load_text,
    record_line, rule_line, rules_line, too_long_line,
};
use bsan_ids::{ListOf, NoMemory};
use explain::{Explained, explain_text};
use ir_reader::ReadFault;
use ir_rules::Rule;
use race_check::{Race, race_status, race_text};
use record_file::Clause;
use record_text::write_record;
use report::{status_of, text_of};
use run_record::RunRecord;
use std::alloc::Global;
use suppress::Rules;
use target_code::{Target, text};

/// What a file that the words name is for.
#[derive(Clone, Copy, Debug, PartialEq, Eq)]
pub enum Role {
    Program,
    Rules,
    Input,
    Record,
}

/// Why a line of a file with rules is refused.
#[derive(Clone, Copy, Debug, PartialEq, Eq)]
pub enum LineFault {
    /// It has none of the forms.
    BadLine,
    /// It is a rule that names a function which is not there.
    NoFunction,
}

/// What the work of a call found.
#[derive(Drop)]
pub enum Outcome {
    /// The words ask for nothing.
    Usage,
    /// A read of a file failed.
    FileFault { role: Role },
    /// A file is longer than the limit.
    TooLong { role: Role },
    /// The text is no program's.
    NotRead { fault: ReadFault },
    /// A rule is broken in the program.
    NotVerified { rule: Rule, at: u32 },
    /// A line of the rules is refused, the first one.
    RulesRefused { fault: LineFault, line: u32 },
    /// The text is no record's. This is its first wrong line.
    NotRecord { line: u64 },
    /// The text is a record's of which a clause is broken. This is the first one.
    RecordBroken { clause: Clause },
    /// The program is accepted, and no run was asked for.
    Accepted { functions: u32, instructions: u32 },
    /// The program is accepted, and its target code was made.
    Instrumented { target: Target },
    /// The text is a right record's, which has so many steps and threads.
    RecordHolds { steps: u128, threads: usize },
    /// The program was run, and its record kept.
    Ran,
    /// The program that the seed and the size give was run, and its record kept.
    Loaded { seed: u32, size: u32 },
    /// The program was run, and its record kept, which is to be written.
    Recorded,
    /// The program was run, its record kept, and these rules hold back reports of it.
    Hushed { rules: Rules },
    /// The program was run, its record kept, and the data races of the run found.
    Raced { races: ListOf<Race> },
    /// The program was run, its record kept, and the steps found that led to each first violation.
    Traced { violations: ListOf<Explained> },
}

/// The status of what was found. After a run it is that of the record, of what rules do not hold back of it, or of its
/// races.
///
/// # Errors
///
/// `NoMemory`: out of memory.
pub fn status_for(alloc: Global, found: &Outcome, kept: &RunRecord) -> Result<u8, NoMemory>
    ensures { IfOk result (λ status. status ≡ answer.status_for found.now kept.now) }
{
    match found {
        Outcome::Usage => Ok(2),
        Outcome::FileFault { .. } | Outcome::TooLong { .. } => Ok(7),
        Outcome::NotRead { .. } => Ok(3),
        Outcome::NotVerified { .. } => Ok(4),
        Outcome::RulesRefused { .. } => Ok(12),
        Outcome::NotRecord { .. } | Outcome::RecordBroken { .. } => Ok(11),
        Outcome::Accepted { .. } | Outcome::Instrumented { .. } => Ok(0),
        Outcome::RecordHolds { .. } => Ok(0),
        Outcome::Ran | Outcome::Loaded { .. } | Outcome::Recorded | Outcome::Traced { .. } => {
            Ok(status_of(kept))
        }
        Outcome::Hushed { rules } => hushed_status(alloc, rules, kept),
        Outcome::Raced { races } => Ok(race_status(kept, races.as_slice())),
    }
}

/// The text of what was found: a line or two, the target code, the report of the record or the end of that, the record
/// itself, the report without what rules hold back of it, the lines of its races, or those on what led to its violations.
///
/// # Errors
///
/// `NoMemory`: out of memory.
pub fn text_for(alloc: Global, found: &Outcome, kept: &RunRecord) -> Result<Vec<u8>, NoMemory>
    requires { answer.CanBeTold found.now kept.now }
    ensures { IfOk result (λ text. text.items ≡ answer.text_for found.now kept.now) }
{
    match found {
        Outcome::Usage => Ok(Vec::from_slice(alloc, USAGE.as_bytes())?),
        Outcome::FileFault { role } => file_fault_line(alloc, *role),
        Outcome::TooLong { role } => too_long_line(alloc, *role),
        Outcome::NotRead { fault } => fault_line(alloc, *fault),
        Outcome::NotVerified { rule, at } => rule_line(alloc, *rule, *at),
        Outcome::RulesRefused { fault, line } => rules_line(alloc, *fault, *line),
        Outcome::NotRecord { line } => record_line(alloc, *line),
        Outcome::RecordBroken { clause } => clause_line(alloc, *clause),
        Outcome::Accepted {
            functions,
            instructions,
        } => accepted_line(alloc, *functions, *instructions),
        Outcome::Instrumented { target } => text(alloc, target),
        Outcome::RecordHolds { steps, threads } => holds_line(alloc, *steps, *threads),
        Outcome::Ran => text_of(alloc, kept),
        Outcome::Loaded { seed, size } => load_text(alloc, *seed, *size, kept),
        Outcome::Recorded => write_record(alloc, kept),
        Outcome::Hushed { rules } => hushed_text(alloc, rules, kept),
        Outcome::Raced { races } => race_text(alloc, kept, races.as_slice()),
        Outcome::Traced { violations } => explain_text(alloc, kept, violations.as_slice()),
    }
}
