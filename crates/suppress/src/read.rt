//! A rules file.
ghost use Rattle.std.specs.Prelude.{◌≡◌, ◌≤◌, length, IfOk, IfErr};
ghost use Rattle.suppress.specs.Files.{AreRules, IsFault, lines_of};

use crate::line::{Reading, read_line};
use crate::rules::Rules;
use bsan_ids::{ListOf, NoMemory};
use ir_rules::Verified;
use std::alloc::Global;

/// Why a rules file is refused. Lines are counted from 1.
#[derive(Clone, Copy, Debug, PartialEq, Eq)]
pub enum RulesFault {
    /// This line, the first that is refused, has none of the forms.
    BadLine { line: u32 },
    /// This line, the first that is refused, is a rule that names a function which is not there.
    NoFunction { line: u32 },
    /// Out of memory.
    NoMemory,
}

impl From<NoMemory> for RulesFault {
    ghost use Rattle.suppress.specs.declared.read.RulesFault.TheVariants.{NoMemory};

    ghost from_gives = { λ _ fault. fault ≡ NoMemory };

    fn from(_: NoMemory) -> RulesFault {
        RulesFault::NoMemory
    }
}

/// The rules of a file of at most 1,048,576 bytes, for a program.
///
/// A line is empty, a comment, which begins with `;`, or one of `hold CAUSE`, `hold CAUSE at N` and
/// `hold CAUSE in @NAME`. CAUSE is `any`, `denied`, `strongfree`, `stranger`, `freed` or `outofrange`, N the number of an
/// instruction, of one to five digits and at most 65,535, and NAME that of a function of the program. Lines end with a
/// newline byte, the last one also with the file.
///
/// # Errors
///
/// - `BadLine`: exactly where the first line that is refused has none of the forms.
/// - `NoFunction`: exactly where the first line that is refused names a function which is not there.
/// - `NoMemory`: out of memory.
pub fn read_rules(alloc: Global, bytes: &[u8], program: &Verified) -> Result<Rules, RulesFault>
    requires { length bytes.now ≤ 1048576 }
    ensures rules { IfOk result (λ rules. AreRules program.now.program.functions (lines_of bytes.now) rules.list) }
    ensures refused { IfErr result (λ fault. IsFault program.now.program.functions (lines_of bytes.now) fault) }
{
    let functions = program.program().functions.as_slice();
    let mut list = ListOf::new(alloc);
    let mut number = 0u32;
    for line in bytes.split(|byte| *byte == b'\n') {
        number += 1;
        match read_line(functions, line) {
            Reading::Blank => {}
            Reading::Rule(rule) => list.push(rule)?,
            Reading::NoFunction => return Err(RulesFault::NoFunction { line: number }),
            Reading::Bad => return Err(RulesFault::BadLine { line: number }),
        }
    }
    Ok(Rules { list })
}
