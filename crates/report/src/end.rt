//! The line of a thread's end.
ghost use Rattle.std.specs.Prelude.{◌≡◌, IfOk, string_bytes};
ghost use Rattle.report.specs.End.{end_text};
ghost use Rattle.report.specs.End as ends;

use crate::words::trap_name;
use run_record::{End, ThreadLog};
use std::alloc::{AllocError, Global};

fn end_words(alloc: Global, last: u32, end: End) -> Result<String, AllocError>
    ensures { IfOk result (λ text. string_bytes text ≡ end_text last end) }
{
    match end {
        End::Returned { value, .. } => format!(in alloc; " returned {value}"),
        End::Trapped(trap) => {
            let name = trap_name(trap);
            format!(in alloc; " trapped: {name} at instruction {last}")
        }
        End::StepLimit(stamp) => {
            let number = stamp.0;
            format!(in alloc; " reached the step limit with stamp {number}")
        }
        End::TurnLimit => format!(in alloc; " reached the turn limit"),
        End::NoMemory => format!(in alloc; " found no memory"),
        End::ChildEnded(child) => {
            let number = child.0;
            format!(in alloc; " ended with thread {number}")
        }
    }
}

/// The line of a thread's end, with its newline.
pub fn end_line(alloc: Global, log: &ThreadLog) -> Result<String, AllocError>
    ensures { IfOk result (λ line. string_bytes line ≡ ends.end_line log.now) }
{
    let thread = log.number.0;
    let end = end_words(alloc, log.last, log.end)?;
    format!(in alloc; "thread {thread}{end}\n")
}
