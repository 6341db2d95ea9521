//! The pass over verified programs.
ghost use Rattle.std.specs.Prelude.{◌≡◌, IfOk};
ghost use Rattle.target_code.specs.Formed.{IsWellFormed};
ghost use Rattle.instrument.specs.Translation.{translation};

use crate::functions::translate;
use bsan_ids::NoMemory;
use ir_rules::Verified;
use std::alloc::Global;
use target_code::Target;

/// The target code of a verified program.
///
/// # Errors
///
/// `NoMemory`: out of memory.
pub fn instrument(alloc: Global, program: &Verified) -> Result<Target, NoMemory>
    ensures translated { IfOk result (λ target. target ≡ translation program.now.hosts.entries program.now.program) }
    ensures formed { IfOk result IsWellFormed }
{
    translate(alloc, program.program(), program.hosts())
}
