//! Programs that a seed gives.
ghost use Rattle.std.specs.Prelude.{◌≡◌, IfOk};
ghost use Rattle.command_words.specs.Meaning.{load_meant};
ghost use Rattle.bsan.specs.Answer.{IsLoaded};
ghost use Rattle.bsan.specs.Seen.{FilesSeen};
ghost use Rattle.bsan.specs.Words.{HasSize};
ghost use Rattle.bsan.specs.Words.Origin.{Generated};

use bsan_ids::NoMemory;
use command_words::LoadRun;
use hosts::Hosts;
use ir_rules::Verified;
use ir_verify::{VerifyFault, verify};
use std::alloc::Global;
use workload::{made_is_accepted, made_is_program, make};

/// The verified program that a seed and a size give.
///
/// # Errors
///
/// `NoMemory`: out of memory.
pub(crate) fn generate(alloc: Global, asked: &LoadRun, hosts: &Hosts) -> Result<Verified, NoMemory>
    requires { HasSize (Generated (load_meant asked.now)) }
    ensures { IfOk result (λ verified. (files : FilesSeen) → IsLoaded files hosts.now.table (Generated (load_meant asked.now)) verified) }
{
    made_is_program();
    made_is_accepted();
    let program = make(alloc, asked.seed, asked.size)?;
    match verify(alloc, program, hosts.table()) {
        Ok(verified) => Ok(verified),
        Err(VerifyFault::Refused { .. }) => unreachable!(),
        Err(VerifyFault::NoMemory) => Err(NoMemory),
    }
}
