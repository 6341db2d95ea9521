//! The verifier.
ghost use Rattle.std.specs.Prelude.{◌≡◌, ◌<◌, ◌^◌, IfOk, IfErr, OnOk, length};
ghost use Rattle.ir_ast.specs.Programs.{IsProgram};
ghost use Rattle.ir_rules.specs.Least.{IsLeast};
ghost use Rattle.ir_rules.specs.Rules.{BrokenFault, IsAccepted};
ghost use Rattle.ir_verify.specs.Refusals.{IsRefusal};

use crate::programs::program_fault;
use crate::refusal::VerifyFault;
use bsan_ids::{Copied, NoMemory};
use ir_assigned::unassigned;
use ir_ast::{HostTable, Program};
use ir_rules::{Fault, Verified, lesser_fault};
use std::alloc::Global;

fn accept(program: Program, hosts: &HostTable) -> Result<Verified, NoMemory>
    requires program { IsProgram program }
    requires few_hosts { length hosts.now.entries < 2 ^ 32 }
    requires accepted { IsAccepted program hosts.now }
    ensures { IfOk result (λ v. (v.program ≡ program) × (v.hosts ≡ hosts.now)) }
{
    let hosts = hosts.copy()?;
    Ok(Verified::new(program, hosts))
}

/// The broken rule that is reported, if one is broken.
fn first_fault(
    alloc: Global,
    program: &Program,
    hosts: &HostTable,
) -> Result<Option<Fault>, NoMemory>
    ensures { IfOk result (λ o. IsLeast (BrokenFault program.now hosts.now) o) }
{
    let of_parts = program_fault(alloc, program, hosts)?;
    let of_paths = unassigned(alloc, program)?;
    Ok(lesser_fault(of_parts, of_paths))
}

/// Verifies a program for a table of host functions. The program is dropped on an error.
///
/// # Errors
///
/// `Refused` exactly where a rule is broken somewhere: the broken rule of the least place, and at one place
/// the first in the order of the rules. `NoMemory`: out of memory.
pub fn verify(alloc: Global, program: Program, hosts: &HostTable) -> Result<Verified, VerifyFault>
    requires program { IsProgram program }
    requires few_hosts { length hosts.now.entries < 2 ^ 32 }
    ensures ok { IfOk result (λ v. (v.program ≡ program) × (v.hosts ≡ hosts.now)) }
    ensures accepted { OnOk result (IsAccepted program hosts.now) }
    ensures refused { IfErr result (λ e. IsRefusal program hosts.now e) }
{
    let found = first_fault(alloc, &program, hosts)?;
    match found {
        Some(fault) => Err(VerifyFault::Refused {
            rule: fault.rule,
            at: fault.at,
        }),
        None => Ok(accept(program, hosts)?),
    }
}
