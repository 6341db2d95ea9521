//! Uses of registers that some path of blocks reaches before the register is assigned.
#![tactic(auto)]

ghost use Rattle.std.specs.Prelude.{IfOk};
ghost use Rattle.ir_rules.specs.Least.{IsLeast};
ghost use Rattle.ir_rules.specs.Rules.{UnassignedFault};

mod function;
mod graph;
mod mentions;
mod search;

use bsan_ids::NoMemory;
use function::function_fault;
use ir_ast::Program;
use ir_rules::{Fault, lesser_fault};
use std::alloc::Global;

/// The first use in the program that the rule `Unassigned` refuses: some path of blocks from its
/// function's first block leads to it, and neither a parameter of the function nor anything on the
/// path before the use defines the register. A register that its function defines nowhere isn't
/// among them.
///
/// # Errors
///
/// `NoMemory`: out of memory.
pub fn unassigned(alloc: Global, program: &Program) -> Result<Option<Fault>, NoMemory>
    ensures { IfOk result (λ first. IsLeast (UnassignedFault program.now) first) }
{
    let functions = program.functions.as_slice();
    let mut first = None;
    for function in functions {
        let fault = function_fault(alloc, function)?;
        first = lesser_fault(first, fault);
    }
    Ok(first)
}
