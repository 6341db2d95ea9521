//! The first broken rule of a program.
ghost use Rattle.std.specs.Prelude.{◌≡◌, IfOk, codes, map};
ghost use Rattle.std.specs.Option.{option_copied};
ghost use Rattle.ir_rules.specs.declared.rule.Rule.TheVariants.{NoMain};
ghost use Rattle.ir_rules.specs.Least.{AnyOf, IsLeast, fault};
ghost use Rattle.ir_rules.specs.Rules.{function_named};
ghost use Rattle.ir_verify.specs.Faults.{FunctionFault, ProgramFault, TwiceFault};
ghost use Rattle.ir_rules.specs.Checks.{is_main, unless};

use crate::calls::unless;
use crate::functions::function_fault;
use crate::names::{Table, function_named, function_names};
use crate::twice::second_definitions;
use crate::types::same_result;
use bsan_ids::ListOf;
use ir_ast::{Function, HostTable, Program, Ty, Width};
use ir_rules::{Fault, Rule, function_places, host_places, lesser_fault};
use std::alloc::{AllocError, Global};

/// Whether a program can begin with the function.
fn is_main(found: Option<&Function>) -> bool
    ensures { result ≡ is_main (option_copied found.entry) }
{
    match found {
        Some(function) => {
            let none = function.params.is_empty();
            none && same_result(function.result.ty, Some(Ty::Int(Width::W64)))
        }
        None => false,
    }
}

/// The broken rule of a program without `@main`.
fn main_fault(table: &Table<'_>, end: u32) -> Option<Fault>
    ensures { result ≡ unless (is_main (function_named table.now.functions.now (codes "main"))) (fault NoMain end) }
{
    let found = function_named(table, b"main");
    unless(is_main(found), Rule::NoMain, end)
}

fn functions_fault(alloc: Global, table: &Table<'_>) -> Result<Option<Fault>, AllocError>
    ensures { IfOk result (λ o. IsLeast (AnyOf (FunctionFault table.now.functions.now table.now.hosts.now) table.now.functions.now) o) }
{
    let mut first = None;
    let functions = table.functions.as_slice();
    for function in functions {
        let found = function_fault(alloc, table, function)?;
        first = lesser_fault(first, found);
    }
    Ok(first)
}

/// The first function that is the second of its name.
fn twice_fault(alloc: Global, functions: &ListOf<Function>) -> Result<Option<Fault>, AllocError>
    ensures { IfOk result (λ o. IsLeast (TwiceFault (map (λ f. f.name) functions.now)) o) }
{
    let names = function_names(alloc, functions.as_slice())?;
    second_definitions(alloc, names.as_slice())
}

/// The first broken rule of the program, but for registers that may be unassigned.
pub fn program_fault(
    alloc: Global,
    program: &Program,
    hosts: &HostTable,
) -> Result<Option<Fault>, AllocError>
    ensures { IfOk result (λ o. IsLeast (ProgramFault program.now hosts.now.entries) o) }
{
    let table = Table {
        functions: &program.functions,
        function_places: function_places(alloc, program.functions.as_slice())?,
        hosts: &hosts.entries,
        host_places: host_places(alloc, hosts.entries.as_slice())?,
    };
    let twice = twice_fault(alloc, &program.functions)?;
    let main = main_fault(&table, program.end);
    let of_functions = functions_fault(alloc, &table)?;
    let of_names = lesser_fault(twice, main);
    Ok(lesser_fault(of_names, of_functions))
}
