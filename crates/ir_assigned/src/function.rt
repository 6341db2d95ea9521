//! The unassigned uses of one function.
ghost use Rattle.std.specs.Prelude.{◌≡◌, ◌<◌, ℕ, List, length, map, IfOk};
ghost use Rattle.ir_rules.specs.Least.{AnyOf, IsLeast};
ghost use Rattle.ir_rules.specs.Occurrences.{block_events, param_event};
ghost use Rattle.ir_rules.specs.Seen.{event_of, seen};
ghost use Rattle.ir_assigned.specs.Graph.{assigns, successors};
ghost use Rattle.ir_assigned.specs.Mentions.{mentions_from, mentions_in};
ghost use Rattle.ir_assigned.specs.Faults.{RegisterFault, EventFault, FunctionFault};

use crate::graph::graph;
use crate::mentions::{Mention, mentions, mentions_of};
use crate::search::search;
use bsan_ids::{ListOf, NoMemory};
use ir_ast::{Function, Param};
use ir_rules::{Fault, Occurrence, Role, function_occurrences, lesser_fault};
use std::alloc::Global;
use std::collections::BTreeMap;

/// Whether one of the parameters is the register.
fn is_param(params: &[Param], register: &[u8]) -> bool
    ensures { result ≡ assigns register.now (map param_event params.now) }
{
    for param in params {
        if register == param.reg.name.as_slice() {
            return true;
        }
    }
    false
}

/// The first unassigned use of a register.
fn register_fault(
    alloc: Global,
    function: &Function,
    graph: &[ListOf<usize>],
    table: &BTreeMap<&[u8], Vec<Mention>>,
    register: &[u8],
) -> Result<Option<Fault>, NoMemory>
    requires some { 0 < length function.now.blocks }
    requires graph { graph.now ≡ map (successors function.now.blocks) function.now.blocks }
    requires table { (q : List ℕ) → mentions_in table.now q ≡ mentions_from q 0 (map block_events function.now.blocks) }
    ensures { IfOk result (λ first. IsLeast (RegisterFault function.now register.now) first) }
{
    if is_param(function.params.as_slice(), register) {
        Ok(None)
    } else {
        search(alloc, graph, mentions_of(table, register))
    }
}

/// The first unassigned use of the register that is defined here, if one is.
fn occurrence_fault(
    alloc: Global,
    function: &Function,
    graph: &[ListOf<usize>],
    table: &BTreeMap<&[u8], Vec<Mention>>,
    occurrence: &Occurrence<'_>,
) -> Result<Option<Fault>, NoMemory>
    requires some { 0 < length function.now.blocks }
    requires graph { graph.now ≡ map (successors function.now.blocks) function.now.blocks }
    requires table { (q : List ℕ) → mentions_in table.now q ≡ mentions_from q 0 (map block_events function.now.blocks) }
    ensures { IfOk result (λ first. IsLeast (EventFault function.now (event_of occurrence.now)) first) }
{
    match occurrence.role {
        Role::Defines(_) => register_fault(
            alloc,
            function,
            graph,
            table,
            occurrence.register.name.as_slice(),
        ),
        Role::Uses(_) => Ok(None),
    }
}

/// The first unassigned use of the registers that are defined in these places.
fn defined_faults(
    alloc: Global,
    function: &Function,
    occurrences: &[Occurrence<'_>],
) -> Result<Option<Fault>, NoMemory>
    requires { 0 < length function.now.blocks }
    ensures { IfOk result (λ first. IsLeast (AnyOf (EventFault function.now) (seen occurrences.now)) first) }
{
    let graph = graph(alloc, function.blocks.as_slice())?;
    let table = mentions(alloc, function.blocks.as_slice())?;
    let mut first = None;
    for occurrence in occurrences {
        let fault = occurrence_fault(alloc, function, &graph, &table, occurrence)?;
        first = lesser_fault(first, fault);
    }
    Ok(first)
}

/// The first unassigned use in a function.
pub fn function_fault(alloc: Global, function: &Function) -> Result<Option<Fault>, NoMemory>
    ensures { IfOk result (λ first. IsLeast (FunctionFault function.now) first) }
{
    if function.blocks.is_empty() {
        return Ok(None);
    }
    let occurrences = function_occurrences(alloc, function)?;
    defined_faults(alloc, function, &occurrences)
}
