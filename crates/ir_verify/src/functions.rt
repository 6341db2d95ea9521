//! The first broken rule of a function, but for registers that may be unassigned.
ghost use Rattle.std.specs.Prelude.{◌≡◌, ℕ, List, IfOk};
ghost use Rattle.ir_rules.specs.Least.{AnyOf, IsLeast};
ghost use Rattle.ir_rules.specs.Occurrences.{function_events};
ghost use Rattle.ir_rules.specs.Rules.{held};
ghost use Rattle.ir_rules.specs.Seen.{seen};
ghost use Rattle.ir_rules.specs.Walk.{Finds, held_in};
ghost use Rattle.ir_verify.specs.Faults.{BlockFault, FunctionFault, LabelFault, RegisterFault};

use crate::calls::op_fault;
use crate::names::{Table, label_names};
use crate::targets::{first_block_fault, goals_fault, ret_fault};
use crate::twice::{definitions, second_definitions};
use ir_ast::{Block, Function};
use ir_rules::{
    Fault, Held, Occurrence, function_occurrences, label_places, lesser_fault, registers,
    wrong_uses,
};
use std::alloc::{AllocError, Global};
use std::collections::BTreeMap;

fn block_fault<'a>(
    table: &Table<'a>,
    holdings: &BTreeMap<&'a [u8], Held<'a>>,
    places: &BTreeMap<&'a [u8], usize>,
    function: &Function,
    block: &Block,
) -> Option<Fault>
    requires registers { (q : List ℕ) → held_in holdings.now q ≡ held (function_events function.now) q }
    requires labels { Finds (λ b. b.label.name) function.now.blocks places.now }
    ensures { IsLeast (BlockFault table.now.functions.now table.now.hosts.now function.now block.now) result }
{
    let mut first = None;
    let insts = block.insts.as_slice();
    for inst in insts {
        first = lesser_fault(first, op_fault(table, holdings, &inst.op));
    }
    let returned = ret_fault(function.result.ty, &block.term.jump);
    let gone = goals_fault(function, places, &block.term.jump);
    let within = lesser_fault(first, returned);
    lesser_fault(within, gone)
}

fn blocks_fault<'a>(
    table: &Table<'a>,
    holdings: &BTreeMap<&'a [u8], Held<'a>>,
    places: &BTreeMap<&'a [u8], usize>,
    function: &Function,
) -> Option<Fault>
    requires registers { (q : List ℕ) → held_in holdings.now q ≡ held (function_events function.now) q }
    requires labels { Finds (λ b. b.label.name) function.now.blocks places.now }
    ensures { IsLeast (AnyOf (BlockFault table.now.functions.now table.now.hosts.now function.now) function.now.blocks) result }
{
    let mut first = None;
    let blocks = function.blocks.as_slice();
    for block in blocks {
        first = lesser_fault(first, block_fault(table, holdings, places, function, block));
    }
    first
}

/// The first use that doesn't fit its register, or second definition of a register.
fn register_fault<'a>(
    alloc: Global,
    occurrences: &[Occurrence<'a>],
    holdings: &BTreeMap<&'a [u8], Held<'a>>,
) -> Result<Option<Fault>, AllocError>
    requires { (q : List ℕ) → held_in holdings.now q ≡ held (seen occurrences.now) q }
    ensures { IfOk result (λ o. IsLeast (RegisterFault (seen occurrences.now)) o) }
{
    let wrong = wrong_uses(occurrences, holdings);
    let registers = definitions(alloc, occurrences)?;
    let twice = second_definitions(alloc, registers.as_slice())?;
    Ok(lesser_fault(wrong, twice))
}

/// The first second label, or the first block where it has parameters.
fn label_fault(alloc: Global, function: &Function) -> Result<Option<Fault>, AllocError>
    ensures { IfOk result (λ o. IsLeast (LabelFault function.now.blocks) o) }
{
    let blocks = function.blocks.as_slice();
    let labels = label_names(alloc, blocks)?;
    let twice = second_definitions(alloc, labels.as_slice())?;
    let first = first_block_fault(blocks);
    Ok(lesser_fault(twice, first))
}

/// The first broken rule of a function.
pub fn function_fault<'a>(
    alloc: Global,
    table: &Table<'a>,
    function: &'a Function,
) -> Result<Option<Fault>, AllocError>
    ensures { IfOk result (λ o. IsLeast (FunctionFault table.now.functions.now table.now.hosts.now function.now) o) }
{
    let occurrences = function_occurrences(alloc, function)?;
    let events = occurrences.as_slice();
    let holdings = registers(alloc, events)?;
    let of_registers = register_fault(alloc, events, &holdings)?;
    let of_labels = label_fault(alloc, function)?;
    let places = label_places(alloc, function.blocks.as_slice())?;
    let of_blocks = blocks_fault(table, &holdings, &places, function);
    let of_names = lesser_fault(of_registers, of_labels);
    Ok(lesser_fault(of_names, of_blocks))
}
