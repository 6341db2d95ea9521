//! The places of instructions.
ghost use Rattle.std.specs.Prelude.{◌≡◌, ◌++◌, IfOk, OnOk};
ghost use Rattle.excerpt.specs.Places.{block_places, function_places};
ghost use Rattle.excerpt.specs.Places as places;

use bsan_ids::NoMemory;
use ir_ast::{Block, Function, Program};
use std::alloc::Global;

fn push_block(block: &Block, into: &mut Vec<u32>) -> Result<(), NoMemory>
    ensures { OnOk result (into.new.items ≡ into.old.items ++ block_places block.now) }
{
    for inst in block.insts.as_slice() {
        into.push(inst.at)?;
    }
    into.push(block.term.at)?;
    Ok(())
}

fn push_function(function: &Function, into: &mut Vec<u32>) -> Result<(), NoMemory>
    ensures { OnOk result (into.new.items ≡ into.old.items ++ function_places function.now) }
{
    for block in function.blocks.as_slice() {
        push_block(block, into)?;
    }
    Ok(())
}

/// The place of each instruction of a program in its text, the offset of its first byte, in the order of the
/// instructions' numbers, which count all instructions in text order from 0, terminators among them.
///
/// # Errors
///
/// `NoMemory`: out of memory.
pub fn instruction_places(alloc: Global, program: &Program) -> Result<Vec<u32>, NoMemory>
    ensures { IfOk result (λ all. all.items ≡ places.instruction_places program.now) }
{
    let mut all = Vec::new(alloc);
    for function in program.functions.as_slice() {
        push_function(function, &mut all)?;
    }
    Ok(all)
}
