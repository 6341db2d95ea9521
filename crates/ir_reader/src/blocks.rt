//! Blocks, and the instructions in them.
ghost use Rattle.std.specs.Prelude.{◌≡◌, ◌+◌, ◌<◌, ◌^◌, suc, true, length, if◌then◌else◌, IfOk};
ghost use Rattle.std.specs.List.{sum_by};
ghost use Rattle.ir_ast.specs.Lines.{most_instructions, most_registers, block_instructions};
ghost use Rattle.ir_reader.specs.View.{IsReadCounted, onto};
ghost use Rattle.ir_reader.specs.Behind.{counts, after_insts};
ghost use Rattle.ir_reader.specs.Blocks.{insts_at, block_at, after_block, more_blocks_at, blocks_at, closed_blocks_at};

use crate::insts::{begins_inst, inst, term};
use crate::leaves::{begins_any_word, label};
use crate::marks::take_mark;
use crate::params::head;
use crate::stop::{Read, Stop};
use bsan_ids::ListOf;
use ir_ast::{Block, Inst, Mark};
use ir_text::Token;
use std::alloc::Global;

/// How many instructions of the program and registers of the function come before a place.
#[derive(Clone, Copy)]
pub struct Before {
    pub instructions: u32,
    pub registers: u32,
}

/// The counts after this many parameters.
fn after_params(before: Before, params: usize) -> Before
    requires { before.registers + params < 2 ^ 32 }
    ensures { counts result ≡ (before.instructions, before.registers + params) }
{
    Before {
        instructions: before.instructions,
        registers: before.registers + params as u32,
    }
}

/// The counts after an instruction, which may define a register.
fn after_inst(before: Before, defines: bool) -> Before
    requires instructions { before.instructions < most_instructions }
    requires registers { defines ≡ true → before.registers < most_registers }
    ensures { counts result ≡ (suc before.instructions, before.registers + (if defines then 1 else 0)) }
{
    Before {
        instructions: before.instructions + 1,
        registers: if defines {
            before.registers + 1
        } else {
            before.registers
        },
    }
}

/// The instructions that are next, and the counts after them.
fn insts<'a>(
    alloc: Global,
    version: u8,
    before: Before,
    text: &[u8],
    tokens: &'a [Token],
) -> Read<'a, (ListOf<Inst>, Before)>
    ensures read { IsReadCounted (insts_at version (counts before)) text.now tokens.now result }
    ensures behind { IfOk result (λ x. counts x.0.1 ≡ after_insts (counts before) x.0.0) }
{
    let mut insts = ListOf::new(alloc);
    let mut behind = before;
    let mut rest = tokens;
    while begins_inst(text, rest) {
        let (next, after) = inst(
            alloc,
            version,
            behind.instructions,
            behind.registers,
            text,
            rest,
        )?;
        behind = after_inst(behind, next.dest.is_some());
        insts.push(next)?;
        rest = after;
    }
    Ok(((insts, behind), rest))
}

/// A block, and the counts after it.
#[tactic(auto, unfolding(crate::specs::Blocks::block_at))]
fn block<'a>(
    alloc: Global,
    version: u8,
    before: Before,
    text: &[u8],
    tokens: &'a [Token],
) -> Read<'a, (Block, Before)>
    ensures read { IsReadCounted (block_at version (counts before)) text.now tokens.now result }
    ensures behind { IfOk result (λ x. counts x.0.1 ≡ after_block (counts before) x.0.0) }
{
    let (label, rest) = label(alloc, text, tokens)?;
    let (params, rest) = head(alloc, before.registers, text, rest)?;
    let inside = after_params(before, params.len());
    let ((insts, last), rest) = insts(alloc, version, inside, text, rest)?;
    let (term, rest) = term(alloc, last.instructions, text, rest)?;
    let behind = after_inst(last, false);
    Ok((
        (
            Block {
                label,
                params,
                insts,
                term,
            },
            behind,
        ),
        rest,
    ))
}

/// Appends the blocks that follow. The count is that of the program's instructions up to the last of them.
fn more_blocks<'a>(
    alloc: Global,
    version: u8,
    before: Before,
    front: ListOf<Block>,
    text: &[u8],
    tokens: &'a [Token],
) -> Read<'a, (ListOf<Block>, u32)>
    ensures read { IsReadCounted (onto front (more_blocks_at version (counts before))) text.now tokens.now result }
    ensures behind { IfOk result (λ x. x.0.1 + sum_by block_instructions front ≡ before.instructions + sum_by block_instructions x.0.0) }
{
    let mut found = front;
    let mut behind = before;
    let mut rest = tokens;
    while begins_any_word(rest) {
        let ((next, last), after) = block(alloc, version, behind, text, rest)?;
        found.push(next)?;
        behind = last;
        rest = after;
    }
    Ok(((found, behind.instructions), rest))
}

/// The blocks of a function, and the number of the program's instructions up to the last of them.
fn blocks<'a>(
    alloc: Global,
    version: u8,
    before: Before,
    text: &[u8],
    tokens: &'a [Token],
) -> Read<'a, (ListOf<Block>, u32)>
    ensures read { IsReadCounted (blocks_at version (counts before)) text.now tokens.now result }
    ensures behind { IfOk result (λ x. x.0.1 ≡ before.instructions + sum_by block_instructions x.0.0) }
{
    let ((first, behind), rest) = block(alloc, version, before, text, tokens)?;
    let mut front = ListOf::new(alloc);
    front.push(first)?;
    more_blocks(alloc, version, behind, front, text, rest)
}

/// The blocks of a function and the `}` after them, and the number of the program's instructions up to there.
#[tactic(auto, unfolding(crate::specs::Blocks::closed_blocks_at))]
pub fn closed_blocks<'a>(
    alloc: Global,
    version: u8,
    before: Before,
    text: &[u8],
    tokens: &'a [Token],
) -> Read<'a, (ListOf<Block>, u32)>
    ensures read { IsReadCounted (closed_blocks_at version (counts before)) text.now tokens.now result }
    ensures behind { IfOk result (λ x. x.0.1 ≡ before.instructions + sum_by block_instructions x.0.0) }
{
    let (blocks, rest) = blocks(alloc, version, before, text, tokens)?;
    let rest = take_mark(Mark::CloseBrace, rest)?;
    Ok((blocks, rest))
}
