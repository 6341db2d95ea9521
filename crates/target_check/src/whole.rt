//! The whole list.
ghost use Rattle.std.specs.Prelude.{◌≡◌, ◌↔◌, ◌<◌, IsTrue, length, slice_get, drop};
ghost use Rattle.std.specs.Option.{option_map_or};
ghost use Rattle.ir_ast.specs.Tokens.{Each};
ghost use Rattle.ir_ast.specs.Shapes.{IsVersion};
ghost use Rattle.target_code.specs.Formed as formed;
ghost use Rattle.target_code.specs.Formed.{Begins, NoPush, NamesKnown, IsWellFormed};
ghost use Rattle.target_check.specs.Stretches.{StretchFits, BlockFits, EntryFits, FunctionFits};

use crate::lines::{is_push, is_turn};
use crate::neighbours::each_two;
use crate::numbers::names_known;
use bsan_ids::ListOf;
use target_code::{Line, Target, TargetFunction};

fn begins_with_turn(lines: &[Line]) -> bool
    ensures { IsTrue result ↔ Begins formed.is_turn lines.now }
{
    match lines {
        [first, ..] => is_turn(first),
        [] => false,
    }
}

fn begins_with_push(lines: &[Line]) -> bool
    ensures { IsTrue result ↔ Begins formed.is_push lines.now }
{
    match lines {
        [first, ..] => is_push(first),
        [] => false,
    }
}

#[tactic(auto, using(crate::proofs::Parts::each_steps))]
fn no_push(lines: &[Line]) -> bool
    ensures { IsTrue result ↔ NoPush lines.now }
{
    for line in lines {
        if is_push(line) {
            return false;
        }
    }
    true
}

fn no_push_after_first(lines: &[Line]) -> bool
    ensures { IsTrue result ↔ NoPush (drop 1 lines.now) }
{
    match lines {
        [_, rest @ ..] => no_push(rest),
        [] => true,
    }
}

#[tactic(auto, using(crate::proofs::Parts::each_steps))]
fn names_all_known(lines: &[Line], slots: u32, blocks: usize, functions: usize) -> bool
    ensures { IsTrue result ↔ Each (NamesKnown slots blocks functions) lines.now }
{
    for line in lines {
        if !names_known(line, slots, blocks, functions) {
            return false;
        }
    }
    true
}

fn stretch_fits(lines: &[Line], slots: u32, blocks: usize, functions: usize) -> bool
    ensures { IsTrue result ↔ StretchFits slots blocks functions lines.now }
{
    each_two(lines) && names_all_known(lines, slots, blocks, functions)
}

fn entry_fits(lines: &[Line], slots: u32, blocks: usize, functions: usize) -> bool
    ensures { IsTrue result ↔ EntryFits slots blocks functions lines.now }
{
    begins_with_push(lines)
        && no_push_after_first(lines)
        && stretch_fits(lines, slots, blocks, functions)
}

fn block_fits(lines: &[Line], slots: u32, blocks: usize, functions: usize) -> bool
    ensures { IsTrue result ↔ BlockFits slots blocks functions lines.now }
{
    begins_with_turn(lines) && no_push(lines) && stretch_fits(lines, slots, blocks, functions)
}

#[tactic(auto, using(crate::proofs::Parts::each_steps))]
fn blocks_fit(all: &[ListOf<Line>], slots: u32, functions: usize) -> bool
    ensures { IsTrue result ↔ Each (BlockFits slots (length all.now) functions) all.now }
{
    let blocks = all.len();
    for block in all {
        if !block_fits(block.as_slice(), slots, blocks, functions) {
            return false;
        }
    }
    true
}

fn function_fits(function: &TargetFunction, functions: usize) -> bool
    ensures { IsTrue result ↔ FunctionFits functions function.now }
{
    let slots = function.slots;
    let blocks = function.blocks.len();
    0 < blocks
        && entry_fits(function.entry.as_slice(), slots, blocks, functions)
        && blocks_fit(function.blocks.as_slice(), slots, functions)
}

#[tactic(auto, using(crate::proofs::Parts::each_steps))]
fn functions_fit(functions: &[TargetFunction]) -> bool
    ensures { IsTrue result ↔ Each (FunctionFits (length functions.now)) functions.now }
{
    let count = functions.len();
    for function in functions {
        if !function_fits(function, count) {
            return false;
        }
    }
    true
}

fn is_version(version: u8) -> bool
    ensures { IsTrue result ↔ IsVersion version }
{
    1 <= version && version <= 2
}

/// Is target code well formed? It is where each access is directly after its check and each check
/// directly before an access that wants it; each pointer that a constant, `gep`, `load` or `select`
/// gives is directly followed by its shadow; each function has a block, and each block begins with
/// `turn`; entry lines begin with `pushframe`, which is nowhere else; `popframe` and `return`
/// are only together; all slots, blocks and functions that are named exist; and its version is 1 or 2.
pub fn well_formed(target: &Target) -> bool
    ensures { IsTrue result ↔ IsWellFormed target.now }
{
    is_version(target.version) && functions_fit(target.functions.as_slice())
}
