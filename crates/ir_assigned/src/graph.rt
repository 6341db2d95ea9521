//! The flow graph of a function's blocks.
ghost use Rattle.std.specs.Prelude.{◌≡◌, ◌++◌, map, IfOk, OnOk};
ghost use Rattle.std.specs.List.{flat_map};
ghost use Rattle.std.specs.BTreeMap as tree;
ghost use Rattle.std.specs.Cmp.Lexicographic.{slice_cmp};
ghost use Rattle.std.specs.Ordering.{nat_cmp};
ghost use Rattle.ir_rules.specs.Occurrences.{jump_goals};
ghost use Rattle.ir_rules.specs.Walk.{Finds};
ghost use Rattle.ir_assigned.specs.Graph.{listed, successors};

use bsan_ids::{ListOf, NoMemory};
use ir_ast::{Block, Goal, Jump};
use ir_rules::label_places;
use std::alloc::Global;
use std::collections::BTreeMap;

fn note_goal(
    next: &mut Vec<usize>,
    goal: &Goal,
    labels: &BTreeMap<&[u8], usize>,
) -> Result<(), NoMemory>
    ensures { OnOk result (next.new.items ≡ next.old.items ++ listed (tree.get_by (λ k. slice_cmp nat_cmp goal.now.label.name k.now) labels.now)) }
{
    if let Some(place) = labels.get(goal.label.name.as_slice()) {
        next.push(*place)?;
    }
    Ok(())
}

/// Appends the blocks to which the jump can go.
fn note_goals(
    next: &mut Vec<usize>,
    jump: &Jump,
    labels: &BTreeMap<&[u8], usize>,
) -> Result<(), NoMemory>
    ensures { OnOk result (next.new.items ≡ next.old.items ++ flat_map (λ g. listed (tree.get_by (λ k. slice_cmp nat_cmp g.label.name k.now) labels.now)) (jump_goals jump.now)) }
{
    match jump {
        Jump::Br(goal) => note_goal(next, goal, labels),
        Jump::CondBr { yes, no, .. } => {
            note_goal(next, yes, labels)?;
            note_goal(next, no, labels)
        }
        Jump::Ret { .. } | Jump::Unreachable => Ok(()),
    }
}

/// The blocks to which the block can go.
fn next_blocks(
    alloc: Global,
    blocks: &[Block],
    block: &Block,
    labels: &BTreeMap<&[u8], usize>,
) -> Result<ListOf<usize>, NoMemory>
    requires { Finds (λ b. b.label.name) blocks.now labels.now }
    ensures { IfOk result (λ next. next ≡ successors blocks.now block.now) }
{
    let mut next = Vec::new(alloc);
    note_goals(&mut next, &block.term.jump, labels)?;
    Ok(ListOf::from_vec(next))
}

/// For each block, the blocks to which it can go.
pub fn graph(alloc: Global, blocks: &[Block]) -> Result<Vec<ListOf<usize>>, NoMemory>
    ensures { IfOk result (λ graph. graph.items ≡ map (successors blocks.now) blocks.now) }
{
    let labels = label_places(alloc, blocks)?;
    let mut nodes = Vec::new(alloc);
    for block in blocks {
        nodes.push(next_blocks(alloc, blocks, block, &labels)?)?;
    }
    Ok(nodes)
}
