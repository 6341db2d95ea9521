//! Goals, returns and the first block.
ghost use Rattle.std.specs.Prelude.{◌≡◌};
ghost use Rattle.ir_rules.specs.Least.{AnyOf, IsLeast};
ghost use Rattle.ir_rules.specs.Occurrences.{jump_goals};
ghost use Rattle.ir_rules.specs.Rules.{ret_type};
ghost use Rattle.ir_rules.specs.Walk.{Finds};
ghost use Rattle.ir_verify.specs.Faults.{GoalFault};
ghost use Rattle.ir_rules.specs.Checks.{first_block_fault, goal_fault, goal_fits, ret_fault};

use crate::calls::unless;
use crate::types::{same_result, takes};
use ir_ast::{Block, Function, Goal, Jump, Ty, TypedVal};
use ir_rules::{Fault, Rule, lesser_fault};
use std::collections::BTreeMap;

/// Whether the goal's label is that of a block other than the first, which takes these arguments.
fn goal_fits(function: &Function, places: &BTreeMap<&[u8], usize>, goal: &Goal) -> bool
    requires { Finds (λ b. b.label.name) function.now.blocks places.now }
    ensures { result ≡ goal_fits function.now.blocks goal.now }
{
    match places.get(goal.label.name.as_slice()) {
        Some(place) => {
            if *place == 0 {
                false
            } else {
                match function.blocks.get(*place) {
                    Some(block) => takes(block.params.as_slice(), goal.args.as_slice()),
                    None => false,
                }
            }
        }
        None => false,
    }
}

fn goal_fault(function: &Function, places: &BTreeMap<&[u8], usize>, goal: &Goal) -> Option<Fault>
    requires { Finds (λ b. b.label.name) function.now.blocks places.now }
    ensures { result ≡ goal_fault function.now.blocks goal.now }
{
    let fits = goal_fits(function, places, goal);
    unless(fits, Rule::BadTarget, goal.label.at)
}

/// The first broken rule among the goals of a terminator.
pub fn goals_fault(
    function: &Function,
    places: &BTreeMap<&[u8], usize>,
    jump: &Jump,
) -> Option<Fault>
    requires { Finds (λ b. b.label.name) function.now.blocks places.now }
    ensures { IsLeast (AnyOf (GoalFault function.now.blocks) (jump_goals jump.now)) result }
{
    match jump {
        Jump::Br(goal) => goal_fault(function, places, goal),
        Jump::CondBr { yes, no, .. } => {
            let first = goal_fault(function, places, yes);
            let second = goal_fault(function, places, no);
            lesser_fault(first, second)
        }
        Jump::Ret { .. } | Jump::Unreachable => None,
    }
}

fn ret_type(val: &Option<TypedVal>) -> Option<Ty>
    ensures { result ≡ ret_type val.now }
{
    match val {
        Some(val) => Some(val.ty),
        None => None,
    }
}

/// The broken rule of a `ret` of another type than the function's result.
pub fn ret_fault(given: Option<Ty>, jump: &Jump) -> Option<Fault>
    ensures { result ≡ ret_fault given jump.now }
{
    match jump {
        Jump::Ret { val, ty_at } => {
            let fits = same_result(ret_type(val), given);
            unless(fits, Rule::TypeClash, *ty_at)
        }
        Jump::Br(_) | Jump::CondBr { .. } | Jump::Unreachable => None,
    }
}

/// The broken rule of a first block with parameters.
pub fn first_block_fault(blocks: &[Block]) -> Option<Fault>
    ensures { result ≡ first_block_fault blocks.now }
{
    match blocks.first() {
        Some(block) => {
            let none = block.params.is_empty();
            unless(none, Rule::BadTarget, block.label.at)
        }
        None => None,
    }
}
