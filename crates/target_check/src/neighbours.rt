//! Two neighbours among lines.
ghost use Rattle.std.specs.Prelude.{◌≡◌, ◌↔◌, false, IsTrue, None};
ghost use Rattle.std.specs.Option.{option_copied, option_map, option_and_then, option_map_or};
ghost use Rattle.target_code.specs.Formed as formed;
ghost use Rattle.target_code.specs.Formed.{IsChecked, IsShadowed, IsReturned, EachTwo};
ghost use Rattle.target_check.specs.Checks.{check_line};
ghost use Rattle.target_check.specs.Stretches.{FitTogether};

use crate::lines::{Check, check_made, check_of, is_pop, is_return, shadow_given, unshadowed};
use target_code::Line;

fn wanted(after: Option<&Line>) -> Option<Check>
    ensures { option_map check_line result ≡ option_and_then formed.check_of (option_copied after.entry) }
{
    match after {
        Some(line) => check_of(line),
        None => None,
    }
}

fn made(before: Option<&Line>) -> Option<Check>
    ensures { option_map check_line result ≡ option_and_then formed.check_made (option_copied before.entry) }
{
    match before {
        Some(line) => check_made(line),
        None => None,
    }
}

#[tactic(auto, using(crate::proofs::Same::same_checks))]
fn checked(before: Option<&Line>, after: Option<&Line>) -> bool
    ensures { IsTrue result ↔ IsChecked (option_copied before.entry) (option_copied after.entry) }
{
    wanted(after) == made(before)
}

fn given(after: Option<&Line>) -> Option<u32>
    ensures { result ≡ option_and_then formed.shadow_given (option_copied after.entry) }
{
    match after {
        Some(line) => shadow_given(line),
        None => None,
    }
}

fn missing(before: Option<&Line>) -> Option<u32>
    ensures { result ≡ option_and_then formed.unshadowed (option_copied before.entry) }
{
    match before {
        Some(line) => unshadowed(line),
        None => None,
    }
}

fn shadowed(before: Option<&Line>, after: Option<&Line>) -> bool
    ensures { IsTrue result ↔ IsShadowed (option_copied before.entry) (option_copied after.entry) }
{
    match missing(before) {
        Some(slot) => given(after) == Some(slot),
        None => true,
    }
}

fn pops(before: Option<&Line>) -> bool
    ensures { result ≡ option_map_or formed.is_pop (option_copied before.entry) false }
{
    match before {
        Some(line) => is_pop(line),
        None => false,
    }
}

fn returns(after: Option<&Line>) -> bool
    ensures { result ≡ option_map_or formed.is_return (option_copied after.entry) false }
{
    match after {
        Some(line) => is_return(line),
        None => false,
    }
}

fn returned(before: Option<&Line>, after: Option<&Line>) -> bool
    ensures { IsTrue result ↔ IsReturned (option_copied before.entry) (option_copied after.entry) }
{
    returns(after) == pops(before)
}

fn fit_together(before: Option<&Line>, after: Option<&Line>) -> bool
    ensures { IsTrue result ↔ FitTogether (option_copied before.entry) (option_copied after.entry) }
{
    checked(before, after) && shadowed(before, after) && returned(before, after)
}

/// Do each two neighbours fit together?
#[tactic(auto, using(crate::proofs::Parts::two_steps))]
pub fn each_two(lines: &[Line]) -> bool
    ensures { IsTrue result ↔ EachTwo FitTogether None lines.now }
{
    let mut before = None;
    for line in lines {
        if !fit_together(before, Some(line)) {
            return false;
        }
        before = Some(line);
    }
    fit_together(before, None)
}
