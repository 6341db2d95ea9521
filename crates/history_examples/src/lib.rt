//! Worked examples of what an allocation answers. The function does nothing: its contract holds by computation.
#![tactic(auto)]

ghost use Rattle.std.specs.Prelude.{◌≡◌};
ghost use Rattle.history.specs.Examples.{replies};
ghost use Rattle.history.specs.Objects.{unmade};
ghost use Rattle.history_examples.specs.SharedCells.{sibling_steps, sibling_replies, plain_sibling_steps, plain_sibling_replies, argument_steps, argument_replies, freed_steps, freed_replies};

/// Shared references to data with interior mutability.
pub fn shared_cells_by_example()
    ensures siblings { replies (unmade 1) sibling_steps ≡ sibling_replies }
    ensures plain_sibling { replies (unmade 1) plain_sibling_steps ≡ plain_sibling_replies }
    ensures argument { replies (unmade 1) argument_steps ≡ argument_replies }
    ensures freed { replies (unmade 1) freed_steps ≡ freed_replies }
{}
