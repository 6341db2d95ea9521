//! What a run of several threads is, and that separate logs make one. The functions do nothing:
//! each contract is a law.
#![tactic(auto)]

ghost use Rattle.runs.specs.Objects.{objects};
ghost use Rattle.runs.specs.ReplayLaw.{MakesAlone};
ghost use Rattle.runs.specs.Theorem.{WeightsTellNumbers};

/// An allocation is made by a Make alone, which answers its number, and starts no thread.
pub fn makes_alone()
    ensures { MakesAlone objects }
{}

/// Two lists of numbers that weigh the same in every way have the same numbers, each as often.
pub fn weights_tell_numbers()
    ensures { WeightsTellNumbers }
{}
