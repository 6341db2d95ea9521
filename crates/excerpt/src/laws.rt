//! A law of the places of instructions. The function does nothing: its contract is what is promised.
ghost use Rattle.ir_ast.specs.declared.program.Program.{Program};
ghost use Rattle.excerpt.specs.Places.{StandAtNumbers};

/// Where the place of an instruction stands among all places is the instruction's number.
pub fn places_stand_at_numbers()
    ensures { (p : Program) → StandAtNumbers p }
{}
