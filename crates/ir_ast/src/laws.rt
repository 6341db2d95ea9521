//! Laws of canonical texts. The functions do nothing: their contracts are what is promised.
ghost use Rattle.std.specs.Prelude.{◌≡◌};
ghost use Rattle.ir_ast.specs.Texts.{canonical};
ghost use Rattle.ir_ast.specs.Shapes.{IsShaped};
ghost use Rattle.ir_ast.specs.Writable.{IsWritable};
ghost use Rattle.ir_ast.specs.Programs.{IsProgram, KeepsLimits};
ghost use Rattle.ir_ast.specs.Places.{SameUpToPlaces};
ghost use Rattle.ir_ast.specs.declared.program.Program.{Program};

/// Programs that differ in places alone have one canonical text.
pub fn one_text()
    ensures { (p q : Program) → SameUpToPlaces p q → canonical p ≡ canonical q }
{}

/// A program that the grammar can give keeps the limits on functions, instructions and registers.
pub fn keeps_limits()
    ensures { (p : Program) → IsProgram p → KeepsLimits p }
{}

/// A program is one that the grammar can give where its parts are as the grammar has them, a
/// text can have its names and numbers, and it keeps the limits.
pub fn given_by_parts()
    ensures { (p : Program) → IsShaped p → IsWritable p → KeepsLimits p → IsProgram p }
{}

/// That a program is one that the grammar can give has one proof at most, so a type can keep it.
pub fn one_proof()
    ensures { (p : Program) (a b : IsProgram p) → a ≡ b }
{}
