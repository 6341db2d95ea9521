//! The law of canonical texts and their tokens. The function does nothing: its contract is what is promised.
ghost use Rattle.ir_ast.specs.Tokens.{forms};
ghost use Rattle.ir_ast.specs.Lines.{spell};
ghost use Rattle.ir_ast.specs.Texts.{canonical};
ghost use Rattle.ir_ast.specs.Programs.{IsProgram};
ghost use Rattle.ir_ast.specs.declared.program.Program.{Program};
ghost use Rattle.phrase.specs.Lexes.{IsCut};

/// The canonical text of a program that the grammar can give is cut into tokens of just the forms
/// that the program is written with.
pub fn canonical_is_cut()
    ensures { (p : Program) → IsProgram p → IsCut (canonical p) (forms (spell p)) }
{}
