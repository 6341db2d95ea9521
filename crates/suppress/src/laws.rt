//! A file has one reading.
ghost use Rattle.std.specs.Prelude.{◌≡◌, ℕ, List};
ghost use Rattle.ir_ast.specs.declared.program.Function.{Function};
ghost use Rattle.suppress.specs.declared.line.Reading.{Reading};
ghost use Rattle.suppress.specs.declared.rules.Rule.{Rule};
ghost use Rattle.suppress.specs.Files.{AreRules, IsFirstRefused, IsRefusal};
ghost use Rattle.suppress.specs.Lines.{Reads};

/// A line has one reading. The lines of a file have one list of rules or a first line that is refused, and not both;
/// that line and why it is refused are one.
pub fn reading_is_one()
    ensures lines { (functions : List Function) (line : List ℕ) (a b : Reading) → Reads functions line a → Reads functions line b → a ≡ b }
    ensures files { (functions : List Function) (lines : List (List ℕ)) (a b : List Rule) → AreRules functions lines a → AreRules functions lines b → a ≡ b }
    ensures refused { (functions : List Function) (lines : List (List ℕ)) (number : ℕ) (why : Reading) (rules : List Rule) → IsRefusal why → IsFirstRefused functions lines number why → AreRules functions lines rules → ⊥ }
    ensures first { (functions : List Function) (lines : List (List ℕ)) (m n : ℕ) (v w : Reading) → IsRefusal v → IsRefusal w → IsFirstRefused functions lines m v → IsFirstRefused functions lines n w → (m ≡ n) × (v ≡ w) }
{}
