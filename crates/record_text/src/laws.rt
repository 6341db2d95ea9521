//! Laws of the texts of records. The function does nothing: its contract is what is promised.
ghost use Rattle.std.specs.Prelude.{◌≡◌, ℕ, List};
ghost use Rattle.history.specs.declared.record.RunRecord.{RunRecord};
ghost use Rattle.record_text.specs.Texts.{IsTextOf, IsFirstWrong};

/// A text has one record at most. A text of a record has no first wrong line, and another text one
/// at most.
pub fn reading_is_one()
    ensures told { (limit : ℕ) (bytes : List ℕ) (a b : RunRecord) → IsTextOf limit bytes a → IsTextOf limit bytes b → a ≡ b }
    ensures refused { (limit : ℕ) (bytes : List ℕ) (kept : RunRecord) (line : ℕ) → IsTextOf limit bytes kept → IsFirstWrong bytes line → ⊥ }
    ensures first { (bytes : List ℕ) (m n : ℕ) → IsFirstWrong bytes m → IsFirstWrong bytes n → m ≡ n }
{}
