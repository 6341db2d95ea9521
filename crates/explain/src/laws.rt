//! Laws of explanations. The functions do nothing: their contracts are what is promised.
ghost use Rattle.std.specs.Prelude.{◌≡◌, ℕ, Bool, List, Some};
ghost use Rattle.bsan_ids.specs.declared.numbers.Tag.{Tag};
ghost use Rattle.perm_table.specs.declared.Perm.{Perm};
ghost use Rattle.eager_tree.specs.declared.violation.Violation.TheVariants.{Denied, StrongFree};
ghost use Rattle.history.specs.declared.entry.Entry.{Entry};
ghost use Rattle.history.specs.declared.entry.Verdict.TheVariants.{Violated};
ghost use Rattle.history.specs.declared.log.AllocLog.{AllocLog};
ghost use Rattle.history.specs.Histories.{IsHistory};
ghost use Rattle.explain.specs.declared.explained.Explained.{Explained};
ghost use Rattle.explain.specs.Explanations.{IsChanger, IsExplainedBy, perm_after};

/// The last change of a node's state at a byte is one.
pub fn changers_are_one()
    ensures { (number : ℕ) (before : List Entry) (x : Tag) (offset : ℕ) (e f : Entry) → IsChanger number before x offset e → IsChanger number before x offset f → e ≡ f }
{}

/// The state that a violation names is the one in which the entries before it leave its node, and so
/// the one that the last change left.
pub fn violations_name_the_state_left()
    ensures denied { (log : AllocLog) (x : Explained) (offset : ℕ) (node : Tag) (perm : Perm) (local : Bool) → IsHistory log.number.0 log.entries → x.violation.reply.verdict ≡ Violated (Denied offset node perm local) → (h : IsExplainedBy log x) → perm_after log.number.0 h.before node offset ≡ Some perm }
    ensures strong { (log : AllocLog) (x : Explained) (offset : ℕ) (node : Tag) (perm : Perm) → IsHistory log.number.0 log.entries → x.violation.reply.verdict ≡ Violated (StrongFree offset node perm) → (h : IsExplainedBy log x) → perm_after log.number.0 h.before node offset ≡ Some perm }
{}
