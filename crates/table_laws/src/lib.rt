//! What the permission table says of foreign accesses, one after another. The functions do nothing:
//! each contract is a law.
#![tactic(auto)]

ghost use Rattle.std.specs.Prelude.{◌≡◌, Bool, false, IsTrue, List};
ghost use Rattle.perm_table.specs.declared.Perm.{Perm as State};
ghost use Rattle.perm_table.specs.declared.Guard.{Guard as Protector};
ghost use Rattle.perm_table.specs.declared.Guard.TheVariants.{Free};
ghost use Rattle.perm_table.specs.declared.Kind.{Kind as Access};
ghost use Rattle.perm_table.specs.declared.Kind.TheVariants.{Read, Write};
ghost use Rattle.perm_table.specs.declared.Outcome.TheVariants.{Next, Denied};
ghost use Rattle.perm_table.specs.Table.{outcome, is_protected, after_foreign};
ghost use Rattle.table_laws.specs.Foreign.{after_all, after_one, sum_of, hides, no_stronger};

/// Only a guarded node denies a foreign access. Without a guard the flag stays, and the state alone
/// tells the next one.
pub fn only_guards_deny()
    ensures denied { (perm : State) (accessed : Bool) (guard : Protector) (kind : Access) → outcome perm accessed guard false kind ≡ Denied → IsTrue (is_protected guard) }
    ensures next { (perm : State) (accessed : Bool) (kind : Access) → outcome perm accessed Free false kind ≡ Next (after_foreign kind false perm) accessed }
{}

/// Without a guard a second foreign access of a kind changes nothing, and a write hides a read
/// before or after it. So what foreign accesses leave follows from whether a read and whether a
/// write was among them.
pub fn foreign_accesses_add_up()
    ensures reads { (perm : State) → after_foreign Read false (after_foreign Read false perm) ≡ after_foreign Read false perm }
    ensures writes { (perm : State) → after_foreign Write false (after_foreign Write false perm) ≡ after_foreign Write false perm }
    ensures read_first { (perm : State) → after_foreign Write false (after_foreign Read false perm) ≡ after_foreign Write false perm }
    ensures write_first { (perm : State) → after_foreign Read false (after_foreign Write false perm) ≡ after_foreign Write false perm }
    ensures all { (kinds : List Access) (perm : State) → after_all kinds perm ≡ after_one (sum_of kinds) perm }
{}

/// What a foreign access leaves, guarded or not, a further one of its kind leaves as it is and
/// isn't denied at it, and after a write a read too: also once the guard is gone.
pub fn met_accesses_stay_met()
    ensures { (perm next : State) (accessed after : Bool) (guard later : Protector) (kind further : Access) → IsTrue (no_stronger later guard) → IsTrue (hides kind further) → outcome perm accessed guard false kind ≡ Next next after → outcome next after later false further ≡ Next next after }
{}
