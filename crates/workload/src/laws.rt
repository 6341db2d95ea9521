//! Laws of generated programs. The functions do nothing: their contracts are what is promised.
ghost use Rattle.std.specs.Prelude.{◌≡◌, ◌≤◌, ◌+◌, ◌*◌, ℕ};
ghost use Rattle.std.specs.List.{sum_by};
ghost use Rattle.ir_ast.specs.Programs.{IsProgram, KeepsLimits, function_instructions};
ghost use Rattle.ir_ast.specs.declared.hosts.HostTable.{HostTable};
ghost use Rattle.ir_rules.specs.Rules.{IsAccepted};
ghost use Rattle.workload.specs.Made.{made};

use ir_ast::given_by_parts;

/// A generated program is one that the grammar can give.
pub fn made_is_program()
    ensures program { (seed size : ℕ) → size ≤ 10000 → IsProgram (made seed size) }
    ensures limits { (seed size : ℕ) → size ≤ 10000 → KeepsLimits (made seed size) }
{
    given_by_parts();
}

/// No rule of the verifier is broken in a generated program, whatever host functions there are.
pub fn made_is_accepted()
    ensures { (seed size : ℕ) (hosts : HostTable) → IsAccepted (made seed size) hosts }
{}

/// How many instructions a generated program has: each worker has 11 beside its stores, and main 18.
pub fn made_instructions()
    ensures { (seed size : ℕ) → sum_by function_instructions (made seed size).functions ≡ 4 * (size + 11) + 18 }
{}
