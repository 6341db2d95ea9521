//! Why a program is not verified.
ghost use Rattle.std.specs.Prelude.{◌≡◌};
ghost use Rattle.ir_verify.specs.declared.refusal.VerifyFault.TheVariants.{NoMemory};

use bsan_ids::NoMemory;
use ir_rules::Rule;
use std::alloc::AllocError;

/// Why a program is not verified.
#[derive(Clone, Copy, Debug, PartialEq, Eq)]
pub enum VerifyFault {
    /// This rule is broken at this place, the offset of a token's first byte. Of all broken rules it is
    /// the one of the least place, and at that place the first in the order of the rules.
    Refused { rule: Rule, at: u32 },
    /// Out of memory.
    NoMemory,
}

impl From<AllocError> for VerifyFault {
    ghost from_gives = { λ _ fault. fault ≡ NoMemory };

    fn from(_: AllocError) -> VerifyFault {
        VerifyFault::NoMemory
    }
}

impl From<NoMemory> for VerifyFault {
    ghost from_gives = { λ _ fault. fault ≡ NoMemory };

    fn from(_: NoMemory) -> VerifyFault {
        VerifyFault::NoMemory
    }
}
