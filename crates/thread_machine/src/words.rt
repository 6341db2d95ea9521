//! Words at their types.
ghost use Rattle.std.specs.Prelude.{◌≡◌};
ghost use Rattle.thread_parts.specs.Words.{at_width, plain_arg};
ghost use Rattle.thread_parts.specs.Parts.{binary_part, cast_arg, compared};
ghost use Rattle.thread_machine.specs.Views.{part_of};

use ir_ast::{BinaryOp, CastOp, Cond, Ty, Width};
use word_ops::WordTrap;

/// The word that a type has of a number.
pub(crate) fn cut(ty: Ty, word: u64) -> u64
    ensures { result ≡ at_width ty word }
{
    match ty {
        Ty::Int(Width::W8) => word % 0x100,
        Ty::Int(Width::W16) => word % 0x1_0000,
        Ty::Int(Width::W32) => word % 0x1_0000_0000,
        Ty::Int(Width::W64) | Ty::Ptr => word,
    }
}

/// What a binary operation makes of two words, or why it makes nothing.
#[tactic(auto, using(crate::proofs::Widths::cut_below, crate::proofs::Widths::worked_is))]
pub(crate) fn work(op: BinaryOp, width: Width, a: u64, b: u64) -> Result<u64, WordTrap>
    ensures { part_of result ≡ binary_part op width (plain_arg a) (plain_arg b) }
{
    word_ops::binary(op, width, cut(Ty::Int(width), a), cut(Ty::Int(width), b))
}

/// 1 where the comparison holds between two words of a type, and else 0.
#[tactic(auto, using(crate::proofs::Widths::cut_below))]
pub(crate) fn compare(cond: Cond, ty: Ty, a: u64, b: u64) -> u64
    ensures { result ≡ (compared cond ty (plain_arg a) (plain_arg b)).value }
{
    let holds = match ty {
        Ty::Int(width) => word_ops::compare(cond, width, cut(ty, a), cut(ty, b)),
        Ty::Ptr => word_ops::compare(cond, Width::W64, cut(ty, a), cut(ty, b)),
    };
    u64::from(holds)
}

/// A word of one width as one of another.
#[tactic(auto, using(crate::proofs::Widths::cut_below))]
pub(crate) fn cast(op: CastOp, from: Width, to: Width, word: u64) -> u64
    ensures { result ≡ (cast_arg op from to (plain_arg word)).value }
{
    word_ops::cast(op, from, to, cut(Ty::Int(from), word))
}
