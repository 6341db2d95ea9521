//! Words that stand for a value each.
ghost use Rattle.std.specs.Prelude.{◌≡◌};
ghost use Rattle.ir_reader.specs.Tables.{lookup, widths, types, results, kinds, conds, modifiers};

use ir_ast::{Cond, ModifyOp, Ty, Width};
use perm_table::RetagKind;

/// A value that a word stands for.
pub trait Word: Copy {
    ghost use Rattle.std.specs.Prelude.{ℕ, List};

    /// The words, each with its value.
    ghost words: { List (List ℕ × Self) };

    /// The value of this word.
    fn of_word(word: &[u8]) -> Option<Self>
        ensures { result ≡ lookup words word.now };
}

impl Word for Width {
    ghost words = { widths };

    fn of_word(word: &[u8]) -> Option<Width> {
        if word == b"i8".as_slice() {
            Some(Width::W8)
        } else if word == b"i16".as_slice() {
            Some(Width::W16)
        } else if word == b"i32".as_slice() {
            Some(Width::W32)
        } else if word == b"i64".as_slice() {
            Some(Width::W64)
        } else {
            None
        }
    }
}

impl Word for Ty {
    ghost words = { types };

    fn of_word(word: &[u8]) -> Option<Ty> {
        if word == b"i8".as_slice() {
            Some(Ty::Int(Width::W8))
        } else if word == b"i16".as_slice() {
            Some(Ty::Int(Width::W16))
        } else if word == b"i32".as_slice() {
            Some(Ty::Int(Width::W32))
        } else if word == b"i64".as_slice() {
            Some(Ty::Int(Width::W64))
        } else if word == b"ptr".as_slice() {
            Some(Ty::Ptr)
        } else {
            None
        }
    }
}

/// The type, or `Some(None)` for `void`.
impl Word for Option<Ty> {
    ghost words = { results };

    fn of_word(word: &[u8]) -> Option<Option<Ty>> {
        if word == b"i8".as_slice() {
            Some(Some(Ty::Int(Width::W8)))
        } else if word == b"i16".as_slice() {
            Some(Some(Ty::Int(Width::W16)))
        } else if word == b"i32".as_slice() {
            Some(Some(Ty::Int(Width::W32)))
        } else if word == b"i64".as_slice() {
            Some(Some(Ty::Int(Width::W64)))
        } else if word == b"ptr".as_slice() {
            Some(Some(Ty::Ptr))
        } else if word == b"void".as_slice() {
            Some(None)
        } else {
            None
        }
    }
}

impl Word for Cond {
    ghost words = { conds };

    fn of_word(word: &[u8]) -> Option<Cond> {
        if word == b"eq".as_slice() {
            Some(Cond::Eq)
        } else if word == b"ne".as_slice() {
            Some(Cond::Ne)
        } else if word == b"ult".as_slice() {
            Some(Cond::Ult)
        } else if word == b"ule".as_slice() {
            Some(Cond::Ule)
        } else if word == b"ugt".as_slice() {
            Some(Cond::Ugt)
        } else if word == b"uge".as_slice() {
            Some(Cond::Uge)
        } else if word == b"slt".as_slice() {
            Some(Cond::Slt)
        } else if word == b"sle".as_slice() {
            Some(Cond::Sle)
        } else if word == b"sgt".as_slice() {
            Some(Cond::Sgt)
        } else if word == b"sge".as_slice() {
            Some(Cond::Sge)
        } else {
            None
        }
    }
}

impl Word for ModifyOp {
    ghost words = { modifiers };

    fn of_word(word: &[u8]) -> Option<ModifyOp> {
        if word == b"add".as_slice() {
            Some(ModifyOp::Add)
        } else if word == b"sub".as_slice() {
            Some(ModifyOp::Sub)
        } else if word == b"and".as_slice() {
            Some(ModifyOp::And)
        } else if word == b"or".as_slice() {
            Some(ModifyOp::Or)
        } else if word == b"xor".as_slice() {
            Some(ModifyOp::Xor)
        } else if word == b"xchg".as_slice() {
            Some(ModifyOp::Xchg)
        } else if word == b"umin".as_slice() {
            Some(ModifyOp::Umin)
        } else if word == b"umax".as_slice() {
            Some(ModifyOp::Umax)
        } else {
            None
        }
    }
}

/// The kind of a retag of this version.
pub fn kind_of(version: u8, word: &[u8]) -> Option<RetagKind>
    ensures { result ≡ lookup (kinds version) word.now }
{
    if word == b"mut".as_slice() {
        Some(RetagKind::Mut)
    } else if word == b"cell".as_slice() {
        Some(RetagKind::Cell)
    } else if word == b"shr".as_slice() {
        Some(RetagKind::Shr)
    } else if word == b"box".as_slice() {
        Some(RetagKind::Boxed)
    } else if 2 <= version && word == b"shrcell".as_slice() {
        Some(RetagKind::ShrCell)
    } else {
        None
    }
}
