//! The words that operations and terminators begin with.
ghost use Rattle.std.specs.Prelude.{◌≡◌};
ghost use Rattle.ir_reader.specs.Tables.{lookup};
ghost use Rattle.ir_reader.specs.Keys.{memory_words, arithmetic_words, bit_words, choice_words, shared_words, definers, plains, jumps};

use crate::tables::Word;
use ir_ast::{BinaryOp, CastOp, Place};

/// The word that an operation begins with.
#[derive(Clone, Copy)]
pub enum Keyword {
    Const,
    Null,
    Make(Place),
    Gep,
    Load,
    Store,
    Retag,
    Binary(BinaryOp),
    Compare,
    Select,
    Cast(CastOp),
    PtrToInt,
    Input,
    Modify,
    CmpXchg,
    Copy,
    Free,
    Print,
    Call,
    Host,
    Spawn,
    Join,
}

/// The word that a terminator begins with.
#[derive(Clone, Copy)]
pub enum JumpWord {
    Br,
    CondBr,
    Ret,
    Unreachable,
}

/// A value from nowhere, from memory or of a pointer.
fn memory_of(word: &[u8]) -> Option<Keyword>
    ensures { result ≡ lookup memory_words word.now }
{
    if word == b"const".as_slice() {
        Some(Keyword::Const)
    } else if word == b"null".as_slice() {
        Some(Keyword::Null)
    } else if word == b"alloca".as_slice() {
        Some(Keyword::Make(Place::Stack))
    } else if word == b"malloc".as_slice() {
        Some(Keyword::Make(Place::Heap))
    } else if word == b"gep".as_slice() {
        Some(Keyword::Gep)
    } else if word == b"load".as_slice() {
        Some(Keyword::Load)
    } else if word == b"retag".as_slice() {
        Some(Keyword::Retag)
    } else {
        None
    }
}

/// A sum, a product or a quotient.
fn arithmetic_of(word: &[u8]) -> Option<Keyword>
    ensures { result ≡ lookup arithmetic_words word.now }
{
    if word == b"add".as_slice() {
        Some(Keyword::Binary(BinaryOp::Add))
    } else if word == b"sub".as_slice() {
        Some(Keyword::Binary(BinaryOp::Sub))
    } else if word == b"mul".as_slice() {
        Some(Keyword::Binary(BinaryOp::Mul))
    } else if word == b"udiv".as_slice() {
        Some(Keyword::Binary(BinaryOp::Udiv))
    } else if word == b"sdiv".as_slice() {
        Some(Keyword::Binary(BinaryOp::Sdiv))
    } else if word == b"urem".as_slice() {
        Some(Keyword::Binary(BinaryOp::Urem))
    } else if word == b"srem".as_slice() {
        Some(Keyword::Binary(BinaryOp::Srem))
    } else {
        None
    }
}

/// An operation on bits.
fn bits_of(word: &[u8]) -> Option<Keyword>
    ensures { result ≡ lookup bit_words word.now }
{
    if word == b"and".as_slice() {
        Some(Keyword::Binary(BinaryOp::And))
    } else if word == b"or".as_slice() {
        Some(Keyword::Binary(BinaryOp::Or))
    } else if word == b"xor".as_slice() {
        Some(Keyword::Binary(BinaryOp::Xor))
    } else if word == b"shl".as_slice() {
        Some(Keyword::Binary(BinaryOp::Shl))
    } else if word == b"lshr".as_slice() {
        Some(Keyword::Binary(BinaryOp::Lshr))
    } else if word == b"ashr".as_slice() {
        Some(Keyword::Binary(BinaryOp::Ashr))
    } else {
        None
    }
}

/// A comparison, a choice or a conversion.
fn choice_of(word: &[u8]) -> Option<Keyword>
    ensures { result ≡ lookup choice_words word.now }
{
    if word == b"icmp".as_slice() {
        Some(Keyword::Compare)
    } else if word == b"select".as_slice() {
        Some(Keyword::Select)
    } else if word == b"zext".as_slice() {
        Some(Keyword::Cast(CastOp::Zext))
    } else if word == b"sext".as_slice() {
        Some(Keyword::Cast(CastOp::Sext))
    } else if word == b"trunc".as_slice() {
        Some(Keyword::Cast(CastOp::Trunc))
    } else if word == b"ptrtoint".as_slice() {
        Some(Keyword::PtrToInt)
    } else if word == b"input".as_slice() {
        Some(Keyword::Input)
    } else {
        None
    }
}

/// An operation on shared memory, or a call.
fn shared_of(word: &[u8]) -> Option<Keyword>
    ensures { result ≡ lookup shared_words word.now }
{
    if word == b"rmw".as_slice() {
        Some(Keyword::Modify)
    } else if word == b"cmpxchg".as_slice() {
        Some(Keyword::CmpXchg)
    } else if word == b"call".as_slice() {
        Some(Keyword::Call)
    } else if word == b"host".as_slice() {
        Some(Keyword::Host)
    } else if word == b"spawn".as_slice() {
        Some(Keyword::Spawn)
    } else if word == b"join".as_slice() {
        Some(Keyword::Join)
    } else {
        None
    }
}

/// An operation that gives a value.
fn definer_of(word: &[u8]) -> Option<Keyword>
    ensures { result ≡ lookup definers word.now }
{
    memory_of(word)
        .or(arithmetic_of(word))
        .or(bits_of(word))
        .or(choice_of(word))
        .or(shared_of(word))
}

/// As the first word of an operation that gives a value.
impl Word for Keyword {
    ghost words = { definers };

    fn of_word(word: &[u8]) -> Option<Keyword> {
        definer_of(word)
    }
}

/// An operation that may stand without a register.
pub fn plain_of(word: &[u8]) -> Option<Keyword>
    ensures { result ≡ lookup plains word.now }
{
    if word == b"store".as_slice() {
        Some(Keyword::Store)
    } else if word == b"memcpy".as_slice() {
        Some(Keyword::Copy)
    } else if word == b"free".as_slice() {
        Some(Keyword::Free)
    } else if word == b"print".as_slice() {
        Some(Keyword::Print)
    } else if word == b"call".as_slice() {
        Some(Keyword::Call)
    } else if word == b"join".as_slice() {
        Some(Keyword::Join)
    } else {
        None
    }
}

/// A terminator.
pub fn jump_of(word: &[u8]) -> Option<JumpWord>
    ensures { result ≡ lookup jumps word.now }
{
    if word == b"br".as_slice() {
        Some(JumpWord::Br)
    } else if word == b"condbr".as_slice() {
        Some(JumpWord::CondBr)
    } else if word == b"ret".as_slice() {
        Some(JumpWord::Ret)
    } else if word == b"unreachable".as_slice() {
        Some(JumpWord::Unreachable)
    } else {
        None
    }
}
