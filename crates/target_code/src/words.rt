//! The words that lines are made of.
ghost use Rattle.std.specs.Prelude.{◌≡◌};
ghost use Rattle.target_code.specs.Words.{keyword_text, guard_word, place_word};

use crate::line::{Operand, Shadow};
use ir_ast::{BinaryOp, CastOp, Cond, ModifyOp, Place, Ty, Width};
use perm_table::{Guard, RetagKind};

/// A word that is always written in one way.
#[derive(Clone, Copy)]
pub enum Keyword {
    Equals,
    Turn,
    PushFrame,
    Param,
    ShadowParam,
    Const,
    Make,
    Gep,
    Check,
    Read,
    Write,
    Load,
    Loaded,
    Stored,
    Store,
    Retag,
    Icmp,
    Select,
    PtrToInt,
    Input,
    Rmw,
    CmpXchg,
    Copy,
    MemCpy,
    Free,
    Print,
    Arg,
    ShadowArg,
    Call,
    Result,
    ShadowResult,
    Spawn,
    Join,
    Host,
    Branch,
    Jump,
    PopFrame,
    Return,
    Unreachable,
}

/// A word of a line.
#[derive(Clone, Copy)]
pub enum Word {
    Keyword(Keyword),
    Type(Ty),
    Width(Width),
    Kind(RetagKind),
    Guard(Guard),
    Place(Place),
    Binary(BinaryOp),
    Cond(Cond),
    Cast(CastOp),
    Modify(ModifyOp),
    Slot(u32),
    ShadowSlot(u32),
    Number(u32),
    Operand(Operand),
    Shadow(Shadow),
}

pub fn keyword_text(word: Keyword) -> &'static str
    ensures { result.now ≡ keyword_text word }
{
    match word {
        Keyword::Equals => "=",
        Keyword::Turn => "turn",
        Keyword::PushFrame => "pushframe",
        Keyword::Param => "param",
        Keyword::ShadowParam => "shadowparam",
        Keyword::Const => "const",
        Keyword::Make => "make",
        Keyword::Gep => "gep",
        Keyword::Check => "check",
        Keyword::Read => "read",
        Keyword::Write => "write",
        Keyword::Load => "load",
        Keyword::Loaded => "loaded",
        Keyword::Stored => "stored",
        Keyword::Store => "store",
        Keyword::Retag => "retag",
        Keyword::Icmp => "icmp",
        Keyword::Select => "select",
        Keyword::PtrToInt => "ptrtoint",
        Keyword::Input => "input",
        Keyword::Rmw => "rmw",
        Keyword::CmpXchg => "cmpxchg",
        Keyword::Copy => "copy",
        Keyword::MemCpy => "memcpy",
        Keyword::Free => "free",
        Keyword::Print => "print",
        Keyword::Arg => "arg",
        Keyword::ShadowArg => "shadowarg",
        Keyword::Call => "call",
        Keyword::Result => "result",
        Keyword::ShadowResult => "shadowresult",
        Keyword::Spawn => "spawn",
        Keyword::Join => "join",
        Keyword::Host => "host",
        Keyword::Branch => "branch",
        Keyword::Jump => "jump",
        Keyword::PopFrame => "popframe",
        Keyword::Return => "return",
        Keyword::Unreachable => "unreachable",
    }
}

pub fn guard_word(guard: Guard) -> &'static str
    ensures { result.now ≡ guard_word guard }
{
    match guard {
        Guard::Free => "free",
        Guard::Weak => "weak",
        Guard::Strong => "strong",
    }
}

pub fn place_word(place: Place) -> &'static str
    ensures { result.now ≡ place_word place }
{
    match place {
        Place::Stack => "stack",
        Place::Heap => "heap",
    }
}
