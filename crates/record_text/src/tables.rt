//! Words that stand for a value each.
ghost use Rattle.std.specs.Prelude.{◌≡◌};
ghost use Rattle.record_text.specs.Reading.{lookup, one, IsRead};
ghost use Rattle.record_text.specs.Tables.{types, widths, modifiers, kinds, guards, places, perms, memory_traps, other_traps, traps, flags, sides, access_keys, other_keys, request_keys, plain_keys, verdict_keys, end_keys, line_keys};

use crate::cut::next;
use crate::keys::{EndKey, LineKey, PlainKey, RequestKey, VerdictKey};
use crate::stop::{Read, Stop, Words};
use history::Trap;
use ir_ast::{ModifyOp, Place, Ty, Width};
use perm_table::{Guard, Perm, RetagKind};

/// A value that a word stands for.
pub trait Word: Copy {
    ghost use Rattle.std.specs.Prelude.{ℕ, List};

    /// The words, each with its value.
    ghost words: { List (List ℕ × Self) };

    /// The value of this word.
    fn of_word(word: &[u8]) -> Option<Self>
        ensures { result ≡ lookup words word.now };
}

impl Word for Ty {
    ghost words = { types };

    fn of_word(word: &[u8]) -> Option<Ty> {
        if word == b"i8".as_slice() {
            Some(Ty::Int(Width::W8))
        } else if word == b"i16".as_slice() {
            Some(Ty::Int(Width::W16))
        } else if word == b"i32".as_slice() {
            Some(Ty::Int(Width::W32))
        } else if word == b"i64".as_slice() {
            Some(Ty::Int(Width::W64))
        } else if word == b"ptr".as_slice() {
            Some(Ty::Ptr)
        } else {
            None
        }
    }
}

impl Word for Width {
    ghost words = { widths };

    fn of_word(word: &[u8]) -> Option<Width> {
        if word == b"i8".as_slice() {
            Some(Width::W8)
        } else if word == b"i16".as_slice() {
            Some(Width::W16)
        } else if word == b"i32".as_slice() {
            Some(Width::W32)
        } else if word == b"i64".as_slice() {
            Some(Width::W64)
        } else {
            None
        }
    }
}

impl Word for ModifyOp {
    ghost words = { modifiers };

    fn of_word(word: &[u8]) -> Option<ModifyOp> {
        if word == b"add".as_slice() {
            Some(ModifyOp::Add)
        } else if word == b"sub".as_slice() {
            Some(ModifyOp::Sub)
        } else if word == b"and".as_slice() {
            Some(ModifyOp::And)
        } else if word == b"or".as_slice() {
            Some(ModifyOp::Or)
        } else if word == b"xor".as_slice() {
            Some(ModifyOp::Xor)
        } else if word == b"xchg".as_slice() {
            Some(ModifyOp::Xchg)
        } else if word == b"umin".as_slice() {
            Some(ModifyOp::Umin)
        } else if word == b"umax".as_slice() {
            Some(ModifyOp::Umax)
        } else {
            None
        }
    }
}

impl Word for RetagKind {
    ghost words = { kinds };

    fn of_word(word: &[u8]) -> Option<RetagKind> {
        if word == b"mut".as_slice() {
            Some(RetagKind::Mut)
        } else if word == b"cell".as_slice() {
            Some(RetagKind::Cell)
        } else if word == b"shr".as_slice() {
            Some(RetagKind::Shr)
        } else if word == b"box".as_slice() {
            Some(RetagKind::Boxed)
        } else if word == b"shrcell".as_slice() {
            Some(RetagKind::ShrCell)
        } else {
            None
        }
    }
}

impl Word for Guard {
    ghost words = { guards };

    fn of_word(word: &[u8]) -> Option<Guard> {
        if word == b"free".as_slice() {
            Some(Guard::Free)
        } else if word == b"weak".as_slice() {
            Some(Guard::Weak)
        } else if word == b"strong".as_slice() {
            Some(Guard::Strong)
        } else {
            None
        }
    }
}

impl Word for Place {
    ghost words = { places };

    fn of_word(word: &[u8]) -> Option<Place> {
        if word == b"stack".as_slice() {
            Some(Place::Stack)
        } else if word == b"heap".as_slice() {
            Some(Place::Heap)
        } else {
            None
        }
    }
}

impl Word for Perm {
    ghost words = { perms };

    fn of_word(word: &[u8]) -> Option<Perm> {
        if word == b"Reserved".as_slice() {
            Some(Perm::Reserved)
        } else if word == b"Conflicted".as_slice() {
            Some(Perm::Conflicted)
        } else if word == b"CellReserved".as_slice() {
            Some(Perm::CellReserved)
        } else if word == b"Unique".as_slice() {
            Some(Perm::Unique)
        } else if word == b"Frozen".as_slice() {
            Some(Perm::Frozen)
        } else if word == b"Disabled".as_slice() {
            Some(Perm::Disabled)
        } else if word == b"Cell".as_slice() {
            Some(Perm::Cell)
        } else {
            None
        }
    }
}

impl Word for PlainKey {
    ghost words = { plain_keys };

    fn of_word(word: &[u8]) -> Option<PlainKey> {
        if word == b"made".as_slice() {
            Some(PlainKey::Made)
        } else if word == b"value".as_slice() {
            Some(PlainKey::Value)
        } else if word == b"copied".as_slice() {
            Some(PlainKey::Copied)
        } else if word == b"done".as_slice() {
            Some(PlainKey::Done)
        } else if word == b"retagged".as_slice() {
            Some(PlainKey::Retagged)
        } else if word == b"spawned".as_slice() {
            Some(PlainKey::Spawned)
        } else if word == b"trapped".as_slice() {
            Some(PlainKey::Trapped)
        } else {
            None
        }
    }
}

impl Word for VerdictKey {
    ghost words = { verdict_keys };

    fn of_word(word: &[u8]) -> Option<VerdictKey> {
        if word == b"clean".as_slice() {
            Some(VerdictKey::Clean)
        } else if word == b"closed".as_slice() {
            Some(VerdictKey::Closed)
        } else if word == b"denied".as_slice() {
            Some(VerdictKey::Denied)
        } else if word == b"strongfree".as_slice() {
            Some(VerdictKey::StrongFree)
        } else if word == b"stranger".as_slice() {
            Some(VerdictKey::Stranger)
        } else if word == b"freed".as_slice() {
            Some(VerdictKey::Freed)
        } else if word == b"outofrange".as_slice() {
            Some(VerdictKey::OutOfRange)
        } else {
            None
        }
    }
}

impl Word for EndKey {
    ghost words = { end_keys };

    fn of_word(word: &[u8]) -> Option<EndKey> {
        if word == b"returned".as_slice() {
            Some(EndKey::Returned)
        } else if word == b"trapped".as_slice() {
            Some(EndKey::Trapped)
        } else if word == b"steplimit".as_slice() {
            Some(EndKey::StepLimit)
        } else if word == b"turnlimit".as_slice() {
            Some(EndKey::TurnLimit)
        } else if word == b"nomemory".as_slice() {
            Some(EndKey::NoMemory)
        } else if word == b"childended".as_slice() {
            Some(EndKey::ChildEnded)
        } else {
            None
        }
    }
}

impl Word for LineKey {
    ghost words = { line_keys };

    fn of_word(word: &[u8]) -> Option<LineKey> {
        if word == b"record".as_slice() {
            Some(LineKey::Title)
        } else if word == b"words".as_slice() {
            Some(LineKey::Words)
        } else if word == b"thread".as_slice() {
            Some(LineKey::Thread)
        } else if word == b"end".as_slice() {
            Some(LineKey::End)
        } else {
            None
        }
    }
}

/// A trap of a step on an allocation.
fn memory_trap(word: &[u8]) -> Option<Trap>
    ensures { result ≡ lookup memory_traps word.now }
{
    if word == b"NoAllocation".as_slice() {
        Some(Trap::NoAllocation)
    } else if word == b"OutOfBounds".as_slice() {
        Some(Trap::OutOfBounds)
    } else if word == b"Freed".as_slice() {
        Some(Trap::Freed)
    } else if word == b"BadFree".as_slice() {
        Some(Trap::BadFree)
    } else if word == b"BadSize".as_slice() {
        Some(Trap::BadSize)
    } else {
        None
    }
}

/// Another trap; a number that its name needs is 0.
fn other_trap(word: &[u8]) -> Option<Trap>
    ensures { result ≡ lookup other_traps word.now }
{
    if word == b"DivZero".as_slice() {
        Some(Trap::DivZero)
    } else if word == b"ShiftTooFar".as_slice() {
        Some(Trap::ShiftTooFar)
    } else if word == b"AllocLimit".as_slice() {
        Some(Trap::AllocLimit { drawn: 0 })
    } else if word == b"ThreadLimit".as_slice() {
        Some(Trap::ThreadLimit { drawn: 0 })
    } else if word == b"DepthLimit".as_slice() {
        Some(Trap::DepthLimit)
    } else if word == b"Unreachable".as_slice() {
        Some(Trap::Unreachable)
    } else {
        None
    }
}

/// A trap; a number that its name needs is 0.
fn trap_of(word: &[u8]) -> Option<Trap>
    ensures { result ≡ lookup traps word.now }
{
    memory_trap(word).or(other_trap(word))
}

/// By its name; a number that the name needs is 0.
impl Word for Trap {
    ghost words = { traps };

    fn of_word(word: &[u8]) -> Option<Trap> {
        trap_of(word)
    }
}

/// A load, a store, another access, or a copy.
fn access_key(word: &[u8]) -> Option<RequestKey>
    ensures { result ≡ lookup access_keys word.now }
{
    if word == b"load".as_slice() {
        Some(RequestKey::Load)
    } else if word == b"store".as_slice() {
        Some(RequestKey::Store)
    } else if word == b"rmw".as_slice() {
        Some(RequestKey::Modify)
    } else if word == b"cmpxchg".as_slice() {
        Some(RequestKey::CmpXchg)
    } else if word == b"out".as_slice() {
        Some(RequestKey::CopyOut)
    } else if word == b"in".as_slice() {
        Some(RequestKey::CopyIn)
    } else {
        None
    }
}

/// Another request.
fn other_key(word: &[u8]) -> Option<RequestKey>
    ensures { result ≡ lookup other_keys word.now }
{
    if word == b"retag".as_slice() {
        Some(RequestKey::Retag)
    } else if word == b"endprotector".as_slice() {
        Some(RequestKey::EndProtector)
    } else if word == b"free".as_slice() {
        Some(RequestKey::Free)
    } else if word == b"make".as_slice() {
        Some(RequestKey::Make)
    } else if word == b"print".as_slice() {
        Some(RequestKey::Print)
    } else if word == b"host".as_slice() {
        Some(RequestKey::Host)
    } else if word == b"spawn".as_slice() {
        Some(RequestKey::Spawn)
    } else if word == b"join".as_slice() {
        Some(RequestKey::Join)
    } else {
        None
    }
}

/// A request.
fn request_key_of(word: &[u8]) -> Option<RequestKey>
    ensures { result ≡ lookup request_keys word.now }
{
    access_key(word).or(other_key(word))
}

impl Word for RequestKey {
    ghost words = { request_keys };

    fn of_word(word: &[u8]) -> Option<RequestKey> {
        request_key_of(word)
    }
}

/// The value that the next word stands for.
pub fn among<T: Word>(words: Words<'_>) -> Read<'_, T>
    ensures { IsRead (one (lookup T.words)) words.entry result }
{
    let (word, rest) = next(words)?;
    match T::of_word(word) {
        Some(value) => Ok((value, rest)),
        None => Err(Stop::Bad),
    }
}

fn flag_of(word: &[u8]) -> Option<bool>
    ensures { result ≡ lookup flags word.now }
{
    if word == b"1".as_slice() {
        Some(true)
    } else if word == b"0".as_slice() {
        Some(false)
    } else {
        None
    }
}

fn side_of(word: &[u8]) -> Option<bool>
    ensures { result ≡ lookup sides word.now }
{
    if word == b"local".as_slice() {
        Some(true)
    } else if word == b"foreign".as_slice() {
        Some(false)
    } else {
        None
    }
}

/// `1` for true, `0` for false.
pub fn flag_at(words: Words<'_>) -> Read<'_, bool>
    ensures { IsRead (one (lookup flags)) words.entry result }
{
    let (word, rest) = next(words)?;
    match flag_of(word) {
        Some(flag) => Ok((flag, rest)),
        None => Err(Stop::Bad),
    }
}

/// `local` for true, `foreign` for false.
pub fn side_at(words: Words<'_>) -> Read<'_, bool>
    ensures { IsRead (one (lookup sides)) words.entry result }
{
    let (word, rest) = next(words)?;
    match side_of(word) {
        Some(local) => Ok((local, rest)),
        None => Err(Stop::Bad),
    }
}
