//! Provenances, fragments and parents.
ghost use Rattle.std.specs.Prelude.{◌≡◌};
ghost use Rattle.record_text.specs.Reading.{one, IsRead};
ghost use Rattle.record_text.specs.Parts.{prov_in, parent_in, frag_in};

use crate::cut::{next, three, two};
use crate::numbers::{number8, number32, number64};
use crate::stop::{Read, Stop, Words};
use bsan_ids::{AllocNo, Frag, Prov, Tag, ThreadNo};

/// A provenance, or `-` for none.
#[tactic(auto, unfolding(crate::specs::Parts::prov_in))]
fn prov_in(word: &[u8]) -> Option<Option<Prov>>
    ensures { result ≡ prov_in word.now }
{
    if word == b"-".as_slice() {
        return Some(None);
    }
    let (alloc, tag) = two(word, b'.')?;
    let alloc = AllocNo(number32(alloc)?);
    let tag = Tag(number64(tag)?);
    Some(Some(Prov { alloc, tag }))
}

/// The number of a parent, or `-` for none.
#[tactic(auto, unfolding(crate::specs::Parts::parent_in))]
fn parent_in(word: &[u8]) -> Option<Option<ThreadNo>>
    ensures { result ≡ parent_in word.now }
{
    if word == b"-".as_slice() {
        return Some(None);
    }
    let number = number32(word)?;
    Some(Some(ThreadNo(number)))
}

/// A fragment.
#[tactic(auto, unfolding(crate::specs::Parts::frag_in))]
pub fn frag_in(word: &[u8]) -> Option<Frag>
    ensures { result ≡ frag_in word.now }
{
    let (alloc, (tag, index)) = three(word, b'.')?;
    let alloc = AllocNo(number32(alloc)?);
    let tag = Tag(number64(tag)?);
    let index = number8(index)?;
    Some(Frag {
        prov: Prov { alloc, tag },
        index,
    })
}

/// A provenance, or none.
pub fn prov_at(words: Words<'_>) -> Read<'_, Option<Prov>>
    ensures { IsRead (one prov_in) words.entry result }
{
    let (word, rest) = next(words)?;
    match prov_in(word) {
        Some(prov) => Ok((prov, rest)),
        None => Err(Stop::Bad),
    }
}

/// A parent, or none.
pub fn parent_at(words: Words<'_>) -> Read<'_, Option<ThreadNo>>
    ensures { IsRead (one parent_in) words.entry result }
{
    let (word, rest) = next(words)?;
    match parent_in(word) {
        Some(parent) => Ok((parent, rest)),
        None => Err(Stop::Bad),
    }
}
