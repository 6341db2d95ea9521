//! Requests, each with the allocation that it asks.
ghost use Rattle.std.specs.Prelude.{◌≡◌};
ghost use Rattle.record_text.specs.Reading.{one, lookup, IsRead};
ghost use Rattle.record_text.specs.Tables.{request_keys};
ghost use Rattle.record_text.specs.Parts.{load_at, store_at, modify_at, exchange_at, out_at, into_at, retag_at, protector_at, free_at, make_at, print_at, host_at, spawn_at, join_at, request_tail, request_at};

use crate::fields::prov_at;
use crate::keys::RequestKey;
use crate::numbers::{u8_at, u32_at, u64_at};
use crate::pieces::piece_at;
use crate::stop::{Read, Words};
use crate::tables::{among, flag_at};
use bsan_ids::{AllocNo, Tag, ThreadNo};
use history::Request;
use ir_ast::{ModifyOp, Place, Ty, Width};
use perm_table::{Guard, RetagKind};
use std::alloc::Global;

/// A request with the allocation that it asks, if it asks one.
pub type Asked = (Option<AllocNo>, Request);

/// A load, behind its word.
#[tactic(auto, unfolding(crate::specs::Parts::load_at))]
fn load(words: Words<'_>) -> Read<'_, Asked>
    ensures { IsRead load_at words.entry result }
{
    let (number, words) = u32_at(words)?;
    let (at, words) = u32_at(words)?;
    let (ty, words) = among::<Ty>(words)?;
    let (prov, words) = prov_at(words)?;
    Ok((
        (Some(AllocNo(number)), Request::Load { at, ty, prov }),
        words,
    ))
}

/// A store, behind its word.
#[tactic(auto, unfolding(crate::specs::Parts::store_at))]
fn store(words: Words<'_>) -> Read<'_, Asked>
    ensures { IsRead store_at words.entry result }
{
    let (number, words) = u32_at(words)?;
    let (at, words) = u32_at(words)?;
    let (ty, words) = among::<Ty>(words)?;
    let (value, words) = u64_at(words)?;
    let (carried, words) = prov_at(words)?;
    let (prov, words) = prov_at(words)?;
    Ok((
        (
            Some(AllocNo(number)),
            Request::Store {
                at,
                ty,
                value,
                carried,
                prov,
            },
        ),
        words,
    ))
}

/// A read-modify-write, behind its word.
#[tactic(auto, unfolding(crate::specs::Parts::modify_at))]
fn modify(words: Words<'_>) -> Read<'_, Asked>
    ensures { IsRead modify_at words.entry result }
{
    let (number, words) = u32_at(words)?;
    let (at, words) = u32_at(words)?;
    let (width, words) = among::<Width>(words)?;
    let (op, words) = among::<ModifyOp>(words)?;
    let (value, words) = u64_at(words)?;
    let (prov, words) = prov_at(words)?;
    Ok((
        (
            Some(AllocNo(number)),
            Request::Modify {
                at,
                width,
                op,
                value,
                prov,
            },
        ),
        words,
    ))
}

/// A compare and exchange, behind its word.
#[tactic(auto, unfolding(crate::specs::Parts::exchange_at))]
fn exchange(words: Words<'_>) -> Read<'_, Asked>
    ensures { IsRead exchange_at words.entry result }
{
    let (number, words) = u32_at(words)?;
    let (at, words) = u32_at(words)?;
    let (width, words) = among::<Width>(words)?;
    let (expected, words) = u64_at(words)?;
    let (value, words) = u64_at(words)?;
    let (prov, words) = prov_at(words)?;
    Ok((
        (
            Some(AllocNo(number)),
            Request::CmpXchg {
                at,
                width,
                expected,
                value,
                prov,
            },
        ),
        words,
    ))
}

/// A copy out of the allocation, behind its word.
#[tactic(auto, unfolding(crate::specs::Parts::out_at))]
fn copy_out(words: Words<'_>) -> Read<'_, Asked>
    ensures { IsRead out_at words.entry result }
{
    let (number, words) = u32_at(words)?;
    let (at, words) = u32_at(words)?;
    let (len, words) = u8_at(words)?;
    let (prov, words) = prov_at(words)?;
    Ok((
        (Some(AllocNo(number)), Request::CopyOut { at, len, prov }),
        words,
    ))
}

/// A copy into the allocation, behind its word.
#[tactic(auto, unfolding(crate::specs::Parts::into_at))]
fn copy_in(alloc: Global, words: Words<'_>) -> Read<'_, Asked>
    ensures { IsRead into_at words.entry result }
{
    let (number, words) = u32_at(words)?;
    let (at, words) = u32_at(words)?;
    let (piece, words) = piece_at(alloc, words)?;
    let (prov, words) = prov_at(words)?;
    Ok((
        (Some(AllocNo(number)), Request::CopyIn { at, piece, prov }),
        words,
    ))
}

/// A retag, behind its word.
#[tactic(auto, unfolding(crate::specs::Parts::retag_at))]
fn retag(words: Words<'_>) -> Read<'_, Asked>
    ensures { IsRead retag_at words.entry result }
{
    let (number, words) = u32_at(words)?;
    let (at, words) = u32_at(words)?;
    let (len, words) = u32_at(words)?;
    let (kind, words) = among::<RetagKind>(words)?;
    let (guard, words) = among::<Guard>(words)?;
    let (prov, words) = prov_at(words)?;
    Ok((
        (
            Some(AllocNo(number)),
            Request::Retag {
                at,
                len,
                kind,
                guard,
                prov,
            },
        ),
        words,
    ))
}

/// The end of a protector, behind its word.
#[tactic(auto, unfolding(crate::specs::Parts::protector_at))]
fn end_protector(words: Words<'_>) -> Read<'_, Asked>
    ensures { IsRead protector_at words.entry result }
{
    let (number, words) = u32_at(words)?;
    let (tag, words) = u64_at(words)?;
    Ok((
        (
            Some(AllocNo(number)),
            Request::EndProtector { tag: Tag(tag) },
        ),
        words,
    ))
}

/// A free, behind its word.
#[tactic(auto, unfolding(crate::specs::Parts::free_at))]
fn free(words: Words<'_>) -> Read<'_, Asked>
    ensures { IsRead free_at words.entry result }
{
    let (number, words) = u32_at(words)?;
    let (at, words) = u32_at(words)?;
    let (stack, words) = flag_at(words)?;
    let (prov, words) = prov_at(words)?;
    Ok((
        (Some(AllocNo(number)), Request::Free { at, stack, prov }),
        words,
    ))
}

/// An allocation, behind its word; its number stands in the reply.
#[tactic(auto, unfolding(crate::specs::Parts::make_at))]
fn make(words: Words<'_>) -> Read<'_, Asked>
    ensures { IsRead make_at words.entry result }
{
    let (size, words) = u32_at(words)?;
    let (place, words) = among::<Place>(words)?;
    Ok(((None, Request::Make { size, place }), words))
}

/// A print, behind its word.
#[tactic(auto, unfolding(crate::specs::Parts::print_at))]
fn print(words: Words<'_>) -> Read<'_, Asked>
    ensures { IsRead print_at words.entry result }
{
    let (value, words) = u64_at(words)?;
    Ok(((None, Request::Print { value }), words))
}

/// A call of a host's function, behind its word.
#[tactic(auto, unfolding(crate::specs::Parts::host_at))]
fn host(words: Words<'_>) -> Read<'_, Asked>
    ensures { IsRead host_at words.entry result }
{
    let (number, words) = u32_at(words)?;
    let (first, words) = u64_at(words)?;
    let (second, words) = u64_at(words)?;
    Ok((
        (
            None,
            Request::Host {
                number,
                first,
                second,
            },
        ),
        words,
    ))
}

/// The start of a thread, behind its word.
#[tactic(auto, unfolding(crate::specs::Parts::spawn_at))]
fn spawn(words: Words<'_>) -> Read<'_, Asked>
    ensures { IsRead spawn_at words.entry result }
{
    let (function, words) = u32_at(words)?;
    Ok(((None, Request::Spawn { function }), words))
}

/// The wait for a thread's end, behind its word.
#[tactic(auto, unfolding(crate::specs::Parts::join_at))]
fn join(words: Words<'_>) -> Read<'_, Asked>
    ensures { IsRead join_at words.entry result }
{
    let (child, words) = u32_at(words)?;
    Ok((
        (
            None,
            Request::Join {
                child: ThreadNo(child),
            },
        ),
        words,
    ))
}

fn request_tail<'a>(alloc: Global, key: RequestKey, words: Words<'a>) -> Read<'a, Asked>
    ensures { IsRead (request_tail key) words.entry result }
{
    match key {
        RequestKey::Load => load(words),
        RequestKey::Store => store(words),
        RequestKey::Modify => modify(words),
        RequestKey::CmpXchg => exchange(words),
        RequestKey::CopyOut => copy_out(words),
        RequestKey::CopyIn => copy_in(alloc, words),
        RequestKey::Retag => retag(words),
        RequestKey::EndProtector => end_protector(words),
        RequestKey::Free => free(words),
        RequestKey::Make => make(words),
        RequestKey::Print => print(words),
        RequestKey::Host => host(words),
        RequestKey::Spawn => spawn(words),
        RequestKey::Join => join(words),
    }
}

/// A request.
#[tactic(auto, unfolding(crate::specs::Parts::request_at))]
pub fn request<'a>(alloc: Global, words: Words<'a>) -> Read<'a, Asked>
    ensures { IsRead request_at words.entry result }
{
    let (key, words) = among::<RequestKey>(words)?;
    request_tail(alloc, key, words)
}
