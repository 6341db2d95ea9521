//! Traps, ends, and replies with their verdicts.
ghost use Rattle.std.specs.Prelude.{◌≡◌};
ghost use Rattle.record_text.specs.Reading.{one, lookup, IsRead};
ghost use Rattle.record_text.specs.Parts.{with_drawn, trap_at, end_tail, end_at, plain_tail, plain_at, denied_at, strong_free_at, verdict_tail, verdict_at};
ghost use Rattle.record_text.specs.Whole.{reply_at};

use crate::fields::prov_at;
use crate::keys::{EndKey, PlainKey, VerdictKey};
use crate::numbers::{u32_at, u64_at};
use crate::pieces::piece_at;
use crate::stop::{Read, Words};
use crate::tables::{among, flag_at, side_at};
use bsan_ids::{AllocNo, Stamp, Tag, ThreadNo};
use eager_tree::Violation;
use history::{End, Plain, Reply, Trap, Verdict};
use perm_table::Perm;
use std::alloc::Global;

/// The trap of a name, with the number that it needs.
fn with_drawn<'a>(named: Trap, words: Words<'a>) -> Read<'a, Trap>
    ensures { IsRead (with_drawn named) words.entry result }
{
    match named {
        Trap::AllocLimit { .. } => {
            let (drawn, words) = u64_at(words)?;
            Ok((Trap::AllocLimit { drawn }, words))
        }
        Trap::ThreadLimit { .. } => {
            let (drawn, words) = u64_at(words)?;
            Ok((Trap::ThreadLimit { drawn }, words))
        }
        _ => Ok((named, words)),
    }
}

#[tactic(auto, unfolding(crate::specs::Parts::trap_at))]
fn trap(words: Words<'_>) -> Read<'_, Trap>
    ensures { IsRead trap_at words.entry result }
{
    let (named, words) = among::<Trap>(words)?;
    with_drawn(named, words)
}

fn end_tail<'a>(key: EndKey, words: Words<'a>) -> Read<'a, End>
    ensures { IsRead (end_tail key) words.entry result }
{
    match key {
        EndKey::Returned => {
            let (value, words) = u64_at(words)?;
            let (carried, words) = prov_at(words)?;
            Ok((End::Returned { value, carried }, words))
        }
        EndKey::Trapped => {
            let (trap, words) = trap(words)?;
            Ok((End::Trapped(trap), words))
        }
        EndKey::StepLimit => {
            let (stamp, words) = u64_at(words)?;
            Ok((End::StepLimit(Stamp(stamp)), words))
        }
        EndKey::TurnLimit => Ok((End::TurnLimit, words)),
        EndKey::NoMemory => Ok((End::NoMemory, words)),
        EndKey::ChildEnded => {
            let (child, words) = u32_at(words)?;
            Ok((End::ChildEnded(ThreadNo(child)), words))
        }
    }
}

/// How a thread ended.
#[tactic(auto, unfolding(crate::specs::Parts::end_at))]
pub fn end(words: Words<'_>) -> Read<'_, End>
    ensures { IsRead end_at words.entry result }
{
    let (key, words) = among::<EndKey>(words)?;
    end_tail(key, words)
}

fn plain_tail<'a>(alloc: Global, key: PlainKey, words: Words<'a>) -> Read<'a, Plain>
    ensures { IsRead (plain_tail key) words.entry result }
{
    match key {
        PlainKey::Made => {
            let (number, words) = u32_at(words)?;
            Ok((Plain::Made(AllocNo(number)), words))
        }
        PlainKey::Value => {
            let (value, words) = u64_at(words)?;
            Ok((Plain::Value(value), words))
        }
        PlainKey::Copied => {
            let (piece, words) = piece_at(alloc, words)?;
            Ok((Plain::Copied(piece), words))
        }
        PlainKey::Done => Ok((Plain::Done, words)),
        PlainKey::Retagged => {
            let (added, words) = flag_at(words)?;
            Ok((Plain::Retagged { added }, words))
        }
        PlainKey::Spawned => {
            let (number, words) = u32_at(words)?;
            Ok((Plain::Spawned(ThreadNo(number)), words))
        }
        PlainKey::Trapped => {
            let (trap, words) = trap(words)?;
            Ok((Plain::Trapped(trap), words))
        }
    }
}

#[tactic(auto, unfolding(crate::specs::Parts::plain_at))]
fn plain<'a>(alloc: Global, words: Words<'a>) -> Read<'a, Plain>
    ensures { IsRead plain_at words.entry result }
{
    let (key, words) = among::<PlainKey>(words)?;
    plain_tail(alloc, key, words)
}

#[tactic(auto, unfolding(crate::specs::Parts::denied_at))]
fn denied(words: Words<'_>) -> Read<'_, Verdict>
    ensures { IsRead denied_at words.entry result }
{
    let (offset, words) = u32_at(words)?;
    let (node, words) = u64_at(words)?;
    let (perm, words) = among::<Perm>(words)?;
    let (local, words) = side_at(words)?;
    let node = Tag(node);
    Ok((
        Verdict::Violated(Violation::Denied {
            offset,
            node,
            perm,
            local,
        }),
        words,
    ))
}

#[tactic(auto, unfolding(crate::specs::Parts::strong_free_at))]
fn strong_free(words: Words<'_>) -> Read<'_, Verdict>
    ensures { IsRead strong_free_at words.entry result }
{
    let (offset, words) = u32_at(words)?;
    let (node, words) = u64_at(words)?;
    let (perm, words) = among::<Perm>(words)?;
    let node = Tag(node);
    Ok((
        Verdict::Violated(Violation::StrongFree { offset, node, perm }),
        words,
    ))
}

fn verdict_tail<'a>(key: VerdictKey, words: Words<'a>) -> Read<'a, Verdict>
    ensures { IsRead (verdict_tail key) words.entry result }
{
    match key {
        VerdictKey::Clean => Ok((Verdict::Clean, words)),
        VerdictKey::Closed => Ok((Verdict::Closed, words)),
        VerdictKey::Denied => denied(words),
        VerdictKey::StrongFree => strong_free(words),
        VerdictKey::Stranger => Ok((Verdict::Violated(Violation::Stranger), words)),
        VerdictKey::Freed => Ok((Verdict::Violated(Violation::Freed), words)),
        VerdictKey::OutOfRange => Ok((Verdict::Violated(Violation::OutOfRange), words)),
    }
}

#[tactic(auto, unfolding(crate::specs::Parts::verdict_at))]
fn verdict(words: Words<'_>) -> Read<'_, Verdict>
    ensures { IsRead verdict_at words.entry result }
{
    let (key, words) = among::<VerdictKey>(words)?;
    verdict_tail(key, words)
}

/// A reply.
#[tactic(auto, unfolding(crate::specs::Whole::reply_at))]
pub fn reply<'a>(alloc: Global, words: Words<'a>) -> Read<'a, Reply>
    ensures { IsRead reply_at words.entry result }
{
    let (plain, words) = plain(alloc, words)?;
    let (carried, words) = prov_at(words)?;
    let (verdict, words) = verdict(words)?;
    Ok((
        Reply {
            plain,
            carried,
            verdict,
        },
        words,
    ))
}
