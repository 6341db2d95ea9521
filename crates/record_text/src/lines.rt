//! Lines.
ghost use Rattle.std.specs.Prelude.{◌≡◌, option_map};
ghost use Rattle.record_text.specs.Reading.{one, lookup, Gives, IsRead};
ghost use Rattle.record_text.specs.Whole.{counters_at, head_at, alloc_of, step_parts_at, step_at, line_tail, line_at, line_in};

use crate::cut::{next, pass};
use crate::fields::parent_at;
use crate::keys::LineKey;
use crate::line::{Head, Line, Step};
use crate::numbers::{u32_at, u64_at};
use crate::replies::{end, reply};
use crate::requests::{Asked, request};
use crate::stop::{Read, Stop, Words};
use crate::tables::Word;
use bsan_ids::{AllocNo, Counters, Stamp, ThreadNo};
use history::{Plain, Reply, Request};
use std::alloc::Global;

#[tactic(auto, unfolding(crate::specs::Whole::counters_at))]
fn counters(words: Words<'_>) -> Read<'_, Counters>
    ensures { IsRead counters_at words.entry result }
{
    let (stamps, words) = u64_at(words)?;
    let (allocs, words) = u64_at(words)?;
    let (threads, words) = u64_at(words)?;
    Ok((
        Counters {
            stamps,
            allocs,
            threads,
        },
        words,
    ))
}

#[tactic(auto, unfolding(crate::specs::Whole::head_at))]
fn head(words: Words<'_>) -> Read<'_, Head>
    ensures { IsRead head_at words.entry result }
{
    let (number, words) = u32_at(words)?;
    let (parent, words) = parent_at(words)?;
    let (entry_function, words) = u32_at(words)?;
    let (instructions, words) = u64_at(words)?;
    let (last, words) = u32_at(words)?;
    let (end, words) = end(words)?;
    let head = Head {
        number: ThreadNo(number),
        parent,
        entry_function,
        instructions,
        last,
        end,
    };
    Ok((head, words))
}

/// The allocation of a step: that of its request, and for a Make that of its reply.
fn alloc_of(asked: Option<AllocNo>, request: &Request, plain: &Plain) -> Option<Option<AllocNo>>
    ensures { result ≡ alloc_of asked request.now plain.now }
{
    match request {
        Request::Make { .. } => match plain {
            Plain::Made(number) => Some(Some(*number)),
            _ => None,
        },
        _ => Some(asked),
    }
}

/// The parts of a step: its stamp, its site, its request and its reply.
#[tactic(auto, unfolding(crate::specs::Whole::step_parts_at))]
fn step_parts<'a>(alloc: Global, words: Words<'a>) -> Read<'a, (u64, (u32, (Asked, Reply)))>
    ensures { IsRead step_parts_at words.entry result }
{
    let (stamp, words) = u64_at(words)?;
    let (site, words) = u32_at(words)?;
    let (asked, words) = request(alloc, words)?;
    let words = pass(b"=", words)?;
    let (reply, words) = reply(alloc, words)?;
    Ok(((stamp, (site, (asked, reply))), words))
}

#[tactic(auto, unfolding(crate::specs::Whole::step_at))]
fn step<'a>(alloc: Global, words: Words<'a>) -> Read<'a, Step>
    ensures { IsRead step_at words.entry result }
{
    let (parts, words) = step_parts(alloc, words)?;
    let (stamp, (site, ((asked, request), reply))) = parts;
    match alloc_of(asked, &request, &reply.plain) {
        Some(number) => {
            let step = Step {
                stamp: Stamp(stamp),
                site,
                alloc: number,
                request,
                reply,
            };
            Ok((step, words))
        }
        None => Err(Stop::Bad),
    }
}

fn line_tail<'a>(key: LineKey, words: Words<'a>) -> Read<'a, Line>
    ensures { IsRead (line_tail key) words.entry result }
{
    match key {
        LineKey::Title => {
            let words = pass(b"1", words)?;
            Ok((Line::Title, words))
        }
        LineKey::Words => {
            let (drawn, words) = counters(words)?;
            Ok((Line::Words(drawn), words))
        }
        LineKey::Thread => {
            let (head, words) = head(words)?;
            Ok((Line::Thread(head), words))
        }
        LineKey::End => Ok((Line::End, words)),
    }
}

#[tactic(auto, unfolding(crate::specs::Whole::line_at))]
fn line<'a>(alloc: Global, words: Words<'a>) -> Read<'a, Line>
    ensures { IsRead line_at words.entry result }
{
    let (word, rest) = next(words)?;
    match LineKey::of_word(word) {
        Some(key) => line_tail(key, rest),
        None => {
            let (step, rest) = step(alloc, words)?;
            Ok((Line::Step(step), rest))
        }
    }
}

/// The line that a text is, without its newline.
#[tactic(auto, unfolding(crate::specs::Whole::line_in))]
pub fn read_line(alloc: Global, text: &[u8]) -> Result<Line, Stop>
    ensures { Gives (λ x. x) result (line_in text.now) }
{
    let (line, rest) = line(alloc, Some(text))?;
    match rest {
        Some(_) => Err(Stop::Bad),
        None => Ok(line),
    }
}
