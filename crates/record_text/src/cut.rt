//! Texts that are cut at bytes of one value.
ghost use Rattle.std.specs.Prelude.{◌≡◌, ◌==◌, ◌<◌, ◌∷◌, length, take_while, IfSome, option_map};
ghost use Rattle.std.specs.List.{slice_split};
ghost use Rattle.record_text.specs.Reading.{other_than, left, two_of, three_of, IsPassed, IsWord};

use crate::stop::{Read, Stop, Words};

/// How many bytes stand before the first of this value.
fn len_before(text: &[u8], at: u8) -> usize
    ensures { result ≡ length (take_while (other_than at) text.now) }
{
    text.iter().take_while(|byte| **byte != at).count()
}

/// What stands before the first byte of this value, and what stands behind it, if there is one.
pub fn cut(text: &[u8], at: u8) -> (&[u8], Option<&[u8]>)
    ensures parts { slice_split (λ b. b == at) text.now ≡ result.0.now ∷ left at result.1 }
    ensures shorter { IfSome result.1 (λ rest. length rest.now < length text.now) }
{
    let before = len_before(text, at);
    if before < text.len() {
        let (first, _) = text.split_at(before);
        let (_, rest) = text.split_at(before + 1);
        (first, Some(rest))
    } else {
        (text, None)
    }
}

/// The parts of a text that has one byte of this value.
#[tactic(auto, using(crate::proofs::Prefixes::two_more))]
pub fn two(text: &[u8], at: u8) -> Option<(&[u8], &[u8])>
    ensures { option_map (λ x. (x.0.now, x.1.now)) result ≡ two_of (slice_split (λ b. b == at) text.now) }
{
    let (first, rest) = cut(text, at);
    let (second, rest) = cut(rest?, at);
    match rest {
        Some(_) => None,
        None => Some((first, second)),
    }
}

/// The parts of a text that has two bytes of this value.
#[tactic(auto, using(crate::proofs::Prefixes::three_more))]
pub fn three(text: &[u8], at: u8) -> Option<(&[u8], (&[u8], &[u8]))>
    ensures { option_map (λ x. (x.0.now, (x.1.0.now, x.1.1.now))) result ≡ three_of (slice_split (λ b. b == at) text.now) }
{
    let (first, rest) = cut(text, at);
    let (second, rest) = cut(rest?, at);
    let (third, rest) = cut(rest?, at);
    match rest {
        Some(_) => None,
        None => Some((first, (second, third))),
    }
}

/// The next word.
pub fn next(words: Words<'_>) -> Read<'_, &[u8]>
    ensures { IsWord words.entry result }
{
    match words {
        Some(text) => Ok(cut(text, b' ')),
        None => Err(Stop::Bad),
    }
}

/// Passes this word.
pub fn pass<'a>(text: &[u8], words: Words<'a>) -> Result<Words<'a>, Stop>
    ensures { IsPassed text.now words.entry result }
{
    let (word, rest) = next(words)?;
    if word == text {
        Ok(rest)
    } else {
        Err(Stop::Bad)
    }
}
