//! Numbers in a command line.
ghost use Rattle.std.specs.Prelude.{◌≡◌, ◌≤◌, ◌<◌, ◌++◌, ◌∷◌, ◌⊎◌, [], map, length, Some, None, IfSome, IfOk, OnOk, IsErrOf, option_map};
ghost use Rattle.command_words.specs.Numbers as numbers;
ghost use Rattle.command_words.specs.Schedules as schedules;

use crate::WordsFault;
use bsan_ids::{ListOf, ThreadNo};
use std::alloc::Global;

/// The most numbers of a schedule.
const MOST_PICKS: usize = 65_536;

/// The number that a text of decimal digits writes, at most so many, where it is in this range.
pub(crate) fn number_in(digits: usize, least: u64, most: u64, text: &str) -> Option<u64>
    ensures number { result ≡ numbers.number_in digits least most text.now }
    ensures within { IfSome result (λ number. (least ≤ number) × (number ≤ most)) }
{
    if text.len() > digits || text.starts_with('+') {
        return None;
    }
    match text.parse::<u64>() {
        Ok(number) if least <= number && number <= most => Some(number),
        _ => None,
    }
}

/// Appends the number of a thread to a schedule, which is to have at most 65,536.
fn add_pick(picks: &mut ListOf<ThreadNo>, text: &str) -> Result<(), WordsFault>
    ensures room { OnOk result (length picks.old < 65536) }
    ensures added { OnOk result (option_map (λ n. map (λ p. p.0) picks.old ++ n ∷ []) (schedules.pick_of text.now)
        ≡ Some (map (λ p. p.0) picks.new)) }
    ensures refused { IsErrOf result WordsFault.Refused
        → (schedules.pick_of text.now ≡ None) ⊎ (65536 ≤ length picks.old) }
{
    if picks.len() >= MOST_PICKS {
        return Err(WordsFault::Refused);
    }
    let Some(number) = number_in(4, 0, 1023, text) else {
        return Err(WordsFault::Refused);
    };
    picks.push(ThreadNo(number as u32))?;
    Ok(())
}

/// The numbers of a schedule, which are separated by commas.
pub(crate) fn schedule(alloc: Global, text: &str) -> Result<ListOf<ThreadNo>, WordsFault>
    ensures numbers { IfOk result (λ picks. schedules.schedule_of text.now ≡ Some (map (λ p. p.0) picks)) }
    ensures refused { IsErrOf result WordsFault.Refused → schedules.schedule_of text.now ≡ None }
{
    let mut picks = ListOf::new(alloc);
    let mut rest = text;
    while let Some((first, more)) = rest.split_once(',') {
        add_pick(&mut picks, first)?;
        rest = more;
    }
    add_pick(&mut picks, rest)?;
    Ok(picks)
}
