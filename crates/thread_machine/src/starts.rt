//! A frame and a thread at the beginning of a function.
ghost use Rattle.std.specs.Prelude.{◌≡◌, slice_get, IfOk, Some};
ghost use Rattle.thread_machine.specs.Thread.{block_at, turn_number as first_number};
ghost use Rattle.thread_machine.specs.Ready.{HasSpare};
ghost use Rattle.thread_machine.specs.Views.{begun_frame, entry_of, first_thread, slots_of};

use crate::calls::Spare;
use crate::copying::CopyProgress;
use crate::frame::Frame;
use crate::row::ArgRow;
use crate::state::ThreadState;
use bsan_ids::NoMemory;
use history::Arg;
use std::alloc::Global;
use target_code::{Line, Target};
use thread_parts::Owned;

/// The lines of a block of a function, none where it isn't there.
pub(crate) fn block_lines<'p>(target: &'p Target, function: u32, block: u32) -> &'p [Line]
    ensures lines { result.now ≡ block_at (slice_get target.now.functions function) block }
{
    match target.functions.as_slice().get(function as usize) {
        Some(found) => match found.blocks.as_slice().get(block as usize) {
            Some(lines) => lines.as_slice(),
            None => &[],
        },
        None => &[],
    }
}

/// The entry lines of a function, none where it isn't there.
fn entry_lines<'p>(target: &'p Target, function: u32) -> &'p [Line]
    ensures { entry_of (slice_get target.now.functions function) ≡ result.now }
{
    match target.functions.as_slice().get(function as usize) {
        Some(found) => found.entry.as_slice(),
        None => &[],
    }
}

/// How many slots a function has, none where it isn't there.
fn slot_count(target: &Target, function: u32) -> usize
    ensures { result ≡ slots_of (slice_get target.now.functions function) }
{
    match target.functions.as_slice().get(function as usize) {
        Some(found) => found.slots as usize,
        None => 0,
    }
}

/// The number of the instruction with which these lines begin.
fn turn_number(lines: &[Line]) -> u32
    ensures { result ≡ first_number lines.now }
{
    match lines.first() {
        Some(Line::Turn { number }) => *number,
        _ => 0,
    }
}

/// A frame at the beginning of a function, which is handed this row.
///
/// # Errors
///
/// `NoMemory`: out of memory.
#[tactic(auto, using(crate::proofs::Starting::frame_is))]
pub(crate) fn new_frame<'p>(
    alloc: Global,
    target: &'p Target,
    function: u32,
    handed: ArgRow,
) -> Result<Frame<'p>, NoMemory>
    ensures { IfOk result (λ f. f ≡ begun_frame target.now function handed.row) }
{
    let slots = slot_count(target, function);
    let after = block_lines(target, function, 0);
    let blank = Arg {
        value: 0,
        prov: None,
    };
    Ok(Frame {
        function,
        site: turn_number(after),
        rest: entry_lines(target, function),
        after,
        words: vec![in alloc; 0; slots]?,
        shadows: vec![in alloc; None; slots]?,
        handed,
        result: blank,
        given: blank,
    })
}

/// What a call of a function needs.
///
/// # Errors
///
/// `NoMemory`: out of memory.
pub(crate) fn new_spare<'p>(
    alloc: Global,
    target: &'p Target,
    function: u32,
    width: usize,
) -> Result<Spare<'p>, NoMemory>
    ensures { IfOk result (λ spare. HasSpare target.now width function (Some spare)) }
{
    let handed = ArgRow::new(alloc, 0)?;
    Ok(Spare {
        frame: new_frame(alloc, target, function, handed)?,
        row: ArgRow::new(alloc, width)?,
    })
}

/// A thread in front of a function's first line, whose rows have this width.
///
/// # Errors
///
/// `NoMemory`: out of memory.
pub(crate) fn first_state<'p>(
    alloc: Global,
    target: &'p Target,
    function: u32,
    handed: ArgRow,
    width: usize,
) -> Result<ThreadState<'p>, NoMemory>
    ensures thread { IfOk result (λ s. s.thread ≡ first_thread target.now function handed.row) }
    ensures width { IfOk result (λ s. s.width ≡ width) }
{
    Ok(ThreadState {
        top: new_frame(alloc, target, function, handed)?,
        owned: Owned::new(alloc),
        callers: Vec::new(alloc),
        row: ArgRow::new(alloc, width)?,
        loaded: None,
        stored: None,
        copying: CopyProgress::new(),
        begun: true,
        count: 0,
        over: None,
    })
}
