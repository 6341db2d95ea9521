//! The text of a record.
ghost use Rattle.std.specs.Prelude.{◌≡◌, [], Some, IfOk, IfErr};
ghost use Rattle.record_text.specs.Whole.{after_text};
ghost use Rattle.record_text.specs.Texts.{IsTextOf, IsFault, IsUnlessMemory};
ghost use Rattle.record_text.specs.Loop.{RefusesAs, IsUnended, IsTold};
ghost use Rattle.record_text.specs.declared.state.State.TheVariants.{Ended};
ghost use Rattle.record_text.specs.declared.record.RecordFault.TheVariants.{NoMemory};
ghost use Rattle.history.specs.declared.record.RunRecord.{RunRecord};

use crate::cut::cut;
use crate::logs::alloc_logs;
use crate::state::State;
use crate::stop::Stop;
use bsan_ids::{Counters, ListOf};
use history::{RunRecord, ThreadLog};
use std::alloc::Global;

/// Why bytes are read as no record. Lines are counted from 1.
#[derive(Clone, Copy, Debug, PartialEq, Eq)]
pub enum RecordFault {
    /// The bytes are no record's text. This is the first line with which the lines so far begin
    /// none; bytes behind the last newline are a wrong line, and where only lines are missing, it
    /// is the next.
    NotRecord { line: u64 },
    /// Out of memory.
    NoMemory,
}

impl From<bsan_ids::NoMemory> for RecordFault {
    ghost from_gives = { λ _ fault. fault ≡ NoMemory };

    fn from(_: bsan_ids::NoMemory) -> RecordFault {
        RecordFault::NoMemory
    }
}

/// The state after one more line, of this number.
fn after(alloc: Global, state: State, text: &[u8], line: u64) -> Result<State, RecordFault>
    ensures taken { IfOk result (λ next. after_text state text.now ≡ Some next) }
    ensures refused { IfErr result (RefusesAs line (after_text state text.now)) }
{
    match state.after_text(alloc, text) {
        Ok(next) => Ok(next),
        Err(Stop::Memory) => Err(RecordFault::NoMemory),
        Err(Stop::Bad) => Err(RecordFault::NotRecord { line }),
    }
}

/// What all lines say, where no bytes stand behind them. The next line has this number.
fn whole(state: State, rest: &[u8], line: u64) -> Result<(Counters, ListOf<ThreadLog>), RecordFault>
    ensures whole { IfOk result (λ told. (state ≡ Ended told.0 told.1) × (rest.now ≡ [])) }
    ensures refused { IfErr result (IsUnended line state rest.now) }
{
    match state {
        State::Ended(drawn, threads) if rest.is_empty() => Ok((drawn, threads)),
        _ => Err(RecordFault::NotRecord { line }),
    }
}

/// What the lines of a record's text say: the numbers drawn, and the logs of all threads.
fn told(alloc: Global, bytes: &[u8]) -> Result<(Counters, ListOf<ThreadLog>), RecordFault>
    ensures told { IfOk result (λ told. IsTold bytes.now told.0 told.1) }
    ensures refused { IfErr result (IsFault bytes.now) }
{
    let mut state = State::Start;
    let mut rest = bytes;
    let mut line = 1u64;
    loop {
        let (text, more) = cut(rest, b'\n');
        let Some(more) = more else {
            return whole(state, rest, line);
        };
        state = after(alloc, state, text, line)?;
        rest = more;
        line += 1;
    }
}

/// The record of a text, as `write_record` writes it, in a run of at most `allocs` allocations.
///
/// # Errors
///
/// - `NotRecord`: exactly where the bytes are no record's text.
/// - `NoMemory`: out of memory.
pub fn read_record(alloc: Global, bytes: &[u8], allocs: u32) -> Result<RunRecord, RecordFault>
    // What is read has this text.
    ensures found { IfOk result (IsTextOf allocs bytes.now) }
    // Which line is wrong.
    ensures refused { IfErr result (IsFault bytes.now) }
    // A record is read from its text, unless memory runs out.
    ensures again { (kept : RunRecord) → IsTextOf allocs bytes.now kept → IsUnlessMemory kept result }
{
    let (words, threads) = told(alloc, bytes)?;
    let allocs = alloc_logs(alloc, allocs, threads.as_slice())?;
    Ok(RunRecord {
        threads,
        allocs,
        words,
    })
}
