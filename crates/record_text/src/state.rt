//! What the lines of a text so far say.
ghost use Rattle.std.specs.Prelude.{◌≡◌, option_map};
ghost use Rattle.record_text.specs.Reading.{Gives};
ghost use Rattle.record_text.specs.Whole.{is_next, opened, entry_of, with_step, with_log, after_line, after_text};

use crate::line::{Head, Line, Step};
use crate::lines::read_line;
use crate::stop::Stop;
use bsan_ids::{Counters, ListOf, ThreadNo};
use history::{Entry, ThreadLog};
use std::alloc::Global;

/// What the lines of a text so far say.
#[derive(Drop)]
pub enum State {
    /// No line.
    Start,
    /// The first line.
    Titled,
    /// How many numbers were drawn, and logs, of which the last may go on.
    Logs(Counters, ListOf<ThreadLog>),
    /// All lines.
    Ended(Counters, ListOf<ThreadLog>),
}

fn is_next(logs: &[ThreadLog], number: ThreadNo) -> bool
    ensures { result ≡ is_next logs.now number.0 }
{
    match logs.last() {
        Some(log) => log.number.0 < number.0,
        None => true,
    }
}

fn opened(alloc: Global, head: Head) -> ThreadLog
    ensures { result ≡ opened head }
{
    ThreadLog {
        number: head.number,
        parent: head.parent,
        entry_function: head.entry_function,
        entries: ListOf::new(alloc),
        instructions: head.instructions,
        last: head.last,
        end: head.end,
    }
}

fn entry_of(thread: ThreadNo, step: Step) -> Entry
    ensures { result ≡ entry_of thread step }
{
    Entry {
        thread,
        stamp: step.stamp,
        site: step.site,
        alloc: step.alloc,
        request: step.request,
        reply: step.reply,
    }
}

/// The logs with one more step in the last.
#[tactic(auto, using(crate::proofs::States::last_step), unfolding(crate::specs::Whole::with_step))]
fn with_step(logs: ListOf<ThreadLog>, step: Step) -> Result<ListOf<ThreadLog>, Stop>
    ensures { Gives (λ x. x) result (with_step logs step) }
{
    let mut logs = logs.into_vec();
    match logs.pop() {
        Some(mut log) => {
            log.entries.push(entry_of(log.number, step))?;
            logs.push(log)?;
            Ok(ListOf::from_vec(logs))
        }
        None => Err(Stop::Bad),
    }
}

/// The logs with one more, without steps.
fn with_log(
    alloc: Global,
    drawn: Counters,
    logs: ListOf<ThreadLog>,
    head: Head,
) -> Result<State, Stop>
    ensures { Gives (λ x. x) result (with_log drawn logs head) }
{
    if !is_next(logs.as_slice(), head.number) {
        return Err(Stop::Bad);
    }
    let mut logs = logs;
    logs.push(opened(alloc, head))?;
    Ok(State::Logs(drawn, logs))
}

impl State {
    /// The state after one more line, if a record's lines can go on so.
    fn after_line(self, alloc: Global, line: Line) -> Result<State, Stop>
        ensures { Gives (λ x. x) result (after_line self line) }
    {
        match (self, line) {
            (State::Start, Line::Title) => Ok(State::Titled),
            (State::Titled, Line::Words(drawn)) => Ok(State::Logs(drawn, ListOf::new(alloc))),
            (State::Logs(drawn, logs), Line::Thread(head)) => with_log(alloc, drawn, logs, head),
            (State::Logs(drawn, logs), Line::Step(step)) => {
                let logs = with_step(logs, step)?;
                Ok(State::Logs(drawn, logs))
            }
            (State::Logs(drawn, logs), Line::End) => Ok(State::Ended(drawn, logs)),
            _ => Err(Stop::Bad),
        }
    }

    /// The state after one more line's text, if a record's lines can go on so.
    pub fn after_text(self, alloc: Global, text: &[u8]) -> Result<State, Stop>
        ensures { Gives (λ x. x) result (after_text self text.now) }
    {
        let line = read_line(alloc, text)?;
        self.after_line(alloc, line)
    }
}
