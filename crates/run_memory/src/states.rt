//! The states of allocations, by their numbers.
ghost use Rattle.std.specs.Prelude.{◌≡◌, ◌++◌, ◌+◌, ◌<◌, ◌≤◌, ◌^◌, [], IsTrue, All, OnOk, IfOk, true, false, length};
ghost use Rattle.history.specs.Histories.{HasBytes, fits, is_make};
ghost use Rattle.alloc_state.specs.Log.{has_make};
ghost use Rattle.history.specs.declared.entry.Request.TheVariants as request;
ghost use Rattle.runs.specs.ReplayLaw.{with_history};
ghost use Rattle.run_memory.specs.Memory.{with_stamp, Asks, Makes};
ghost use Rattle.run_memory.specs.States.{AreLegal, IsLonger, IsTable, TableAfter, memory_in, StepsOn, StepsAside, IsNextStamp, named_in, is_out_of_memory};

use alloc_state::AllocState;
use bsan_ids::{AllocNo, Counters, Limits, ListOf, NoMemory, Stamp, ThreadNo};
use history::{AllocLog, End, Entry, Request, Trap};
use ir_ast::Place;
use std::alloc::Global;

/// What a step came to: its entry, or the end of its thread.
#[derive(Drop)]
pub enum Step {
    /// The step was made.
    Done(Entry),
    /// The thread ends for this.
    Ends(End),
}

/// Which thread makes a step, and at which instruction.
#[derive(Clone, Copy)]
pub(crate) struct Origin {
    pub thread: ThreadNo,
    pub site: u32,
}

/// The next stamp, or the one above the limit, which is drawn too.
pub(crate) fn draw_stamp(words: &mut Counters, steps: u64) -> Result<Stamp, Stamp>
    requires { words.old.stamps + 1 < 2 ^ 64 }
    ensures words { words.new ≡ with_stamp words.old }
    ensures stamp { IsNextStamp words.old steps result }
{
    let within = words.stamps < steps;
    words.stamps += 1;
    let stamp = Stamp(words.stamps);
    if within { Ok(stamp) } else { Err(stamp) }
}

/// A step on an allocation: its memory is taken, then its stamp is drawn, then it is made.
// inlined, since a call moves the request and the entry once more
#[inline(always)]
pub(crate) fn step_on(
    state: &mut AllocState,
    words: &mut Counters,
    steps: u64,
    origin: Origin,
    request: Request,
) -> Step
    requires room { words.old.stamps + 1 < 2 ^ 64 }
    requires earlier { All (λ e. e.stamp.0 ≤ words.old.stamps) state.old.entries }
    requires fitting { IsTrue (fits request) }
    requires bytes { HasBytes request }
    requires once { is_make request ≡ true → has_make state.old.entries ≡ false }
    ensures { StepsOn state.old words.old steps origin.thread origin.site request state.new words.new result }
{
    if state.prepare(&request).is_err() {
        return Step::Ends(End::NoMemory);
    }
    match draw_stamp(words, steps) {
        Ok(stamp) => Step::Done(state.commit(origin.thread, stamp, origin.site, request)),
        Err(stamp) => Step::Ends(End::StepLimit(stamp)),
    }
}

/// Makes states up to this number, of allocations that were never made.
pub(crate) fn reach(states: &mut Vec<AllocState>, number: u32) -> Result<(), NoMemory>
    requires { length states.old.items < 2 ^ 32 }
    ensures longer { IsLonger number states.old.items states.new.items }
    ensures reached { OnOk result (number ≤ length states.new.items) }
{
    let alloc = *states.allocator();
    while states.len() < number as usize {
        let next = AllocNo(states.len() as u32 + 1);
        states.push(AllocState::unmade(alloc, next))?;
    }
    Ok(())
}

/// A step on a number that was never asked, whose entry isn't kept.
pub(crate) fn step_aside(
    alloc: Global,
    number: AllocNo,
    words: &mut Counters,
    steps: u64,
    origin: Origin,
    request: Request,
) -> Step
    requires room { words.old.stamps + 1 < 2 ^ 64 }
    requires fitting { IsTrue (fits request) }
    requires bytes { HasBytes request }
    ensures { StepsAside words.old steps origin.thread origin.site number request words.new result }
{
    let mut state = AllocState::unmade(alloc, number);
    step_on(&mut state, words, steps, origin, request)
}

/// A step on a number within the limit.
// inlined, since a call moves the request and the entry once more
#[inline(always)]
pub(crate) fn step_at(
    states: &mut Vec<AllocState>,
    words: &mut Counters,
    limits: Limits,
    origin: Origin,
    number: AllocNo,
    request: Request,
) -> Step
    requires table { IsTable limits words.old states.old.items }
    requires above { 0 < number.0 }
    requires within { number.0 ≤ limits.allocs }
    requires room { words.old.stamps + 1 < 2 ^ 64 }
    requires fitting { IsTrue (fits request) }
    requires bytes { HasBytes request }
    requires once { is_make request ≡ true → words.old.allocs < number.0 }
    ensures table { TableAfter limits words.new number.0 request states.new.items result }
    ensures asks { Asks (memory_in limits words.old states.old.items) origin.thread origin.site number request (memory_in limits words.new states.new.items) result }
{
    match reach(states, number.0) {
        Ok(()) => {}
        Err(NoMemory) => return Step::Ends(End::NoMemory),
    }
    let state = &mut states[number.0 as usize - 1];
    step_on(state, words, limits.steps, origin, request)
}

/// Makes the next allocation.
pub(crate) fn make_next(
    states: &mut Vec<AllocState>,
    words: &mut Counters,
    limits: Limits,
    origin: Origin,
    size: u32,
    place: Place,
) -> Step
    requires table { IsTable limits words.old states.old.items }
    requires stamps { words.old.stamps + 1 < 2 ^ 64 }
    requires allocs { words.old.allocs + 1 < 2 ^ 64 }
    requires fitting { IsTrue (fits (request.Make size place)) }
    ensures table { IsTable limits words.new states.new.items }
    ensures makes { Makes (memory_in limits words.old states.old.items) origin.thread origin.site size place (memory_in limits words.new states.new.items) result }
{
    let next = words.allocs + 1;
    let most = limits.allocs;
    if u64::from(most) < next {
        words.allocs = next;
        return Step::Ends(End::Trapped(Trap::AllocLimit { drawn: next }));
    }
    let number = AllocNo(next as u32);
    let request = Request::Make { size, place };
    let step = step_at(states, words, limits, origin, number, request);
    if is_out_of_memory(&step) {
        return step;
    }
    words.allocs = next;
    step
}

fn is_out_of_memory(step: &Step) -> bool
    ensures { result ≡ is_out_of_memory step.now }
{
    matches!(step, Step::Ends(End::NoMemory))
}

/// Appends the log of an allocation that an entry names.
fn push_log(logs: &mut ListOf<AllocLog>, state: AllocState) -> Result<(), NoMemory>
    ensures logs { OnOk result (logs.new ≡ logs.old ++ with_history state.number.0 state.entries []) }
    ensures legal { OnOk result (AreLegal logs.old → AreLegal logs.new) }
{
    let number = state.number();
    let entries = state.into_entries();
    if entries.is_empty() {
        return Ok(());
    }
    logs.push(AllocLog { number, entries })?;
    Ok(())
}

/// The logs of the allocations that an entry names, in the order of the states. Each is a legal history of its number.
///
/// # Errors
///
/// `NoMemory`: out of memory.
pub fn logs_of(alloc: Global, states: Vec<AllocState>) -> Result<ListOf<AllocLog>, NoMemory>
    ensures logs { IfOk result (λ logs. logs ≡ named_in states.items) }
    ensures legal { IfOk result AreLegal }
{
    let mut logs = ListOf::new(alloc);
    for state in states {
        push_log(&mut logs, state)?;
    }
    Ok(logs)
}
