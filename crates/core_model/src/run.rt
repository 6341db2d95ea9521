//! All threads of a run, and one pick of one of them.
ghost use Rattle.std.specs.Prelude.{◌≡◌, ◌≢◌, ◌<◌, ◌≤◌, [], ◌∷◌, ◌++◌, None, Some, IsTrue, slice_get, length, vec_len, vec_capacity};
ghost use Rattle.std.specs.Option.{option_map};
ghost use Rattle.runs.specs.Threads.{AsksStep};
ghost use Rattle.thread_machine.specs.Views.{IsSpawn};
ghost use Rattle.core_model.specs.Fibers.{all_seen};
ghost use Rattle.core_model.specs.Running.{IsUnderWay, Picks, IsSettled, GoesOn};
ghost use Rattle.core_model.specs.Ends.{end_in, is_open, IsEndOf, EndsAt, RestsBy};
ghost use Rattle.core_model.specs.Turns.{Rests};

use crate::fiber::{Fiber, Took};
use bsan_ids::{Limits, ThreadNo};
use history::{Ask, End};
use hosts::Hosts;
use instr_sound::{Thread, end_by, settle};
use run_memory::RunMemory;

/// All threads of a run, the k-th with the number k, and its allocations.
#[derive(Drop)]
pub(crate) struct Run<T> {
    pub fibers: Vec<Fiber<T>>,
    pub memory: RunMemory,
}

/// What a pick came to.
#[derive(Clone, Copy)]
pub(crate) enum Pick {
    /// The thread can't go on: there is none of this number, it has ended, or it waits for a child.
    Rests,
    /// It made a step, and has not ended.
    Stepped,
    /// It has ended, with a step or without one.
    Ended,
}

/// The end of a thread, once it has ended.
fn end_of<T>(fibers: &[Fiber<T>], number: ThreadNo) -> Option<End>
    ensures { result ≡ end_in fibers.now number.0 }
{
    match fibers.get(number.0 as usize) {
        Some(fiber) => fiber.end,
        None => None,
    }
}

/// Whether there is a thread of this number that has not ended.
fn is_open<T>(fibers: &[Fiber<T>], number: ThreadNo) -> bool
    ensures { result ≡ is_open (slice_get fibers.now number.0) }
{
    match fibers.get(number.0 as usize) {
        Some(fiber) => fiber.end.is_none(),
        None => false,
    }
}

/// How the thread has ended after a step, if its state is an end.
fn end_here<T: Thread>(thread: &T, limits: &Limits) -> Option<End>
    ensures { Rests (T.setting thread.now) limits.now (T.state thread.now) result }
{
    if thread.begins() && thread.instructions() == limits.turns {
        return Some(End::TurnLimit);
    }
    match thread.ended() {
        Some(end) => Some(end_by(end)),
        None => None,
    }
}

/// Ends a thread that made a step where its state is an end.
fn rest<T: Thread>(fiber: &mut Fiber<T>, limits: &Limits) -> Pick
    ensures { RestsBy T.setting T.state limits.now fiber.old fiber.new result }
{
    let over = end_here(&fiber.thread, limits);
    fiber.end = over;
    match over {
        Some(_) => Pick::Ended,
        None => Pick::Stepped,
    }
}

/// Adds a child, for which there is room.
fn add_child<T>(fibers: &mut Vec<Fiber<T>>, child: Box<Fiber<T>>)
    requires { vec_len fibers.old < vec_capacity fibers.old }
    ensures { fibers.new.items ≡ fibers.old.items ++ child.value ∷ [] }
{
    fibers.push_reserved(Box::into_inner(child));
}

/// The step that a settled thread asks for. `joined` is the end of the child where it asks to join one.
fn take_step<T: Thread>(
    run: &mut Run<T>,
    number: ThreadNo,
    joined: Option<End>,
    ask: Ask,
    limits: &Limits,
    hosts: &Hosts,
) -> Pick
    requires settled { IsSettled limits.now hosts.now.table run.old.memory number.0 ask (all_seen T.setting T.state run.old.fibers.items) }
    requires step { AsksStep ask }
    requires joined { IsEndOf ask run.old.fibers.items joined }
    requires room { IsSpawn ask → vec_len run.old.fibers < vec_capacity run.old.fibers }
    ensures { GoesOn limits.now hosts.now.table run.old.memory number.0 ask (all_seen T.setting T.state run.old.fibers.items) (all_seen T.setting T.state run.new.fibers.items) run.new.memory result }
{
    let fiber = &mut run.fibers[number.0 as usize];
    match fiber.step(&mut run.memory, hosts, number, joined, ask) {
        Took::Ended => Pick::Ended,
        Took::Stepped(None) => rest(fiber, limits),
        Took::Stepped(Some(child)) => {
            let came = rest(fiber, limits);
            add_child(&mut run.fibers, child);
            came
        }
    }
}

/// Ends a settled thread.
fn end_thread<T: Thread>(run: &mut Run<T>, number: ThreadNo, why: End)
    requires { number.0 < length run.old.fibers.items }
    ensures memory { run.new.memory ≡ run.old.memory }
    ensures fibers { EndsAt T.setting T.state run.old.fibers.items number.0 why run.new.fibers.items }
{
    let fiber = &mut run.fibers[number.0 as usize];
    fiber.finish(why);
}

/// What a settled thread asks.
fn act<T: Thread>(
    run: &mut Run<T>,
    number: ThreadNo,
    ask: Ask,
    limits: &Limits,
    hosts: &Hosts,
) -> Pick
    requires { IsSettled limits.now hosts.now.table run.old.memory number.0 ask (all_seen T.setting T.state run.old.fibers.items) }
    ensures { GoesOn limits.now hosts.now.table run.old.memory number.0 ask (all_seen T.setting T.state run.old.fibers.items) (all_seen T.setting T.state run.new.fibers.items) run.new.memory result }
{
    match ask {
        Ask::Ended(end) => {
            end_thread(run, number, end_by(end));
            Pick::Ended
        }
        Ask::Join { child } => match end_of(&run.fibers, child) {
            None => Pick::Rests,
            joined => take_step(run, number, joined, ask, limits, hosts),
        },
        Ask::Spawn { function } => match run.fibers.reserve(1) {
            Ok(()) => take_step(run, number, None, Ask::Spawn { function }, limits, hosts),
            Err(_) => {
                end_thread(run, number, End::NoMemory);
                Pick::Ended
            }
        },
        step => take_step(run, number, None, step, limits, hosts),
    }
}

/// Settles a thread that has not ended, and goes on with what it asks.
fn go_on<T: Thread>(run: &mut Run<T>, number: ThreadNo, limits: &Limits, hosts: &Hosts) -> Pick
    requires under_way { IsUnderWay limits.now hosts.now.table (all_seen T.setting T.state run.old.fibers.items) run.old.memory }
    requires within { IsTrue (is_open (slice_get run.old.fibers.items number.0)) }
    ensures { Picks limits.now hosts.now.table (all_seen T.setting T.state run.old.fibers.items) run.old.memory number.0 (all_seen T.setting T.state run.new.fibers.items) run.new.memory result }
{
    let fiber = &mut run.fibers[number.0 as usize];
    match settle(&mut fiber.thread, limits.turns) {
        Ok(ask) => act(run, number, ask, limits, hosts),
        Err(why) => {
            fiber.finish(why);
            Pick::Ended
        }
    }
}

/// Picks a thread: it makes its local instructions until it asks for a step or ends, and then that one step. Where this
/// is a join of a child that has not ended, the pick ends without it. A thread that can't go on is passed over.
pub(crate) fn pick_thread<T: Thread>(
    run: &mut Run<T>,
    number: ThreadNo,
    limits: &Limits,
    hosts: &Hosts,
) -> Pick
    requires { IsUnderWay limits.now hosts.now.table (all_seen T.setting T.state run.old.fibers.items) run.old.memory }
    ensures { Picks limits.now hosts.now.table (all_seen T.setting T.state run.old.fibers.items) run.old.memory number.0 (all_seen T.setting T.state run.new.fibers.items) run.new.memory result }
{
    if is_open(&run.fibers, number) {
        go_on(run, number, limits, hosts)
    } else {
        Pick::Rests
    }
}
