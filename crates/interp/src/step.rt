//! A step that a thread asks for, and that starts and joins no other.
ghost use Rattle.std.specs.Prelude.{◌≡◌, ◌<◌, length, true};
ghost use Rattle.history.specs.Histories.{fits, HasBytes};
ghost use Rattle.history.specs.declared.ask.Ask.TheVariants as ask;
ghost use Rattle.history.specs.declared.entry.Request.TheVariants.{Make};
ghost use Rattle.ir_ast.specs.declared.hosts.HostTable.{HostTable};
ghost use Rattle.runs.specs.Parts.{IsOnNumber};
ghost use Rattle.alloc_space.specs.Spaces.{AreCountable};
ghost use Rattle.interp.specs.Came.{AsksPlainly, CameBy};
ghost use Rattle.interp.specs.Desks.{IsReady};
ghost use Rattle.interp.specs.Views.{StepFits};

use crate::calls::HostCalls;
use alloc_space::{Desk, Made, Space, Stepped};
use bsan_ids::{AllocNo, ThreadNo};
use history::{Ask, End, Entry, Plain, Reply, Request, Trap, Verdict};
use ir_ast::Place;
use outside_io::Gate;
use std::sync::Wait;

/// What a step came to: its entry, or the end of the thread.
#[derive(Drop)]
pub(crate) enum Came {
    Done(Entry),
    Over(End),
}

/// Makes an allocation.
pub(crate) fn make<R: Wait, G: Gate>(
    rt: &R,
    space: &Space,
    desk: &mut Desk,
    gate: &G,
    number: ThreadNo,
    site: u32,
    size: u32,
    place: Place,
) -> Came
    requires own { desk.old.table ≡ space.now.table }
    requires ready { IsReady space.now.limits desk.old.view }
    requires countable { AreCountable space.now.limits }
    requires fitting { fits (Make size place) ≡ true }
    ensures { (hosts : HostTable) → CameBy space.now.limits hosts number site (ask.Make size place) desk.old desk.new result }
{
    match space.make(rt, desk, gate, number, site, size, place) {
        Made::Done(entry) => Came::Done(entry),
        Made::AllocLimit(drawn) => Came::Over(End::Trapped(Trap::AllocLimit { drawn })),
        Made::StepLimit(stamp) => Came::Over(End::StepLimit(stamp)),
        Made::NoMemory => Came::Over(End::NoMemory),
    }
}

/// Asks the allocation of this number.
pub(crate) fn access<R: Wait, G: Gate>(
    rt: &R,
    space: &Space,
    desk: &mut Desk,
    gate: &G,
    number: ThreadNo,
    site: u32,
    alloc: AllocNo,
    request: Request,
) -> Came
    requires own { desk.old.table ≡ space.now.table }
    requires ready { IsReady space.now.limits desk.old.view }
    requires on { IsOnNumber request }
    requires fitting { fits request ≡ true }
    requires bytes { HasBytes request }
    ensures { (hosts : HostTable) → CameBy space.now.limits hosts number site (ask.At alloc request) desk.old desk.new result }
{
    match space.step(rt, desk, gate, number, site, alloc, request) {
        Stepped::Done(entry) => Came::Done(entry),
        Stepped::StepLimit(stamp) => Came::Over(End::StepLimit(stamp)),
        Stepped::NoMemory => Came::Over(End::NoMemory),
    }
}

/// Prints a value.
pub(crate) fn print(space: &Space, desk: &mut Desk, number: ThreadNo, site: u32, value: u64) -> Came
    requires own { desk.old.table ≡ space.now.table }
    requires ready { IsReady space.now.limits desk.old.view }
    ensures { (hosts : HostTable) → CameBy space.now.limits hosts number site (ask.Print value) desk.old desk.new result }
{
    let reply = Reply {
        plain: Plain::Done,
        carried: None,
        verdict: Verdict::Clean,
    };
    match space.note(desk, number, site, Request::Print { value }, reply) {
        Stepped::Done(entry) => Came::Done(entry),
        Stepped::StepLimit(stamp) => Came::Over(End::StepLimit(stamp)),
        Stepped::NoMemory => unreachable!(),
    }
}

/// Calls the host's function of this number.
pub(crate) fn call_host<H: HostCalls>(
    space: &Space,
    desk: &mut Desk,
    hosts: &H,
    number: ThreadNo,
    site: u32,
    function: u32,
    first: u64,
    second: u64,
) -> Came
    requires own { desk.old.table ≡ space.now.table }
    requires ready { IsReady space.now.limits desk.old.view }
    requires known { function < length (H.table hosts.now).entries }
    ensures { CameBy space.now.limits (H.table hosts.now) number site (ask.Host function first second) desk.old desk.new result }
{
    let value = hosts.call(function, first, second);
    let request = Request::Host {
        number: function,
        first,
        second,
    };
    let reply = Reply {
        plain: Plain::Value(value),
        carried: None,
        verdict: Verdict::Clean,
    };
    match space.note(desk, number, site, request, reply) {
        Stepped::Done(entry) => Came::Done(entry),
        Stepped::StepLimit(stamp) => Came::Over(End::StepLimit(stamp)),
        Stepped::NoMemory => unreachable!(),
    }
}

/// A step that starts and joins no thread.
pub(crate) fn step<R: Wait, G: Gate, H: HostCalls>(
    rt: &R,
    space: &Space,
    desk: &mut Desk,
    gate: &G,
    hosts: &H,
    number: ThreadNo,
    site: u32,
    ask: Ask,
) -> Came
    requires own { desk.old.table ≡ space.now.table }
    requires ready { IsReady space.now.limits desk.old.view }
    requires countable { AreCountable space.now.limits }
    requires fits { StepFits (length (H.table hosts.now).entries) ask }
    requires step { AsksPlainly ask }
    ensures { CameBy space.now.limits (H.table hosts.now) number site ask desk.old desk.new result }
{
    match ask {
        Ask::Make { size, place } => make(rt, space, desk, gate, number, site, size, place),
        Ask::At { alloc, request } => access(rt, space, desk, gate, number, site, alloc, request),
        Ask::Print { value } => print(space, desk, number, site, value),
        Ask::Host {
            number: function,
            first,
            second,
        } => call_host(space, desk, hosts, number, site, function, first, second),
        Ask::Turn | Ask::Spawn { .. } | Ask::Join { .. } | Ask::Ended(_) => unreachable!(),
    }
}
