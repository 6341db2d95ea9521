//! A thread with its children, each on a native thread of its own.
ghost use Rattle.std.specs.Prelude.{◌≡◌, ◌≤◌, Some};
ghost use Rattle.interp.specs.Answers.{IsAnswer};
ghost use Rattle.interp.specs.Running.{GoesOn, HasEnded, IsBegun, IsFirst, IsSameThread, view_of};

use crate::calls::HostCalls;
use crate::child::{Begun, TreeOf};
use crate::running::Running;
use alloc_space::{Desk, Space};
use bsan_ids::{Limits, ThreadNo};
use history::End;
use instr_sound::Thread;
use outside_io::{Gate, Point};
use run_record::ThreadTree;
use std::alloc::Global;
use std::snapshot::Snapshot;
use std::sync::Wait;
use std::thread;
use std::thread::{Scope, Threads};

#[cycle(threads)]
/// Runs a thread to its end, and each child that it starts on a native thread of its own, or, where
/// the system refuses that, on this one. Answers its log with those of all threads below it, and its
/// desk, on which nothing is out. It may wait.
///
/// The program is accepted with the table of `hosts`. The machine stands at the beginning of the
/// function, with arguments that fit, and has done nothing yet. The desk is new and has the thread's
/// number as its name, and the space was made with these limits.
pub fn run_thread<T: Thread + Send, R: Threads + Wait + Sync, G: Gate + Sync, H: HostCalls + Sync>(
    rt: &R,
    alloc: Global,
    space: &Space,
    desk: Desk,
    function: u32,
    machine: T,
    number: ThreadNo,
    parent: Option<ThreadNo>,
    limits: &Limits,
    gate: &G,
    hosts: &H,
) -> (ThreadTree, Desk)
    requires first { IsFirst T.setting T.state space.now (H.table hosts.now) number function machine desk }
    requires limits { limits.now ≡ space.now.limits }
    ensures { IsAnswer limits.now (H.table hosts.now) number parent function (view_of T.setting T.state machine) desk result.0 result.1 }
{
    let _ = limits;
    let running = Running::new(alloc, space, hosts, function, machine, desk, number);
    thread::scope(
        thread::scope_env(),
        rt,
        move |scope| -> (ThreadTree, Desk)
            requires on { GoesOn T.setting T.state space.now running }
            requires hosts { running.hosts.value ≡ H.table hosts.now }
            ensures { IsAnswer space.entry.now.limits (H.table hosts.entry.now) running.number parent running.function (view_of T.setting T.state running.began.value) running.start.value result.0 result.1 }
        {
            let mut running = running;
            let end = run_all(scope, rt, alloc, space, gate, hosts, &mut running);
            running.join_all(rt, space, end);
            running.into_answer(space, parent, end)
        },
    )
}

// Runs a thread to its end, and starts its children.
#[cycle(threads)]
fn run_all<
    's,
    'e: 's,
    T: Thread + Send + 's,
    R: Threads + Wait + Sync,
    G: Gate + Sync,
    H: HostCalls + Sync,
>(
    scope: &Scope<'s, &'e ()>,
    rt: &'s R,
    alloc: Global,
    space: &'s Space,
    gate: &'s G,
    hosts: &'s H,
    running: &mut Running<T>,
) -> End
    requires on { GoesOn T.setting T.state space.now running.old }
    requires hosts { running.old.hosts.value ≡ H.table hosts.now }
    ensures ended { HasEnded T.setting T.state space.now result running.new }
    ensures same { IsSameThread running.old running.new }
{
    loop {
        match running.run_on(rt, space, gate, hosts) {
            Err(end) => return end,
            Ok(begun) => start(scope, rt, alloc, space, gate, hosts, running, begun),
        }
    }
}

// Starts a child, or runs it here where the system refuses a thread.
#[cycle(threads)]
fn start<
    's,
    'e: 's,
    T: Thread + Send + 's,
    R: Threads + Wait + Sync,
    G: Gate + Sync,
    H: HostCalls + Sync,
>(
    scope: &Scope<'s, &'e ()>,
    rt: &'s R,
    alloc: Global,
    space: &'s Space,
    gate: &'s G,
    hosts: &'s H,
    running: &mut Running<T>,
    begun: Begun<T>,
)
    requires begun { IsBegun T.setting T.state space.now begun running.old }
    requires hosts { running.old.hosts.value ≡ H.table hosts.now }
    ensures on { GoesOn T.setting T.state space.now running.new }
    ensures later { running.old.desk.view.seen ≤ running.new.desk.view.seen }
    ensures same { IsSameThread running.old running.new }
{
    let snapshot = Snapshot::of(&begun);
    let parent = running.number;
    let Begun {
        number,
        function,
        machine,
        desk,
    } = begun;
    let promise = TreeOf {
        limits: *space.limits(),
        hosts: Snapshot::of(hosts.table()),
        number,
        parent,
        function,
        machine: Snapshot::of(&machine),
        desk: Snapshot::of(&desk),
    };
    let started = scope.spawn_with(
        promise,
        move || -> (ThreadTree, Desk)
            requires first { IsFirst T.setting T.state space.now (H.table hosts.now) number function machine desk }
            ensures { IsAnswer space.entry.now.limits (H.table hosts.entry.now) number (Some parent) function (view_of T.setting T.state machine) desk result.0 result.1 }
        {
            gate.at(number.0, Point::Started);
            run_thread(
                rt,
                alloc,
                space,
                desk,
                function,
                machine,
                number,
                Some(parent),
                space.limits(),
                gate,
                hosts,
            )
        },
    );
    match started {
        Ok(handle) => running.keep(space, &snapshot, number, handle),
        Err(refused) => {
            let (tree, desk) = (refused.value)();
            running.take_in(space, &snapshot, tree, desk);
        }
    }
    gate.at(parent.0, Point::AfterSpawn);
}
