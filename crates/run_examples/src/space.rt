//! One thread within small limits, and two threads on one allocation.
ghost use Rattle.std.specs.Prelude.{◌≡◌, ◌≤◌, [], All, None, IfOk, OnOk, IfSome};
ghost use Rattle.alloc_space.specs.Spaces.{AreCountable};
ghost use Rattle.alloc_space.specs.Tried.{AreParentAndChild, IsFirstDesk, IsOpen, IsPlain, IsSameDesk, MayStore};

use alloc_space::{Desk, Made, Space, Stepped};
use alloc_state::AllocState;
use bsan_ids::{AllocNo, Counters, Limits, NoMemory, Prov, Stamp, Tag, ThreadNo};
use history::{Entry, Plain, Request, Trap, Verdict};
use ir_ast::{Place, Ty, Width};
use outside_io::NoGate;
use std::alloc::Global;
use std::snapshot::Snapshot;
use std::sync::Wait;
use std::test::Fail;
use std::thread;
use std::thread::{Promise, Threads};

const MAIN: ThreadNo = ThreadNo(0);

const ONE: AllocNo = AllocNo(1);

const WORD: Ty = Ty::Int(Width::W64);

const PROV: Prov = Prov {
    alloc: ONE,
    tag: Tag(1),
};

fn load() -> Request
    ensures { IsPlain result }
{
    Request::Load {
        at: 0,
        ty: WORD,
        prov: Some(PROV),
    }
}

// A space with one allocation, its first desk, and the entry of the Make.
fn with_one<R: Wait>(rt: &R, alloc: Global, limits: &Limits) -> Result<(Space, Desk, Entry), Fail>
    requires { AreCountable limits.now }
    ensures open { IfOk result (λ r. IsOpen r.0 r.1) }
    ensures allocs { IfOk result (λ r. All (λ n. n ≤ r.0.limits.allocs) r.1.view.allocs.own) }
{
    let (space, mut desk) = Space::new(alloc, limits)?;
    match space.make(rt, &mut desk, &NoGate, MAIN, 0, 8, Place::Heap) {
        Made::Done(made) => Ok((space, desk, made)),
        _ => Err(Fail::new("the make")),
    }
}

// A Make that draws a number above the limit: that number.
fn make_beyond<R: Wait>(rt: &R, space: &Space, desk: &mut Desk) -> Result<u64, Fail>
    requires open { IsOpen space.now desk.old }
    requires allocs { All (λ n. n ≤ space.now.limits.allocs) desk.old.view.allocs.own }
    ensures { OnOk result (IsOpen space.now desk.new) }
{
    match space.make(rt, desk, &NoGate, MAIN, 1, 8, Place::Heap) {
        Made::AllocLimit(drawn) => Ok(drawn),
        _ => Err(Fail::new("the make beyond the limit")),
    }
}

// A load: its entry.
fn load_on<R: Wait>(
    rt: &R,
    space: &Space,
    desk: &mut Desk,
    site: u32,
    alloc: AllocNo,
) -> Result<Entry, Fail>
    requires { IsOpen space.now desk.old }
    ensures { OnOk result (IsOpen space.now desk.new) }
{
    match space.step(rt, desk, &NoGate, MAIN, site, alloc, load()) {
        Stepped::Done(entry) => Ok(entry),
        _ => Err(Fail::new("the load")),
    }
}

// A load that draws a stamp above the limit: that stamp.
fn load_beyond<R: Wait>(rt: &R, space: &Space, desk: &mut Desk) -> Result<Stamp, Fail>
    requires { IsOpen space.now desk.old }
    ensures first { IsFirstDesk space.now desk.new }
    ensures threads { desk.new.view.threads.own ≡ [] }
{
    match space.step(rt, desk, &NoGate, MAIN, 3, ONE, load()) {
        Stepped::StepLimit(stamp) => Ok(stamp),
        _ => Err(Fail::new("the load beyond the limit")),
    }
}

#[test]
fn one_thread_within_small_limits(rt: HostRuntime) -> Result<(), Fail> {
    let limits = Limits {
        steps: 3,
        turns: 1,
        allocs: 1,
    };
    let (space, mut desk, made) = with_one(&rt, rt.alloc(), &limits)?;
    assert_eq!(rt; made.stamp, Stamp(1));
    assert_eq!(rt; made.alloc, Some(ONE));
    assert_eq!(rt; make_beyond(&rt, &space, &mut desk)?, 2);
    let outside = load_on(&rt, &space, &mut desk, 2, AllocNo(5))?;
    assert_eq!(rt; outside.stamp, Stamp(2));
    let Plain::Trapped(Trap::NoAllocation) = outside.reply.plain else {
        return Err(Fail::new("the trap of number 5"));
    };
    let loaded = load_on(&rt, &space, &mut desk, 3, ONE)?;
    assert_eq!(rt; loaded.stamp, Stamp(3));
    assert_eq!(rt; loaded.reply.verdict, Verdict::Clean);
    let Plain::Value(0) = loaded.reply.plain else {
        return Err(Fail::new("the loaded value"));
    };
    assert_eq!(rt; load_beyond(&rt, &space, &mut desk)?, Stamp(4));
    let Ok(thread) = space.number_thread(&mut desk) else {
        return Err(Fail::new("the thread's number"));
    };
    assert_eq!(rt; thread, ThreadNo(1));
    let (counters, states) = space.finish(desk)?;
    assert_eq!(rt; counters.stamps, 4);
    assert_eq!(rt; counters.allocs, 2);
    assert_eq!(rt; counters.threads, 1);
    assert_eq!(rt; states.len(), 1);
    let entries = states[0].entries();
    assert_eq!(rt; entries.len(), 2);
    assert_eq!(rt; entries[0].stamp, Stamp(1));
    assert_eq!(rt; entries[1].stamp, Stamp(3));
    Ok(())
}

fn store() -> Request
    ensures { IsPlain result }
{
    Request::Store {
        at: 0,
        ty: WORD,
        value: 7,
        carried: None,
        prov: Some(PROV),
    }
}

// Stores on the number 1, at most `count` times, until a step is refused.
fn store_often<R: Wait>(rt: &R, space: &Space, mut desk: Desk, thread: ThreadNo, count: u32) -> Desk
    requires { MayStore space.now desk }
    ensures { IsSameDesk desk result }
{
    for site in 0..count {
        let Stepped::Done(_) = space.step(rt, &mut desk, &NoGate, thread, site, ONE, store()) else {
            return desk;
        };
    }
    desk
}

// Draws a thread number and splits a desk for it.
fn next_desk(space: &Space, desk: &mut Desk) -> Option<Desk>
    requires { IsOpen space.now desk.old }
    ensures two { IfSome result (λ r. AreParentAndChild space.now desk.new r) }
    ensures parent { IfSome result (λ r. MayStore space.now desk.new) }
    ensures child { IfSome result (λ r. MayStore space.now r) }
{
    let Ok(name) = space.number_thread(desk) else {
        return None;
    };
    Some(space.split(desk, name))
}

// What a thread's desk will be, from the desk that it was handed.
#[derive(Drop)]
struct StoresOn(Snapshot<Desk>);

impl Promise<Desk> for StoresOn {
    ghost use Rattle.alloc_space.specs.Tried.{IsSameDesk};

    ghost kept_by = { λ p d. IsSameDesk p.0.value d };
}

// Both desks make 1,000 stores at once, one of them in a thread of its own.
fn store_both<R: Threads + Wait + Sync>(rt: &R, space: &Space, one: Desk, two: Desk) -> (Desk, Desk)
    requires one { MayStore space.now one }
    requires two { MayStore space.now two }
    ensures { IsSameDesk one result.0 × IsSameDesk two result.1 }
{
    thread::scope(
        thread::scope_env(),
        rt,
        move |scope| -> (Desk, Desk)
            requires one { MayStore space.now one }
            requires two { MayStore space.now two }
            ensures { IsSameDesk one result.0 × IsSameDesk two result.1 }
        {
            let promise = StoresOn(Snapshot::of(&two));
            let started = scope.spawn_with(
                promise,
                move || -> Desk
                    requires two { MayStore space.now two }
                    ensures { IsSameDesk two result }
                { store_often(rt, space, two, ThreadNo(1), 1000) },
            );
            match started {
                Ok(child) => {
                    let one = store_often(rt, space, one, MAIN, 1000);
                    (one, child.join(rt))
                }
                Err(refused) => {
                    let two = (refused.value)();
                    (store_often(rt, space, one, MAIN, 1000), two)
                }
            }
        },
    )
}

// The first desk and one that was split from it store, and then it is joined.
fn store_and_join<R: Threads + Wait + Sync>(rt: &R, space: &Space, mut desk: Desk) -> Option<Desk>
    requires { IsOpen space.now desk }
    ensures { IfSome result (λ d. IsFirstDesk space.now d) }
{
    let child = next_desk(space, &mut desk)?;
    let (mut desk, child) = store_both(rt, space, desk, child);
    space.join(&mut desk, child);
    Some(desk)
}

#[test]
fn two_threads_leave_all_their_stores(rt: HostRuntime) -> Result<(), Fail> {
    let limits = Limits {
        steps: 4_000_000,
        turns: 1,
        allocs: 1,
    };
    let (space, desk, _) = with_one(&rt, rt.alloc(), &limits)?;
    let Some(desk) = store_and_join(&rt, &space, desk) else {
        return Err(Fail::new("the thread's number"));
    };
    let (counters, states) = space.finish(desk)?;
    assert_eq!(rt; counters.stamps, 2001);
    assert_eq!(rt; counters.threads, 1);
    assert_eq!(rt; states.len(), 1);
    let entries = states[0].entries();
    assert_eq!(rt; entries.len(), 2001);
    let by_child = entries.iter().filter(|e| e.thread == ThreadNo(1)).count();
    assert_eq!(rt; by_child, 1000);
    Ok(())
}
