//! Threads that make calls at once, and desks that are split from split desks.
ghost use Rattle.std.specs.Prelude.{◌≤◌, IfOk};
ghost use Rattle.bench.specs.Journals.{IsNew, IsAlone};

use crate::journal::{Journal, call, calls, journals, next_desk};
use bsan_ids::{AllocNo, Counters, NoMemory, ThreadNo};
use std::alloc::Global;
use std::snapshot::Snapshot;
use std::sync::Wait;
use std::test::Fail;
use std::thread;
use std::thread::{Promise, Threads};
use turn_lock::{Desk, Turns};

const CALLED: AllocNo = AllocNo(1);

// Makes a call, and lets a desk that is split from this one do the same, `depth` desks deep.
fn descend<R: Wait>(
    rt: &R,
    turns: &Turns<Journal>,
    desk: &mut Desk<Journal>,
    thread: ThreadNo,
    depth: u32,
) -> Result<(), NoMemory>
    requires slots { 1 ≤ turns.now.slots }
    requires new { IsNew turns.now desk.old }
    ensures { IfOk result (λ _. IsAlone desk.old desk.new) }
{
    call(rt, turns, desk, thread, depth, CALLED)?;
    if depth == 0 {
        return Ok(());
    }
    let Some((name, mut child)) = next_desk(turns, desk) else {
        return Err(NoMemory);
    };
    descend(rt, turns, &mut child, name, depth - 1)?;
    turns.join(desk, child);
    Ok(())
}

// A thread's calls.
fn work<R: Wait>(
    rt: &R,
    turns: &Turns<Journal>,
    mut desk: Desk<Journal>,
    thread: ThreadNo,
    count: u32,
) -> Desk<Journal>
    requires slots { 1 ≤ turns.now.slots }
    requires new { IsNew turns.now desk }
    ensures { IsAlone desk result }
{
    calls(rt, turns, &mut desk, thread, CALLED, count);
    desk
}

// What a thread's desk will be, from the desk that it was handed.
#[derive(Drop)]
struct WorkOf(Snapshot<Desk<Journal>>);

impl Promise<Desk<Journal>> for WorkOf {
    ghost use Rattle.bench.specs.Journals.{IsAlone};

    ghost kept_by = { λ p d. IsAlone p.0.value d };
}

// Two desks make calls at once, each in a thread of its own.
fn work_both<R: Threads + Wait + Sync>(
    rt: &R,
    turns: &Turns<Journal>,
    one: Desk<Journal>,
    two: Desk<Journal>,
    count: u32,
) -> (Desk<Journal>, Desk<Journal>)
    requires slots { 1 ≤ turns.now.slots }
    requires one { IsNew turns.now one }
    requires two { IsNew turns.now two }
    ensures { IsAlone one result.0 × IsAlone two result.1 }
{
    thread::scope(
        thread::scope_env(),
        rt,
        move |scope| -> (Desk<Journal>, Desk<Journal>)
            requires slots { 1 ≤ turns.now.slots }
            requires one { IsNew turns.now one }
            requires two { IsNew turns.now two }
            ensures { IsAlone one result.0 × IsAlone two result.1 }
        {
            let promise = WorkOf(Snapshot::of(&one));
            let started = scope.spawn_with(
                promise,
                move || -> Desk<Journal>
                    requires slots { 1 ≤ turns.now.slots }
                    requires one { IsNew turns.now one }
                    ensures { IsAlone one result }
                { work(rt, turns, one, ThreadNo(1), count) },
            );
            match started {
                Ok(child) => {
                    let two = work(rt, turns, two, ThreadNo(2), count);
                    (child.join(rt), two)
                }
                Err(refused) => {
                    let one = (refused.value)();
                    (one, work(rt, turns, two, ThreadNo(2), count))
                }
            }
        },
    )
}

// Two threads make `count` calls each on the number 1.
fn two_threads<R: Threads + Wait + Sync>(
    rt: &R,
    alloc: Global,
    count: u32,
) -> Result<(Counters, Vec<Journal>), NoMemory> {
    let (turns, mut desk) = Turns::new(alloc, journals(alloc, 1)?)?;
    let Some((_, one)) = next_desk(&turns, &mut desk) else {
        return Err(NoMemory);
    };
    let Some((_, two)) = next_desk(&turns, &mut desk) else {
        return Err(NoMemory);
    };
    let (one, two) = work_both(rt, &turns, one, two, count);
    turns.join(&mut desk, one);
    turns.join(&mut desk, two);
    turns.close(alloc, desk)
}

// Draws an allocation number, and makes a call at each of the desks that are split from split desks.
fn desks_in_desks<R: Wait>(
    rt: &R,
    alloc: Global,
    depth: u32,
) -> Result<(Counters, Vec<Journal>), NoMemory> {
    let (turns, mut desk) = Turns::new(alloc, journals(alloc, 1)?)?;
    turns.draw_alloc(&mut desk);
    descend(rt, &turns, &mut desk, ThreadNo(0), depth)?;
    turns.close(alloc, desk)
}

#[test]
fn two_threads_leave_all_their_calls(rt: HostRuntime) -> Result<(), Fail> {
    let (counters, journals) = two_threads(&rt, rt.alloc(), 1000)?;
    assert_eq!(rt; counters.stamps, 2000);
    assert_eq!(rt; counters.allocs, 0);
    assert_eq!(rt; counters.threads, 2);
    assert_eq!(rt; journals.len(), 1);
    let entries = journals[0].entries();
    assert_eq!(rt; entries.len(), 2000);
    assert_eq!(rt;
        entries.iter().filter(|e| e.thread == ThreadNo(1)).count(),
        1000
    );
    assert_eq!(rt;
        entries.iter().filter(|e| e.thread == ThreadNo(2)).count(),
        1000
    );
    Ok(())
}

#[test]
fn desks_are_joined_at_three_depths(rt: HostRuntime) -> Result<(), Fail> {
    let (counters, journals) = desks_in_desks(&rt, rt.alloc(), 3)?;
    assert_eq!(rt; counters.stamps, 4);
    assert_eq!(rt; counters.allocs, 1);
    assert_eq!(rt; counters.threads, 3);
    assert_eq!(rt; journals.len(), 1);
    let entries = journals[0].entries();
    assert_eq!(rt; entries.len(), 4);
    for (k, entry) in entries.iter().enumerate() {
        assert_eq!(rt; entry.thread.0 as usize, k);
        assert_eq!(rt; entry.stamp.0 as usize, k + 1);
    }
    Ok(())
}
