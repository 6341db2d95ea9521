//! Calls a second by threads at once.
ghost use Rattle.std.specs.Prelude.{◌≡◌, ◌≤◌, All, None, IfOk};
ghost use Rattle.bench.specs.Jobs.{CanStart, CanSplit};

use crate::journal::{Journal, calls, journals, next_desk};
use bsan_ids::{AllocNo, NoMemory, ThreadNo};
use std::alloc::Global;
use std::sync::Wait;
use std::thread::Threads;
use std::time::{Clock, Instant};
use std::{io, thread};
use turn_lock::{Desk, Turns};

// The calls of one thread.
#[derive(Drop)]
struct Job {
    desk: Desk<Journal>,
    thread: ThreadNo,
    alloc: AllocNo,
}

// Makes the calls of one thread, and answers how many it made.
fn work<R: Wait>(rt: &R, turns: &Turns<Journal>, job: Job, count: u32) -> u32
    requires { CanStart turns.now job }
{
    let Job {
        mut desk,
        thread,
        alloc,
    } = job;
    calls(rt, turns, &mut desk, thread, alloc, count)
}

// A desk for each thread: all on the number 1, or each on a number of its own.
fn jobs(
    alloc: Global,
    turns: &Turns<Journal>,
    desk: &mut Desk<Journal>,
    threads: u32,
    each: bool,
) -> Result<Vec<Job>, NoMemory>
    requires slots { (threads ≤ turns.now.slots) × (1 ≤ turns.now.slots) }
    requires desk { CanSplit turns.now desk.old }
    ensures { IfOk result (λ jobs. All (λ job. CanStart turns.now job) jobs.items) }
{
    let mut jobs = Vec::new(alloc);
    for k in 0..threads {
        let Some((thread, desk)) = next_desk(turns, desk) else {
            return Err(NoMemory);
        };
        let alloc = AllocNo(if each { k + 1 } else { 1 });
        jobs.push(Job {
            desk,
            thread,
            alloc,
        })?;
    }
    Ok(jobs)
}

/// How many calls the threads make in a second, together: all on the number 1, or each on a number
/// of its own.
///
/// # Errors
///
/// Out of memory, a thread that could not be started, or a clock that could not be read.
pub fn rate<R: Threads + Wait + Clock + Sync>(
    rt: &R,
    alloc: Global,
    threads: u32,
    each: bool,
    count: u32,
) -> Result<u64, io::Error>
    requires { threads ≤ 4 }
{
    let (turns, mut desk) = table(alloc)?;
    let turns = &turns;
    let Ok(jobs) = jobs(alloc, turns, &mut desk, threads, each) else {
        return Err(io::Error::from(io::ErrorKind::OutOfMemory));
    };
    let start = Instant::now(rt)?;
    let made = thread::map_vec(
        rt,
        jobs,
        &move |job: Job| -> u32
            requires { CanStart turns.now job }
        { work(rt, turns, job, count) },
    )?;
    let spent = u64::try_from(start.elapsed(rt)?.as_micros()).unwrap_or(u64::MAX);
    if made.iter().any(|calls| *calls != count) {
        return Err(io::Error::from(io::ErrorKind::OutOfMemory));
    }
    Ok(u64::from(threads) * u64::from(count) * 1_000_000 / spent.max(1))
}

// A table of four journals, and its first desk.
fn table(alloc: Global) -> Result<(Turns<Journal>, Desk<Journal>), io::Error>
    ensures slots { IfOk result (λ r. r.0.slots ≡ 4) }
    ensures desk { IfOk result (λ r. CanSplit r.0 r.1) }
{
    let Ok(values) = journals(alloc, 4) else {
        return Err(io::Error::from(io::ErrorKind::OutOfMemory));
    };
    let Ok((turns, desk)) = Turns::new(alloc, values) else {
        return Err(io::Error::from(io::ErrorKind::OutOfMemory));
    };
    Ok((turns, desk))
}
