//! Reports of several threads, by a schedule or at once.
use crate::calls::{
    FROZEN_BY_CHILD, HALVES_REPORT, RACING, REPORT, Row, SMALLEST, STORED_FIRST, TWO_HALVES, serve,
};
use std::test::Fail;

/// Words, the program, the status and the report that comes.
const BY_SCHEDULE: [Row; 5] = [
    ("replay p 0,0,0,0,1,0", RACING, 1, FROZEN_BY_CHILD),
    ("replay p 0,0,0,0,0,1", RACING, 0, STORED_FIRST),
    ("solo p", TWO_HALVES, 0, HALVES_REPORT),
    ("replay p 0,0,1,1,1,0", TWO_HALVES, 0, HALVES_REPORT),
    ("replay p 1023,0", SMALLEST, 0, REPORT),
];

#[test]
fn reports_threads_by_a_schedule(rt: HostRuntime) -> Result<(), Fail> {
    serve(&rt, rt.alloc(), &BY_SCHEDULE, true)
}

/// Words, a program, the status and the text that comes.
const AT_ONCE: [Row; 3] = [
    ("run p", TWO_HALVES, 0, HALVES_REPORT),
    (
        "load 7 1000",
        SMALLEST,
        0,
        "load 7 1000: steps 4035, allocations 1, threads 5, violations 0\nstatus 0\n",
    ),
    (
        "load 0000000000 10000",
        SMALLEST,
        0,
        "load 0 10000: steps 40035, allocations 1, threads 5, violations 0\nstatus 0\n",
    ),
];

#[test]
fn reports_threads_at_once(rt: HostRuntime) -> Result<(), Fail> {
    serve(&rt, rt.alloc(), &AT_ONCE, true)
}
