//! Threads that a gate brings into an order, or holds until another has come.
use crate::calls::{FROZEN_BY_CHILD, Given, HALVES_REPORT, RACING, STORED_FIRST, TWO_HALVES, call};
use outside_io::{Gate, Point};
use std::sync::atomic::{AtomicU64, Ordering};
use std::test::Fail;
use std::thread;

// How often a thread that is held looks whether it may go on.
const LOOKS: u64 = 2_000_000_000;

/// Two threads of which each waits for the other, at a point of its own.
#[derive(Drop)]
struct Meeting {
    zero: AtomicU64,
    one: AtomicU64,
    missed: AtomicU64,
}

impl Meeting {
    fn new() -> Meeting {
        Meeting {
            zero: AtomicU64::new(0),
            one: AtomicU64::new(0),
            missed: AtomicU64::new(0),
        }
    }

    // The one thread has come, and waits for the other.
    fn come(&self, mine: &AtomicU64, other: &AtomicU64) {
        mine.store(1, Ordering::SeqCst);
        for _ in 0..LOOKS {
            if other.load(Ordering::SeqCst) == 1 {
                return;
            }
            thread::yield_now();
        }
        self.missed.store(1, Ordering::SeqCst);
    }

    // Whether both came, and neither waited in vain.
    fn was_kept(&self) -> bool {
        self.zero.load(Ordering::SeqCst) == 1
            && self.one.load(Ordering::SeqCst) == 1
            && self.missed.load(Ordering::SeqCst) == 0
    }
}

/// Holds thread 0 after its spawn until thread 1 stands before its first step, and thread 1 there
/// until thread 0 is after its spawn.
#[derive(Drop)]
struct StartGate {
    meeting: Meeting,
}

impl StartGate {
    fn new() -> StartGate {
        StartGate {
            meeting: Meeting::new(),
        }
    }

    fn was_kept(&self) -> bool {
        self.meeting.was_kept()
    }
}

impl Gate for StartGate {
    fn at(&self, thread: u32, point: Point) {
        let meeting = &self.meeting;
        match (thread, point) {
            (0, Point::AfterSpawn) => meeting.come(&meeting.zero, &meeting.one),
            (1, Point::Started) => meeting.come(&meeting.one, &meeting.zero),
            _ => {}
        }
    }
}

/// Holds thread 0, once it is after its spawn, inside the turn of allocation 2 until thread 1 is
/// inside that of allocation 1, and thread 1 there until thread 0 is so.
#[derive(Drop)]
struct TurnGate {
    spawned: AtomicU64,
    meeting: Meeting,
}

impl TurnGate {
    fn new() -> TurnGate {
        TurnGate {
            spawned: AtomicU64::new(0),
            meeting: Meeting::new(),
        }
    }

    fn was_kept(&self) -> bool {
        self.meeting.was_kept()
    }
}

impl Gate for TurnGate {
    fn at(&self, thread: u32, point: Point) {
        let meeting = &self.meeting;
        match (thread, point) {
            (0, Point::AfterSpawn) => self.spawned.store(1, Ordering::SeqCst),
            (0, Point::Inside(2)) if self.spawned.load(Ordering::SeqCst) == 1 => {
                meeting.come(&meeting.zero, &meeting.one);
            }
            (1, Point::Inside(1)) => meeting.come(&meeting.one, &meeting.zero),
            _ => {}
        }
    }
}

#[test]
fn a_child_runs_beside_its_parent(rt: HostRuntime) -> Result<(), Fail> {
    let gate = StartGate::new();
    let answer = call(
        Some(&rt),
        rt.alloc(),
        "run p",
        &Given::of(TWO_HALVES),
        &gate,
    )?;
    assert!(rt; gate.was_kept());
    assert_eq!(rt; answer.text.as_slice(), HALVES_REPORT.as_bytes());
    assert_eq!(rt; answer.status, 0);
    Ok(())
}

const TWO_ALLOCATIONS: &str = "bir 1 func @f(ptr %x) -> void { entry: store i64 1, %x ret void } \
    func @main() -> i64 { entry: %x = malloc 8 %y = malloc 8 %h = spawn @f(ptr %x) store i64 2, %y ret i64 0 }";

#[test]
fn two_turns_are_held_at_once(rt: HostRuntime) -> Result<(), Fail> {
    let gate = TurnGate::new();
    let given = Given::of(TWO_ALLOCATIONS);
    let answer = call(Some(&rt), rt.alloc(), "run p", &given, &gate)?;
    assert!(rt; gate.was_kept());
    let end = "steps 6, allocations 2, threads 2, violations 0\nstatus 0\n";
    assert!(rt; answer.text.as_slice().ends_with(end.as_bytes()));
    assert_eq!(rt; answer.status, 0);
    Ok(())
}

/// What one thread gives and another waits for.
#[derive(Drop)]
struct Signal {
    given: AtomicU64,
    awaited: AtomicU64,
    missed: AtomicU64,
}

impl Signal {
    fn new() -> Signal {
        Signal {
            given: AtomicU64::new(0),
            awaited: AtomicU64::new(0),
            missed: AtomicU64::new(0),
        }
    }

    fn give(&self) {
        self.given.store(1, Ordering::SeqCst);
    }

    fn wait(&self) {
        self.awaited.store(1, Ordering::SeqCst);
        for _ in 0..LOOKS {
            if self.given.load(Ordering::SeqCst) == 1 {
                return;
            }
            thread::yield_now();
        }
        self.missed.store(1, Ordering::SeqCst);
    }

    // Whether it was given and waited for, and not in vain.
    fn was_kept(&self) -> bool {
        self.given.load(Ordering::SeqCst) == 1
            && self.awaited.load(Ordering::SeqCst) == 1
            && self.missed.load(Ordering::SeqCst) == 0
    }
}

/// Holds thread 1 before its first step until thread 0, after its spawn, was inside allocation 1.
#[derive(Drop)]
struct ParentFirst {
    spawned: AtomicU64,
    signal: Signal,
}

impl Gate for ParentFirst {
    fn at(&self, thread: u32, point: Point) {
        match (thread, point) {
            (0, Point::AfterSpawn) => self.spawned.store(1, Ordering::SeqCst),
            (0, Point::Inside(1)) if self.spawned.load(Ordering::SeqCst) == 1 => self.signal.give(),
            (1, Point::Started) => self.signal.wait(),
            _ => {}
        }
    }
}

/// Holds thread 0 after its spawn until thread 1 was inside allocation 1.
#[derive(Drop)]
struct ChildFirst {
    signal: Signal,
}

impl Gate for ChildFirst {
    fn at(&self, thread: u32, point: Point) {
        match (thread, point) {
            (0, Point::AfterSpawn) => self.signal.wait(),
            (1, Point::Inside(1)) => self.signal.give(),
            _ => {}
        }
    }
}

#[test]
fn the_parents_store_comes_first(rt: HostRuntime) -> Result<(), Fail> {
    let gate = ParentFirst {
        spawned: AtomicU64::new(0),
        signal: Signal::new(),
    };
    let answer = call(Some(&rt), rt.alloc(), "run p", &Given::of(RACING), &gate)?;
    assert!(rt; gate.signal.was_kept());
    assert_eq!(rt; answer.text.as_slice(), STORED_FIRST.as_bytes());
    assert_eq!(rt; answer.status, 0);
    Ok(())
}

#[test]
fn the_childs_load_comes_first(rt: HostRuntime) -> Result<(), Fail> {
    let gate = ChildFirst {
        signal: Signal::new(),
    };
    let answer = call(Some(&rt), rt.alloc(), "run p", &Given::of(RACING), &gate)?;
    assert!(rt; gate.signal.was_kept());
    assert_eq!(rt; answer.text.as_slice(), FROZEN_BY_CHILD.as_bytes());
    assert_eq!(rt; answer.status, 1);
    Ok(())
}

/// Keeps a thread a while inside an allocation, so that others wait for their turn there.
#[derive(Clone, Copy)]
struct Slow;

impl Gate for Slow {
    fn at(&self, _thread: u32, point: Point) {
        if let Point::Inside(_) = point {
            for _ in 0..5 {
                thread::yield_now();
            }
        }
    }
}

/// Each of 32 children stores 50 times into each of two allocations.
const MANY: &str = "bir 1 func @w(ptr %x, ptr %y) -> void { e: br l(i64 0) \
    l(i64 %i): store i64 %i, %x store i64 %i, %y %j = add i64 %i, 1 %c = icmp ult i64 %j, 50 condbr %c, l(i64 %j), d \
    d: ret void } \
    func @main() -> i64 { e: %x = malloc 8 %y = malloc 8 br l(i64 0) \
    l(i64 %i): %h = spawn @w(ptr %x, ptr %y) %j = add i64 %i, 1 %c = icmp ult i64 %j, 32 condbr %c, l(i64 %j), d \
    d: ret i64 0 }";

#[test]
fn each_of_many_threads_gets_its_turns(rt: HostRuntime) -> Result<(), Fail> {
    let given = Given::of(MANY);
    let answer = call(Some(&rt), rt.alloc(), "run p", &given, &Slow)?;
    let end = "steps 3266, allocations 2, threads 33, violations 0\nstatus 0\n";
    assert!(rt; answer.text.as_slice().ends_with(end.as_bytes()));
    Ok(())
}
