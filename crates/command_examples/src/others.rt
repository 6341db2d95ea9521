//! Calls on records that no command makes.
use bsan_ids::{AllocNo, Counters, ListOf, NoMemory, Prov, Stamp, Tag, ThreadNo};
use eager_tree::Violation;
use history::{AllocLog, End, Entry, Plain, Reply, Request, RunRecord, ThreadLog, Trap, Verdict};
use ir_ast::{Ty, Width};
use report::status_of;
use std::alloc::Global;
use std::test::Fail;
use suppress::{Case, Cause, case_of};

/// A write with this verdict.
fn write(verdict: Verdict) -> Entry {
    Entry {
        thread: ThreadNo(0),
        stamp: Stamp(5),
        site: 6,
        alloc: Some(AllocNo(2)),
        request: Request::Store {
            at: 0,
            ty: Ty::Int(Width::W8),
            value: 1,
            carried: None,
            prov: Some(Prov {
                alloc: AllocNo(1),
                tag: Tag(1),
            }),
        },
        reply: Reply {
            plain: Plain::Done,
            carried: None,
            verdict,
        },
    }
}

/// A record whose threads end so, with one write.
fn ended(alloc: Global, ends: &[End], verdict: Verdict) -> Result<RunRecord, NoMemory> {
    let mut threads = ListOf::new(alloc);
    for end in ends {
        threads.push(ThreadLog {
            number: ThreadNo(0),
            parent: None,
            entry_function: 0,
            entries: ListOf::new(alloc),
            instructions: 9,
            last: 8,
            end: *end,
        })?;
    }
    let mut entries = ListOf::new(alloc);
    entries.push(write(verdict))?;
    let mut allocs = ListOf::new(alloc);
    allocs.push(AllocLog {
        number: AllocNo(2),
        entries,
    })?;
    let words = Counters {
        stamps: 8,
        allocs: 2,
        threads: 1,
    };
    Ok(RunRecord {
        threads,
        allocs,
        words,
    })
}

#[test]
fn ranks_the_ends(rt: HostRuntime) -> Result<(), Fail> {
    let alloc = rt.alloc();
    let done = End::Returned {
        value: 0,
        carried: None,
    };
    let trap = End::Trapped(Trap::Unreachable);
    let child = End::ChildEnded(ThreadNo(1));
    let limit = End::StepLimit(Stamp(10));
    for (ends, wanted) in [
        ([done, done, done], 1),
        ([done, child, done], 1),
        ([child, trap, done], 5),
        ([trap, limit, done], 6),
        ([End::TurnLimit, trap, done], 6),
        ([trap, limit, End::NoMemory], 9),
    ] {
        let verdict = Verdict::Violated(Violation::Stranger);
        let kept = ended(alloc, ends.as_slice(), verdict)?;
        assert_eq!(rt; status_of(&kept), wanted);
    }
    let kept = ended(alloc, [done, child].as_slice(), Verdict::Closed)?;
    assert_eq!(rt; status_of(&kept), 0);
    Ok(())
}

#[test]
fn tells_the_case(rt: HostRuntime) -> Result<(), Fail> {
    let case = Case {
        alloc: AllocNo(2),
        thread: ThreadNo(0),
        site: 6,
        cause: Cause::Stranger,
    };
    let entry = write(Verdict::Violated(Violation::Stranger));
    assert_eq!(rt; case_of(&entry), Some(case));
    assert_eq!(rt; case_of(&write(Verdict::Closed)), None);
    Ok(())
}
