//! Records: each form of a record's text, and changes of a right one that no text says.
use bsan_ids::{AllocNo, Copied, Limits, ListOf, ThreadNo};
use history::{AllocLog, RunRecord};
use ir_ast::HostTable;
use ir_reader::read;
use ir_verify::verify;
use record_file::{Checked, Clause, check};
use record_text::{read_record, write_record};
use std::alloc::Global;
use std::test::Fail;

/// Each form of a line's parts, in five threads.
const FORMS: &str = "record 1
words 18446744073709551615 0 2
thread 0 - 255 18446744073709551615 65535 trapped AllocLimit 65537
1 4294967295 load 2 4294967295 ptr - = value 18446744073709551615 3.9 clean
2 0 load 2 0 i8 1.1 = trapped OutOfBounds - stranger
2 0 rmw 3 4 i16 umax 7 2.2 = value 0 - freed
3 0 cmpxchg 3 4 i32 1 2 2.2 = value 3 - outofrange
4 0 out 1 0 2 1.1 = copied [0,255:4294967295.18446744073709551615.255] - clean
5 0 in 1 0 [] - = done - strongfree 3 18446744073709551615 CellReserved
6 0 in 1 0 [7:1.2.0,8] - = done - denied 4294967295 1 Cell foreign
7 0 retag 1 0 4294967295 shrcell weak 1.1 = retagged 0 - clean
8 0 endprotector 1 18446744073709551615 = done - closed
9 0 free 1 8 0 - = trapped BadFree - clean
10 0 make 4294967295 heap = made 2 2.10 clean
11 0 print 18446744073709551615 = done - clean
12 0 host 4294967295 1 2 = value 3 - clean
13 0 spawn 1 = spawned 1 - clean
14 0 join 1 = value 0 - clean
15 0 join 1 = trapped ThreadLimit 1024 - clean
thread 1 0 1 0 0 steplimit 18446744073709551615
thread 2 0 1 0 0 turnlimit
thread 3 2 1 0 0 nomemory
thread 4294967295 3 1 0 0 childended 4294967295
end
";

fn kept(alloc: Global, text: &str) -> Result<RunRecord, Fail> {
    match read_record(alloc, text.as_bytes(), 16) {
        Ok(kept) => Ok(kept),
        Err(_) => Err(Fail::new("a record's text is read")),
    }
}

#[test]
fn reads_and_writes_each_form(rt: HostRuntime) -> Result<(), Fail> {
    let alloc = rt.alloc();
    let kept = kept(alloc, FORMS)?;
    let Ok(written) = write_record(alloc, &kept) else {
        return Err(Fail::new("a record is written"));
    };
    assert_eq!(rt; written.as_slice(), FORMS.as_bytes());
    assert_eq!(rt; kept.threads.len(), 5);
    let lens = [6, 3, 2];
    assert_eq!(rt; kept.allocs.len(), 3);
    for at in 0..3 {
        let log = kept.allocs.get(at).ok_or("a log")?;
        assert_eq!(rt; log.number, AllocNo(at as u32 + 1));
        assert_eq!(rt; log.entries.len(), lens[at]);
    }
    Ok(())
}

/// A thread stores into what main made, and returns what it stored.
const SHARED: &str =
    "bir 1 func @main() -> i64 { entry: %m = malloc 8 %t = spawn @f(ptr %m) %v = join i64 %t ret i64 %v } \
    func @f(ptr %p) -> i64 { entry: store i64 7, %p ret i64 7 }";

const RECORD: &str = "record 1
words 4 1 1
thread 0 - 0 4 3 returned 7 -
1 0 make 8 heap = made 1 1.1 clean
2 1 spawn 1 = spawned 1 - clean
4 2 join 1 = value 7 - clean
thread 1 0 1 2 5 returned 7 -
3 4 store 1 0 i64 7 - 1.1 = done - clean
end
";

/// What is found of a record of that program.
fn found(alloc: Global, kept: &RunRecord) -> Result<Checked, Fail> {
    let hosts = HostTable {
        entries: ListOf::new(alloc),
    };
    let Ok(program) = read(alloc, SHARED.as_bytes()) else {
        return Err(Fail::new("the program is read"));
    };
    let Ok(program) = verify(alloc, program, &hosts) else {
        return Err(Fail::new("the program is accepted"));
    };
    let limits = Limits {
        steps: 1_000,
        turns: 1_000,
        allocs: 16,
    };
    match check(alloc, &program, &[], &limits, &hosts, kept) {
        Ok(found) => Ok(found),
        Err(_) => Err(Fail::new("memory is there")),
    }
}

/// A change that no text can say, since its reader sees to it.
#[derive(Clone, Copy)]
enum Change {
    /// The first log is of another thread.
    Number,
    /// Its first entry is of another thread.
    Thread,
    /// Its first entry is on no allocation.
    Alloc,
}

/// The record with this change.
fn changed(kept: RunRecord, change: Change) -> Result<RunRecord, Fail> {
    let RunRecord {
        threads,
        allocs,
        words,
    } = kept;
    let mut threads = threads.into_vec();
    let log = threads.get_mut(0).ok_or("main has a log")?;
    let mut entry = log.entries.get(0).ok_or("it has an entry")?.copy()?;
    match change {
        Change::Number => log.number = ThreadNo(2),
        Change::Thread => entry.thread = ThreadNo(1),
        Change::Alloc => entry.alloc = None,
    }
    log.entries.set(0, entry);
    let threads = ListOf::from_vec(threads);
    Ok(RunRecord {
        threads,
        allocs,
        words,
    })
}

#[test]
fn finds_what_no_text_says(rt: HostRuntime) -> Result<(), Fail> {
    let alloc = rt.alloc();
    assert_eq!(rt; found(alloc, &kept(alloc, RECORD)?)?, Checked::Holds);
    for (change, clause) in [
        (Change::Number, Clause::A),
        (Change::Thread, Clause::B),
        (Change::Alloc, Clause::B),
    ] {
        let kept = changed(kept(alloc, RECORD)?, change)?;
        assert_eq!(rt; found(alloc, &kept)?, Checked::Fails(clause));
    }
    Ok(())
}

/// The log of the allocation: that of another number, or with an entry at another place.
fn other_logs(
    alloc: Global,
    kept: &RunRecord,
    number: AllocNo,
    site: u32,
) -> Result<ListOf<AllocLog>, Fail> {
    let log = kept.allocs.get(0).ok_or("the allocation has a log")?;
    let mut entries = ListOf::new(alloc);
    for entry in log.entries.as_slice() {
        let mut entry = entry.copy()?;
        entry.site = site;
        entries.push(entry)?;
    }
    let mut logs = ListOf::new(alloc);
    logs.push(AllocLog { number, entries })?;
    Ok(logs)
}

#[test]
fn finds_other_histories(rt: HostRuntime) -> Result<(), Fail> {
    let alloc = rt.alloc();
    let mut kept = kept(alloc, RECORD)?;
    for (number, site) in [(2, 0), (1, 1)] {
        kept.allocs = other_logs(alloc, &kept, AllocNo(number), site)?;
        assert_eq!(rt; found(alloc, &kept)?, Checked::Fails(Clause::D));
    }
    kept.allocs.clear();
    assert_eq!(rt; found(alloc, &kept)?, Checked::Fails(Clause::D));
    Ok(())
}
