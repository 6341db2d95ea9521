//! Calls of the command over files in memory, and what they are given and answer.
ghost use Rattle.std.specs.Prelude.{◌<◌, length};
ghost use Rattle.hosts.specs.Rules.{IsAnswer};
ghost use Rattle.hosts.specs.Standard.{standard_table};

use bsan::{bsan, bsan_alone};
use bsan_ids::Name;
use hosts::{Hosts, standard_answer, standard_table};
use outside_io::{Gate, MemFiles, MemSink, NoGate};
use run_record::RunRecord;
use std::alloc::Global;
use std::process::Abort;
use std::sync::Wait;
use std::test::Fail;
use std::thread::Threads;

/// The words, the program, the status and the text that comes.
pub(crate) type Row = (&'static str, &'static str, u8, &'static str);

pub(crate) const SMALLEST: &str = "bir 1\nfunc @main() -> i64 {\nentry:\n  ret i64 0\n}\n";

pub(crate) const REPORT: &str =
    "thread 0 returned 0\nsteps 0, allocations 0, threads 1, violations 0\nstatus 0\n";

pub(crate) const USAGE: &str =
    "usage: bsan check FILE | instrument FILE | solo FILE | replay FILE SCHEDULE | run FILE | load SEED SIZE | races FILE SCHEDULE | record FILE | recheck FILE RECORD | hush FILE RULES | explain FILE SCHEDULE\n\
    options of solo, replay, run, races, record, recheck, hush and explain: --input FILE --steps N --turns N --allocs N\n";

/// A text that ends too early.
pub(crate) const CUT: &str = "bir 1\nfunc @main(";

/// What is said of it.
pub(crate) const UNREAD: &str = "not read: Unexpected at 17\n";

/// Two threads write and read the two halves of an allocation.
pub(crate) const TWO_HALVES: &str =
    "bir 1 func @g(ptr %p) -> i64 { entry: store i64 5, %p %v = load i64, %p ret i64 %v } \
    func @main() -> i64 { entry: %x = alloca 16 %q = gep %x, 8 %h = spawn @g(ptr %q) store i64 3, %x \
    %a = load i64, %x %b = join i64 %h %c = load i64, %q %d = add i64 %a, %b %e = add i64 %d, %c \
    print i64 %e ret i64 0 }";

pub(crate) const HALVES_REPORT: &str =
    "thread 0 prints 13\nthread 0 returned 0\nthread 1 returned 5\n\
    steps 10, allocations 1, threads 2, violations 0\nstatus 0\n";

/// A child loads what main writes through a retagged pointer.
pub(crate) const RACING: &str = "bir 1 func @f(ptr %x) -> void { e: %v = load i64, %x ret void } \
    func @main() -> i64 { e: %x = alloca 8 %y = retag mut %x, 8 store i64 1, %y %h = spawn @f(ptr %x) \
    store i64 2, %y join void %h ret i64 0 }";

/// Where the child's load comes before main's second store.
pub(crate) const FROZEN_BY_CHILD: &str =
    "violation on allocation 1 by thread 0 at instruction 6, step 6: write 0..8 through tag 2: node 2 is Frozen at byte 0\n\
    thread 0 returned 0\nthread 1 returned 0\nsteps 8, allocations 1, threads 2, violations 1\nstatus 1\n";

/// Where it comes after it.
pub(crate) const STORED_FIRST: &str = "thread 0 returned 0\nthread 1 returned 0\n\
    steps 8, allocations 1, threads 2, violations 0\nstatus 0\n";

/// What a call is given: the files of the program, which is `p`, of the input, which is `q`, and a further one, which is `r`,
/// the reads that fail, and how many bytes the output has room for, where it hasn't for all.
#[derive(Clone, Copy)]
pub(crate) struct Given<'a> {
    pub(crate) program: &'a str,
    pub(crate) input: &'a str,
    pub(crate) further: &'a str,
    pub(crate) failing: &'a [u64],
    pub(crate) room: Option<u64>,
}

impl<'a> Given<'a> {
    /// A program, empty other files, no read that fails, and room for all.
    pub(crate) fn of(program: &'a str) -> Given<'a> {
        Given {
            program,
            input: "",
            further: "",
            failing: &[],
            room: None,
        }
    }
}

/// What a call answered and put, and its record.
#[derive(Drop)]
pub(crate) struct Answer {
    pub(crate) status: u8,
    pub(crate) text: Vec<u8>,
    pub(crate) record: RunRecord,
}

/// A call by the words of a line, which are separated by single blanks. Where there are no native threads it is to
/// `bsan_alone`.
pub(crate) fn call<R: Threads + Wait + Sync, G: Gate + Sync>(
    native: Option<&R>,
    alloc: Global,
    line: &str,
    given: &Given<'_>,
    gate: &G,
) -> Result<Answer, Fail> {
    let mut words = Vec::new(alloc);
    for word in line.split(' ') {
        words.push(String::from_str(alloc, word)?)?;
    }
    let program = Vec::from_slice(alloc, given.program.as_bytes())?;
    let input = Vec::from_slice(alloc, given.input.as_bytes())?;
    let further = Vec::from_slice(alloc, given.further.as_bytes())?;
    let held = vec![in alloc;
        (Name::from_vec(Vec::from_slice(alloc, b"p")?), program),
        (Name::from_vec(Vec::from_slice(alloc, b"q")?), input),
        (Name::from_vec(Vec::from_slice(alloc, b"r")?), further),
    ]?;
    let mut files = MemFiles::new(alloc, held, Vec::from_slice(alloc, given.failing)?);
    let mut out = MemSink::new(alloc, given.room);
    let Ok(table) = standard_table(alloc) else {
        return Err(Fail::new("standard_table"));
    };
    let standard = |number: u32, first: u64, second: u64|
        requires { number < length standard_table.entries }
        ensures { IsAnswer standard_table number first second result }
    { standard_answer(number, first, second) };
    let hosts = Hosts::new(table, Box::new(alloc, standard)?);
    let mut record = RunRecord::new(alloc);
    let words = words.as_slice();
    let status = match native {
        Some(rt) => bsan(
            rt,
            alloc,
            words,
            &mut files,
            &mut out,
            gate,
            &hosts,
            &mut record,
        ),
        None => bsan_alone(alloc, words, &mut files, &mut out, &hosts, &mut record),
    };
    let text = Vec::from_slice(alloc, out.taken())?;
    Ok(Answer {
        status,
        text,
        record,
    })
}

/// Calls each row, and compares what it answers and whether it ran the program.
pub(crate) fn serve<R: Abort + Threads + Wait + Sync>(
    rt: &R,
    alloc: Global,
    rows: &[Row],
    runs: bool,
) -> Result<(), Fail> {
    for (line, program, status, want) in rows {
        let answer = call(Some(rt), alloc, line, &Given::of(program), &NoGate)?;
        assert_eq!(rt;
            answer.text.as_slice(),
            want.as_bytes(),
            "{line}: {program}"
        );
        assert_eq!(rt; answer.status, *status, "{line}: {program}");
        assert_eq!(rt;
            answer.record.threads.is_empty(),
            !runs,
            "{line}: {program}"
        );
    }
    Ok(())
}
