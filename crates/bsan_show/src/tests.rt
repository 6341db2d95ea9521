ghost use Rattle.std.specs.Prelude.{◌<◌, length};
ghost use Rattle.hosts.specs.Rules.{IsAnswer};
ghost use Rattle.hosts.specs.Standard.{standard_table};

use crate::remembering::Remembering;
use crate::top::Outside;
use bsan_ids::Name;
use hosts::{Hosts, standard_answer, standard_table};
use outside_io::{MemFiles, MemSink};
use run_record::RunRecord;
use std::alloc::Global;
use std::sync::Wait;
use std::test::Fail;
use std::thread::Threads;

/// What a call answered, put, and said of it.
#[derive(Drop)]
struct Answer {
    status: u8,
    text: Vec<u8>,
    notes: Vec<u8>,
}

/// A call by the words of a line, which are separated by single blanks. The program is in the file `p`, and `q` is
/// empty.
fn call<R: Threads + Wait + Sync>(
    rt: &R,
    alloc: Global,
    line: &str,
    program: &str,
    colours: bool,
) -> Result<Answer, Fail> {
    let mut words = Vec::new(alloc);
    for word in line.split(' ') {
        words.push(String::from_str(alloc, word)?)?;
    }
    let held = vec![in alloc;
        (
            Name::from_vec(Vec::from_slice(alloc, b"p")?),
            Vec::from_slice(alloc, program.as_bytes())?,
        ),
        (
            Name::from_vec(Vec::from_slice(alloc, b"q")?),
            Vec::new(alloc)
        ),
    ]?;
    let mut files = Remembering::new(MemFiles::new(alloc, held, Vec::new(alloc)));
    let mut out = MemSink::new(alloc, None);
    let Ok(table) = standard_table(alloc) else {
        return Err(Fail::new("standard_table"));
    };
    let standard = |number: u32, first: u64, second: u64|
        requires { number < length standard_table.entries }
        ensures { IsAnswer standard_table number first second result }
    { standard_answer(number, first, second) };
    let hosts = Hosts::new(table, Box::new(alloc, standard)?);
    let outside = Outside {
        rt,
        alloc,
        hosts: &hosts,
        colours,
    };
    let mut kept = RunRecord::new(alloc);
    let shown = outside.show(words.as_slice(), &mut files, &mut out, &mut kept);
    let text = Vec::from_slice(alloc, out.taken())?;
    Ok(Answer {
        status: shown.status,
        text,
        notes: shown.notes?,
    })
}

const SMALLEST: &str = "bir 1\nfunc @main() -> i64 {\nentry:\n  ret i64 0\n}\n";

const CONST_CAST: &str =
    "bir 1\nfunc @main() -> i64 {\nentry:\n  %x = alloca 8\n  %y = retag shr %x, 8\n  store i64 1, %y\n  ret i64 0\n}\n";

const CONST_CAST_REPORT: &str =
    "violation on allocation 1 by thread 0 at instruction 2, step 3: write 0..8 through tag 2: node 2 is Frozen at byte 0\n\
     thread 0 returned 0\nsteps 4, allocations 1, threads 1, violations 1\nstatus 1\n";

const CONST_CAST_NOTES: &str =
    "violation on allocation 1 by thread 0 at instruction 2, step 3: write 0..8 through tag 2: node 2 is Frozen at byte 0\n \
     --> p:6:3\n  |\n6 |   store i64 1, %y\n  |   ^\n\
     note: allocation 1, with its own node 1, was made here by thread 0, step 1\n \
     --> p:4:3\n  |\n4 |   %x = alloca 8\n  |   ^\n\
     note: node 2, a shared reference, was made with this state here by thread 0, step 2\n \
     --> p:5:3\n  |\n5 |   %y = retag shr %x, 8\n  |   ^\n\
     help: nothing is written through a shared reference; take a mutable one, or a reference to a cell\n\n";

const READ_BETWEEN: &str =
    "bir 1\nfunc @main() -> i64 {\nentry:\n  %x = alloca 8\n  %y = retag mut %x, 8\n  store i64 1, %y\n  \
     %v = load i64, %x\n  store i64 2, %y\n  ret i64 0\n}\n";

const READ_BETWEEN_NOTES: &str =
    "violation on allocation 1 by thread 0 at instruction 4, step 5: write 0..8 through tag 2: node 2 is Frozen at byte 0\n \
     --> p:8:3\n  |\n8 |   store i64 2, %y\n  |   ^\n\
     note: allocation 1, with its own node 1, was made here by thread 0, step 1\n \
     --> p:4:3\n  |\n4 |   %x = alloca 8\n  |   ^\n\
     note: node 2, a mutable reference, was made here by thread 0, step 2\n \
     --> p:5:3\n  |\n5 |   %y = retag mut %x, 8\n  |   ^\n\
     note: node 2 became Frozen at byte 0 by a read of bytes 0..8, here by thread 0, step 4\n \
     --> p:7:3\n  |\n7 |   %v = load i64, %x\n  |   ^\n\
     help: another pointer has read these bytes since, and may rely on them; write before that read, or borrow again for the write\n\n";

/// A function reads through a cell's reference what it has written through its own.
const PROTECTED: &str =
    "bir 2\nfunc @f(ptr mut(8) %p, ptr %q) -> void {\nentry:\n  store i64 1, %p\n  %v = load i64, %q\n  ret void\n}\n\
     func @main() -> i64 {\nentry:\n  %x = alloca 8\n  %y = retag shrcell %x, 8\n  call void @f(ptr %x, ptr %y)\n  ret i64 0\n}\n";

const PROTECTED_NOTES: &str =
    "violation on allocation 1 by thread 0 at instruction 1, step 5: read 0..8 through tag 2: protected node 3 is Unique at byte 0\n \
     --> p:5:3\n  |\n5 |   %v = load i64, %q\n  |   ^\n\
     note: allocation 1, with its own node 1, was made here by thread 0, step 1\n  \
     --> p:10:3\n   |\n10 |   %x = alloca 8\n   |   ^\n\
     note: node 3, a mutable reference, was made at the entry of @f by thread 0, step 3\n \
     --> p:2:20\n  |\n2 | func @f(ptr mut(8) %p, ptr %q) -> void {\n  |                    ^\n\
     note: node 3 became Unique at byte 0 by a write of bytes 0..8, here by thread 0, step 4\n \
     --> p:4:3\n  |\n4 |   store i64 1, %p\n  |   ^\n\
     note: node 2, a shared reference to a cell, was made here by thread 0, step 2\n  \
     --> p:11:3\n   |\n11 |   %y = retag shrcell %x, 8\n   |   ^\n\
     help: until the function returns that was given this reference, no other pointer may write its bytes, nor read what was written through it\n\n";

const FREED_INSIDE: &str =
    "bir 1\nfunc @f(ptr mut(8) %b) -> void {\nentry:\n  free %b\n  ret void\n}\n\
     func @main() -> i64 {\nentry:\n  %b = malloc 8\n  call void @f(ptr %b)\n  ret i64 0\n}\n";

const FREED_INSIDE_NOTES: &str =
    "violation on allocation 1 by thread 0 at instruction 0, step 3: free through tag 2: strongly protected node 2 is Reserved at byte 0\n \
     --> p:4:3\n  |\n4 |   free %b\n  |   ^\n\
     note: allocation 1, with its own node 1, was made here by thread 0, step 1\n \
     --> p:9:3\n  |\n9 |   %b = malloc 8\n  |   ^\n\
     note: node 2, a mutable reference, was made with this state at the entry of @f by thread 0, step 2\n \
     --> p:2:20\n  |\n2 | func @f(ptr mut(8) %b) -> void {\n  |                    ^\n\
     help: until the function returns that was given this reference, the allocation may not be freed; free it later, or hand it over as a box\n\n";

const OUTSIDE: &str =
    "bir 1\nfunc @main() -> i64 {\nentry:\n  %x = alloca 8\n  %q = gep %x, 1\n  %c = retag mut %q, 8\n  ret i64 0\n}\n";

const OUTSIDE_NOTES: &str =
    "violation on allocation 1 by thread 0 at instruction 2, step 2: retag mut 1..9 through tag 1: out of range\n \
     --> p:6:3\n  |\n6 |   %c = retag mut %q, 8\n  |   ^\n\
     note: allocation 1, with its own node 1, was made here by thread 0, step 1\n \
     --> p:4:3\n  |\n4 |   %x = alloca 8\n  |   ^\n\
     help: a borrow ends with its allocation at the latest; borrow fewer bytes\n\n";

/// A pointer into one allocation is moved into the next.
const NEIGHBOUR: &str =
    "bir 1\nfunc @main() -> i64 {\nentry:\n  %a = alloca 8\n  %b = alloca 8\n  %p = gep %a, 4294967296\n  \
     store i64 5, %p\n  ret i64 0\n}\n";

const NEIGHBOUR_NOTES: &str =
    "violation on allocation 2 by thread 0 at instruction 3, step 3: write 0..8 through tag 1 of allocation 1: stranger\n \
     --> p:7:3\n  |\n7 |   store i64 5, %p\n  |   ^\n\
     note: allocation 2, with its own node 2, was made here by thread 0, step 2\n \
     --> p:5:3\n  |\n5 |   %b = alloca 8\n  |   ^\n\
     note: allocation 1, which the pointer may use, was made here by thread 0, step 1\n \
     --> p:4:3\n  |\n4 |   %a = alloca 8\n  |   ^\n\
     help: the pointer may use another allocation, and was moved out of it; derive one from a pointer to this allocation\n\n";

const FREED: &str =
    "bir 1\nfunc @main() -> i64 {\nentry:\n  %p = malloc 8\n  free %p\n  %q = retag mut %p, 8\n  ret i64 0\n}\n";

const FREED_NOTES: &str =
    "violation on allocation 1 by thread 0 at instruction 2, step 3: retag mut 0..8 through tag 1: freed\n \
     --> p:6:3\n  |\n6 |   %q = retag mut %p, 8\n  |   ^\n\
     note: allocation 1, with its own node 1, was made here by thread 0, step 1\n \
     --> p:4:3\n  |\n4 |   %p = malloc 8\n  |   ^\n\
     note: allocation 1 was freed here by thread 0, step 2\n \
     --> p:5:3\n  |\n5 |   free %p\n  |   ^\n\
     help: the allocation was freed before; borrow before the free\n\n";

/// A child and its parent write the same word.
const RACE: &str =
    "bir 1\nfunc @f(ptr %x) -> void {\nentry:\n  store i64 1, %x\n  ret void\n}\nfunc @main() -> i64 {\nentry:\n  \
     %x = malloc 8\n  %h = spawn @f(ptr %x)\n  store i64 2, %x\n  join void %h\n  free %x\n  ret i64 0\n}\n";

const RACE_NOTES: &str = "race on allocation 1\n\
     note: one access, a non-atomic write of bytes 0..8, was made here by thread 0, step 3\n  \
     --> p:11:3\n   |\n11 |   store i64 2, %x\n   |   ^\n\
     note: the other access, a non-atomic write of bytes 0..8, was made here by thread 1, step 4\n \
     --> p:4:3\n  |\n4 |   store i64 1, %x\n  |   ^\n\
     help: nothing orders the two accesses; let one thread join the other before it goes on, or order them by atomic accesses\n\n";

const TRAP: &str = "bir 1\nfunc @main() -> i64 {\nentry:\n\t%a = udiv i64 1, 0\n\tret i64 %a\n}\n";

const TRAP_NOTES: &str =
    "thread 0 trapped: DivZero at instruction 0\n --> p:4:2\n  |\n4 |  %a = udiv i64 1, 0\n  |  ^\n\
     help: the divisor is 0; test it before the division\n\n";

const CUT: &str = "bir 1\nfunc @main(";

const CUT_NOTES: &str =
    "not read: Unexpected at 17\n --> p:2:12\n  |\n2 | func @main(\n  |            ^\n\
     help: the text ends before the program does; each function ends with `}`, and each block with `br`, `condbr`, `ret` or `unreachable`\n\n";

const CUT_COLOURS: &str =
    "\x1b[1;31mnot read: Unexpected at 17\x1b[0m\n --> p:2:12\n  |\n2 | func @main(\n  |            ^\n\
     \x1b[1;36mhelp: \x1b[0mthe text ends before the program does; each function ends with `}`, and each block with `br`, `condbr`, `ret` or `unreachable`\n\n";

const UNASSIGNED: &str =
    "bir 1\nfunc @main() -> i64 {\nentry:\n  condbr 1, a, b\na:\n  %r = const i64 4\n  br b\nb:\n  ret i64 %r\n}\n";

const UNASSIGNED_NOTES: &str =
    "not verified: Unassigned at 94\n --> p:9:11\n  |\n9 |   ret i64 %r\n  |           ^\n\
     help: some path to this place doesn't define the register; define it on each, or make it a parameter of the block\n\n";

const WRONG_WORDS_NOTES: &str =
    "not so: solo\nhelp: `solo FILE`, with any of the options --input FILE, --steps N (1 to 4000000), \
     --turns N (1 to 100000000) and --allocs N (1 to 65536), each once\n\n";

/// Words, the program, whether notes are in colours, the status, and the notes that come.
const NOTES: [(&str, &str, bool, u8, &str); 20] = [
    ("solo p", CONST_CAST, false, 1, CONST_CAST_NOTES),
    ("run p", CONST_CAST, false, 1, CONST_CAST_NOTES),
    ("explain p 0", CONST_CAST, false, 1, CONST_CAST_NOTES),
    ("solo p --input q", CONST_CAST, false, 1, CONST_CAST_NOTES),
    ("replay p 0", READ_BETWEEN, false, 1, READ_BETWEEN_NOTES),
    ("solo p", PROTECTED, false, 1, PROTECTED_NOTES),
    ("solo p", FREED_INSIDE, false, 1, FREED_INSIDE_NOTES),
    ("solo p", OUTSIDE, false, 1, OUTSIDE_NOTES),
    ("solo p", NEIGHBOUR, false, 1, NEIGHBOUR_NOTES),
    ("solo p", FREED, false, 1, FREED_NOTES),
    ("races p 0", RACE, false, 10, RACE_NOTES),
    ("solo p", TRAP, false, 5, TRAP_NOTES),
    ("check p", CUT, false, 3, CUT_NOTES),
    ("check p", CUT, true, 3, CUT_COLOURS),
    ("hush p q", CUT, false, 3, CUT_NOTES),
    ("hush p q", CONST_CAST, false, 1, ""),
    ("solo p", UNASSIGNED, false, 4, UNASSIGNED_NOTES),
    ("check p", CONST_CAST, false, 0, ""),
    ("solo p", SMALLEST, true, 0, ""),
    ("solo p --steps 0", CONST_CAST, false, 2, WRONG_WORDS_NOTES),
];

#[test]
fn notes(rt: HostRuntime) -> Result<(), Fail> {
    for (line, program, colours, status, wanted) in NOTES {
        let answer = call(&rt, rt.alloc(), line, program, colours)?;
        assert_eq!(rt; answer.status, status, "status of {line} for {program}");
        assert_eq!(rt;
            answer.notes.as_slice(),
            wanted.as_bytes(),
            "notes of {line} for {program}"
        );
    }
    Ok(())
}

#[test]
fn text_is_the_report(rt: HostRuntime) -> Result<(), Fail> {
    let answer = call(&rt, rt.alloc(), "solo p", CONST_CAST, true)?;
    assert_eq!(rt; answer.text.as_slice(), CONST_CAST_REPORT.as_bytes());
    Ok(())
}
