//! Commands that run no program: refused words and programs, and texts of accepted programs.
use crate::calls::{CUT, Given, Row, SMALLEST, TWO_HALVES, UNREAD, USAGE, call, serve};
use ir_ast::print;
use ir_reader::read;
use outside_io::NoGate;
use std::test::Fail;
use workload::make;

/// Words that are refused.
const WORDS: [Row; 4] = [
    ("solo p --steps 0", SMALLEST, 2, USAGE),
    ("replay p 0,,1", SMALLEST, 2, USAGE),
    ("load 1 10001", SMALLEST, 2, USAGE),
    ("load 1 0", SMALLEST, 2, USAGE),
];

#[test]
fn refuses_words(rt: HostRuntime) -> Result<(), Fail> {
    serve(&rt, rt.alloc(), &WORDS, false)
}

/// Words, the program, the status and what is said of it.
const PROGRAMS: [Row; 6] = [
    ("solo p", CUT, 3, UNREAD),
    (
        "solo p",
        "bir 1\nfunc @main() -> i64 {\nentry:\n  %p = inttoptr 5\n",
        3,
        "not read: IntToPtr at 42\n",
    ),
    (
        "check p",
        "bir 1\nfunc @main() -> i64 {\nentry:\n  %a = const i8 256\n",
        3,
        "not read: NumberTooLarge at 51\n",
    ),
    ("replay p 0", "bir 1\n$", 3, "not read: BadByte at 6\n"),
    (
        "solo p",
        "bir 1\nfunc @main() -> i64 {\nentry:\n  condbr 1, a, b\na:\n  %r = const i64 4\n  br b\nb:\n  ret i64 %r\n}\n",
        4,
        "not verified: Unassigned at 94\n",
    ),
    ("solo missing", SMALLEST, 7, "read fault: program\n"),
];

#[test]
fn refuses_programs(rt: HostRuntime) -> Result<(), Fail> {
    serve(&rt, rt.alloc(), &PROGRAMS, false)
}

/// Words, an accepted program, the status and the text that comes.
const ACCEPTED: [Row; 2] = [
    (
        "check p",
        TWO_HALVES,
        0,
        "accepted: 2 functions, 14 instructions\n",
    ),
    (
        "instrument p",
        "bir 1 func @main() -> i64 { entry: %x = alloca 8 %y = retag shr %x, 8 %v = load i64, %y ret i64 %v }",
        0,
        "target 1\nfunc 0 @main slots 3\npushframe\nblock 0\nturn 0\ns0 h0 = make stack 8\nturn 1\n\
         h1 = retag shr free s0 h0 8\ns1 = s0\nturn 2\ncheck read s1 h1 8\ns2 = load i64 s1\nturn 3\n\
         result = s2\npopframe\nreturn\n",
    ),
];

#[test]
fn writes_texts_of_accepted_programs(rt: HostRuntime) -> Result<(), Fail> {
    serve(&rt, rt.alloc(), &ACCEPTED, false)
}

#[test]
fn a_generated_program_is_read_again(rt: HostRuntime) -> Result<(), Fail> {
    let alloc = rt.alloc();
    let text = print(alloc, &make(alloc, 0, 1)?)?;
    let Ok(program) = str::from_utf8(text.as_slice()) else {
        return Err(Fail::new("print"));
    };
    let answer = call(Some(&rt), alloc, "check p", &Given::of(program), &NoGate)?;
    let want = "accepted: 5 functions, 66 instructions\n";
    assert_eq!(rt; answer.text.as_slice(), want.as_bytes());
    Ok(())
}

#[test]
fn a_text_is_printed_in_the_canonical_form(rt: HostRuntime) -> Result<(), Fail> {
    let alloc = rt.alloc();
    let Ok(program) = read(alloc, b"bir 01 func @main()->i64{entry:ret i64 007}") else {
        return Err(Fail::new("read"));
    };
    let want = "bir 1\nfunc @main() -> i64 {\nentry:\n  ret i64 7\n}\n";
    assert_eq!(rt; print(alloc, &program)?.as_slice(), want.as_bytes());
    Ok(())
}
