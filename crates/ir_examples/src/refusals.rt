//! Short texts, and how they are refused.
use ir_reader::{ReadFault, read};
use std::alloc::Global;
use std::process::Abort;

/// Texts that are cut off, have a wrong first line, or a byte or a kind that they can't have, with the place where.
const TEXTS: [(&str, ReadFault); 17] = [
    // cut off
    ("", ReadFault::Unexpected { at: 0 }),
    (" ; nothing", ReadFault::Unexpected { at: 10 }),
    ("bir", ReadFault::Unexpected { at: 3 }),
    ("bir 1", ReadFault::Unexpected { at: 5 }),
    ("bir 1\nfunc @main(", ReadFault::Unexpected { at: 17 }),
    (
        "bir 1 func @f() -> void { b:",
        ReadFault::Unexpected { at: 28 },
    ),
    (
        "bir 1 func @f() -> void { b: ret void",
        ReadFault::Unexpected { at: 37 },
    ),
    // the first line
    ("bin 1", ReadFault::Unexpected { at: 0 }),
    ("bir 0", ReadFault::Unexpected { at: 4 }),
    ("bir 2", ReadFault::Unexpected { at: 5 }),
    ("bir 3", ReadFault::Unexpected { at: 4 }),
    ("bir 18446744073709551617", ReadFault::Unexpected { at: 4 }),
    // bad bytes, wherever they are
    ("bir 1\n$", ReadFault::BadByte { at: 6 }),
    ("bir 2 %", ReadFault::BadByte { at: 6 }),
    // a kind that the version does not have
    (
        "bir 1\nfunc @main() -> i64 {\nentry:\n  %x = alloca 8\n  %y = retag shrcell %x, 8",
        ReadFault::Unexpected { at: 64 },
    ),
    (
        "bir 1 func @f(ptr shrcell(8) %a) -> void { b: ret void }",
        ReadFault::Unexpected { at: 18 },
    ),
    (
        "bir 2 func @f(ptr shrcell(8) %a) -> ptr shrcells(8) { b: ret void }",
        ReadFault::Unexpected { at: 40 },
    ),
];

/// Functions that go wrong in their blocks, operations and numbers, with the place where.
const FUNCTIONS: [(&str, ReadFault); 20] = [
    // functions and blocks
    (
        "bir 1 func @f() -> void { }",
        ReadFault::Unexpected { at: 26 },
    ),
    (
        "bir 1 func @f() -> void { b: }",
        ReadFault::Unexpected { at: 29 },
    ),
    (
        "bir 1 func @f() -> void { b: ret void } 1",
        ReadFault::Unexpected { at: 40 },
    ),
    (
        "bir 1 func @f(i64 %a,) -> void { b: ret void }",
        ReadFault::Unexpected { at: 21 },
    ),
    (
        "bir 1 func @f(i64 mut(8) %a) -> void { b: ret void }",
        ReadFault::Unexpected { at: 18 },
    ),
    (
        "bir 1 func @f() -> void { b(): ret void }",
        ReadFault::Unexpected { at: 28 },
    ),
    (
        "bir 1 func @f() -> void { b(ptr shr(8) %a): ret void }",
        ReadFault::Unexpected { at: 32 },
    ),
    (
        "bir 1 func @f() -> void { b: br c(i64 1,) }",
        ReadFault::Unexpected { at: 40 },
    ),
    // operations in their places
    (
        "bir 1 func @f() -> void { b: %x = store i64 1, %y",
        ReadFault::Unexpected { at: 34 },
    ),
    (
        "bir 1 func @f() -> void { b: alloca 8",
        ReadFault::Unexpected { at: 29 },
    ),
    (
        "bir 1 func @f() -> void { b: %x = call void @g()",
        ReadFault::Unexpected { at: 39 },
    ),
    (
        "bir 1 func @f() -> void { b: store ptr 1, %y",
        ReadFault::Unexpected { at: 39 },
    ),
    // `inttoptr`, in an operation's place and elsewhere
    (
        "bir 1\nfunc @main() -> i64 {\nentry:\n  %p = inttoptr 5",
        ReadFault::IntToPtr { at: 42 },
    ),
    (
        "bir 1 func @f() -> void { b: inttoptr 5",
        ReadFault::Unexpected { at: 29 },
    ),
    (
        "bir 1 func @f() -> inttoptr",
        ReadFault::Unexpected { at: 19 },
    ),
    // numbers
    (
        "bir 1\nfunc @main() -> i64 {\nentry:\n  %a = const i8 256",
        ReadFault::NumberTooLarge { at: 51 },
    ),
    (
        "bir 1 func @f() -> void { b: %a = alloca 18446744073709551616",
        ReadFault::NumberTooLarge { at: 41 },
    ),
    (
        "bir 1 func @f(ptr mut(4294967296) %a) -> void",
        ReadFault::NumberTooLarge { at: 22 },
    ),
    (
        "bir 1 func @f() -> void { b: print i16 65536",
        ReadFault::NumberTooLarge { at: 39 },
    ),
    (
        "bir 1 func @f() -> void { b: condbr 256, c, d",
        ReadFault::NumberTooLarge { at: 36 },
    ),
];

fn check(rt: &impl Abort, alloc: Global, rows: &[(&str, ReadFault)]) {
    for (text, fault) in rows {
        assert_eq!(rt;
            read(alloc, text.as_bytes()).err(),
            Some(*fault),
            "in {text}"
        );
    }
}

#[test]
fn refuses_texts(rt: HostRuntime) {
    check(&rt, rt.alloc(), &TEXTS);
}

#[test]
fn refuses_functions(rt: HostRuntime) {
    check(&rt, rt.alloc(), &FUNCTIONS);
}
