//! Reports of one thread, by words, the program, the status and the report that comes.
use crate::calls::{REPORT, Row, SMALLEST, serve};
use std::test::Fail;

/// What is written through reborrows of one pointer.
const REBORROWS: [Row; 5] = [
    ("solo p", SMALLEST, 0, REPORT),
    // The parent's read freezes the child, which then writes.
    (
        "solo p",
        "bir 1 func @main() -> i64 { entry: %x = alloca 8 %y = retag mut %x, 8 store i64 1, %y \
        %v = load i64, %x store i64 2, %y ret i64 0 }",
        1,
        "violation on allocation 1 by thread 0 at instruction 4, step 5: write 0..8 through tag 2: node 2 is Frozen at byte 0\n\
        thread 0 returned 0\nsteps 6, allocations 1, threads 1, violations 1\nstatus 1\n",
    ),
    // A write through a shared reborrow.
    (
        "solo p",
        "bir 1 func @main() -> i64 { entry: %x = alloca 8 %y = retag shr %x, 8 store i64 1, %y ret i64 0 }",
        1,
        "violation on allocation 1 by thread 0 at instruction 2, step 3: write 0..8 through tag 2: node 2 is Frozen at byte 0\n\
        thread 0 returned 0\nsteps 4, allocations 1, threads 1, violations 1\nstatus 1\n",
    ),
    // The parent's read leaves a child that has not written as it is.
    (
        "solo p",
        "bir 1 func @main() -> i64 { entry: %x = alloca 8 %y = retag mut %x, 8 %v = load i64, %x \
        store i64 1, %y ret i64 0 }",
        0,
        "thread 0 returned 0\nsteps 5, allocations 1, threads 1, violations 0\nstatus 0\n",
    ),
    // The first violation on each allocation.
    (
        "solo p",
        "bir 1 func @main() -> i64 { entry: %a = alloca 8 %b = alloca 8 %p = retag shr %a, 8 \
        %q = retag shr %b, 8 store i64 1, %p store i64 2, %p store i64 3, %q ret i64 0 }",
        1,
        "violation on allocation 1 by thread 0 at instruction 4, step 5: write 0..8 through tag 3: node 3 is Frozen at byte 0\n\
        violation on allocation 2 by thread 0 at instruction 6, step 7: write 0..8 through tag 4: node 4 is Frozen at byte 0\n\
        thread 0 returned 0\nsteps 9, allocations 2, threads 1, violations 2\nstatus 1\n",
    ),
];

#[test]
fn reports_reborrows(rt: HostRuntime) -> Result<(), Fail> {
    serve(&rt, rt.alloc(), &REBORROWS, true)
}

/// What is done beside arguments that are protected.
const PROTECTED: [Row; 4] = [
    // A protected node that became Conflicted writes.
    (
        "solo p",
        "bir 1 func @f(ptr mut(8) %y, ptr %x) -> void { e: %v = load i64, %x store i64 1, %y ret void } \
        func @main() -> i64 { e: %x = alloca 8 call void @f(ptr %x, ptr %x) ret i64 0 }",
        1,
        "violation on allocation 1 by thread 0 at instruction 1, step 4: write 0..8 through tag 2: node 2 is Conflicted at byte 0\n\
        thread 0 returned 0\nsteps 6, allocations 1, threads 1, violations 1\nstatus 1\n",
    ),
    // A foreign read of a protected node that wrote.
    (
        "solo p",
        "bir 1 func @f(ptr mut(8) %y, ptr %x) -> void { e: %p = gep %y, 4 store i32 1, %p %v = load i64, %x ret void } \
        func @main() -> i64 { e: %x = alloca 8 call void @f(ptr %x, ptr %x) ret i64 0 }",
        1,
        "violation on allocation 1 by thread 0 at instruction 2, step 4: read 0..8 through tag 1: protected node 2 is Unique at byte 4\n\
        thread 0 returned 0\nsteps 6, allocations 1, threads 1, violations 1\nstatus 1\n",
    ),
    // A cell that is protected is no cell.
    (
        "solo p",
        "bir 1 func @f(ptr cell(8) %y, ptr %x) -> void { e: store i64 1, %x ret void } \
        func @main() -> i64 { e: %x = alloca 8 call void @f(ptr %x, ptr %x) ret i64 0 }",
        1,
        "violation on allocation 1 by thread 0 at instruction 0, step 3: write 0..8 through tag 1: protected node 2 is Reserved at byte 0\n\
        thread 0 returned 0\nsteps 5, allocations 1, threads 1, violations 1\nstatus 1\n",
    ),
    (
        "solo p",
        "bir 1 func @main() -> i64 { e: %x = alloca 8 %y = retag cell %x, 8 store i64 1, %x %v = load i64, %y ret i64 0 }",
        0,
        "thread 0 returned 0\nsteps 5, allocations 1, threads 1, violations 0\nstatus 0\n",
    ),
];

#[test]
fn reports_protected_arguments(rt: HostRuntime) -> Result<(), Fail> {
    serve(&rt, rt.alloc(), &PROTECTED, true)
}

/// What ends under protectors, and at their ends.
const RELEASED: [Row; 3] = [
    // A box may be freed under its protector, and a mutable borrow may not.
    (
        "solo p",
        "bir 1 func @f(ptr box(8) %b) -> void { e: free %b ret void } \
        func @main() -> i64 { e: %b = malloc 8 call void @f(ptr %b) ret i64 0 }",
        0,
        "thread 0 returned 0\nsteps 4, allocations 1, threads 1, violations 0\nstatus 0\n",
    ),
    (
        "solo p",
        "bir 1 func @f(ptr mut(8) %b) -> void { e: free %b ret void } \
        func @main() -> i64 { e: %b = malloc 8 call void @f(ptr %b) ret i64 0 }",
        1,
        "violation on allocation 1 by thread 0 at instruction 0, step 3: free through tag 2: strongly protected node 2 is Reserved at byte 0\n\
        thread 0 returned 0\nsteps 4, allocations 1, threads 1, violations 1\nstatus 1\n",
    ),
    // A protector's end writes, and disables a sibling.
    (
        "solo p",
        "bir 1 func @f(ptr mut(8) %y, ptr %x) -> ptr { e: store i64 1, %y %q = gep %x, 8 %z = retag mut %q, 8 ret ptr %z } \
        func @main() -> i64 { e: %x = alloca 16 %z = call ptr @f(ptr %x, ptr %x) %p = gep %z, 18446744073709551608 \
        %v = load i64, %p ret i64 0 }",
        1,
        "violation on allocation 1 by thread 0 at instruction 7, step 6: read 0..8 through tag 4: node 4 is Disabled at byte 0\n\
        thread 0 returned 0\nsteps 7, allocations 1, threads 1, violations 1\nstatus 1\n",
    ),
];

#[test]
fn reports_ends_of_protectors(rt: HostRuntime) -> Result<(), Fail> {
    serve(&rt, rt.alloc(), &RELEASED, true)
}

/// Accesses beside what was reborrowed, or of another allocation.
const OUTSIDE: [Row; 4] = [
    (
        "solo p",
        "bir 1 func @main() -> i64 { e: %x = alloca 8 %a = retag mut %x, 0 %b = retag mut %x, 8 %q = gep %x, 1 \
        %c = retag mut %q, 8 ret i64 0 }",
        1,
        "violation on allocation 1 by thread 0 at instruction 4, step 3: retag mut 1..9 through tag 1: out of range\n\
        thread 0 returned 0\nsteps 4, allocations 1, threads 1, violations 1\nstatus 1\n",
    ),
    (
        "solo p",
        "bir 1 func @main() -> i64 { e: %x = alloca 65536 %y = retag mut %x, 1 %q = gep %y, 65528 store i64 7, %q \
        %p = gep %x, 65528 %v = load i64, %p print i64 %v store i64 1, %y store i64 9, %q ret i64 0 }",
        1,
        "thread 0 prints 7\n\
        violation on allocation 1 by thread 0 at instruction 8, step 7: write 65528..65536 through tag 2: node 2 is Frozen at byte 65528\n\
        thread 0 returned 0\nsteps 8, allocations 1, threads 1, violations 1\nstatus 1\n",
    ),
    // A pointer into another allocation.
    (
        "solo p",
        "bir 1 func @main() -> i64 { e: %a = alloca 8 %b = alloca 8 %p = gep %a, 4294967296 store i64 5, %p \
        %v = load i64, %b print i64 %v ret i64 0 }",
        1,
        "thread 0 prints 5\n\
        violation on allocation 2 by thread 0 at instruction 3, step 3: write 0..8 through tag 1 of allocation 1: stranger\n\
        thread 0 returned 0\nsteps 7, allocations 2, threads 1, violations 1\nstatus 1\n",
    ),
    // A host's answer has no provenance.
    (
        "solo p",
        "bir 1 func @main() -> i64 { e: %x = alloca 8 %p = host ptr @max(ptr %x, ptr %x) store i64 1, %p ret i64 0 }",
        1,
        "violation on allocation 1 by thread 0 at instruction 2, step 3: write 0..8 through no tag: stranger\n\
        thread 0 returned 0\nsteps 4, allocations 1, threads 1, violations 1\nstatus 1\n",
    ),
];

#[test]
fn reports_accesses_outside(rt: HostRuntime) -> Result<(), Fail> {
    serve(&rt, rt.alloc(), &OUTSIDE, true)
}

/// Pointers that are copied in pieces.
const COPIES: [Row; 2] = [
    // A pointer that is copied in two pieces keeps its provenance, and one of which a byte is overwritten loses it.
    (
        "solo p",
        "bir 1 func @main() -> i64 { e: %x = alloca 8 %s = alloca 8 %t = alloca 8 store ptr %x, %s memcpy %t, %s, 4 \
        %s4 = gep %s, 4 %t4 = gep %t, 4 memcpy %t4, %s4, 4 %p = load ptr, %t store i64 1, %p ret i64 0 }",
        0,
        "thread 0 returned 0\nsteps 13, allocations 3, threads 1, violations 0\nstatus 0\n",
    ),
    (
        "solo p",
        "bir 1 func @main() -> i64 { e: %x = alloca 8 %s = alloca 8 %t = alloca 8 store ptr %x, %s memcpy %t, %s, 4 \
        %s4 = gep %s, 4 %t4 = gep %t, 4 memcpy %t4, %s4, 4 %c = load i8, %t store i8 %c, %t %p = load ptr, %t store i64 1, %p ret i64 0 }",
        1,
        "violation on allocation 1 by thread 0 at instruction 11, step 12: write 0..8 through no tag: stranger\n\
        thread 0 returned 0\nsteps 15, allocations 3, threads 1, violations 1\nstatus 1\n",
    ),
];

#[test]
fn reports_copies(rt: HostRuntime) -> Result<(), Fail> {
    serve(&rt, rt.alloc(), &COPIES, true)
}

/// Accesses that trap.
const TRAPS: [Row; 4] = [
    (
        "solo p",
        "bir 1 func @main() -> i64 { e: %p = malloc 8 free %p %v = load i64, %p ret i64 0 }",
        5,
        "thread 0 trapped: Freed at instruction 2\nsteps 3, allocations 1, threads 1, violations 0\nstatus 5\n",
    ),
    (
        "solo p",
        "bir 1 func @main() -> i64 { e: %p = malloc 8 free %p free %p ret i64 0 }",
        5,
        "thread 0 trapped: Freed at instruction 2\nsteps 3, allocations 1, threads 1, violations 0\nstatus 5\n",
    ),
    (
        "solo p",
        "bir 1 func @main() -> i64 { e: %x = alloca 8 free %x ret i64 0 }",
        5,
        "thread 0 trapped: BadFree at instruction 1\nsteps 2, allocations 1, threads 1, violations 0\nstatus 5\n",
    ),
    (
        "solo p",
        "bir 1 func @main() -> i64 { e: %p = null %v = load i64, %p ret i64 0 }",
        5,
        "thread 0 trapped: NoAllocation at instruction 1\nsteps 1, allocations 0, threads 1, violations 0\nstatus 5\n",
    ),
];

#[test]
fn reports_traps_of_accesses(rt: HostRuntime) -> Result<(), Fail> {
    serve(&rt, rt.alloc(), &TRAPS, true)
}

/// Other ends.
const ENDS: [Row; 6] = [
    (
        "solo p --turns 5",
        "bir 1 func @main() -> i64 { entry: br l l: br l }",
        6,
        "thread 0 reached the turn limit\nsteps 0, allocations 0, threads 1, violations 0\nstatus 6\n",
    ),
    (
        "solo p",
        "bir 1 func @f() -> void { e: call void @f() ret void } func @main() -> i64 { e: call void @f() ret i64 0 }",
        5,
        "thread 0 trapped: DepthLimit at instruction 0\nsteps 0, allocations 0, threads 1, violations 0\nstatus 5\n",
    ),
    (
        "solo p",
        "bir 1 func @main() -> i64 { e: %x = alloca 0 ret i64 0 }",
        5,
        "thread 0 trapped: BadSize at instruction 0\nsteps 0, allocations 0, threads 1, violations 0\nstatus 5\n",
    ),
    (
        "solo p",
        "bir 1 func @main() -> i64 { e: %x = udiv i8 1, 0 ret i64 0 }",
        5,
        "thread 0 trapped: DivZero at instruction 0\nsteps 0, allocations 0, threads 1, violations 0\nstatus 5\n",
    ),
    (
        "solo p",
        "bir 1 func @main() -> i64 { e: %x = shl i8 1, 8 ret i64 0 }",
        5,
        "thread 0 trapped: ShiftTooFar at instruction 0\nsteps 0, allocations 0, threads 1, violations 0\nstatus 5\n",
    ),
    (
        "solo p --allocs 1",
        "bir 1 func @main() -> i64 { e: %a = alloca 8 %b = alloca 8 %p = gep %a, 4294967296 store i64 5, %p \
        %v = load i64, %b print i64 %v ret i64 0 }",
        5,
        "thread 0 trapped: AllocLimit at instruction 1\nsteps 1, allocations 1, threads 1, violations 0\nstatus 5\n",
    ),
];

#[test]
fn reports_other_ends(rt: HostRuntime) -> Result<(), Fail> {
    serve(&rt, rt.alloc(), &ENDS, true)
}
