//! Allocations that hold pointers, or are accessed through pointers of others, one table for each.
use crate::allocations::{
    ADDRESS, Ask, CLEAN, CLOSED, DONE, SECOND, STACK, Seen, Step, THIRD, WORD, X, check,
};
use bsan_ids::AllocNo;
use eager_tree::Violation;
use history::Verdict;
use ir_ast::{ModifyOp, Ty, Width};
use std::test::Fail;

const BYTE: Ty = Ty::Int(Width::W8);

const STRANGER: Verdict = Verdict::Violated(Violation::Stranger);

/// A pointer of another allocation writes here.
const TARGET: &[Step] = &[
    (
        2,
        Ask::Make(8, STACK),
        Seen::Made(AllocNo(2)),
        SECOND,
        CLEAN,
    ),
    (3, Ask::Store(0, WORD, 5, X), DONE, None, STRANGER),
    (4, Ask::Load(0, WORD, SECOND), Seen::Value(5), None, CLOSED),
    (6, Ask::Free(true, SECOND), DONE, None, CLOSED),
];

const BESIDE: &[Step] = &[
    (1, Ask::Make(8, STACK), Seen::Made(AllocNo(1)), X, CLEAN),
    (7, Ask::Free(true, X), DONE, None, CLEAN),
];

/// A pointer is stored and copied out in halves.
const SOURCE: &[Step] = &[
    (
        2,
        Ask::Make(8, STACK),
        Seen::Made(AllocNo(2)),
        SECOND,
        CLEAN,
    ),
    (4, Ask::StorePointer, DONE, None, CLEAN),
    (5, Ask::CopyOut(0), Seen::Copied, None, CLEAN),
    (7, Ask::CopyOut(4), Seen::Copied, None, CLEAN),
    (12, Ask::Free(true, SECOND), DONE, None, CLEAN),
];

/// Both halves are copied in, and make the pointer again.
const COPIED: &[Step] = &[
    (3, Ask::Make(8, STACK), Seen::Made(AllocNo(3)), THIRD, CLEAN),
    (6, Ask::CopyIn(0), DONE, None, CLEAN),
    (8, Ask::CopyIn(4), DONE, None, CLEAN),
    (
        9,
        Ask::Load(0, Ty::Ptr, THIRD),
        Seen::Value(ADDRESS),
        X,
        CLEAN,
    ),
    (11, Ask::Free(true, THIRD), DONE, None, CLEAN),
];

const POINTED_AT: &[Step] = &[
    (1, Ask::Make(8, STACK), Seen::Made(AllocNo(1)), X, CLEAN),
    (10, Ask::Store(0, WORD, 1, X), DONE, None, CLEAN),
    (13, Ask::Free(true, X), DONE, None, CLEAN),
];

/// One byte of a pointer is written again, with the same value.
const OVERWRITTEN: &[Step] = &[
    (3, Ask::Make(8, STACK), Seen::Made(AllocNo(3)), THIRD, CLEAN),
    (6, Ask::CopyIn(0), DONE, None, CLEAN),
    (8, Ask::CopyIn(4), DONE, None, CLEAN),
    (9, Ask::Load(0, BYTE, THIRD), Seen::Value(0), None, CLEAN),
    (10, Ask::Store(0, BYTE, 0, THIRD), DONE, None, CLEAN),
    (
        11,
        Ask::Load(0, Ty::Ptr, THIRD),
        Seen::Value(ADDRESS),
        None,
        CLEAN,
    ),
    (13, Ask::Free(true, THIRD), DONE, None, CLEAN),
];

const UNTAGGED: &[Step] = &[
    (1, Ask::Make(8, STACK), Seen::Made(AllocNo(1)), X, CLEAN),
    (12, Ask::Store(0, WORD, 1, None), DONE, None, STRANGER),
    (15, Ask::Free(true, X), DONE, None, CLOSED),
];

const MODIFIED_POINTER: &[Step] = &[
    (
        2,
        Ask::Make(8, STACK),
        Seen::Made(AllocNo(2)),
        SECOND,
        CLEAN,
    ),
    (3, Ask::StorePointer, DONE, None, CLEAN),
    (
        4,
        Ask::Modify(ModifyOp::Add, 0, SECOND),
        Seen::Value(ADDRESS),
        None,
        CLEAN,
    ),
    (
        5,
        Ask::Load(0, Ty::Ptr, SECOND),
        Seen::Value(ADDRESS),
        None,
        CLEAN,
    ),
    (6, Ask::Free(true, SECOND), DONE, None, CLEAN),
];

const EXCHANGED_POINTER: &[Step] = &[
    (
        2,
        Ask::Make(8, STACK),
        Seen::Made(AllocNo(2)),
        SECOND,
        CLEAN,
    ),
    (3, Ask::StorePointer, DONE, None, CLEAN),
    (
        4,
        Ask::CmpXchg(ADDRESS, ADDRESS, SECOND),
        Seen::Value(ADDRESS),
        None,
        CLEAN,
    ),
    (
        5,
        Ask::Load(0, Ty::Ptr, SECOND),
        Seen::Value(ADDRESS),
        None,
        CLEAN,
    ),
    (6, Ask::Free(true, SECOND), DONE, None, CLEAN),
];

const KEPT_POINTER: &[Step] = &[
    (
        2,
        Ask::Make(8, STACK),
        Seen::Made(AllocNo(2)),
        SECOND,
        CLEAN,
    ),
    (3, Ask::StorePointer, DONE, None, CLEAN),
    (
        4,
        Ask::CmpXchg(7, 9, SECOND),
        Seen::Value(ADDRESS),
        None,
        CLEAN,
    ),
    (
        5,
        Ask::Load(0, Ty::Ptr, SECOND),
        Seen::Value(ADDRESS),
        X,
        CLEAN,
    ),
    (6, Ask::Free(true, SECOND), DONE, None, CLEAN),
];

#[test]
fn pointers_are_answered(rt: HostRuntime) -> Result<(), Fail> {
    let alloc = rt.alloc();
    check(&rt, alloc, 2, TARGET)?;
    check(&rt, alloc, 1, BESIDE)?;
    check(&rt, alloc, 2, SOURCE)?;
    check(&rt, alloc, 3, COPIED)?;
    check(&rt, alloc, 1, POINTED_AT)?;
    check(&rt, alloc, 3, OVERWRITTEN)?;
    check(&rt, alloc, 1, UNTAGGED)?;
    check(&rt, alloc, 2, MODIFIED_POINTER)?;
    check(&rt, alloc, 2, EXCHANGED_POINTER)?;
    check(&rt, alloc, 2, KEPT_POINTER)?;
    Ok(())
}
