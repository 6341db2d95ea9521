//! Allocations whose reborrows are used, protected and denied, one table for each.
use crate::allocations::{
    ADDED, ADDRESS, Ask, CLEAN, CLOSED, DONE, FREE, FROZEN, HALF, MUT, STACK, STRONG, Seen, Step,
    WORD, X, Y, check,
};
use bsan_ids::{AllocNo, Prov, Tag};
use eager_tree::Violation;
use history::Verdict;
use perm_table::{Perm, RetagKind};
use std::test::Fail;

const Z: Option<Prov> = Some(Prov {
    alloc: AllocNo(1),
    tag: Tag(4),
});

const CONFLICTED: Verdict = Verdict::Violated(Violation::Denied {
    offset: 0,
    node: Tag(2),
    perm: Perm::Conflicted,
    local: true,
});

const UNIQUE_READ: Verdict = Verdict::Violated(Violation::Denied {
    offset: 4,
    node: Tag(2),
    perm: Perm::Unique,
    local: false,
});

const RESERVED_WRITE: Verdict = Verdict::Violated(Violation::Denied {
    offset: 0,
    node: Tag(2),
    perm: Perm::Reserved,
    local: false,
});

const FROZEN_AT_END: Verdict = Verdict::Violated(Violation::Denied {
    offset: 65_528,
    node: Tag(2),
    perm: Perm::Frozen,
    local: true,
});

const DISABLED_BY_END: Verdict = Verdict::Violated(Violation::Denied {
    offset: 0,
    node: Tag(4),
    perm: Perm::Disabled,
    local: true,
});

const PAST_THE_END: Verdict = Verdict::Violated(Violation::OutOfRange);

/// A protected reborrow is written after a read past it.
const CONFLICTED_WRITE: &[Step] = &[
    (1, Ask::Make(8, STACK), Seen::Made(AllocNo(1)), X, CLEAN),
    (2, Ask::Retag(0, 8, MUT, STRONG), ADDED, Y, CLEAN),
    (3, Ask::Load(0, WORD, X), Seen::Value(0), None, CLEAN),
    (4, Ask::Store(0, WORD, 1, Y), DONE, None, CONFLICTED),
    (5, Ask::EndProtector, DONE, None, CLOSED),
    (6, Ask::Free(true, X), DONE, None, CLOSED),
];

/// A read meets bytes that a protected reborrow has written.
const READ_OF_UNIQUE: &[Step] = &[
    (1, Ask::Make(8, STACK), Seen::Made(AllocNo(1)), X, CLEAN),
    (2, Ask::Retag(0, 8, MUT, STRONG), ADDED, Y, CLEAN),
    (3, Ask::Store(4, HALF, 1, Y), DONE, None, CLEAN),
    (
        4,
        Ask::Load(0, WORD, X),
        Seen::Value(ADDRESS),
        None,
        UNIQUE_READ,
    ),
    (5, Ask::EndProtector, DONE, None, CLOSED),
    (6, Ask::Free(true, X), DONE, None, CLOSED),
];

const PROTECTED_CELL: &[Step] = &[
    (1, Ask::Make(8, STACK), Seen::Made(AllocNo(1)), X, CLEAN),
    (
        2,
        Ask::Retag(0, 8, RetagKind::Cell, STRONG),
        ADDED,
        Y,
        CLEAN,
    ),
    (3, Ask::Store(0, WORD, 1, X), DONE, None, RESERVED_WRITE),
    (4, Ask::EndProtector, DONE, None, CLOSED),
    (5, Ask::Free(true, X), DONE, None, CLOSED),
];

const CELL: &[Step] = &[
    (1, Ask::Make(8, STACK), Seen::Made(AllocNo(1)), X, CLEAN),
    (2, Ask::Retag(0, 8, RetagKind::Cell, FREE), ADDED, Y, CLEAN),
    (3, Ask::Store(0, WORD, 1, X), DONE, None, CLEAN),
    (4, Ask::Load(0, WORD, Y), Seen::Value(1), None, CLEAN),
    (5, Ask::Free(true, X), DONE, None, CLEAN),
];

const DENIED_TWICE: &[Step] = &[
    (1, Ask::Make(8, STACK), Seen::Made(AllocNo(1)), X, CLEAN),
    (2, Ask::Retag(0, 8, RetagKind::Shr, FREE), ADDED, Y, CLEAN),
    (3, Ask::Store(0, WORD, 1, Y), DONE, None, FROZEN),
    (4, Ask::Store(0, WORD, 2, Y), DONE, None, CLOSED),
    (5, Ask::Free(true, X), DONE, None, CLOSED),
];

const LARGE: &[Step] = &[
    (
        1,
        Ask::Make(65_536, STACK),
        Seen::Made(AllocNo(1)),
        X,
        CLEAN,
    ),
    (2, Ask::Retag(0, 1, MUT, FREE), ADDED, Y, CLEAN),
    (3, Ask::Store(65_528, WORD, 7, Y), DONE, None, CLEAN),
    (4, Ask::Load(65_528, WORD, X), Seen::Value(7), None, CLEAN),
    (6, Ask::Store(0, WORD, 1, Y), DONE, None, CLEAN),
    (7, Ask::Store(65_528, WORD, 9, Y), DONE, None, FROZEN_AT_END),
    (8, Ask::Free(true, X), DONE, None, CLOSED),
];

/// The end of a protector is a write where its node has written.
const ENDED: &[Step] = &[
    (1, Ask::Make(16, STACK), Seen::Made(AllocNo(1)), X, CLEAN),
    (2, Ask::Retag(0, 8, MUT, STRONG), ADDED, Y, CLEAN),
    (3, Ask::Store(0, WORD, 1, Y), DONE, None, CLEAN),
    (4, Ask::Retag(8, 8, MUT, FREE), ADDED, Z, CLEAN),
    (5, Ask::EndProtector, DONE, None, CLEAN),
    (
        6,
        Ask::Load(0, WORD, Z),
        Seen::Value(1),
        None,
        DISABLED_BY_END,
    ),
    (7, Ask::Free(true, X), DONE, None, CLOSED),
];

const OUTSIDE: &[Step] = &[
    (1, Ask::Make(8, STACK), Seen::Made(AllocNo(1)), X, CLEAN),
    (2, Ask::Retag(0, 8, MUT, FREE), ADDED, Y, CLEAN),
    (
        3,
        Ask::Retag(1, 8, MUT, FREE),
        Seen::Retagged { added: false },
        X,
        PAST_THE_END,
    ),
    (4, Ask::Free(true, X), DONE, None, CLOSED),
];

#[test]
fn reborrows_are_answered(rt: HostRuntime) -> Result<(), Fail> {
    let alloc = rt.alloc();
    check(&rt, alloc, 1, CONFLICTED_WRITE)?;
    check(&rt, alloc, 1, READ_OF_UNIQUE)?;
    check(&rt, alloc, 1, PROTECTED_CELL)?;
    check(&rt, alloc, 1, CELL)?;
    check(&rt, alloc, 1, DENIED_TWICE)?;
    check(&rt, alloc, 1, LARGE)?;
    check(&rt, alloc, 1, ENDED)?;
    check(&rt, alloc, 1, OUTSIDE)?;
    Ok(())
}
