//! Allocations that are freed, or are none, one table for each.
use crate::allocations::{
    ADDED, Ask, CLEAN, CLOSED, DONE, MUT, STACK, STRONG, Seen, Step, WORD, X, Y, check,
};
use bsan_ids::{AllocNo, Tag};
use eager_tree::Violation;
use history::{Trap, Verdict};
use ir_ast::Place;
use perm_table::{Guard, Perm, RetagKind};
use std::test::Fail;

const HEAP: Place = Place::Heap;

const BESIDE_STRONG: Verdict = Verdict::Violated(Violation::StrongFree {
    offset: 0,
    node: Tag(2),
    perm: Perm::Reserved,
});

const WEAK: &[Step] = &[
    (1, Ask::Make(8, HEAP), Seen::Made(AllocNo(1)), X, CLEAN),
    (
        2,
        Ask::Retag(0, 8, RetagKind::Boxed, Guard::Weak),
        ADDED,
        Y,
        CLEAN,
    ),
    (3, Ask::Free(false, Y), DONE, None, CLEAN),
    (4, Ask::EndProtector, DONE, None, CLEAN),
];

const STRONG_FREE: &[Step] = &[
    (1, Ask::Make(8, HEAP), Seen::Made(AllocNo(1)), X, CLEAN),
    (2, Ask::Retag(0, 8, MUT, STRONG), ADDED, Y, CLEAN),
    (3, Ask::Free(false, Y), DONE, None, BESIDE_STRONG),
    (4, Ask::EndProtector, DONE, None, CLOSED),
];

const READ_FREED: &[Step] = &[
    (1, Ask::Make(8, HEAP), Seen::Made(AllocNo(1)), X, CLEAN),
    (2, Ask::Free(false, X), DONE, None, CLEAN),
    (
        3,
        Ask::Load(0, WORD, X),
        Seen::Trapped(Trap::Freed),
        None,
        CLEAN,
    ),
];

const FREED_TWICE: &[Step] = &[
    (1, Ask::Make(8, HEAP), Seen::Made(AllocNo(1)), X, CLEAN),
    (2, Ask::Free(false, X), DONE, None, CLEAN),
    (
        3,
        Ask::Free(false, X),
        Seen::Trapped(Trap::Freed),
        None,
        CLEAN,
    ),
];

const FREED_ON_STACK: &[Step] = &[
    (1, Ask::Make(8, STACK), Seen::Made(AllocNo(1)), X, CLEAN),
    (
        2,
        Ask::Free(false, X),
        Seen::Trapped(Trap::BadFree),
        None,
        CLEAN,
    ),
];

const UNMADE: &[Step] = &[(
    1,
    Ask::Load(0, WORD, None),
    Seen::Trapped(Trap::NoAllocation),
    None,
    CLEAN,
)];

#[test]
fn frees_are_answered(rt: HostRuntime) -> Result<(), Fail> {
    let alloc = rt.alloc();
    check(&rt, alloc, 1, WEAK)?;
    check(&rt, alloc, 1, STRONG_FREE)?;
    check(&rt, alloc, 1, READ_FREED)?;
    check(&rt, alloc, 1, FREED_TWICE)?;
    check(&rt, alloc, 1, FREED_ON_STACK)?;
    check(&rt, alloc, 0, UNMADE)?;
    Ok(())
}
