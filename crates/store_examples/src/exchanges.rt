//! Allocations whose words are modified and exchanged, one table for each.
use crate::allocations::{
    ADDED, Ask, CLEAN, CLOSED, DONE, FREE, FROZEN, MUT, STACK, Seen, Step, WORD, X, Y, check,
};
use bsan_ids::{AllocNo, Tag};
use eager_tree::Violation;
use history::Verdict;
use ir_ast::ModifyOp;
use perm_table::Perm;
use std::test::Fail;

const DISABLED: Verdict = Verdict::Violated(Violation::Denied {
    offset: 0,
    node: Tag(2),
    perm: Perm::Disabled,
    local: true,
});

const MODIFIED: &[Step] = &[
    (1, Ask::Make(8, STACK), Seen::Made(AllocNo(1)), X, CLEAN),
    (2, Ask::Retag(0, 8, MUT, FREE), ADDED, Y, CLEAN),
    (
        3,
        Ask::Modify(ModifyOp::Add, 5, Y),
        Seen::Value(0),
        None,
        CLEAN,
    ),
    (
        4,
        Ask::Modify(ModifyOp::Sub, 6, Y),
        Seen::Value(5),
        None,
        CLEAN,
    ),
    (5, Ask::Load(0, WORD, X), Seen::Value(u64::MAX), None, CLEAN),
    (
        6,
        Ask::Modify(ModifyOp::And, 12, Y),
        Seen::Value(u64::MAX),
        None,
        FROZEN,
    ),
    (7, Ask::Load(0, WORD, X), Seen::Value(12), None, CLOSED),
    (8, Ask::Free(true, X), DONE, None, CLOSED),
];

const EXCHANGED: &[Step] = &[
    (1, Ask::Make(8, STACK), Seen::Made(AllocNo(1)), X, CLEAN),
    (2, Ask::Retag(0, 8, MUT, FREE), ADDED, Y, CLEAN),
    (3, Ask::CmpXchg(0, 7, Y), Seen::Value(0), None, CLEAN),
    (4, Ask::Load(0, WORD, Y), Seen::Value(7), None, CLEAN),
    (5, Ask::CmpXchg(7, 9, X), Seen::Value(7), None, CLEAN),
    (6, Ask::Load(0, WORD, Y), Seen::Value(9), None, DISABLED),
    (7, Ask::Free(true, X), DONE, None, CLOSED),
];

/// Another value is found: the bytes stay, and the write still disables the other node.
const OTHER_VALUE: &[Step] = &[
    (1, Ask::Make(8, STACK), Seen::Made(AllocNo(1)), X, CLEAN),
    (2, Ask::Retag(0, 8, MUT, FREE), ADDED, Y, CLEAN),
    (3, Ask::CmpXchg(1, 7, X), Seen::Value(0), None, CLEAN),
    (4, Ask::Load(0, WORD, X), Seen::Value(0), None, CLEAN),
    (5, Ask::Load(0, WORD, Y), Seen::Value(0), None, DISABLED),
    (6, Ask::Free(true, X), DONE, None, CLOSED),
];

#[test]
fn exchanges_are_answered(rt: HostRuntime) -> Result<(), Fail> {
    let alloc = rt.alloc();
    check(&rt, alloc, 1, MODIFIED)?;
    check(&rt, alloc, 1, EXCHANGED)?;
    check(&rt, alloc, 1, OTHER_VALUE)?;
    Ok(())
}
