ghost use Rattle.std.specs.Prelude.{◌+◌, ◌≤◌, IsTrue};
ghost use Rattle.eager_tree.specs.Tree.{is_node};

use super::*;
use crate::violation::Violation;
use bsan_ids::{Copied, Span, Tag};
use perm_table::{Guard, Kind, Perm, RetagKind};
use std::alloc::Global;
use std::process::Abort;
use std::test::Fail;

#[derive(Clone, Copy)]
enum Step {
    Access(u64, Span, Kind),
    Retag(u64, Span, RetagKind, Guard, u64),
    EndProtector(u64),
    Free(u64),
}

/// Stops a test whose step asks for a tag or a span that the tree does not have.
fn reach(rt: &impl Abort, tree: &EagerTree, tag: Tag, span: Span)
    ensures node { IsTrue (is_node tree.now.tree tag) }
    ensures some { 1 ≤ span.len }
    ensures within { span.start + span.len ≤ tree.now.tree.size }
{
    assert!(rt; tree.has(tag));
    assert!(rt; span.len >= 1);
    let size = tree.size();
    assert!(rt; span.start <= size);
    assert!(rt; span.len <= size - span.start);
}

fn run(rt: &impl Abort, tree: &mut EagerTree, step: Step) -> Result<Option<Violation>, Fail> {
    match step {
        Step::Access(tag, span, kind) => {
            reach(rt, tree, Tag(tag), span);
            Ok(tree.access(Tag(tag), span, kind))
        }
        Step::Retag(parent, span, kind, guard, tag) => {
            reach(rt, tree, Tag(parent), span);
            assert!(rt; tree.is_newer(Tag(tag)));
            Ok(tree.retag(Tag(parent), span, kind, guard, Tag(tag))?)
        }
        Step::EndProtector(tag) => {
            assert!(rt; tree.has(Tag(tag)));
            Ok(tree.end_protector(Tag(tag)))
        }
        Step::Free(tag) => {
            assert!(rt; tree.has(Tag(tag)));
            Ok(tree.free_all(Tag(tag)))
        }
    }
}

const LOW: Span = Span { start: 0, len: 8 };

const HIGH: Span = Span { start: 8, len: 8 };

const LOWER_HALF: Span = Span { start: 0, len: 4 };

const UPPER_HALF: Span = Span { start: 4, len: 4 };

fn denied(offset: u32, node: u64, perm: Perm, local: bool) -> Option<Violation> {
    Some(Violation::Denied {
        offset,
        node: Tag(node),
        perm,
        local,
    })
}

fn read(tag: u64) -> Step {
    Step::Access(tag, LOW, Kind::Read)
}

fn write(tag: u64) -> Step {
    Step::Access(tag, LOW, Kind::Write)
}

/// A retag of the first eight bytes through the root, with the tag 2.
fn retag(kind: RetagKind, guard: Guard) -> Step {
    Step::Retag(1, LOW, kind, guard, 2)
}

/// Makes a tree with the root 1 and takes the steps, of which the last alone may be denied.
fn ends_in(
    rt: &impl Abort,
    alloc: Global,
    size: u32,
    steps: &[Step],
    last: Option<Violation>,
) -> Result<(), Fail>
    requires { 1 ≤ size }
{
    let mut tree = EagerTree::new(alloc, Tag(1), size)?;
    let mut answer = None;
    for step in steps {
        assert_eq!(rt; answer, None);
        answer = run(rt, &mut tree, *step)?;
    }
    assert_eq!(rt; answer, last);
    Ok(())
}

#[test]
fn steps_have_their_answers(rt: HostRuntime) -> Result<(), Fail> {
    use Guard::{Free, Strong, Weak};
    use Perm::{Conflicted, Disabled, Frozen, Reserved, Unique};
    use RetagKind::{Boxed, Cell, Mut, Shr, ShrCell};
    let alloc = rt.alloc();
    // a write after the parent's read, and through a shared pointer
    ends_in(
        &rt,
        alloc,
        8,
        &[retag(Mut, Free), write(2), read(1), write(2)],
        denied(0, 2, Frozen, true),
    )?;
    ends_in(
        &rt,
        alloc,
        8,
        &[retag(Shr, Free), write(2)],
        denied(0, 2, Frozen, true),
    )?;
    // a read before the first write
    ends_in(
        &rt,
        alloc,
        8,
        &[retag(Mut, Free), read(1), write(2), Step::Free(1)],
        None,
    )?;
    // the same under a protector
    ends_in(
        &rt,
        alloc,
        8,
        &[retag(Mut, Strong), read(1), write(2)],
        denied(0, 2, Conflicted, true),
    )?;
    // a foreign read of what a protected node has written
    let upper = Step::Access(2, UPPER_HALF, Kind::Write);
    ends_in(
        &rt,
        alloc,
        8,
        &[retag(Mut, Strong), upper, read(1)],
        denied(4, 2, Unique, false),
    )?;
    // a write that two nodes deny, the greater tag at the lesser offset
    ends_in(
        &rt,
        alloc,
        8,
        &[
            Step::Retag(1, UPPER_HALF, Mut, Strong, 2),
            Step::Retag(1, LOWER_HALF, Mut, Strong, 3),
            write(1),
        ],
        denied(0, 3, Reserved, false),
    )?;
    // a foreign write of a cell, protected and not
    ends_in(
        &rt,
        alloc,
        8,
        &[retag(Cell, Strong), write(1)],
        denied(0, 2, Reserved, false),
    )?;
    ends_in(
        &rt,
        alloc,
        8,
        &[retag(Cell, Free), write(1), read(2), Step::Free(1)],
        None,
    )?;
    // two pointers to shared cells, protected and not, and a shared pointer beside one
    ends_in(
        &rt,
        alloc,
        8,
        &[
            retag(ShrCell, Weak),
            write(1),
            write(2),
            Step::EndProtector(2),
            Step::Retag(1, LOW, ShrCell, Free, 3),
            write(2),
            read(3),
            write(1),
            write(3),
        ],
        None,
    )?;
    ends_in(
        &rt,
        alloc,
        8,
        &[
            retag(ShrCell, Free),
            Step::Retag(1, LOW, Shr, Free, 3),
            write(2),
            read(3),
        ],
        denied(0, 3, Disabled, true),
    )?;
    // a free beside a weak guard, and beside a strong one
    ends_in(&rt, alloc, 8, &[retag(Boxed, Weak), Step::Free(2)], None)?;
    let held = Violation::StrongFree {
        offset: 0,
        node: Tag(2),
        perm: Reserved,
    };
    ends_in(
        &rt,
        alloc,
        8,
        &[retag(Mut, Strong), Step::Free(2)],
        Some(held),
    )?;
    // a protector's end that disables a node made meanwhile
    let beside = Step::Retag(1, HIGH, Mut, Free, 4);
    ends_in(
        &rt,
        alloc,
        16,
        &[
            retag(Mut, Strong),
            write(2),
            beside,
            Step::EndProtector(2),
            read(4),
        ],
        denied(0, 4, Disabled, true),
    )
}

#[test]
fn a_reserved_node_is_there_after_its_retag(rt: HostRuntime) -> Result<(), Fail> {
    let mut tree = EagerTree::new(rt.alloc(), Tag(0), 8)?;
    tree.set_root(Tag(1));
    tree.reserve_node()?;
    reach(&rt, &tree, Tag(1), LOW);
    assert!(rt; tree.is_newer(Tag(2)));
    assert_eq!(rt;
        tree.retag_reserved(Tag(1), LOW, RetagKind::Shr, Guard::Free, Tag(2)),
        None
    );
    let copy = tree.copy()?;
    assert!(rt; copy.has(Tag(2)));
    assert!(rt; !copy.has(Tag(0)));
    Ok(())
}
