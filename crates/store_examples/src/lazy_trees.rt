//! Requests to a lazy tree and to the eager tree for which it stands.
ghost use Rattle.std.specs.Prelude.{◌≡◌, ◌+◌, ◌≤◌, IsTrue, OnOk};
ghost use Rattle.lazy_tree.specs.Eager.{eager_of};

use bsan_ids::{NoMemory, Span, Tag};
use eager_tree::EagerTree;
use lazy_access::{TreeRequest, access, end_protector, free_all, prepare, retag};
use lazy_tree::LazyTree;
use perm_table::{Guard, Kind, RetagKind};
use std::test::Fail;

/// Whether a span has a byte and lies in the allocation.
fn fits(tree: &LazyTree, span: Span) -> bool
    ensures { IsTrue result → (1 ≤ span.len) × (span.start + span.len ≤ tree.now.size) }
{
    let end = u64::from(span.start) + u64::from(span.len);
    1 <= span.len && end <= u64::from(tree.size())
}

/// Asks two trees that are one tree, and whether they answer the same. They are one tree afterwards.
fn agree(
    eager: &mut EagerTree,
    lazy: &mut LazyTree,
    request: TreeRequest,
    new: Tag,
) -> Result<bool, NoMemory>
    requires { eager.old.tree ≡ eager_of lazy.old }
    ensures { OnOk result (eager.new.tree ≡ eager_of lazy.new) }
{
    prepare(lazy, &request)?;
    match request {
        TreeRequest::Access { tag, span, kind } if eager.has(tag) && fits(lazy, span) => {
            Ok(eager.access(tag, span, kind) == access(lazy, tag, span, kind))
        }
        TreeRequest::Retag {
            parent,
            span,
            kind,
            guard,
        } if eager.has(parent) && fits(lazy, span) && eager.is_newer(new) => {
            let answer = eager.retag(parent, span, kind, guard, new)?;
            Ok(answer == retag(lazy, parent, span, kind, guard, new))
        }
        TreeRequest::EndProtector { tag } if eager.has(tag) => {
            Ok(eager.end_protector(tag) == end_protector(lazy, tag))
        }
        TreeRequest::FreeAll { tag } if eager.has(tag) => {
            Ok(eager.free_all(tag) == free_all(lazy, tag))
        }
        _ => Ok(false),
    }
}

/// One byte is read, written or reborrowed.
fn of_one_byte(round: u64, drawn: u64, tag: Tag) -> TreeRequest {
    let span = Span {
        start: (drawn % 64) as u32,
        len: 1,
    };
    if round % 8 == 0 {
        return TreeRequest::Retag {
            parent: tag,
            span,
            kind: RetagKind::Mut,
            guard: Guard::Free,
        };
    }
    let kind = if round % 3 == 0 {
        Kind::Write
    } else {
        Kind::Read
    };
    TreeRequest::Access { tag, span, kind }
}

/// Some bytes are read, written or reborrowed, a protector is ended, or the allocation is freed.
fn of_any_kind(round: u64, drawn: u64, tag: Tag) -> TreeRequest {
    let start = (drawn % 64) as u32;
    let span = Span {
        start,
        len: 1 + (drawn / 64 % 64) as u32 % (64 - start),
    };
    match round % 8 {
        0 | 4 => TreeRequest::Retag {
            parent: tag,
            span,
            kind: KINDS[(drawn % 5) as usize],
            guard: GUARDS[(drawn % 3) as usize],
        },
        1 | 5 => TreeRequest::Access {
            tag,
            span,
            kind: Kind::Write,
        },
        2 => TreeRequest::EndProtector { tag },
        6 if drawn % 4 == 0 => TreeRequest::FreeAll { tag },
        _ => TreeRequest::Access {
            tag,
            span,
            kind: Kind::Read,
        },
    }
}

const KINDS: [RetagKind; 5] = [
    RetagKind::Mut,
    RetagKind::Shr,
    RetagKind::Cell,
    RetagKind::Boxed,
    RetagKind::ShrCell,
];

const GUARDS: [Guard; 3] = [Guard::Free, Guard::Weak, Guard::Strong];

/// Asks that a value may move to another thread.
fn ask_sent<T: Send>(_: &T) {}

#[test]
fn a_thousand_requests_agree(rt: HostRuntime) -> Result<(), Fail> {
    for one_byte in [true, false] {
        let mut eager = EagerTree::new(rt.alloc(), Tag(1), 64)?;
        let mut lazy = LazyTree::new(rt.alloc(), Tag(1), 64);
        ask_sent(&lazy);
        let mut x: u64 = 3;
        'rounds: for round in 1..1_001_u64 {
            x = x.wrapping_mul(1_103_515_245).wrapping_add(12_345) % 2_147_483_648;
            let drawn = x / 65_536;
            let nodes = if lazy.len() == 0 {
                1
            } else {
                lazy.len() as u64
            };
            let tag = Tag(1 + drawn % nodes);
            let request = if one_byte {
                of_one_byte(round, drawn, tag)
            } else {
                of_any_kind(round, drawn, tag)
            };
            let new = Tag(nodes.wrapping_add(1));
            assert!(rt; agree(&mut eager, &mut lazy, request, new)?);
        }
    }
    Ok(())
}

/// The write in a round that changes nothing once all have been made: each of four nodes has four spans
/// of its own.
fn own_write(round: u64) -> TreeRequest {
    let at = round.wrapping_mul(5) % 16;
    TreeRequest::Access {
        tag: Tag(2 + at / 4),
        span: Span {
            start: (at * 4) as u32,
            len: 4,
        },
        kind: Kind::Write,
    }
}

/// The first three rounds of the writes make the states and the room; from then on each write is kept in
/// mind, whatever comes between two of one: it counts one run in `prepare` and one in the access.
#[test]
fn sixteen_writes_are_kept_in_mind(rt: HostRuntime) -> Result<(), Fail> {
    let mut eager = EagerTree::new(rt.alloc(), Tag(1), 64)?;
    let mut lazy = LazyTree::new(rt.alloc(), Tag(1), 64);
    'rounds: for round in 0..68_u64 {
        let request = if round < 4 {
            TreeRequest::Retag {
                parent: Tag(1),
                span: Span { start: 0, len: 64 },
                kind: RetagKind::Mut,
                guard: Guard::Free,
            }
        } else {
            own_write(round)
        };
        let before = lazy.visits();
        assert!(rt; agree(&mut eager, &mut lazy, request, Tag(2 + round))?);
        if round >= 52 {
            assert_eq!(rt; lazy.visits().wrapping_sub(before), 2);
        }
    }
    Ok(())
}
