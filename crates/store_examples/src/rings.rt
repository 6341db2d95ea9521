//! How far a repeated load looks.
use crate::allocations::{CLEAN, FREE, HALF, MUT, STACK, WORD, answered};
use alloc_state::AllocState;
use bsan_ids::{AllocNo, NoMemory, Prov, Tag};
use history::Request;
use ir_ast::Ty;
use std::test::Fail;

/// A reborrow of all eight bytes through a node of allocation 1.
fn reborrow(parent: u64) -> Request {
    Request::Retag {
        at: 0,
        len: 8,
        kind: MUT,
        guard: FREE,
        prov: Some(Prov {
            alloc: AllocNo(1),
            tag: Tag(parent),
        }),
    }
}

/// A load through the second or the third node of allocation 1.
fn load(ty: Ty, tag: u64) -> Request {
    Request::Load {
        at: 0,
        ty,
        prov: Some(Prov {
            alloc: AllocNo(1),
            tag: Tag(tag),
        }),
    }
}

/// How far the commit of a repeated load through node 2 raises the counter. Node 1 has three children,
/// and the last of them a chain of 100 nodes below it.
fn raised_by_repeat(state: &mut AllocState, halves: bool) -> Result<Option<u64>, NoMemory> {
    let make = Request::Make {
        size: 8,
        place: STACK,
    };
    let _ = answered(state, 1, make)?;
    for stamp in 2..105_u64 {
        let parent = if stamp < 5 { 1 } else { stamp - 1 };
        let _ = answered(state, stamp, reborrow(parent))?;
    }
    if halves {
        let _ = answered(state, 105, load(HALF, 3))?;
    }
    let _ = answered(state, 106, load(WORD, 2))?;
    match answered(state, 107, load(WORD, 2))? {
        Some((reply, raised)) if reply.verdict == CLEAN => Ok(Some(raised)),
        _ => Ok(None),
    }
}

#[test]
fn a_repeated_load_looks_at_the_ring(rt: HostRuntime) -> Result<(), Fail> {
    for (halves, most) in [(false, 4), (true, 8)] {
        let mut state = AllocState::unmade(rt.alloc(), AllocNo(1));
        match raised_by_repeat(&mut state, halves)? {
            Some(raised) => assert!(rt; 1 <= raised && raised <= most),
            None => return Err(Fail::new("denied")),
        }
    }
    Ok(())
}
