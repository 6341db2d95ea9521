//! Steps of an allocation, and whether it replies to them as worked out by hand.
ghost use Rattle.std.specs.Prelude.{◌≡◌, ◌<◌, ◌*◌, ◌^◌, All, IsTrue, nat_lt, true, false};
ghost use Rattle.ir_ast.specs.Tokens.{Each};
ghost use Rattle.ir_ast.specs.Words.{ty_bytes};
ghost use Rattle.history.specs.Histories.{fits, is_make, HasBytes};
ghost use Rattle.alloc_state.specs.Log.{has_make};

use alloc_state::AllocState;
use bsan_ids::{AllocNo, Frag, NoMemory, Prov, Stamp, Tag, ThreadNo};
use eager_tree::Violation;
use history::{Entry, Piece, Plain, Reply, Request, Trap, Verdict};
use ir_ast::{ModifyOp, Place, Ty, Width};
use perm_table::{Guard, Perm, RetagKind};
use std::alloc::Global;
use std::process::Abort;

/// A request, as a table has it.
#[derive(Clone, Copy)]
pub(crate) enum Ask {
    /// Of so many bytes.
    Make(u32, Place),
    /// At an offset, of a type, through a provenance.
    Load(u32, Ty, Option<Prov>),
    /// At an offset, of a type, with a value, through a provenance.
    Store(u32, Ty, u64, Option<Prov>),
    /// Of the pointer `ADDRESS` to allocation 1, at 0 through allocation 2.
    StorePointer,
    /// Of the eight bytes from 0 on.
    Modify(ModifyOp, u64, Option<Prov>),
    /// Of the eight bytes from 0 on: the expected value and the new one.
    CmpXchg(u64, u64, Option<Prov>),
    /// Of the four bytes of a pointer from its byte of this number on, out of allocation 2.
    CopyOut(u8),
    /// Of the same bytes into allocation 3.
    CopyIn(u8),
    /// Of so many bytes from an offset on, through node 1 of allocation 1.
    Retag(u32, u32, RetagKind, Guard),
    /// Of node 2.
    EndProtector,
    /// At its function's return or not, through a provenance.
    Free(bool, Option<Prov>),
}

/// What a program sees of a reply, as a table has it.
#[derive(Clone, Copy)]
pub(crate) enum Seen {
    /// The number of the allocation that was made.
    Made(AllocNo),
    /// The number that was read.
    Value(u64),
    /// Four bytes of a pointer were copied out.
    Copied,
    /// The step was done, and has no value.
    Done,
    /// A retag was done: whether the tree has a new node for it.
    Retagged { added: bool },
    /// The step was refused.
    Trapped(Trap),
}

/// A step: its stamp and request, and what it is to be answered.
pub(crate) type Step = (u64, Ask, Seen, Option<Prov>, Verdict);

pub(crate) const WORD: Ty = Ty::Int(Width::W64);

pub(crate) const HALF: Ty = Ty::Int(Width::W32);

pub(crate) const STACK: Place = Place::Stack;

pub(crate) const FREE: Guard = Guard::Free;

pub(crate) const STRONG: Guard = Guard::Strong;

pub(crate) const MUT: RetagKind = RetagKind::Mut;

/// The address of the first byte of allocation 1.
pub(crate) const ADDRESS: u64 = 0x1_0000_0000;

pub(crate) const X: Option<Prov> = Some(Prov {
    alloc: AllocNo(1),
    tag: Tag(1),
});

pub(crate) const Y: Option<Prov> = Some(Prov {
    alloc: AllocNo(1),
    tag: Tag(2),
});

pub(crate) const SECOND: Option<Prov> = Some(Prov {
    alloc: AllocNo(2),
    tag: Tag(2),
});

pub(crate) const THIRD: Option<Prov> = Some(Prov {
    alloc: AllocNo(3),
    tag: Tag(3),
});

pub(crate) const DONE: Seen = Seen::Done;

pub(crate) const ADDED: Seen = Seen::Retagged { added: true };

pub(crate) const CLEAN: Verdict = Verdict::Clean;

pub(crate) const CLOSED: Verdict = Verdict::Closed;

pub(crate) const FROZEN: Verdict = Verdict::Violated(Violation::Denied {
    offset: 0,
    node: Tag(2),
    perm: Perm::Frozen,
    local: true,
});

/// Four bytes of the pointer `ADDRESS`, from its byte of this number on, with the provenance of node 1.
fn half(alloc: Global, first: u8) -> Result<Piece, NoMemory> {
    let mut piece = Piece::new(alloc);
    for i in 0..4_u8 {
        let index = first % 8 + i;
        let frag = X.map(|prov| Frag { prov, index });
        piece.push(u8::from(index == 4), frag)?;
    }
    Ok(piece)
}

/// The request, with the memory that it owns.
fn request_of(alloc: Global, ask: Ask) -> Result<Request, NoMemory> {
    Ok(match ask {
        Ask::Make(size, place) => Request::Make { size, place },
        Ask::Load(at, ty, prov) => Request::Load { at, ty, prov },
        Ask::Store(at, ty, value, prov) => Request::Store {
            at,
            ty,
            value,
            carried: None,
            prov,
        },
        Ask::StorePointer => Request::Store {
            at: 0,
            ty: Ty::Ptr,
            value: ADDRESS,
            carried: X,
            prov: SECOND,
        },
        Ask::Modify(op, value, prov) => Request::Modify {
            at: 0,
            width: Width::W64,
            op,
            value,
            prov,
        },
        Ask::CmpXchg(expected, value, prov) => Request::CmpXchg {
            at: 0,
            width: Width::W64,
            expected,
            value,
            prov,
        },
        Ask::CopyOut(first) => Request::CopyOut {
            at: u32::from(first),
            len: 4,
            prov: SECOND,
        },
        Ask::CopyIn(first) => Request::CopyIn {
            at: u32::from(first),
            piece: half(alloc, first)?,
            prov: THIRD,
        },
        Ask::Retag(at, len, kind, guard) => Request::Retag {
            at,
            len,
            kind,
            guard,
            prov: X,
        },
        Ask::EndProtector => Request::EndProtector { tag: Tag(2) },
        Ask::Free(stack, prov) => Request::Free { at: 0, stack, prov },
    })
}

/// What the program sees of a reply, where bytes that are copied out are those of the pointer from its byte
/// of this number on.
fn plain_of(alloc: Global, seen: Seen, first: u8) -> Result<Plain, NoMemory> {
    Ok(match seen {
        Seen::Made(number) => Plain::Made(number),
        Seen::Value(value) => Plain::Value(value),
        Seen::Copied => Plain::Copied(half(alloc, first)?),
        Seen::Done => Plain::Done,
        Seen::Retagged { added } => Plain::Retagged { added },
        Seen::Trapped(trap) => Plain::Trapped(trap),
    })
}

fn is_later(entries: &[Entry], stamp: u64) -> bool
    ensures { IsTrue result → All (λ e. e.stamp.0 < stamp) entries.now }
{
    entries.iter().all(|entry| entry.stamp.0 < stamp)
}

fn is_below(value: u64, ty: Ty) -> bool
    ensures { IsTrue result → IsTrue (nat_lt value (2 ^ (8 * ty_bytes ty))) }
{
    match ty {
        Ty::Int(Width::W8) => value < 0x100,
        Ty::Int(Width::W16) => value < 0x1_0000,
        Ty::Int(Width::W32) => value < 0x1_0000_0000,
        Ty::Int(Width::W64) | Ty::Ptr => true,
    }
}

fn is_fitting(request: &Request) -> bool
    ensures { IsTrue result → IsTrue (fits request.now) }
{
    match request {
        Request::Make { size, .. } => *size >= 1 && *size <= 1_048_576,
        Request::Store { ty, value, .. } => is_below(*value, *ty),
        Request::Modify { width, value, .. } => is_below(*value, Ty::Int(*width)),
        Request::CmpXchg {
            width,
            expected,
            value,
            ..
        } => is_below(*expected, Ty::Int(*width)) && is_below(*value, Ty::Int(*width)),
        Request::CopyOut { len, .. } => *len >= 1 && *len <= 32,
        Request::CopyIn { piece, .. } => piece.len() >= 1 && piece.len() <= 32,
        Request::Retag { len, .. } => *len >= 1,
        Request::Load { .. } | Request::EndProtector { .. } | Request::Free { .. } => true,
        _ => false,
    }
}

fn is_first_make(state: &AllocState, request: &Request) -> bool
    ensures { IsTrue result → is_make request.now ≡ true → has_make state.now.entries ≡ false }
{
    match request {
        Request::Make { .. } => !state.is_made(),
        _ => true,
    }
}

/// What holds of each piece: its bytes are bytes. It goes through the piece for the proof alone.
fn holds_bytes(piece: &Piece)
    ensures { Each (λ b. b.0 < 256) piece.now }
{
    for at in 0..piece.len() {
        let _ = piece.get(at);
    }
}

/// What holds of each request: the bytes that it writes are bytes.
fn writes_bytes(request: &Request)
    ensures { HasBytes request.now }
{
    if let Request::CopyIn { piece, .. } = request {
        holds_bytes(piece);
    }
}

/// The counter of the allocation's tree.
fn visits(state: &AllocState) -> u64 {
    match state.tree() {
        Some(tree) => tree.visits(),
        None => 0,
    }
}

/// The reply of the step, and how far its commit raises the counter, where the allocation may be asked
/// for it next.
pub(crate) fn answered(
    state: &mut AllocState,
    stamp: u64,
    request: Request,
) -> Result<Option<(Reply, u64)>, NoMemory> {
    if !is_later(state.entries(), stamp)
        || !is_fitting(&request)
        || !is_first_make(state, &request)
    {
        return Ok(None);
    }
    state.prepare(&request)?;
    let before = visits(state);
    writes_bytes(&request);
    let entry = state.commit(ThreadNo(0), Stamp(stamp), 0, request);
    Ok(Some((entry.reply, visits(state).wrapping_sub(before))))
}

/// Whether the allocation is asked the step, and replies as worked out.
fn replies_so(alloc: Global, state: &mut AllocState, step: Step) -> Result<bool, NoMemory> {
    let (stamp, ask, seen, carried, verdict) = step;
    let request = request_of(alloc, ask)?;
    let first = match ask {
        Ask::CopyOut(first) => first,
        _ => 0,
    };
    let wanted = Reply {
        plain: plain_of(alloc, seen, first)?,
        carried,
        verdict,
    };
    match answered(state, stamp, request)? {
        Some((reply, _)) => Ok(reply.equals(&wanted)),
        None => Ok(false),
    }
}

/// Asks that a value may move to another thread.
fn ask_sent<T: Send>(_: &T) {}

/// Asks a new allocation of this number the steps, and compares the replies and what it then is.
pub(crate) fn check(
    rt: &impl Abort,
    alloc: Global,
    number: u32,
    steps: &[Step],
) -> Result<(), NoMemory> {
    let number = AllocNo(number);
    let mut state = AllocState::unmade(alloc, number);
    ask_sent(&state);
    for step in steps {
        assert!(rt; replies_so(alloc, &mut state, *step)?);
    }
    assert_eq!(rt; state.tree().is_some(), state.is_made());
    assert_eq!(rt; state.number(), number);
    assert_eq!(rt; state.into_entries().len(), steps.len());
    Ok(())
}
