//! Entries of thread 0 on allocation 1, and clean entries that answer what is asked.
use bsan_ids::{AllocNo, Prov, Stamp, Tag, ThreadNo};
use eager_tree::Violation;
use history::{Ask, Entry, Plain, Reply, Request, Verdict};
use ir_ast::{Place, Ty, Width};
use perm_table::{Guard, Perm, RetagKind};

const WORD: Ty = Ty::Int(Width::W64);

/// A provenance of allocation 1.
pub fn through(tag: u64) -> Option<Prov> {
    Some(Prov {
        alloc: AllocNo(1),
        tag: Tag(tag),
    })
}

fn clean(
    stamp: u64,
    site: u32,
    alloc: Option<AllocNo>,
    request: Request,
    plain: Plain,
    carried: Option<Prov>,
) -> Entry {
    Entry {
        thread: ThreadNo(0),
        stamp: Stamp(stamp),
        site,
        alloc,
        request,
        reply: Reply {
            plain,
            carried,
            verdict: Verdict::Clean,
        },
    }
}

/// An entry without a value.
fn done(stamp: u64, site: u32, request: Request) -> Entry {
    clean(stamp, site, Some(AllocNo(1)), request, Plain::Done, None)
}

/// The same entry, where its access breaks the rules at byte 0 of a node.
pub fn violated(mut entry: Entry, node: u64, perm: Perm) -> Entry {
    entry.reply.verdict = Verdict::Violated(Violation::Denied {
        offset: 0,
        node: Tag(node),
        perm,
        local: true,
    });
    entry
}

/// Allocation 1 is made at this place.
fn make_at(stamp: u64, site: u32, size: u32, place: Place) -> Entry {
    let request = Request::Make { size, place };
    let made = AllocNo(1);
    clean(
        stamp,
        site,
        Some(made),
        request,
        Plain::Made(made),
        through(stamp),
    )
}

pub fn make(stamp: u64, site: u32, size: u32) -> Entry {
    make_at(stamp, site, size, Place::Stack)
}

/// A mutable reborrow of 8 bytes.
pub fn retag(stamp: u64, site: u32, at: u32, guard: Guard, tag: u64) -> Entry {
    let request = Request::Retag {
        at,
        len: 8,
        kind: RetagKind::Mut,
        guard,
        prov: through(tag),
    };
    let plain = Plain::Retagged { added: true };
    clean(
        stamp,
        site,
        Some(AllocNo(1)),
        request,
        plain,
        through(stamp),
    )
}

pub fn store(stamp: u64, site: u32, value: u64, tag: u64) -> Entry {
    let request = Request::Store {
        at: 0,
        ty: WORD,
        value,
        carried: None,
        prov: through(tag),
    };
    done(stamp, site, request)
}

pub fn load(stamp: u64, site: u32, value: u64, tag: u64) -> Entry {
    let request = Request::Load {
        at: 0,
        ty: WORD,
        prov: through(tag),
    };
    clean(
        stamp,
        site,
        Some(AllocNo(1)),
        request,
        Plain::Value(value),
        None,
    )
}

pub fn end_protector(stamp: u64, site: u32, tag: u64) -> Entry {
    done(stamp, site, Request::EndProtector { tag: Tag(tag) })
}

/// The function returns, and its allocation is freed.
pub fn leave(stamp: u64, site: u32) -> Entry {
    let request = Request::Free {
        at: 0,
        stack: true,
        prov: through(1),
    };
    done(stamp, site, request)
}

/// A clean reply to a request on an allocation. A value is the stamp.
fn reply_at(stamp: u64, alloc: AllocNo, request: &Request) -> (Plain, Option<Prov>) {
    let tag = Tag(stamp);
    match request {
        Request::Retag { .. } => (Plain::Retagged { added: true }, Some(Prov { alloc, tag })),
        Request::Load { .. } => (Plain::Value(stamp), None),
        _ => (Plain::Done, None),
    }
}

/// A clean entry for a request on an allocation.
fn entry_on(stamp: u64, site: u32, alloc: AllocNo, request: Request) -> Entry {
    let (plain, carried) = reply_at(stamp, alloc, &request);
    clean(stamp, site, Some(alloc), request, plain, carried)
}

/// A clean entry for a request on no allocation.
fn entry_off(stamp: u64, site: u32, request: Request, plain: Plain) -> Entry {
    clean(stamp, site, None, request, plain, None)
}

/// A clean entry for what is asked, where that is a step. Its number is its stamp, its value and the number of its child.
pub fn entry_for(asked: Ask, number: u32, site: u32) -> Option<Entry> {
    let stamp = u64::from(number);
    match asked {
        Ask::Turn | Ask::Ended(_) | Ask::Host { .. } => None,
        Ask::Make { size, place } => Some(make_at(stamp, site, size, place)),
        Ask::At { alloc, request } => Some(entry_on(stamp, site, alloc, request)),
        Ask::Print { value } => {
            let request = Request::Print { value };
            Some(entry_off(stamp, site, request, Plain::Done))
        }
        Ask::Spawn { function } => {
            let child = Plain::Spawned(ThreadNo(number));
            Some(entry_off(stamp, site, Request::Spawn { function }, child))
        }
        Ask::Join { child } => {
            let value = Plain::Value(stamp);
            Some(entry_off(stamp, site, Request::Join { child }, value))
        }
    }
}
