//! How an entry uses the bytes of its allocation.
ghost use Rattle.std.specs.Prelude.{◌≡◌, ◌≤◌};
ghost use Rattle.race_check.specs.Accesses as accesses;

use bsan_ids::AllocNo;
use history::{Entry, Plain, Request};

/// Whether the entry's reply is a trap.
pub fn has_trapped(entry: &Entry) -> bool
    ensures { result ≡ accesses.has_trapped entry.now }
{
    matches!(entry.reply.plain, Plain::Trapped(_))
}

fn reads(request: &Request) -> bool
    ensures { result ≡ accesses.reads request.now }
{
    matches!(request, Request::Load { .. } | Request::CopyOut { .. })
}

/// Whether the request writes.
pub fn writes(request: &Request) -> bool
    ensures { result ≡ accesses.writes request.now }
{
    match request {
        Request::Store { .. }
        | Request::Modify { .. }
        | Request::CmpXchg { .. }
        | Request::CopyIn { .. }
        | Request::Free { .. } => true,
        _ => false,
    }
}

/// Whether the request reads and writes in one step.
pub fn is_atomic(request: &Request) -> bool
    ensures { result ≡ accesses.is_atomic request.now }
{
    matches!(request, Request::Modify { .. } | Request::CmpXchg { .. })
}

/// Whether the request frees its allocation.
pub fn is_free(request: &Request) -> bool
    ensures { result ≡ accesses.is_free request.now }
{
    matches!(request, Request::Free { .. })
}

/// The offset of the first byte that the request reads or writes; 0 where it has no range.
pub fn start_of(request: &Request) -> u32
    ensures { result ≡ accesses.start_of request.now }
{
    match request {
        Request::Load { at, .. }
        | Request::Store { at, .. }
        | Request::Modify { at, .. }
        | Request::CmpXchg { at, .. }
        | Request::CopyOut { at, .. }
        | Request::CopyIn { at, .. } => *at,
        _ => 0,
    }
}

fn bytes_of(request: &Request) -> u64
    ensures value { result ≡ accesses.bytes_of request.now }
    ensures few { result ≤ 255 }
{
    match request {
        Request::Load { ty, .. } | Request::Store { ty, .. } => u64::from(ty.bytes()),
        Request::Modify { width, .. } | Request::CmpXchg { width, .. } => u64::from(width.bytes()),
        Request::CopyOut { len, .. } => u64::from(*len),
        Request::CopyIn { piece, .. } => piece.len() as u64,
        _ => 0,
    }
}

/// The offset after the last byte that the request reads or writes.
pub fn end_of(request: &Request) -> u64
    ensures { result ≡ accesses.end_of request.now }
{
    u64::from(start_of(request)) + bytes_of(request)
}

fn overlap(a: &Request, b: &Request) -> bool
    ensures { result ≡ accesses.overlap a.now b.now }
{
    if is_free(a) || is_free(b) {
        return true;
    }
    let start = u64::from(start_of(a).max(start_of(b)));
    start < end_of(a).min(end_of(b))
}

fn accesses(entry: &Entry) -> bool
    ensures { result ≡ accesses.accesses entry.now }
{
    !has_trapped(entry) && (reads(&entry.request) || writes(&entry.request))
}

/// The allocation that the entry accesses, if it accesses one.
pub fn accessed(entry: &Entry) -> Option<AllocNo>
    ensures { result ≡ accesses.accessed entry.now }
{
    if accesses(entry) { entry.alloc } else { None }
}

fn same_alloc(a: Option<AllocNo>, b: Option<AllocNo>) -> bool
    ensures { result ≡ accesses.same_alloc a b }
{
    match (a, b) {
        (Some(a), Some(b)) => a.0 == b.0,
        _ => false,
    }
}

/// Whether both entries access the same allocation, their ranges overlap, one of them writes, and
/// not both are atomic.
pub fn conflict(e: &Entry, f: &Entry) -> bool
    ensures { result ≡ accesses.conflict e.now f.now }
{
    accesses(e)
        && accesses(f)
        && same_alloc(e.alloc, f.alloc)
        && overlap(&e.request, &f.request)
        && (writes(&e.request) || writes(&f.request))
        && !(is_atomic(&e.request) && is_atomic(&f.request))
}
