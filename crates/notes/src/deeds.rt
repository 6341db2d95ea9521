//! What a step did to its allocation.
ghost use Rattle.std.specs.Prelude.{◌≡◌, IfOk, string_bytes};
ghost use Rattle.notes.specs.Deeds as deeds;

use history::Request;
use ir_ast::kind_word;
use std::alloc::{AllocError, Global};

fn span_phrase(
    alloc: Global,
    plain: &str,
    deed: &str,
    at: u32,
    len: usize,
) -> Result<String, AllocError>
    ensures { IfOk result (λ text. string_bytes text ≡ deeds.span_phrase plain.now deed.now at len) }
{
    let end = u128::from(at) + len as u128;
    format!(in alloc; "{plain}{deed} of bytes {at}..{end}")
}

/// What a request asks of an allocation; nothing where it asks nothing of one. Before an access that isn't atomic stand the
/// words that are given.
pub fn deed_phrase(alloc: Global, plain: &str, request: &Request) -> Result<String, AllocError>
    ensures { IfOk result (λ text. string_bytes text ≡ deeds.deed_phrase plain.now request.now) }
{
    match request {
        Request::Load { at, ty, .. } => {
            span_phrase(alloc, plain, "read", *at, ty.bytes() as usize)
        }
        Request::CopyOut { at, len, .. } => {
            span_phrase(alloc, plain, "read", *at, *len as usize)
        }
        Request::Store { at, ty, .. } => {
            span_phrase(alloc, plain, "write", *at, ty.bytes() as usize)
        }
        Request::CopyIn { at, piece, .. } => span_phrase(alloc, plain, "write", *at, piece.len()),
        Request::Modify { at, width, .. } | Request::CmpXchg { at, width, .. } => {
            span_phrase(alloc, "an atomic ", "write", *at, width.bytes() as usize)
        }
        Request::Retag { at, len, kind, .. } => {
            span_phrase(alloc, "the retag ", kind_word(*kind), *at, *len as usize)
        }
        Request::EndProtector { tag } => {
            let number = tag.0;
            format!(in alloc; "the end of protector {number}")
        }
        Request::Free { .. } => format!(in alloc; "a free"),
        _ => Ok(String::new(alloc)),
    }
}
