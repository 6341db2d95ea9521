//! The operation of a step on an allocation, and through which pointer.
ghost use Rattle.std.specs.Prelude.{◌≡◌, IfOk, string_bytes};
ghost use Rattle.report.specs.Violation.{span_text, operation_text, owner_text, tag_text, provenance_text};

use bsan_ids::{AllocNo, Prov};
use history::Request;
use ir_ast::kind_word;
use std::alloc::{AllocError, Global};

fn span(alloc: Global, word: &str, at: u32, len: usize) -> Result<String, AllocError>
    ensures { IfOk result (λ text. string_bytes text ≡ span_text word.now at len) }
{
    let end = u128::from(at) + len as u128;
    format!(in alloc; "{word} {at}..{end}")
}

/// The operation on an allocation that a request asks; nothing where it asks none.
pub fn operation(alloc: Global, request: &Request) -> Result<String, AllocError>
    ensures { IfOk result (λ text. string_bytes text ≡ operation_text request.now) }
{
    match request {
        Request::Load { at, ty, .. } => span(alloc, "read", *at, ty.bytes() as usize),
        Request::CopyOut { at, len, .. } => span(alloc, "read", *at, *len as usize),
        Request::Store { at, ty, .. } => span(alloc, "write", *at, ty.bytes() as usize),
        Request::Modify { at, width, .. } => span(alloc, "write", *at, width.bytes() as usize),
        Request::CmpXchg { at, width, .. } => span(alloc, "write", *at, width.bytes() as usize),
        Request::CopyIn { at, piece, .. } => span(alloc, "write", *at, piece.len()),
        Request::Retag { at, len, kind, .. } => {
            let bytes = span(alloc, kind_word(*kind), *at, *len as usize)?;
            format!(in alloc; "retag {bytes}")
        }
        Request::Free { .. } => format!(in alloc; "free"),
        Request::EndProtector { tag } => {
            let number = tag.0;
            format!(in alloc; "end of protector {number}")
        }
        Request::Make { .. }
        | Request::Print { .. }
        | Request::Host { .. }
        | Request::Spawn { .. }
        | Request::Join { .. } => Ok(String::new(alloc)),
    }
}

fn owner(alloc: Global, number: AllocNo, owner: AllocNo) -> Result<String, AllocError>
    ensures { IfOk result (λ text. string_bytes text ≡ owner_text number.0 owner.0) }
{
    let other = owner.0;
    if other == number.0 {
        Ok(String::new(alloc))
    } else {
        format!(in alloc; " of allocation {other}")
    }
}

fn tag(alloc: Global, number: AllocNo, prov: Option<Prov>) -> Result<String, AllocError>
    ensures { IfOk result (λ text. string_bytes text ≡ tag_text number.0 prov) }
{
    match prov {
        None => format!(in alloc; " through no tag"),
        Some(prov) => {
            let tag = prov.tag.0;
            let owner = owner(alloc, number, prov.alloc)?;
            format!(in alloc; " through tag {tag}{owner}")
        }
    }
}

/// Through which pointer the allocation of this number was used.
pub fn provenance(alloc: Global, number: AllocNo, request: &Request) -> Result<String, AllocError>
    ensures { IfOk result (λ text. string_bytes text ≡ provenance_text number.0 request.now) }
{
    match request {
        Request::Load { prov, .. }
        | Request::CopyOut { prov, .. }
        | Request::Store { prov, .. }
        | Request::Modify { prov, .. }
        | Request::CmpXchg { prov, .. }
        | Request::CopyIn { prov, .. }
        | Request::Retag { prov, .. }
        | Request::Free { prov, .. } => tag(alloc, number, *prov),
        _ => Ok(String::new(alloc)),
    }
}
