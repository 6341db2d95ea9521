//! Whether the entries on an allocation are a legal history.
ghost use Rattle.std.specs.Prelude.{◌≡◌, ◌↔◌, ◌<◌, All, IfOk, IsTrue, MatchOption};
ghost use Rattle.history.specs.Histories.{HasBytes, fits, is_make};
ghost use Rattle.history.specs.declared.log.AllocLog.{AllocLog};
ghost use Rattle.runs.specs.Parts.{Has};
ghost use Rattle.runs.specs.Stamps.{RisesFrom};
ghost use Rattle.record_file.specs.ByNumber.{AreLegalLogs, IsLegalLog};
ghost use Rattle.record_file.specs.Replaying.{Answered, HaveBytes};

use crate::fitting::is_word;
use alloc_state::AllocState;
use bsan_ids::{Copied, NoMemory};
use history::{AllocLog, Entry, Piece, Request};
use ir_ast::{MOST_SIZE, Ty};
use std::alloc::Global;

/// The bytes of a piece are bytes.
fn has_bytes(piece: &Piece)
    ensures { HaveBytes piece.now }
{
    for at in 0..piece.len() {
        let _byte = piece.get(at);
    }
}

/// Those that a request writes too.
fn writes_bytes(request: &Request)
    ensures { HasBytes request.now }
{
    if let Request::CopyIn { piece, .. } = request {
        has_bytes(piece);
    }
}

/// Whether an allocation can be asked so.
fn fits(request: &Request) -> bool
    ensures { result ≡ fits request.now }
{
    match request {
        Request::Make { size, .. } => 1 <= *size && *size <= MOST_SIZE,
        Request::Store { ty, value, .. } => is_word(*ty, *value),
        Request::Modify { width, value, .. } => is_word(Ty::Int(*width), *value),
        Request::CmpXchg {
            width,
            expected,
            value,
            ..
        } => is_word(Ty::Int(*width), *expected) && is_word(Ty::Int(*width), *value),
        Request::CopyOut { len, .. } => 1 <= *len && *len <= 32,
        Request::CopyIn { piece, .. } => 1 <= piece.len() && piece.len() <= 32,
        Request::Retag { len, .. } => 1 <= *len,
        Request::Print { .. }
        | Request::Host { .. }
        | Request::Spawn { .. }
        | Request::Join { .. } => false,
        _ => true,
    }
}

fn is_make(request: &Request) -> bool
    ensures { result ≡ is_make request.now }
{
    matches!(request, Request::Make { .. })
}

/// Whether the allocation can be asked so and answers so. If so it has gone on.
fn answers(state: &mut AllocState, entry: &Entry) -> Result<bool, NoMemory>
    requires { All (λ e. e.stamp.0 < entry.now.stamp.0) state.old.entries }
    ensures { IfOk result (λ holds. Answered holds state.old.number.0 state.old.entries entry.now state.new.number.0 state.new.entries) }
{
    if !fits(&entry.request) || (is_make(&entry.request) && state.is_made()) {
        return Ok(false);
    }
    let request = entry.request.copy()?;
    writes_bytes(&request);
    state.prepare(&request)?;
    let answer = state.commit(entry.thread, entry.stamp, entry.site, request);
    Ok(answer.reply.equals(&entry.reply))
}

/// Whether the entries of a log, whose stamps rise, are a legal history of its allocation.
fn is_legal(alloc: Global, log: &AllocLog) -> Result<bool, NoMemory>
    requires { RisesFrom 0 log.now.entries }
    ensures { IfOk result (λ holds. IsTrue holds ↔ IsLegalLog log.now) }
{
    let mut state = AllocState::unmade(alloc, log.number);
    for entry in log.entries.as_slice() {
        if !answers(&mut state, entry)? {
            return Ok(false);
        }
    }
    Ok(true)
}

/// The same of all logs.
///
/// # Errors
///
/// `NoMemory`: out of memory.
pub(crate) fn are_legal(alloc: Global, logs: &[AllocLog]) -> Result<bool, NoMemory>
    requires { (log : AllocLog) → Has logs.now log → RisesFrom 0 log.entries }
    ensures { IfOk result (λ holds. IsTrue holds ↔ AreLegalLogs logs.now) }
{
    for log in logs {
        if !is_legal(alloc, log)? {
            return Ok(false);
        }
    }
    Ok(true)
}
