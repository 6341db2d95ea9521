//! What a thread asks by the parts of its instructions.
ghost use Rattle.std.specs.Prelude.{◌≡◌, ◌*◌, ◌-◌, Some, None, min, IfOk, OnErr};
ghost use Rattle.source_sem.specs.Env as env;
ghost use Rattle.thread_parts.specs.Words as words;
ghost use Rattle.thread_parts.specs.Asks.{AsksAllocation};
ghost use Rattle.thread_parts.specs.Copies as copies;
ghost use Rattle.thread_parts.specs.Parts as parts;
ghost use Rattle.source_machine.specs.Doings.{bytes_in};
ghost use Rattle.source_machine.specs.Parts.{access_in, part_in, step_in};

use crate::operands::{cut, width_of};
use crate::part::{Access, Part, Step};
use bsan_ids::{NoMemory, Prov, ThreadNo, parts};
use history::{Arg, Ask, MachineEnd, Piece, PieceBuffer, Request};
use ir_ast::Ty;
use perm_table::{Guard, RetagKind};
use std::alloc::Global;

/// The provenance of a value of this type: only a pointer has one.
fn prov_at(ty: Ty, prov: Option<Prov>) -> Option<Prov>
    ensures { result ≡ words.prov_at ty prov }
{
    match ty {
        Ty::Int(_) => None,
        Ty::Ptr => prov,
    }
}

/// The request of an access at an offset.
fn access_request(at: u32, prov: Option<Prov>, access: Access) -> Request
    ensures { result ≡ parts.access_request at prov (access_in access) }
{
    match access {
        Access::Loads(ty) => Request::Load { at, ty, prov },
        Access::Stores(ty, value) => Request::Store {
            at,
            ty,
            value: cut(width_of(ty), value.value),
            carried: prov_at(ty, value.prov),
            prov,
        },
        Access::Modifies(width, op, value) => Request::Modify {
            at,
            width,
            op,
            value: cut(width, value),
            prov,
        },
        Access::Compares(width, expected, value) => Request::CmpXchg {
            at,
            width,
            expected: cut(width, expected),
            value: cut(width, value),
            prov,
        },
        Access::Frees => Request::Free {
            at,
            stack: false,
            prov,
        },
    }
}

/// What a step asks.
fn step_ask(step: Step) -> Ask
    ensures { (e : env.Env) → result ≡ parts.step_ask (step_in e step.entry) }
{
    match step {
        Step::Makes(size, place) => Ask::Make { size, place },
        Step::Accesses(pointer, access) => {
            let (alloc, at) = parts(pointer.value);
            let request = access_request(at, pointer.prov, access);
            Ask::At { alloc, request }
        }
        Step::Prints(value) => Ask::Print { value },
        Step::Hosts(number, first, second) => Ask::Host {
            number,
            first,
            second,
        },
        Step::Spawns(function, _) => Ask::Spawn { function },
    }
}

/// What a retag of so many bytes from a pointer on asks.
pub fn retag_ask(pointer: Arg, kind: RetagKind, guard: Guard, len: u32) -> Ask
    ensures { result ≡ parts.retag_ask pointer kind guard len }
{
    let (alloc, at) = parts(pointer.value);
    let request = Request::Retag {
        at,
        len,
        kind,
        guard,
        prov: pointer.prov,
    };
    Ask::At { alloc, request }
}

/// The address of a piece of a copy, before which there are so many.
fn piece_at(address: u64, pieces: u64) -> u64
    ensures { result ≡ copies.piece_at address pieces }
{
    address.wrapping_add(pieces.wrapping_mul(32))
}

/// How many bytes the next piece of a copy has, where so many pieces were copied.
fn piece_len(len: u64, pieces: u64) -> u8
    ensures { result ≡ min 32 (len - 32 * pieces) }
{
    len.saturating_sub(pieces.saturating_mul(32)).min(32) as u8
}

/// What a copy from a pointer asks for its next piece, of so many bytes in all, where so many pieces were copied.
pub fn copy_out_ask(to: Arg, from: Arg, len: u64, pieces: u64) -> Ask
    ensures { result ≡ copies.copy_ask_by to from len pieces None }
{
    let (alloc, at) = parts(piece_at(from.value, pieces));
    let request = Request::CopyOut {
        at,
        len: piece_len(len, pieces),
        prov: from.prov,
    };
    Ask::At { alloc, request }
}

/// A copy of the piece that is kept: one of no byte where there is none.
fn kept_piece(alloc: Global, kept: &Option<PieceBuffer>) -> Result<Piece, NoMemory>
    ensures { IfOk result (λ piece. piece ≡ bytes_in kept.now) }
{
    match kept {
        Some(buffer) => buffer.to_piece(),
        None => Ok(Piece::new(alloc)),
    }
}

/// What a copy to a pointer asks for the piece that was read, where so many were copied before it.
///
/// # Errors
///
/// `NoMemory`: out of memory for the piece.
pub fn copy_in_ask(
    alloc: Global,
    to: Arg,
    from: Arg,
    len: u64,
    pieces: u64,
    kept: &Option<PieceBuffer>,
) -> Result<Ask, NoMemory>
    ensures asks { IfOk result (λ ask. ask ≡ copies.copy_ask_by to from len pieces (Some (bytes_in kept.now))) }
    ensures refused { OnErr result (AsksAllocation (copies.copy_ask_by to from len pieces (Some (bytes_in kept.now)))) }
{
    let piece = kept_piece(alloc, kept)?;
    let (alloc, at) = parts(piece_at(to.value, pieces));
    let request = Request::CopyIn {
        at,
        piece,
        prov: to.prov,
    };
    Ok(Ask::At { alloc, request })
}

/// What an instruction asks of which no part is done.
pub fn part_ask(part: Part) -> Ask
    ensures { (e : env.Env) → result ≡ parts.part_ask (part_in e part.entry) }
{
    match part {
        Part::Gives(_) | Part::Calls(..) => Ask::Turn,
        Part::Fails(trap) => Ask::Ended(MachineEnd::Trapped(trap)),
        Part::Steps(step) => step_ask(step),
        Part::Retags(pointer, kind, len) => retag_ask(pointer, kind, Guard::Free, len),
        Part::Copies(to, from, len) => copy_out_ask(to, from, len, 0),
        Part::Joins(child, ..) => Ask::Join {
            child: ThreadNo(child),
        },
    }
}
