//! Pieces of memory that are copied out and in.
ghost use Rattle.std.specs.Prelude.{◌≡◌, ◌+◌, ◌*◌, ◌≤◌, ◌<◌, IfOk, length, map, slice_get, slice_set, Some, true};
ghost use Rattle.ir_ast.specs.Sizes.{most_size};
ghost use Rattle.history.specs.Memory.{put};
ghost use Rattle.history.specs.Fragments.{piece_at};

use bsan_ids::NoMemory;
use byte_mem::ByteMem;
use history::Piece;
use shadow_mem::ShadowMem;
use std::alloc::Global;

/// A byte of live memory.
#[tactic(auto, using(crate::proofs::ByteCopies::no_trap))]
fn byte_at(memory: &ByteMem, at: u32) -> u8
    requires live { memory.now.live ≡ true }
    requires within { at < length memory.now.bytes }
    ensures { slice_get memory.now.bytes at ≡ Some result }
{
    match memory.byte(at) {
        Ok(byte) => byte,
        Err(_) => unreachable!(),
    }
}

/// Writes a byte of live memory.
#[tactic(auto, using(crate::proofs::ByteCopies::no_trap))]
fn set_byte(memory: &mut ByteMem, at: u32, byte: u8)
    requires live { memory.old.live ≡ true }
    requires within { at < length memory.old.bytes }
    ensures { memory.new ≡ record memory.old { bytes = slice_set memory.old.bytes at byte } }
{
    match memory.set_byte(at, byte) {
        Ok(()) => (),
        Err(_) => unreachable!(),
    }
}

/// The bytes from `at` on with their fragments, at most 32.
#[tactic(auto, using(crate::proofs::ByteCopies::piece_push, crate::proofs::ByteCopies::length_piece))]
pub(crate) fn piece_of(
    alloc: Global,
    memory: &ByteMem,
    shadow: &ShadowMem,
    at: u32,
    len: u8,
) -> Result<Piece, NoMemory>
    requires live { memory.now.live ≡ true }
    requires few { len ≤ 32 }
    requires bound { at + len ≤ most_size }
    requires bytes { at + len ≤ length memory.now.bytes }
    requires frags { at + len ≤ length shadow.now.frags }
    ensures { IfOk result (λ piece. piece ≡ piece_at memory.now shadow.now.frags at len) }
{
    let mut piece = Piece::new(alloc);
    for i in 0..len {
        let place = at + u32::from(i);
        piece.push(byte_at(memory, place), shadow.frag(place))?;
    }
    Ok(piece)
}

/// Writes the bytes of a piece from `at` on.
#[tactic(auto, using(crate::proofs::ByteCopies::put_more, crate::proofs::ByteCopies::put_none, crate::proofs::ByteCopies::first_at))]
pub(crate) fn put_bytes(memory: &mut ByteMem, at: u32, piece: &Piece)
    requires live { memory.old.live ≡ true }
    requires few { length piece.now ≤ 32 }
    requires bound { at + length piece.now ≤ most_size }
    requires within { at + length piece.now ≤ length memory.old.bytes }
    ensures { memory.new ≡ record memory.old { bytes = put at (map (λ pair. pair.0) piece.now) memory.old.bytes } }
{
    for i in 0..piece.len() {
        let (byte, _) = piece.get(i);
        set_byte(memory, at + i as u32, byte);
    }
}

/// Gives the bytes from `at` on the fragments of a piece. It takes room for two runs a byte at most.
#[tactic(auto, using(crate::proofs::ByteCopies::put_more, crate::proofs::ByteCopies::put_one, crate::proofs::ByteCopies::put_none, crate::proofs::ByteCopies::second_at))]
pub(crate) fn put_frags(shadow: &mut ShadowMem, at: u32, piece: &Piece)
    requires few { length piece.now ≤ 32 }
    requires bound { at + length piece.now ≤ most_size }
    requires within { at + length piece.now ≤ length shadow.old.frags }
    requires room { 2 * length piece.now ≤ shadow.old.spare }
    ensures { shadow.new.frags ≡ put at (map (λ pair. pair.1) piece.now) shadow.old.frags }
{
    for i in 0..piece.len() {
        let (_, frag) = piece.get(i);
        shadow.set_frag(at + i as u32, frag);
    }
}
