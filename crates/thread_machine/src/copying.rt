//! How far a copy has come.
ghost use Rattle.std.specs.Prelude.{◌≡◌, ◌<◌, ◌*◌, ◌^◌, ◌-◌, min, true, IfOk, OnErr, OnOk, if◌then◌else◌};
ghost use Rattle.thread_parts.specs.Copies.{copied_of, copy_after, copy_ask, copy_done, piece_at, untouched};
ghost use Rattle.thread_parts.specs.Asks.{AsksAllocation};

use bsan_ids::{NoMemory, parts};
use history::{Arg, Ask, Piece, PieceBuffer, Plain, Request};
use std::alloc::Global;
use std::marker::Model;

/// How many pieces were copied, and the piece that was read and not yet written.
///
/// Contracts see the progress, and whether a piece fits without memory.
#[derive(Drop)]
pub struct CopyProgress {
    pieces: u64,
    has_half: bool,
    buffer: Option<PieceBuffer>,
}

impl Model for CopyProgress {
    ghost use Rattle.std.specs.Prelude.{◌≡◌, ◌<◌, ◌*◌, ◌^◌, true, is_some};
    ghost use Rattle.thread_machine.specs.Views.{RoomyCopy, half_of};

    ghost Value = { RoomyCopy };

    ghost view = { λ p. record { progress = record { pieces = p.pieces; half = half_of p.has_half p.buffer }; has_room = is_some p.buffer } };

    ghost invariant = { λ p. (32 * p.pieces < 2 ^ 64) × (p.has_half ≡ true → is_some p.buffer ≡ true) };
}

/// The address of a piece of a copy: 32 bytes a piece after the first, wrapped at 64 bits.
fn piece_address(address: u64, pieces: u64) -> u64
    ensures { result ≡ piece_at address pieces }
{
    address.wrapping_add(pieces.wrapping_mul(32))
}

/// How many bytes the next piece of a copy of `len` bytes has.
fn piece_len(len: u64, pieces: u64) -> u8
    ensures { result ≡ min 32 (len - 32 * pieces) }
{
    len.saturating_sub(pieces.saturating_mul(32)).min(32) as u8
}

/// Puts the piece of a reply into a buffer. It takes no memory.
fn put_piece(alloc: Global, buffer: &mut PieceBuffer, plain: &Plain)
    ensures { buffer.new ≡ copied_of plain.now }
{
    match plain {
        Plain::Copied(piece) => buffer.assign(piece),
        _ => buffer.assign(&Piece::new(alloc)),
    }
}

impl CopyProgress {
    /// Nothing is copied.
    pub fn new() -> CopyProgress
        ensures { result.progress ≡ untouched }
    {
        CopyProgress {
            pieces: 0,
            has_half: false,
            buffer: None,
        }
    }

    /// Makes room for a piece.
    ///
    /// # Errors
    ///
    /// `NoMemory`: out of memory.
    pub fn reserve(&mut self, alloc: Global) -> Result<(), NoMemory>
        ensures progress { self.new.progress ≡ self.old.progress }
        ensures room { OnOk result (self.new.has_room ≡ true) }
    {
        if self.buffer.is_none() {
            self.buffer = Some(PieceBuffer::new(alloc)?);
        }
        Ok(())
    }

    /// Asks for the next part of a copy of `len` bytes: a piece is read, or one that was read is written.
    ///
    /// # Errors
    ///
    /// `NoMemory`: out of memory for the piece that is written.
    pub fn ask(&self, to: Arg, from: Arg, len: u64) -> Result<Ask, NoMemory>
        ensures asks { IfOk result (λ a. a ≡ copy_ask to from len self.now.progress) }
        ensures refused { OnErr result (AsksAllocation (copy_ask to from len self.now.progress)) }
    {
        match &self.buffer {
            Some(half) if self.has_half => {
                let (alloc, at) = parts(piece_address(to.value, self.pieces));
                let request = Request::CopyIn {
                    at,
                    piece: half.to_piece()?,
                    prov: to.prov,
                };
                Ok(Ask::At { alloc, request })
            }
            _ => {
                let (alloc, at) = parts(piece_address(from.value, self.pieces));
                let request = Request::CopyOut {
                    at,
                    len: piece_len(len, self.pieces),
                    prov: from.prov,
                };
                Ok(Ask::At { alloc, request })
            }
        }
    }

    /// Goes on with the reply to what a copy of `len` bytes asked. Answers whether the copy is done.
    pub fn advance(&mut self, alloc: Global, len: u64, plain: &Plain) -> bool
        requires room { self.old.has_room ≡ true }
        ensures done { result ≡ copy_done len (copy_after self.old.progress plain.now) }
        ensures progress { self.new.progress ≡ (if result then untouched else copy_after self.old.progress plain.now) }
    {
        if self.has_half {
            self.has_half = false;
            self.pieces += 1;
        } else if let Some(buffer) = &mut self.buffer {
            put_piece(alloc, buffer, plain);
            self.has_half = true;
        }
        let done = len <= self.pieces.saturating_mul(32);
        if done {
            self.pieces = 0;
            self.has_half = false;
        }
        done
    }
}
