//! A sink in memory.
ghost use Rattle.std.specs.Prelude.{◌≡◌, ◌≢◌, ◌++◌, ◌≤◌, ℕ, List, [], Option, Some, None, Ok, Err, OnOk, IsErrOf};
ghost use Rattle.std.specs.Io.KnownBytes.{Appends, Keeps};
ghost use Rattle.outside_io.specs.Counts.{Rose, one_more};
ghost use Rattle.outside_io.specs.Putting.{AppendsPrefix};
ghost use Rattle.outside_io.specs.Room.{fitting};

use crate::{PutFault, Sink};
use std::alloc::Global;

/// A sink in memory, which takes everything, or so many bytes in all and then fails.
#[derive(Drop)]
pub struct MemSink {
    bytes: Vec<u8>,
    room: Option<u64>,
    faults: u64,
}

impl MemSink {
    ghost use Rattle.outside_io.specs.MemSinkView.{sink_bytes, sink_room, sink_faults};

    /// An empty sink that takes `room` bytes in all, or everything where that is `None`.
    pub fn new(alloc: Global, room: Option<u64>) -> MemSink
        ensures empty { sink_bytes result ≡ [] }
        ensures room { sink_room result ≡ room }
        ensures faults { sink_faults result ≡ 0 }
    {
        MemSink {
            bytes: Vec::new(alloc),
            room,
            faults: 0,
        }
    }

    /// The bytes taken.
    pub fn taken(&self) -> &[u8]
        ensures { result.now ≡ sink_bytes self.now }
    {
        self.bytes.as_slice()
    }
}

// How many bytes of a piece there is room for.
fn count_fitting(room: Option<u64>, taken: usize, piece: usize) -> usize
    ensures { result ≡ fitting room taken piece }
{
    match room {
        None => piece,
        Some(room) => {
            let left = room.saturating_sub(taken as u64);
            if left < piece as u64 {
                left as usize
            } else {
                piece
            }
        }
    }
}

impl Sink for MemSink {
    ghost use Rattle.outside_io.specs.MemSinkView.{sink_bytes, sink_room, sink_faults, sink_fits, sink_prefix};

    ghost taken = { λ sink. Some (sink_bytes sink) };

    ghost faults = { λ sink. sink_faults sink };

    /// Takes of the piece what there is room for.
    ///
    /// # Errors
    ///
    /// - `Failed`: the piece is longer than the room that is left; as much of it was taken.
    /// - `NoMemory`: out of memory; nothing of the piece was taken.
    fn put(&mut self, piece: &[u8]) -> Result<(), PutFault>
        ensures put { OnOk result (Appends (Some (sink_bytes self.old)) (Some (sink_bytes self.new)) piece.now) }
        ensures failed { IsErrOf result PutFault.Failed → Rose (sink_faults self.old) (sink_faults self.new) }
        ensures prefix { IsErrOf result PutFault.Failed
            → AppendsPrefix (Some (sink_bytes self.old)) (Some (sink_bytes self.new)) piece.now }
        ensures nothing { IsErrOf result PutFault.NoMemory → Keeps (Some (sink_bytes self.old)) (Some (sink_bytes self.new)) }
        ensures faults { sink_faults self.old ≤ sink_faults self.new }

        // Exactly, but for out of memory: which pieces are taken whole, and what of the others.
        ensures fits { OnOk result (sink_fits self.old piece.now) }
        ensures full { IsErrOf result PutFault.Failed → ¬ sink_fits self.old piece.now }
        ensures takes { result ≢ Err PutFault.NoMemory
            → sink_bytes self.new ≡ sink_bytes self.old ++ sink_prefix self.old piece.now }
        ensures room { sink_room self.new ≡ sink_room self.old }
        ensures counts { IsErrOf result PutFault.Failed → sink_faults self.new ≡ one_more (sink_faults self.old) }
        ensures steady { result ≢ Err PutFault.Failed → sink_faults self.new ≡ sink_faults self.old }
    {
        let count = count_fitting(self.room, self.bytes.len(), piece.len());
        if self.bytes.extend_from_slice(&piece[..count]).is_err() {
            return Err(PutFault::NoMemory);
        }
        if count < piece.len() {
            self.faults = self.faults.saturating_add(1);
            return Err(PutFault::Failed);
        }
        Ok(())
    }
}
