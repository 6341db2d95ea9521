//! The files of the system.
ghost use Rattle.std.specs.Prelude.{◌≡◌, ◌≢◌, ◌≤◌, ◌<◌, ◌+◌, ◌++◌, ℕ, List, [], length, take, None, Err, IfOk, IfErr, OnOk, OnErr, IsOkAnd, IsErrOf, MatchResult};
ghost use Rattle.std.specs.IoError.{error_kind};
ghost use Rattle.std.specs.Io.KnownBytes.{IsAtEnd};
ghost use Rattle.outside_io.specs.Reading.{Tells, IsLongerThan};
ghost use Rattle.outside_io.specs.Unread.{unread_by};

use crate::{FileFault, Files};
use std::io::Read;
use std::{fs, io, rt};

/// The files of the system, of which it tells no content. Its two counts serve all names.
#[derive(Drop)]
pub struct RealFiles<'r, R: rt::Files> {
    rt: &'r R,
    faults: u64,
    overlong: u64,
}

impl<'r, R: rt::Files> RealFiles<'r, R> {
    /// The system's files, with both counts at 0.
    pub fn new(rt: &'r R) -> RealFiles<'r, R>
        ensures faults { (name : List ℕ) → ⟦<RealFiles<'r, R> as Files>⟧.faults result name ≡ 0 }
        ensures overlong { (name : List ℕ) (limit : ℕ)
            → ⟦<RealFiles<'r, R> as Files>⟧.overlong result name limit ≡ 0 }
    {
        RealFiles {
            rt,
            faults: 0,
            overlong: 0,
        }
    }
}

// Why a file was not read, where the system answers with this error.
fn fault_of(error: &io::Error) -> FileFault
    ensures { result ≡ unread_by (error_kind error.now) }
{
    match error.kind() {
        io::ErrorKind::OutOfMemory => FileFault::NoMemory,
        _ => FileFault::Failed,
    }
}

// The bytes that a read put at the front of a buffer, or why it put none.
fn piece_of<'b>(read: io::Result<usize>, buffer: &'b [u8]) -> Result<&'b [u8], FileFault>
    requires { IfOk read (λ count. count ≤ length buffer.now) }
    ensures { MatchResult read
        (λ count. IsOkAnd result (λ piece. piece.now ≡ take count buffer.entry.now))
        (λ error. IsErrOf result (unread_by (error_kind error))) }
{
    match read {
        Ok(count) => Ok(&buffer[..count]),
        Err(error) => Err(fault_of(&error)),
    }
}

// Adds a piece to what is held, which is to have at most `limit` bytes.
fn add_piece(piece: &[u8], limit: u64, into: &mut Vec<u8>) -> Result<(), FileFault>
    requires { length into.old.items ≤ limit }
    ensures added { OnOk result (into.new.items ≡ into.old.items ++ piece.now) }
    ensures kept { OnErr result (into.new.items ≡ into.old.items) }
    ensures within { length into.new.items ≤ limit }
    ensures too_long { IsErrOf result FileFault.TooLong → limit < length into.old.items + length piece.now }
    ensures reads { result ≢ Err FileFault.Failed }
{
    if piece.len() as u64 > limit - into.len() as u64 {
        return Err(FileFault::TooLong);
    }
    match into.extend_from_slice(piece) {
        Ok(()) => Ok(()),
        Err(_) => Err(FileFault::NoMemory),
    }
}

// Reads to the end, or until there are more bytes than the limit, of which it never holds more.
fn read_within<F: Read>(file: &mut F, limit: u64, into: &mut Vec<u8>) -> Result<(), FileFault>
    ensures read { OnOk result (Tells (F.remaining file.old) into.new.items) }
    ensures end { OnOk result (IsAtEnd (F.remaining file.new)) }
    ensures within { length into.new.items ≤ limit }
    ensures longer { IsErrOf result FileFault.TooLong → IsLongerThan limit (F.remaining file.old) }
{
    into.clear();
    let mut buffer = [0; 4096];
    for _ in 0..u64::MAX {
        let read = file.read(&mut buffer);
        let piece = piece_of(read, &buffer)?;
        if piece.is_empty() {
            return Ok(());
        }
        add_piece(piece, limit, into)?;
    }
    Err(FileFault::Failed)
}

// Reads a file where it was opened.
fn read_opened<F: Read + Drop>(
    opened: io::Result<F>,
    limit: u64,
    into: &mut Vec<u8>,
) -> Result<(), FileFault>
    ensures read { OnOk result (IsOkAnd opened (λ file. Tells (F.remaining file) into.new.items)) }
    ensures within { length into.new.items ≤ limit }
    ensures longer { IsErrOf result FileFault.TooLong
        → IsOkAnd opened (λ file. IsLongerThan limit (F.remaining file)) }
    ensures unopened { IfErr opened (λ error. IsErrOf result (unread_by (error_kind error))) }
{
    into.clear();
    match opened {
        Ok(mut file) => read_within(&mut file, limit, into),
        Err(error) => Err(fault_of(&error)),
    }
}

impl<R: rt::Files> Files for RealFiles<'_, R> {
    ghost content = { λ _ _. None };

    ghost faults = { λ files _. files.faults };

    ghost overlong = { λ files _ _. files.overlong };

    fn read_file(&mut self, name: &str, limit: u64, into: &mut Vec<u8>) -> Result<(), FileFault> {
        let read = read_opened(fs::open(self.rt, name), limit, into);
        if let Err(fault) = read {
            into.clear();
            match fault {
                FileFault::Failed => self.faults = self.faults.saturating_add(1),
                FileFault::TooLong => self.overlong = self.overlong.saturating_add(1),
                FileFault::NoMemory => {}
            }
        }
        read
    }
}
