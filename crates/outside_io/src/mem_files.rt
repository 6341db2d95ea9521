//! Files in memory.
ghost use Rattle.std.specs.Prelude.{◌≡◌, ◌≢◌, ◌≤◌, ◌<◌, ◌+◌, ◌∷◌, ◌++◌, ℕ, List, [], Option, Some, None, true, false, length, option_map, OnOk, OnErr, IsErrOf, Err};
ghost use Rattle.outside_io.specs.Counts.{Rose, one_more};
ghost use Rattle.outside_io.specs.Reading.{Tells, IsLongerThan};
ghost use Rattle.outside_io.specs.Held.{content_of, times_named, times_limited};

use crate::{FileFault, Files};
use bsan_ids::{ListOf, Name, NoMemory};
use std::alloc::Global;

/// Files in memory. Calls are numbered from 1, and those whose numbers are given fail.
#[derive(Drop)]
pub struct MemFiles {
    alloc: Global,
    files: Vec<(Name, Vec<u8>)>,
    failing: Vec<u64>,
    next: u64,
    failed: ListOf<Name>,
    too_long: ListOf<(Name, u64)>,
}

impl MemFiles {
    ghost use Rattle.outside_io.specs.MemFilesView.{mem_content, mem_failing, mem_next, mem_failed, mem_too_long};

    /// Files of these names and contents. Of several with one name the first counts. The calls
    /// whose numbers are in `failing` fail.
    pub fn new(alloc: Global, files: Vec<(Name, Vec<u8>)>, failing: Vec<u64>) -> MemFiles
        ensures content { (name : List ℕ) → mem_content result name ≡ content_of files.items name }
        ensures failing { mem_failing result ≡ failing.items }
        ensures next { mem_next result ≡ 1 }
        ensures failed { mem_failed result ≡ [] }
        ensures too_long { mem_too_long result ≡ [] }
    {
        MemFiles {
            alloc,
            files,
            failing,
            next: 1,
            failed: ListOf::new(alloc),
            too_long: ListOf::new(alloc),
        }
    }
}

// The bytes of the first file of this name.
fn held<'a>(files: &'a [(Name, Vec<u8>)], name: &str) -> Option<&'a [u8]>
    ensures { option_map (λ bytes. bytes.now) result ≡ content_of files.now name.now }
{
    let wanted = name.as_bytes();
    let file = files.iter().find(|file| file.0.as_slice() == wanted)?;
    Some(file.1.as_slice())
}

// Notes a read that failed.
fn note_failed(alloc: Global, failed: &mut ListOf<Name>, name: &str) -> Result<(), NoMemory>
    ensures ok { OnOk result (failed.new ≡ failed.old ++ name.now ∷ []) }
    ensures rose { OnOk result (Rose (times_named failed.old name.now) (times_named failed.new name.now)) }
    ensures err { OnErr result (failed.new ≡ failed.old) }
    ensures grows { (other : List ℕ) → times_named failed.old other ≤ times_named failed.new other }
{
    failed.push(Name::from_slice(alloc, name.as_bytes())?)
}

// Notes a read past the limit.
fn note_too_long(
    alloc: Global,
    calls: &mut ListOf<(Name, u64)>,
    name: &str,
    limit: u64,
) -> Result<(), NoMemory>
    ensures ok { OnOk result (calls.new ≡ calls.old ++ (name.now, limit) ∷ []) }
    ensures rose { OnOk result
        (Rose (times_limited calls.old name.now limit) (times_limited calls.new name.now limit)) }
    ensures err { OnErr result (calls.new ≡ calls.old) }
    ensures grows { (other : List ℕ) (most : ℕ)
        → times_limited calls.old other most ≤ times_limited calls.new other most }
{
    calls.push((Name::from_slice(alloc, name.as_bytes())?, limit))
}

impl Files for MemFiles {
    ghost use Rattle.outside_io.specs.MemFilesView.{mem_content, mem_failing, mem_next, mem_fails, mem_failed, mem_too_long, mem_faults, mem_overlong};

    ghost content = { λ files name. mem_content files name };

    ghost faults = { λ files name. mem_faults files name };

    ghost overlong = { λ files name limit. mem_overlong files name limit };

    /// Puts the content of the first file of this name into `into`, in place of what is there.
    ///
    /// # Errors
    ///
    /// Each leaves `into` empty.
    ///
    /// - `Failed`: the call's number is among those that fail, or no file has the name.
    /// - `TooLong`: otherwise, where the content has more than `limit` bytes.
    /// - `NoMemory`: out of memory.
    fn read_file(&mut self, name: &str, limit: u64, into: &mut Vec<u8>) -> Result<(), FileFault>
        ensures read { OnOk result (Tells (mem_content self.old name.now) into.new.items) }
        ensures within { OnOk result (length into.new.items ≤ limit) }
        ensures empty { OnErr result (into.new.items ≡ []) }
        ensures failed { IsErrOf result FileFault.Failed
            → Rose (mem_faults self.old name.now) (mem_faults self.new name.now) }
        ensures too_long { IsErrOf result FileFault.TooLong
            → Rose (mem_overlong self.old name.now limit) (mem_overlong self.new name.now limit) }
        ensures longer { IsErrOf result FileFault.TooLong
            → IsLongerThan limit (mem_content self.old name.now) }

        // Of every name: its content stays, and its counts never fall.
        ensures content { (other : List ℕ) → mem_content self.new other ≡ mem_content self.old other }
        ensures faults { (other : List ℕ) → mem_faults self.old other ≤ mem_faults self.new other }
        ensures overlong { (other : List ℕ) (most : ℕ)
            → mem_overlong self.old other most ≤ mem_overlong self.new other most }

        // Want of memory aside, it is exactly a call that fails that answers Failed, and of the
        // others it is exactly one of a content within the limit that answers Ok.
        ensures fails { IsErrOf result FileFault.Failed → mem_fails self.old name.now ≡ true }
        ensures too_long_reads { IsErrOf result FileFault.TooLong → mem_fails self.old name.now ≡ false }
        ensures reads { OnOk result (mem_fails self.old name.now ≡ false) }
        ensures gives { OnOk result (mem_content self.old name.now ≡ Some into.new.items) }

        // What was called, and what was noted of it.
        ensures next { mem_next self.new ≡ one_more (mem_next self.old) }
        ensures failing { mem_failing self.new ≡ mem_failing self.old }
        ensures notes_failed { IsErrOf result FileFault.Failed
            → mem_failed self.new ≡ mem_failed self.old ++ name.now ∷ [] }
        ensures keeps_failed { result ≢ Err FileFault.Failed → mem_failed self.new ≡ mem_failed self.old }
        ensures notes_too_long { IsErrOf result FileFault.TooLong
            → mem_too_long self.new ≡ mem_too_long self.old ++ (name.now, limit) ∷ [] }
        ensures keeps_too_long { result ≢ Err FileFault.TooLong
            → mem_too_long self.new ≡ mem_too_long self.old }
    {
        into.clear();
        let fails = self.failing.contains(&self.next);
        self.next = self.next.saturating_add(1);
        let bytes = match held(self.files.as_slice(), name) {
            Some(bytes) if !fails => bytes,
            _ => {
                note_failed(self.alloc, &mut self.failed, name)?;
                return Err(FileFault::Failed);
            }
        };
        if bytes.len() as u64 > limit {
            note_too_long(self.alloc, &mut self.too_long, name, limit)?;
            return Err(FileFault::TooLong);
        }
        match into.extend_from_slice(bytes) {
            Ok(()) => Ok(()),
            Err(_) => Err(FileFault::NoMemory),
        }
    }
}
