//! Files that remember the first text that was read of them.
ghost use Rattle.std.specs.Prelude.{◌≡◌, None, IfSome, option_map};
ghost use Rattle.bsan_show.specs.Kept.{IsContent};
ghost use Rattle.bsan_show.specs.Kept as kept;

use crate::file::File;
use outside_io::{FileFault, Files};

/// Files, with the first that was read. Where there was no memory to keep that it is a later one, or none.
#[derive(Drop)]
pub struct Remembering<S: Files> {
    files: S,
    first: Option<File>,
    ghost told: { ∥ IfSome first (IsContent (S.content files)) ∥₁ },
}

impl<S: Files> Remembering<S> {
    /// Files of which nothing was read yet.
    pub fn new(files: S) -> Remembering<S>
        ensures files { result.files ≡ files }
        ensures first { result.first ≡ None }
    {
        Remembering { files, first: None }
    }

    /// The text of the first file that was read, where it has this name. It is the file's content, where that is known.
    pub fn text_of(&self, name: &str) -> Option<&[u8]>
        ensures kept { option_map (λ text. text.now) result ≡ kept.text_of self.now.first name.now }
        ensures told { IfSome result (λ text. IfSome (S.content self.now.files name.now) (λ bytes. text.now ≡ bytes)) }
    {
        let file = self.first.as_ref()?;
        if file.name.as_slice() == name.as_bytes() {
            Some(file.text.as_slice())
        } else {
            None
        }
    }
}

impl<S: Files> Files for Remembering<S> {
    ghost content = { λ remembering. S.content remembering.files };

    ghost faults = { λ remembering. S.faults remembering.files };

    ghost overlong = { λ remembering. S.overlong remembering.files };

    /// Reads a file, and keeps it where it is the first.
    fn read_file(&mut self, name: &str, limit: u64, into: &mut Vec<u8>) -> Result<(), FileFault> {
        let read = self.files.read_file(name, limit, into);
        if read.is_ok() && self.first.is_none() {
            self.first = File::new(*into.allocator(), name, into.as_slice()).ok();
        }
        read
    }
}
