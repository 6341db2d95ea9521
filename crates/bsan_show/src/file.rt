//! A file that was read.
ghost use Rattle.std.specs.Prelude.{◌≡◌, IfOk};

use bsan_ids::{ListOf, Name, NoMemory};
use std::alloc::Global;

/// The name of a file, and what was read of it.
#[derive(Drop)]
pub struct File {
    pub name: Name,
    pub text: ListOf<u8>,
}

impl File {
    /// A file of this name with these bytes.
    pub fn new(alloc: Global, name: &str, text: &[u8]) -> Result<File, NoMemory>
        ensures name { IfOk result (λ file. file.name ≡ name.now) }
        ensures text { IfOk result (λ file. file.text ≡ text.now) }
    {
        Ok(File {
            name: Name::from_slice(alloc, name.as_bytes())?,
            text: ListOf::from_slice(alloc, text)?,
        })
    }
}
