//! The words of the command line.
ghost use Rattle.std.specs.Prelude.{◌≡◌, [], drop, IfOk, OnErr};
ghost use Rattle.std.specs.Vec.Iter.{into_iter_items};

use bsan_ids::NoMemory;
use std::alloc::Global;
use std::env::Args;
use std::io;

/// The words after the first, which is the program's own name.
fn after_name(alloc: Global, all: Args) -> Result<Vec<String>, NoMemory>
    ensures { IfOk result (λ words. words.items ≡ drop 1 (into_iter_items all)) }
{
    let mut rest = all;
    let _name = rest.next();
    Ok(rest.collect(alloc)?)
}

/// The words of the command line after the program's own name, where they could be had. Where they couldn't, as where
/// one isn't UTF-8, there are none.
///
/// # Errors
///
/// `NoMemory`: out of memory.
pub fn words_of(alloc: Global, all: io::Result<Args>) -> Result<Vec<String>, NoMemory>
    ensures had { IfOk all (λ all. IfOk result (λ words. words.items ≡ drop 1 (into_iter_items all))) }
    ensures failed { OnErr all (IfOk result (λ words. words.items ≡ [])) }
{
    match all {
        Ok(all) => after_name(alloc, all),
        Err(error) if error.kind() == io::ErrorKind::OutOfMemory => Err(NoMemory),
        Err(_) => Ok(Vec::new(alloc)),
    }
}
