//! Values that are copied with memory of their own.
ghost use Rattle.std.specs.Prelude.{◌≡◌, IfOk, vec_len, vec_capacity};

use crate::numbers::{NoMemory, Prov};

/// A value whose contents may be refused a copy.
pub trait Copied: Sized {
    /// An equal value, with memory of its own.
    ///
    /// # Errors
    ///
    /// `NoMemory`: out of memory.
    fn copy(&self) -> Result<Self, NoMemory>
        ensures { IfOk result (λ value. value ≡ self.now) };
}

/// It takes no memory.
impl Copied for u8 {
    fn copy(&self) -> Result<u8, NoMemory> {
        Ok(*self)
    }
}

/// It takes no memory.
impl Copied for Prov {
    fn copy(&self) -> Result<Prov, NoMemory> {
        Ok(*self)
    }
}

impl<T: Copied> Copied for Option<T> {
    fn copy(&self) -> Result<Option<T>, NoMemory> {
        Ok(match self {
            Some(value) => Some(value.copy()?),
            None => None,
        })
    }
}

/// A `Vec` of equal items, each with memory of its own, and with as much room for further ones.
///
/// # Errors
///
/// `NoMemory`: out of memory.
pub fn copy_vec<T: Copied + Drop>(items: &Vec<T>) -> Result<Vec<T>, NoMemory>
    ensures items { IfOk result (λ copy. copy.items ≡ items.now.items) }
    ensures len { IfOk result (λ copy. vec_len copy ≡ vec_len items.now) }
    ensures capacity { IfOk result (λ copy. vec_capacity copy ≡ vec_capacity items.now) }
{
    let mut copy = Vec::with_capacity(*items.allocator(), items.capacity())?;
    for item in items.as_slice() {
        copy.push_reserved(item.copy()?);
    }
    Ok(copy)
}
