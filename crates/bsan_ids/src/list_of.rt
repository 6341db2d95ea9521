//! A `Vec` that contracts see as the list of its items.
ghost use Rattle.std.specs.Prelude.{◌≡◌, [], ◌∷◌, ◌++◌, ◌<◌, ◌+◌, ◌≤◌, ◌↔◌, length, slice_get, slice_set, replicate, IsTrue, IfOk, OnOk, OnErr, OnSome};
ghost use Rattle.std.specs.Option.{option_copied};

use crate::copied::{Copied, copy_vec};
use crate::numbers::NoMemory;
use std::alloc::Global;
use std::marker::Model;

/// A list, seen by contracts as the list of its items.
#[derive(Drop)]
pub struct ListOf<T> {
    items: Vec<T>,
}

impl<T> Model for ListOf<T> {
    ghost use Rattle.std.specs.Prelude.{List};
    ghost use Rattle.std.specs.Coded.{coded_list};

    ghost Value = { List T };

    ghost coded = { coded_list T.code };

    ghost view = { λ list. list.items.items };
}

impl<T> ListOf<T> {
    /// A list without items. It takes no memory.
    pub fn new(alloc: Global) -> ListOf<T>
        ensures { result ≡ [] }
    {
        ListOf {
            items: Vec::new(alloc),
        }
    }

    /// The list of a `Vec`'s items. It takes no memory.
    pub fn from_vec(items: Vec<T>) -> ListOf<T>
        ensures { result ≡ items.items }
    {
        ListOf { items }
    }

    /// The `Vec` of its items. It takes no memory.
    pub fn into_vec(self) -> Vec<T>
        ensures { result.items ≡ self }
    {
        let ListOf { items } = self;
        items
    }

    /// A list without items, whose memory comes from where that of this one comes. It takes none.
    pub fn fresh<U>(&self) -> ListOf<U>
        ensures { result ≡ [] }
    {
        ListOf::new(*self.items.allocator())
    }

    /// The items as a slice.
    pub fn as_slice(&self) -> &[T]
        ensures { result.now ≡ self.now }
    {
        self.items.as_slice()
    }

    /// How many items it has.
    pub fn len(&self) -> usize
        ensures { result ≡ length self.now }
    {
        self.items.len()
    }

    /// Whether it has no item.
    pub fn is_empty(&self) -> bool
        ensures { IsTrue result ↔ (self.now ≡ []) }
    {
        self.items.is_empty()
    }

    /// The item at an index, counted from 0, if it is below the length.
    pub fn get(&self, at: usize) -> Option<&T>
        ensures value { option_copied result ≡ slice_get self.now at }
        ensures within { OnSome result (at < length self.now) }
    {
        self.items.get(at)
    }
}

impl<T: Drop> ListOf<T> {
    /// Puts an item in the place of the one at this index, which is dropped.
    pub fn set(&mut self, at: usize, item: T)
        requires { at < length self.old }
        ensures { self.new ≡ slice_set self.old at item }
    {
        self.items[at] = item;
    }

    /// Appends an item.
    ///
    /// # Errors
    ///
    /// `NoMemory`: out of memory. The list is as before, and the item is dropped.
    pub fn push(&mut self, item: T) -> Result<(), NoMemory>
        ensures ok { OnOk result (self.new ≡ self.old ++ item ∷ []) }
        ensures err { OnErr result (self.new ≡ self.old) }
    {
        self.items.push(item)?;
        Ok(())
    }

    /// Drops all items.
    pub fn clear(&mut self)
        ensures { self.new ≡ [] }
    {
        self.items.clear();
    }
}

impl<T: Copied + Drop> Copied for ListOf<T> {
    fn copy(&self) -> Result<ListOf<T>, NoMemory> {
        Ok(ListOf {
            items: copy_vec(&self.items)?,
        })
    }
}

impl<T: Copy> ListOf<T> {
    /// The list of a slice's items.
    ///
    /// # Errors
    ///
    /// `NoMemory`: out of memory.
    pub fn from_slice(alloc: Global, items: &[T]) -> Result<ListOf<T>, NoMemory>
        ensures { IfOk result (λ list. list ≡ items.now) }
    {
        Ok(ListOf {
            items: Vec::from_slice(alloc, items)?,
        })
    }

    /// `len` times `item`.
    ///
    /// # Errors
    ///
    /// `NoMemory`: out of memory.
    pub fn repeated(alloc: Global, item: T, len: u32) -> Result<ListOf<T>, NoMemory>
        ensures { IfOk result (λ list. list ≡ replicate len item) }
    {
        let mut items = Vec::with_capacity(alloc, len as usize)?;
        items.resize(len as usize, item)?;
        Ok(ListOf { items })
    }
}
