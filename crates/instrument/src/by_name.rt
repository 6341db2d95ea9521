//! Functions and blocks in their order, found by their names.
ghost use Rattle.std.specs.Prelude.{◌≡◌, ◌<◌, ◌^◌, List, ℕ, map, length, slice_get, IfOk};
ghost use Rattle.std.specs.Option.{option_copied};
ghost use Rattle.ir_ast.specs.Numbers.{place};
ghost use Rattle.instrument.specs.Names.{IsOnce, Numbered};

use crate::names::{place, set_of};
use bsan_ids::NoMemory;
use indexmap::IndexSet;
use ir_ast::{Block, Function, Named};
use std::alloc::Global;
use std::marker::Model;

/// What a program knows by a name.
pub trait HasName {
    ghost name: { Self → List ℕ };

    fn name(&self) -> &[u8]
        ensures { result.now ≡ name self.now };
}

impl HasName for Function {
    ghost name = { λ f. f.name.name };

    fn name(&self) -> &[u8] {
        self.name.name.as_slice()
    }
}

impl HasName for Block {
    ghost name = { λ b. b.label.name };

    fn name(&self) -> &[u8] {
        self.label.name.as_slice()
    }
}

/// Items, whose numbers are their places, and the set of their names in the same order.
#[derive(Drop)]
pub struct ByName<'p, T: HasName> {
    all: &'p [T],
    names: IndexSet<&'p [u8]>,
}

impl<'p, T: HasName> Model for ByName<'p, T> {
    ghost use Rattle.std.specs.Prelude.{List, ◌≡◌, ◌<◌, ◌^◌, length, map};
    ghost use Rattle.instrument.specs.Sets.{names_in};

    ghost Value = { List T };

    ghost view = { λ b. b.all.now };

    ghost invariant = { λ b. (names_in b.names.keys ≡ map T.name b.all.now) × (length b.names.keys < 2 ^ 32) };
}

impl<'p, T: HasName> ByName<'p, T> {
    #[tactic(auto, using(crate::proofs::Sets::short))]
    pub fn new(alloc: Global, all: &'p [T]) -> Result<ByName<'p, T>, NoMemory>
        requires once { IsOnce (map T.name all.now) }
        requires few { Numbered all.now }
        ensures { IfOk result (λ items. items ≡ all.now) }
    {
        let mut names = Vec::new(alloc);
        for item in all {
            names.push(item.name())?;
        }
        Ok(ByName {
            all,
            names: set_of(alloc, names.as_slice())?,
        })
    }

    /// The number of the item of this name, and that of all items where there is none.
    pub fn number(&self, name: &Named) -> u32
        ensures { result ≡ place (map T.name self.now) name.now.name }
    {
        place(&self.names, name.name.as_slice())
    }

    /// The item of this number.
    pub fn get(&self, number: u32) -> Option<&'p T>
        ensures { option_copied result ≡ slice_get self.now number }
    {
        self.all.get(number as usize)
    }
}
