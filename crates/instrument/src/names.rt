//! Sets of names, in which a name's place is its number.
ghost use Rattle.std.specs.Prelude.{◌≡◌, ◌<◌, ◌^◌, map, length, IfOk};
ghost use Rattle.ir_ast.specs.Numbers.{place};
ghost use Rattle.instrument.specs.Names.{IsOnce};
ghost use Rattle.instrument.specs.Sets.{names_in};

use bsan_ids::NoMemory;
use indexmap::IndexSet;
use std::alloc::Global;

/// The place of a name, and the number of names where it isn't there.
#[tactic(auto, using(crate::proofs::Sets::place_found, crate::proofs::Sets::place_missed))]
pub fn place(names: &IndexSet<&[u8]>, name: &[u8]) -> u32
    requires { length names.now.keys < 2 ^ 32 }
    ensures { result ≡ place (names_in names.now.keys) name.now }
{
    match names.get_index_of(name) {
        Some(at) => at as u32,
        None => names.len() as u32,
    }
}

/// The set of these names, in their order.
#[tactic(auto, using(crate::proofs::Sets::set_steps))]
pub fn set_of<'a>(alloc: Global, names: &[&'a [u8]]) -> Result<IndexSet<&'a [u8]>, NoMemory>
    requires { IsOnce (names_in names.now) }
    ensures { IfOk result (λ set. set.keys ≡ names.now) }
{
    let mut set = IndexSet::new(alloc);
    for name in names {
        set.insert(*name)?;
    }
    Ok(set)
}
