//! Tables that find the first thing with a name.
ghost use Rattle.std.specs.Prelude.{◌≡◌, ℕ, List, IfOk, OnOk};
ghost use Rattle.std.specs.BTreeMap as tree;
ghost use Rattle.std.specs.Cmp.Lexicographic.{slice_cmp};
ghost use Rattle.std.specs.Ordering.{nat_cmp};
ghost use Rattle.std.specs.Option.{option_map};
ghost use Rattle.std.specs.Str.{bytes_eq};
ghost use Rattle.ir_rules.specs.Rules.{held};
ghost use Rattle.ir_rules.specs.Seen.{seen, holds_of};
ghost use Rattle.ir_rules.specs.Walk.{Finds, held_in, or_first};

use crate::events::{Held, Occurrence, Role};
use ir_ast::{Block, Function, HostEntry};
use std::alloc::{AllocError, Global};
use std::collections::BTreeMap;

/// Puts a value under a name that has none yet.
fn insert_first<'a, V: Copy>(
    table: &mut BTreeMap<&'a [u8], V>,
    name: &'a [u8],
    value: V,
) -> Result<(), AllocError>
    ensures { OnOk result ((q : List ℕ) → tree.get_by (λ k. slice_cmp nat_cmp q k.now) table.new ≡ or_first (tree.get_by (λ k. slice_cmp nat_cmp q k.now) table.old) (bytes_eq q name.now) value) }
{
    if !table.contains_key(name) {
        table.insert(name, value)?;
    }
    Ok(())
}

/// For each label, the place of the first block that has it.
pub fn label_places<'a>(
    alloc: Global,
    blocks: &'a [Block],
) -> Result<BTreeMap<&'a [u8], usize>, AllocError>
    ensures { IfOk result (λ places. Finds (λ b. b.label.name) blocks.now places) }
{
    let mut places = BTreeMap::new(alloc);
    for (place, block) in blocks.iter().enumerate() {
        insert_first(&mut places, block.label.name.as_slice(), place)?;
    }
    Ok(places)
}

/// For each function's name, the place of the first function that has it.
pub fn function_places<'a>(
    alloc: Global,
    functions: &'a [Function],
) -> Result<BTreeMap<&'a [u8], usize>, AllocError>
    ensures { IfOk result (λ places. Finds (λ f. f.name.name) functions.now places) }
{
    let mut places = BTreeMap::new(alloc);
    for (place, function) in functions.iter().enumerate() {
        insert_first(&mut places, function.name.name.as_slice(), place)?;
    }
    Ok(places)
}

/// For each host's name, the place of the first host that has it.
pub fn host_places<'a>(
    alloc: Global,
    hosts: &'a [HostEntry],
) -> Result<BTreeMap<&'a [u8], usize>, AllocError>
    ensures { IfOk result (λ places. Finds (λ h. h.name) hosts.now places) }
{
    let mut places = BTreeMap::new(alloc);
    for (place, host) in hosts.iter().enumerate() {
        insert_first(&mut places, host.name.as_slice(), place)?;
    }
    Ok(places)
}

/// What the first definition of each register makes it hold.
pub fn registers<'a>(
    alloc: Global,
    events: &[Occurrence<'a>],
) -> Result<BTreeMap<&'a [u8], Held<'a>>, AllocError>
    ensures { IfOk result (λ t. (q : List ℕ) → held_in t q ≡ held (seen events.now) q) }
{
    let mut table = BTreeMap::new(alloc);
    for event in events {
        match event.role {
            Role::Defines(held) => {
                insert_first(&mut table, event.register.name.as_slice(), held)?
            }
            Role::Uses(_) => {}
        }
    }
    Ok(table)
}

/// What the register holds.
pub fn look_up<'a>(table: &BTreeMap<&'a [u8], Held<'a>>, register: &[u8]) -> Option<Held<'a>>
    ensures { option_map holds_of result ≡ held_in table.now register.now }
{
    table.get(register).copied()
}
