//! The functions of the host that the program has.
ghost use Rattle.std.specs.Prelude.{◌≡◌, ◌<◌, IfOk, length};
ghost use Rattle.hosts.specs.Rules.{HaveOwnNames, IsAnswer};
ghost use Rattle.hosts.specs.Standard.{standard_table};

use bsan_ids::{ListOf, Name, NoMemory};
use ir_ast::{HostEntry, HostRule, HostTable};
use std::alloc::Global;

/// The table of `min`, `max`, `popcount` and `byteswap`, in this order.
///
/// # Errors
///
/// `NoMemory`: out of memory.
#[tactic(auto, using(crate::proofs::Names::own_names))]
pub fn standard_table(alloc: Global) -> Result<HostTable, NoMemory>
    ensures table { IfOk result (λ table. table ≡ standard_table) }
    ensures names { IfOk result HaveOwnNames }
{
    let mut entries = ListOf::new(alloc);
    entries.push(HostEntry {
        name: Name::from_slice(alloc, b"min")?,
        arity: 2,
        rule: HostRule::Min,
    })?;
    entries.push(HostEntry {
        name: Name::from_slice(alloc, b"max")?,
        arity: 2,
        rule: HostRule::Max,
    })?;
    entries.push(HostEntry {
        name: Name::from_slice(alloc, b"popcount")?,
        arity: 1,
        rule: HostRule::Popcount,
    })?;
    entries.push(HostEntry {
        name: Name::from_slice(alloc, b"byteswap")?,
        arity: 1,
        rule: HostRule::ByteSwap,
    })?;
    Ok(HostTable { entries })
}

/// What a function of the standard table answers to two words, by its number.
pub fn standard_answer(number: u32, first: u64, second: u64) -> u64
    requires { number < length standard_table.entries }
    ensures { IsAnswer standard_table number first second result }
{
    match number {
        0 => first.min(second),
        1 => first.max(second),
        2 => u64::from(first.count_ones()),
        _ => first.swap_bytes(),
    }
}
