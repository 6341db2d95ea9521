//! Where each register stands in the blocks of a function.
ghost use Rattle.std.specs.Prelude.{◌≡◌, ◌++◌, ℕ, List, map, IfOk, OnOk};
ghost use Rattle.std.specs.Str.{bytes_eq};
ghost use Rattle.ir_rules.specs.Occurrences.{block_events};
ghost use Rattle.ir_rules.specs.Seen.{seen, event_of};
ghost use Rattle.ir_assigned.specs.Mentions.{mention_of, mention_if, mentions, mentions_from, mentions_in};

use bsan_ids::NoMemory;
use ir_ast::Block;
use ir_rules::{Occurrence, Role, note_block};
use std::alloc::Global;
use std::collections::BTreeMap;

/// Where a register stands: the number of the block, the place in the text, and whether the
/// register is defined there.
#[derive(Clone, Copy)]
pub struct Mention {
    pub block: usize,
    pub at: u32,
    pub defines: bool,
}

fn mention_at(block: usize, occurrence: &Occurrence<'_>) -> Mention
    ensures { result ≡ mention_of block (event_of occurrence.now) }
{
    let at = occurrence.register.at;
    match occurrence.role {
        Role::Defines(_) => Mention {
            block,
            at,
            defines: true,
        },
        Role::Uses(_) => Mention {
            block,
            at,
            defines: false,
        },
    }
}

/// Adds a mention of the register.
fn note_mention<'a>(
    alloc: Global,
    table: &mut BTreeMap<&'a [u8], Vec<Mention>>,
    register: &'a [u8],
    mention: Mention,
) -> Result<(), NoMemory>
    ensures { OnOk result ((q : List ℕ) → mentions_in table.new q ≡ mentions_in table.old q ++ mention_if (bytes_eq q register.now) mention) }
{
    match table.get_mut(register) {
        Some(mentions) => mentions.push(mention)?,
        None => {
            let mentions = vec![in alloc; mention]?;
            table.insert(register, mentions)?;
        }
    }
    Ok(())
}

/// Adds the mentions of registers in a block.
fn note_mentions<'a>(
    alloc: Global,
    table: &mut BTreeMap<&'a [u8], Vec<Mention>>,
    block: usize,
    occurrences: &[Occurrence<'a>],
) -> Result<(), NoMemory>
    ensures { OnOk result ((q : List ℕ) → mentions_in table.new q ≡ mentions_in table.old q ++ mentions q block (seen occurrences.now)) }
{
    for occurrence in occurrences {
        let mention = mention_at(block, occurrence);
        note_mention(alloc, table, occurrence.register.name.as_slice(), mention)?;
    }
    Ok(())
}

/// The mentions of each register in the blocks, in the order of the text.
pub fn mentions(alloc: Global, blocks: &[Block]) -> Result<BTreeMap<&[u8], Vec<Mention>>, NoMemory>
    ensures { IfOk result (λ table. (q : List ℕ) → mentions_in table q ≡ mentions_from q 0 (map block_events blocks.now)) }
{
    let mut table = BTreeMap::new(alloc);
    for (place, block) in blocks.iter().enumerate() {
        let mut occurrences = Vec::new(alloc);
        note_block(&mut occurrences, block)?;
        note_mentions(alloc, &mut table, place, &occurrences)?;
    }
    Ok(table)
}

/// The mentions of one register.
pub fn mentions_of<'t>(table: &'t BTreeMap<&[u8], Vec<Mention>>, register: &[u8]) -> &'t [Mention]
    ensures { result.now ≡ mentions_in table.now register.now }
{
    match table.get(register) {
        Some(mentions) => mentions.as_slice(),
        None => &[],
    }
}
