//! The search for the unassigned uses of one register.
ghost use Rattle.std.specs.Prelude.{◌≡◌, ◌<◌, false, length, replicate, All, Contains, IfOk};
ghost use Rattle.flow_paths.specs.Paths.{IsInside};
ghost use Rattle.ir_rules.specs.Least.{IsLeast};
ghost use Rattle.ir_assigned.specs.Mentions.{define, defined, mention_fault, scan, Found};

use crate::mentions::Mention;
use bsan_ids::{ListOf, NoMemory};
use ir_rules::{Fault, Rule, lesser_fault};
use std::alloc::Global;

/// Marks the block, where the register is defined there.
fn mark(marks: &mut Vec<bool>, mention: Mention)
    requires { mention.block < length marks.old.items }
    ensures { marks.new.items ≡ define marks.old.items mention }
{
    if mention.defines {
        marks[mention.block] = true;
    }
}

/// Which of the blocks define the register that has these mentions.
fn defining_blocks(
    alloc: Global,
    mentions: &[Mention],
    blocks: usize,
) -> Result<Vec<bool>, NoMemory>
    requires { All (λ m. m.block < blocks) mentions.now }
    ensures { IfOk result (λ marks. marks.items ≡ defined (replicate blocks false) mentions.now) }
{
    let mut marks = vec![in alloc; false; blocks]?;
    for mention in mentions {
        mark(&mut marks, *mention);
    }
    Ok(marks)
}

/// The fault of a use in a block that is entered, and that hasn't defined the register yet.
fn mention_fault(mention: Mention, entered: &[bool], marks: &[bool]) -> Option<Fault>
    requires entered { mention.block < length entered.now }
    requires marks { mention.block < length marks.now }
    ensures { result ≡ mention_fault entered.now marks.now mention }
{
    if !mention.defines && entered[mention.block] && !marks[mention.block] {
        Some(Fault {
            at: mention.at,
            rule: Rule::Unassigned,
        })
    } else {
        None
    }
}

/// The first of the uses before a definition in their block, in blocks that are entered.
fn early_use(
    alloc: Global,
    mentions: &[Mention],
    entered: &[bool],
) -> Result<Option<Fault>, NoMemory>
    requires { All (λ m. m.block < length entered.now) mentions.now }
    ensures { IfOk result (λ first. IsLeast (Contains (scan entered.now (replicate (length entered.now) false) mentions.now)) first) }
{
    let mut marks = vec![in alloc; false; entered.len()]?;
    let mut first = None;
    for mention in mentions {
        first = lesser_fault(first, mention_fault(*mention, entered, &marks));
        mark(&mut marks, *mention);
    }
    Ok(first)
}

/// The first unassigned use of the register that has these mentions.
pub fn search(
    alloc: Global,
    graph: &[ListOf<usize>],
    mentions: &[Mention],
) -> Result<Option<Fault>, NoMemory>
    requires some { 0 < length graph.now }
    requires inside { IsInside graph.now }
    requires within { All (λ m. m.block < length graph.now) mentions.now }
    ensures { IfOk result (λ first. Found graph.now mentions.now first) }
{
    let stops = defining_blocks(alloc, mentions, graph.len())?;
    let entered = flow_paths::entered(alloc, graph, &stops)?;
    early_use(alloc, mentions, &entered)
}
