//! Second definitions.
ghost use Rattle.std.specs.Prelude.{◌≡◌, ℕ, List, IfOk, OnOk, map};
ghost use Rattle.std.specs.Str.{bytes_eq};
ghost use Rattle.ir_rules.specs.Least.{IsLeast};
ghost use Rattle.ir_rules.specs.Rules.{defined};
ghost use Rattle.ir_rules.specs.Seen.{seen};
ghost use Rattle.ir_verify.specs.Faults.{TwiceFault};
ghost use Rattle.ir_verify.specs.Counts.{next_times, one_more, times_in, twice_fault};

use ir_ast::Named;
use ir_rules::{Fault, Occurrence, Role, Rule, lesser_fault};
use std::alloc::{AllocError, Global};
use std::collections::BTreeMap;

/// How often a name stood so far: once, or more often. A name that didn't stand has no entry.
#[derive(Clone, Copy)]
enum Times {
    Once,
    More,
}

fn next_times(known: bool) -> Times
    ensures { result ≡ next_times known }
{
    if known { Times::More } else { Times::Once }
}

/// Counts a name once more.
fn count<'a>(table: &mut BTreeMap<&'a [u8], Times>, name: &'a [u8]) -> Result<(), AllocError>
    ensures { OnOk result ((q : List ℕ) → times_in table.new q ≡ one_more (times_in table.old q) (bytes_eq q name.now)) }
{
    let known = table.contains_key(name);
    let times = next_times(known);
    table.insert(name, times)?;
    Ok(())
}

/// A second definition, where the name stood once before.
fn twice_fault(table: &BTreeMap<&[u8], Times>, named: &Named) -> Option<Fault>
    ensures { result ≡ twice_fault (times_in table.now named.now.name) named.now }
{
    match table.get(named.name.as_slice()) {
        Some(Times::Once) => Some(Fault {
            at: named.at,
            rule: Rule::Twice,
        }),
        Some(Times::More) | None => None,
    }
}

/// The first second definition among these names.
pub fn second_definitions<'a>(
    alloc: Global,
    names: &[&'a Named],
) -> Result<Option<Fault>, AllocError>
    ensures { IfOk result (λ o. IsLeast (TwiceFault (map (λ r. r.now) names.now)) o) }
{
    let mut table = BTreeMap::new(alloc);
    let mut first = None;
    for named in names {
        first = lesser_fault(first, twice_fault(&table, named));
        count(&mut table, named.name.as_slice())?;
    }
    Ok(first)
}

/// The registers that are defined, in the order of the text.
pub fn definitions<'a>(
    alloc: Global,
    occurrences: &[Occurrence<'a>],
) -> Result<Vec<&'a Named>, AllocError>
    ensures { IfOk result (λ v. map (λ r. r.now) v.items ≡ defined (seen occurrences.now)) }
{
    let mut names = Vec::new(alloc);
    for occurrence in occurrences {
        match occurrence.role {
            Role::Defines(_) => names.push(occurrence.register)?,
            Role::Uses(_) => {}
        }
    }
    Ok(names)
}
