//! The text of the explanations of a run.
ghost use Rattle.std.specs.Prelude.{◌≡◌, ◌++◌, All, IfOk, MatchOption, OnOk};
ghost use Rattle.std.specs.List.{flat_map};
ghost use Rattle.history.specs.Records.{HasDistinctStamps};
ghost use Rattle.report.specs.Violation.{IsDescribable};
ghost use Rattle.explain.specs.Explanations.{AreExplained, AreHistories};
ghost use Rattle.explain.specs.Text.{IsTellable, IsWritable, cause_line, deed_of, node_lines, place_word};
ghost use Rattle.explain.specs.Text as text;

use crate::explained::Explained;
use bsan_ids::{NoMemory, Tag};
use eager_tree::Violation;
use history::{Entry, Request, RunRecord, Verdict};
use ir_ast::Place;
use perm_table::Perm;
use report::{part, perm_name, violation_line, what};
use std::alloc::Global;

/// Where an allocation lies.
fn place_word(place: Place) -> &'static str
    ensures { result.now ≡ place_word place }
{
    match place {
        Place::Stack => "stack",
        Place::Heap => "heap",
    }
}

/// What an entry did to its allocation.
fn deed(alloc: Global, entry: &Entry) -> Result<Vec<u8>, NoMemory>
    requires { IsTellable entry.now }
    ensures { IfOk result (λ words. words.items ≡ deed_of entry.now entry.now.request) }
{
    match entry.request {
        Request::Make { size, place } => {
            let word = place_word(place);
            Ok(format!(in alloc; "make {size} {word}")?.into_bytes())
        }
        _ => what(alloc, entry, true),
    }
}

/// Adds the line of a cause, where there is one.
fn push_cause(
    alloc: Global,
    start: &str,
    cause: &Option<Entry>,
    lines: &mut Vec<u8>,
) -> Result<(), NoMemory>
    requires { MatchOption cause.now (Unit {0}) IsTellable }
    ensures { OnOk result (lines.new.items ≡ lines.old.items ++ cause_line start.now cause.now) }
{
    let Some(entry) = cause else {
        return Ok(());
    };
    let thread = entry.thread.0;
    let site = entry.site;
    let stamp = entry.stamp.0;
    let place = format!(in alloc; "{start} thread {thread} at instruction {site}, step {stamp}: ")?;
    lines.extend_from_slice(place.as_bytes())?;
    lines.extend_from_slice(&deed(alloc, entry)?)?;
    lines.push(b'\n')?;
    Ok(())
}

/// Adds the lines on a node that a violation names.
fn push_node(
    alloc: Global,
    node: Tag,
    perm: Perm,
    explained: &Explained,
    lines: &mut Vec<u8>,
) -> Result<(), NoMemory>
    requires maker { MatchOption explained.now.maker (Unit {0}) IsTellable }
    requires changer { MatchOption explained.now.changer (Unit {0}) IsTellable }
    ensures { OnOk result (lines.new.items ≡ lines.old.items ++ node_lines node perm explained.now) }
{
    let tag = node.0;
    let made = format!(in alloc; "  node {tag} made by")?;
    push_cause(alloc, made.as_str(), &explained.maker, lines)?;
    let name = perm_name(perm);
    let since = format!(in alloc; "  state {name} since")?;
    push_cause(alloc, since.as_str(), &explained.changer, lines)
}

fn push_stranger(alloc: Global, violation: &Entry, lines: &mut Vec<u8>) -> Result<(), NoMemory>
    requires { IsDescribable violation.now }
    ensures { OnOk result (lines.new.items ≡ lines.old.items ++ text.stranger_line violation.now) }
{
    let Some(number) = violation.alloc else {
        unreachable!()
    };
    let number = number.0;
    let line = format!(in alloc; "  no node of allocation {number} is named\n")?;
    lines.extend_from_slice(line.as_bytes())?;
    Ok(())
}

/// Adds the lines on the causes of a violation.
fn push_causes(alloc: Global, explained: &Explained, lines: &mut Vec<u8>) -> Result<(), NoMemory>
    requires violation { IsDescribable explained.now.violation }
    requires maker { MatchOption explained.now.maker (Unit {0}) IsTellable }
    requires changer { MatchOption explained.now.changer (Unit {0}) IsTellable }
    ensures { OnOk result (lines.new.items ≡ lines.old.items ++ text.cause_lines explained.now.violation.reply.verdict explained.now) }
{
    match explained.violation.reply.verdict {
        Verdict::Violated(
            Violation::Denied { node, perm, .. } | Violation::StrongFree { node, perm, .. },
        ) => push_node(alloc, node, perm, explained, lines),
        Verdict::Violated(Violation::Freed) => {
            push_cause(alloc, "  allocation freed by", &explained.changer, lines)
        }
        Verdict::Violated(Violation::OutOfRange) => {
            push_cause(alloc, "  allocation made by", &explained.maker, lines)
        }
        Verdict::Violated(Violation::Stranger) => {
            push_stranger(alloc, &explained.violation, lines)
        }
        Verdict::Clean | Verdict::Closed => Ok(()),
    }
}

/// Adds the line of a violation and those on its causes.
fn push_explained(alloc: Global, explained: &Explained, lines: &mut Vec<u8>) -> Result<(), NoMemory>
    requires { IsWritable explained.now }
    ensures { OnOk result (lines.new.items ≡ lines.old.items ++ text.explained_lines explained.now) }
{
    let line = violation_line(alloc, &explained.violation)?;
    lines.extend_from_slice(&line)?;
    push_causes(alloc, explained, lines)
}

fn all_lines(alloc: Global, list: &[Explained]) -> Result<Vec<u8>, NoMemory>
    requires { All IsWritable list.now }
    ensures { IfOk result (λ lines. lines.items ≡ flat_map text.explained_lines list.now) }
{
    let mut lines = Vec::new(alloc);
    for explained in list {
        push_explained(alloc, explained, &mut lines)?;
    }
    Ok(lines)
}

/// For each violation its line and the lines on what led to it; then the threads' ends, the summary and
/// the status, as a report has them. Each line has its newline.
///
/// The log of each allocation has to be a legal history, no stamp may stand twice, and the list has to
/// be the explanations of the record.
///
/// # Errors
///
/// `NoMemory`: out of memory.
pub fn explain_text(
    alloc: Global,
    kept: &RunRecord,
    list: &[Explained],
) -> Result<Vec<u8>, NoMemory>
    requires histories { AreHistories kept.now.allocs }
    requires distinct { HasDistinctStamps kept.now }
    requires list { AreExplained kept.now list.now }
    ensures { IfOk result (λ bytes. bytes.items ≡ text.explain_text kept.now list.now) }
{
    let mut lines = all_lines(alloc, list)?;
    lines.extend_from_slice(&part(alloc, kept, 3)?)?;
    lines.extend_from_slice(&part(alloc, kept, 4)?)?;
    lines.extend_from_slice(&part(alloc, kept, 5)?)?;
    Ok(lines)
}
