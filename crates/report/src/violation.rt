//! The line of a violation.
ghost use Rattle.std.specs.Prelude.{◌≡◌, IfOk, IsTrue, string_bytes};
ghost use Rattle.history.specs.Records.{violates};
ghost use Rattle.history.specs.Restriction.{number_of};
ghost use Rattle.report.specs.Violation.{IsDescribable, what_text, node_text, why_text};
ghost use Rattle.report.specs.Violation as lines;

use crate::step::{operation, provenance};
use crate::words::perm_name;
use bsan_ids::{AllocNo, NoMemory, Tag};
use eager_tree::Violation;
use history::{Entry, Verdict};
use perm_table::Perm;
use std::alloc::{AllocError, Global};

fn number_of(entry: &Entry) -> AllocNo
    requires { IsDescribable entry.now }
    ensures { result.0 ≡ number_of entry.now.alloc }
{
    match entry.alloc {
        Some(number) => number,
        None => unreachable!(),
    }
}

fn what_string(alloc: Global, entry: &Entry, with_tag: bool) -> Result<String, AllocError>
    requires { IsDescribable entry.now }
    ensures { IfOk result (λ text. string_bytes text ≡ what_text with_tag entry.now) }
{
    let mut text = operation(alloc, &entry.request)?;
    if with_tag {
        text.push_str(provenance(alloc, number_of(entry), &entry.request)?.as_str())?;
    }
    Ok(text)
}

/// The operation of an entry on its allocation, as `write 0..8`, and, where `through` is true,
/// through which pointer, as ` through tag 3`.
///
/// The request has to be an operation on an allocation, which the entry names.
///
/// # Errors
///
/// `NoMemory`: out of memory.
pub fn what(alloc: Global, entry: &Entry, through: bool) -> Result<Vec<u8>, NoMemory>
    requires { IsDescribable entry.now }
    ensures { IfOk result (λ text. text.items ≡ what_text through entry.now) }
{
    Ok(what_string(alloc, entry, through)?.into_bytes())
}

fn node(alloc: Global, kind: &str, node: Tag, perm: Perm, offset: u32) -> Result<String, AllocError>
    ensures { IfOk result (λ text. string_bytes text ≡ node_text kind.now node.0 perm offset) }
{
    let tag = node.0;
    let name = perm_name(perm);
    format!(in alloc; "{kind}node {tag} is {name} at byte {offset}")
}

fn why(alloc: Global, violation: Violation) -> Result<String, AllocError>
    ensures { IfOk result (λ text. string_bytes text ≡ why_text violation) }
{
    match violation {
        Violation::Denied {
            offset,
            node: tag,
            perm,
            local: true,
        } => node(alloc, "", tag, perm, offset),
        Violation::Denied {
            offset,
            node: tag,
            perm,
            local: false,
        } => node(alloc, "protected ", tag, perm, offset),
        Violation::StrongFree {
            offset,
            node: tag,
            perm,
        } => node(alloc, "strongly protected ", tag, perm, offset),
        Violation::Stranger => format!(in alloc; "stranger"),
        Violation::Freed => format!(in alloc; "freed"),
        Violation::OutOfRange => format!(in alloc; "out of range"),
    }
}

fn reason(alloc: Global, entry: &Entry) -> Result<String, AllocError>
    requires { IsTrue (violates entry.now) }
    ensures { IfOk result (λ text. string_bytes text ≡ lines.reason_text entry.now.reply.verdict) }
{
    match entry.reply.verdict {
        Verdict::Violated(violation) => why(alloc, violation),
        Verdict::Clean | Verdict::Closed => unreachable!(),
    }
}

fn place(alloc: Global, entry: &Entry) -> Result<String, AllocError>
    requires { IsDescribable entry.now }
    ensures { IfOk result (λ text. string_bytes text ≡ lines.place_text entry.now) }
{
    let number = number_of(entry).0;
    let thread = entry.thread.0;
    let site = entry.site;
    let stamp = entry.stamp.0;
    format!(in alloc;
        "violation on allocation {number} by thread {thread} at instruction {site}, step {stamp}"
    )
}

/// The line of a violation as text, with its newline.
pub fn violation_string(alloc: Global, entry: &Entry) -> Result<String, AllocError>
    requires described { IsDescribable entry.now }
    requires violation { IsTrue (violates entry.now) }
    ensures { IfOk result (λ line. string_bytes line ≡ lines.violation_line entry.now) }
{
    let place = place(alloc, entry)?;
    let what = what_string(alloc, entry, true)?;
    let reason = reason(alloc, entry)?;
    format!(in alloc; "{place}: {what}: {reason}\n")
}

/// The line of a violation, with its newline.
///
/// The entry's verdict has to be a violation, its request an operation on an allocation, which the
/// entry names.
///
/// # Errors
///
/// `NoMemory`: out of memory.
pub fn violation_line(alloc: Global, entry: &Entry) -> Result<Vec<u8>, NoMemory>
    requires described { IsDescribable entry.now }
    requires violation { IsTrue (violates entry.now) }
    ensures { IfOk result (λ line. line.items ≡ lines.violation_line entry.now) }
{
    Ok(violation_string(alloc, entry)?.into_bytes())
}
