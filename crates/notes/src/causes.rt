//! What led to a violation.
ghost use Rattle.std.specs.Prelude.{◌≡◌, ◌++◌, IfOk, OnOk, string_bytes};
ghost use Rattle.std.specs.Option.{option_copied};
ghost use Rattle.notes.specs.Meaning.{listing_meant};
ghost use Rattle.notes.specs.Causes as causes;

use crate::deeds::deed_phrase;
use crate::made::{number_of, push_node};
use crate::source::{Listing, push_note};
use bsan_ids::{NoMemory, Tag};
use eager_tree::Violation;
use explain::Explained;
use history::{Entry, Request, Verdict};
use perm_table::Perm;
use report::perm_name;
use std::alloc::{AllocError, Global};

/// The last change of the node's state, where it isn't the node's making.
fn later_change<'a>(maker: Option<&Entry>, changer: Option<&'a Entry>) -> Option<&'a Entry>
    ensures { option_copied result ≡ causes.later_change (option_copied maker.entry) (option_copied changer.entry) }
{
    match (maker, changer) {
        (Some(maker), Some(changer)) if maker.stamp.0 == changer.stamp.0 => None,
        _ => changer,
    }
}

fn made_phrase(change: Option<&Entry>) -> &'static str
    ensures { result.now ≡ causes.made_phrase (option_copied change.entry) }
{
    match change {
        None => "was made with this state",
        Some(_) => "was made",
    }
}

fn state_phrase(
    alloc: Global,
    node: Tag,
    perm: Perm,
    offset: u32,
    request: &Request,
) -> Result<String, AllocError>
    ensures { IfOk result (λ what. string_bytes what ≡ causes.state_phrase node perm offset request.now) }
{
    let node = node.0;
    let state = perm_name(perm);
    let deed = deed_phrase(alloc, "a ", request)?;
    format!(in alloc; "node {node} became {state} at byte {offset} by {deed},")
}

/// Adds the note of what gave a node its state at a byte, where that is given.
fn push_state(
    alloc: Global,
    listing: &Listing<'_>,
    what: (Tag, Perm, u32),
    change: Option<&Entry>,
    notes: &mut Vec<u8>,
) -> Result<(), NoMemory>
    ensures { OnOk result (notes.new.items ≡ notes.old.items
        ++ causes.state_note (listing_meant listing.now) what.0 what.1 what.2 (option_copied change.entry)) }
{
    let Some(change) = change else {
        return Ok(());
    };
    let (node, perm, offset) = what;
    let what = state_phrase(alloc, node, perm, offset, &change.request)?;
    push_note(alloc, listing, what.as_str(), change, notes)
}

/// Adds the notes on where a node was made, and what gave it its state at a byte.
fn push_node_notes(
    alloc: Global,
    listing: &Listing<'_>,
    what: (Tag, Perm, u32),
    explained: &Explained,
    notes: &mut Vec<u8>,
) -> Result<(), NoMemory>
    ensures { OnOk result (notes.new.items ≡ notes.old.items ++ causes.node_notes (listing_meant listing.now) what.0 what.1 what.2 explained.now) }
{
    let maker = explained.maker.as_ref();
    let change = later_change(maker, explained.changer.as_ref());
    push_node(alloc, listing, made_phrase(change), maker, notes)?;
    push_state(alloc, listing, what, change, notes)
}

fn freed_phrase(alloc: Global, step: &Entry) -> Result<String, AllocError>
    ensures { IfOk result (λ what. string_bytes what ≡ causes.freed_phrase step.now) }
{
    let number = number_of(step.alloc);
    format!(in alloc; "allocation {number} was freed")
}

/// Adds the note of where an allocation was freed, where that is given.
pub fn push_freed(
    alloc: Global,
    listing: &Listing<'_>,
    step: Option<&Entry>,
    notes: &mut Vec<u8>,
) -> Result<(), NoMemory>
    ensures { OnOk result (notes.new.items ≡ notes.old.items ++ causes.freed_note (listing_meant listing.now) (option_copied step.entry)) }
{
    let Some(step) = step else {
        return Ok(());
    };
    let what = freed_phrase(alloc, step)?;
    push_note(alloc, listing, what.as_str(), step, notes)
}

/// Adds the notes on what led to a violation: on the node that denies the step, or on the free before it.
pub fn push_causes(
    alloc: Global,
    listing: &Listing<'_>,
    explained: &Explained,
    notes: &mut Vec<u8>,
) -> Result<(), NoMemory>
    ensures { OnOk result (notes.new.items ≡ notes.old.items
        ++ causes.cause_notes (listing_meant listing.now) explained.now.violation.reply.verdict explained.now) }
{
    match explained.violation.reply.verdict {
        Verdict::Violated(
            Violation::Denied {
                offset,
                node,
                perm,
                ..
            }
            | Violation::StrongFree { offset, node, perm },
        ) => push_node_notes(alloc, listing, (node, perm, offset), explained, notes),
        Verdict::Violated(Violation::Freed) => {
            push_freed(alloc, listing, explained.changer.as_ref(), notes)
        }
        _ => Ok(()),
    }
}
