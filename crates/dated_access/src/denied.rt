//! The first denial of an access on a span.
ghost use Rattle.std.specs.Prelude.{◌≡◌, ℕ, ◌+◌, ◌*◌, ◌<◌, ◌≤◌, None, [], length, vec_capacity};
ghost use Rattle.dated_tree.specs.Kept.{IsSound};
ghost use Rattle.dated_access.specs.Path.{IsPathTo};
ghost use Rattle.dated_access.specs.Change.{AreOthers};
ghost use Rattle.dated_access.specs.Denied.{lesser as lesser_of, FindsLeast, FindsFirstOn};
ghost use Rattle.dated_access.specs.Pieces.{pieces, visited, piece_start, ArePieces};

use crate::denial::{Found, denial_of_others, denial_on_path};
use crate::pieces::piece_end;
use bsan_ids::Span;
use dated_tree::DatedTree;
use perm_table::{Kind, Perm};

/// A denial: the byte, the node, its state there, and whether the access is local to it.
#[derive(Clone, Copy)]
pub struct Denial {
    pub offset: u32,
    pub place: usize,
    pub perm: Perm,
    pub local: bool,
}

/// An access through a node, of a kind, on a span.
#[derive(Clone, Copy)]
pub struct Access {
    pub node: usize,
    pub span: Span,
    pub kind: Kind,
}

/// A denial at a byte.
fn denial_by(at: u32, local: bool, found: Found) -> Denial
    ensures { result ≡ record { offset = at; place = found.place; perm = found.perm; local = local } }
{
    Denial {
        offset: at,
        place: found.place,
        perm: found.perm,
        local,
    }
}

/// Of two denials at a byte, on the path and off it, the one of the lesser place.
fn lesser(at: u32, local: Option<Found>, foreign: Option<Found>) -> Option<Denial>
    ensures { result ≡ lesser_of at local foreign }
{
    match (local, foreign) {
        (None, None) => None,
        (Some(here), None) => Some(denial_by(at, true, here)),
        (None, Some(other)) => Some(denial_by(at, false, other)),
        (Some(here), Some(other)) => {
            if here.place < other.place {
                Some(denial_by(at, true, here))
            } else {
                Some(denial_by(at, false, other))
            }
        }
    }
}

/// Of the nodes that deny an access through `x` at a byte the one of the least place.
fn denial_at(
    tree: &mut DatedTree,
    x: usize,
    path: &[usize],
    others: &[usize],
    at: u32,
    kind: Kind,
) -> Option<Denial>
    requires sound { IsSound tree.old }
    requires within { at < tree.old.size }
    requires path { IsPathTo tree.old.nodes x path.now }
    requires others { AreOthers tree.old x others.now }
    ensures tree { tree.new ≡ record tree.old { visits = tree.new.visits } }
    ensures found { FindsLeast tree.old x kind at result }
    ensures visits { tree.new.visits ≤ tree.old.visits + visited path.now others.now }
{
    // the node is named for the caller's sake alone
    let _ = x;
    let local = denial_on_path(tree, path, at, kind);
    let foreign = denial_of_others(tree, others, at, kind);
    lesser(at, local, foreign)
}

/// The first denial of an access. Where there is none, the ends of the pieces of its span are put into
/// an empty list with room for them.
pub fn first_denial(
    tree: &mut DatedTree,
    access: Access,
    path: &[usize],
    others: &[usize],
    ends: &mut Vec<u32>,
) -> Option<Denial>
    requires sound { IsSound tree.old }
    requires bytes { 1 ≤ access.span.len }
    requires within { access.span.start + access.span.len ≤ tree.old.size }
    requires path { IsPathTo tree.old.nodes access.node path.now }
    requires others { AreOthers tree.old access.node others.now }
    requires empty { ends.old.items ≡ [] }
    requires room { pieces tree.old path.now others.now access.span ≤ vec_capacity ends.old }
    ensures tree { tree.new ≡ record tree.old { visits = tree.new.visits } }
    ensures capacity { vec_capacity ends.new ≡ vec_capacity ends.old }
    ensures found { FindsFirstOn tree.old access.node access.span access.kind result }
    ensures pieces { ArePieces tree.old path.now others.now access.span.start ends.new.items }
    ensures whole { result ≡ None → piece_start access.span.start ends.new.items (length ends.new.items) ≡ access.span.start + access.span.len }
    ensures count { length ends.new.items ≤ pieces tree.old path.now others.now access.span }
    ensures visits { tree.new.visits ≤ tree.old.visits + pieces tree.old path.now others.now access.span * visited path.now others.now }
{
    let _size = tree.size();
    let end = access.span.start + access.span.len;
    let mut at = access.span.start;
    'pieces: while at < end {
        let found = denial_at(tree, access.node, path, others, at, access.kind);
        if found.is_some() {
            return found;
        }
        at = piece_end(tree, path, others, at, end);
        ends.push_reserved(at);
    }
    None
}
