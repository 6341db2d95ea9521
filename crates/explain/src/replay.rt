//! The tree of an allocation, while the entries before its first violation are replayed.
ghost use Rattle.std.specs.Prelude.{◌≡◌, ◌<◌, All, IsTrue, MatchOption, OnOk, Some};
ghost use Rattle.std.specs.Option.{option_map};
ghost use Rattle.eager_tree.specs.Tree.{is_node};
ghost use Rattle.history.specs.Histories.{fits};
ghost use Rattle.history.specs.Merge.{stamp_of};
ghost use Rattle.lazy_tree.specs.Eager.{eager_of};
ghost use Rattle.lazy_access.specs.Ready.{Fits};
ghost use Rattle.alloc_state.specs.Asking.{asker, asks_on, told};
ghost use Rattle.explain.specs.Replays as replays;
ghost use Rattle.explain.specs.Replays.{IsAskable, MayAdvance, advanced, perm_of, tag_of, tree_told, unmade_tree};

use bsan_ids::{NoMemory, Prov, Span, Tag};
use history::{Entry, Plain, Request};
use lazy_access::{TreeRequest, access, end_protector, free_all, prepare, retag};
use lazy_tree::LazyTree;
use perm_table::{Kind, Perm};
use std::alloc::Global;
use std::marker::Model;

/// The tree of an allocation once it is made, and whether the allocation is live.
#[derive(Drop)]
pub struct Replay {
    tree: Option<LazyTree>,
    live: bool,
}

impl Model for Replay {
    ghost use Rattle.std.specs.Option.{option_map};
    ghost use Rattle.lazy_tree.specs.Eager.{eager_of};
    ghost use Rattle.explain.specs.Replays.{Grown};

    ghost Value = { Grown };

    ghost view = { λ r. record { tree = option_map eager_of r.tree; live = r.live } };
}

fn traps(entry: &Entry) -> bool
    ensures { result ≡ replays.traps entry.now }
{
    matches!(entry.reply.plain, Plain::Trapped(_))
}

/// Whether the step freed its allocation.
pub fn frees(entry: &Entry) -> bool
    ensures { result ≡ replays.frees entry.now }
{
    matches!(entry.request, Request::Free { .. }) && matches!(entry.reply.plain, Plain::Done)
}

/// An access through the node of a provenance.
fn access_through(prov: Option<Prov>, at: u32, len: u32, kind: Kind) -> Option<TreeRequest>
    ensures { result ≡ option_map (λ p. asks_on (Some (record { start = at; len = len })) kind p.tag) prov }
{
    let tag = prov?.tag;
    let span = Span { start: at, len };
    Some(TreeRequest::Access { tag, span, kind })
}

/// What a request asks of the tree of its allocation, where it is asked.
fn request_of(request: &Request, live: bool, tree: &LazyTree) -> Option<TreeRequest>
    requires { IsTrue (fits request.now) }
    ensures { result ≡ replays.asked_by live (eager_of tree.now) request.now }
{
    match request {
        Request::EndProtector { tag } => {
            if live && tree.has(*tag) {
                Some(TreeRequest::EndProtector { tag: *tag })
            } else {
                None
            }
        }
        Request::Retag {
            at,
            len,
            kind,
            guard,
            prov,
        } => {
            let parent = (*prov)?.tag;
            Some(TreeRequest::Retag {
                parent,
                span: Span {
                    start: *at,
                    len: *len,
                },
                kind: *kind,
                guard: *guard,
            })
        }
        Request::Load { at, ty, prov } => access_through(*prov, *at, ty.bytes(), Kind::Read),
        Request::Store { at, ty, prov, .. } => {
            access_through(*prov, *at, ty.bytes(), Kind::Write)
        }
        Request::Modify {
            at,
            width,
            prov,
            ..
        }
        | Request::CmpXchg {
            at,
            width,
            prov,
            ..
        } => access_through(*prov, *at, width.bytes(), Kind::Write),
        Request::CopyOut { at, len, prov } => {
            access_through(*prov, *at, u32::from(*len), Kind::Read)
        }
        Request::CopyIn { at, piece, prov } => {
            access_through(*prov, *at, piece.len() as u32, Kind::Write)
        }
        Request::Free { prov, .. } => {
            let tag = (*prov)?.tag;
            Some(TreeRequest::FreeAll { tag })
        }
        Request::Make { .. }
        | Request::Print { .. }
        | Request::Host { .. }
        | Request::Spawn { .. }
        | Request::Join { .. } => None,
    }
}

/// Asks the tree, of which a further node has the tag `new`.
fn ask(tree: &mut LazyTree, request: TreeRequest, new: Tag) -> Result<(), NoMemory>
    requires node { IsTrue (is_node (eager_of tree.old) (asker request)) }
    requires fits { Fits tree.old.size request }
    requires newest { All (λ n. n.tag.0 < new.0) (eager_of tree.old).nodes }
    ensures { OnOk result (eager_of tree.new ≡ (told (eager_of tree.old) request new).1) }
{
    prepare(tree, &request)?;
    let _denied = match request {
        TreeRequest::Access { tag, span, kind } => access(tree, tag, span, kind),
        TreeRequest::Retag {
            parent,
            span,
            kind,
            guard,
        } => retag(tree, parent, span, kind, guard, new),
        TreeRequest::EndProtector { tag } => end_protector(tree, tag),
        TreeRequest::FreeAll { tag } => free_all(tree, tag),
    };
    Ok(())
}

/// Does in the tree of a live or a freed allocation what a clean step did in it.
fn grow(tree: &mut LazyTree, live: bool, entry: &Entry) -> Result<(), NoMemory>
    requires asks { MatchOption (replays.asked live (eager_of tree.old) entry.now) (Unit {0}) (IsAskable (eager_of tree.old)) }
    requires newest { All (λ n. n.tag.0 < stamp_of entry.now) (eager_of tree.old).nodes }
    requires fitting { IsTrue (fits entry.now.request) }
    ensures { OnOk result (eager_of tree.new ≡ tree_told (eager_of tree.old) (tag_of entry.now) (replays.asked live (eager_of tree.old) entry.now)) }
{
    if traps(entry) {
        return Ok(());
    }
    match request_of(&entry.request, live, tree) {
        Some(request) => ask(tree, request, Tag(entry.stamp.0)),
        None => Ok(()),
    }
}

impl Replay {
    /// An allocation that isn't made.
    pub fn new() -> Replay
        ensures { result ≡ unmade_tree }
    {
        Replay {
            tree: None,
            live: false,
        }
    }

    /// Takes the next entry, whose verdict is clean.
    ///
    /// # Errors
    ///
    /// `NoMemory`: out of memory.
    pub fn advance(&mut self, alloc: Global, entry: &Entry) -> Result<(), NoMemory>
        requires may { MayAdvance self.old entry.now }
        requires fitting { IsTrue (fits entry.now.request) }
        ensures { OnOk result (self.new ≡ advanced self.old entry.now) }
    {
        if let Request::Make { size, .. } = entry.request {
            self.tree = Some(LazyTree::new(alloc, Tag(entry.stamp.0), size));
            self.live = true;
            return Ok(());
        }
        if let Some(tree) = &mut self.tree {
            grow(tree, self.live, entry)?;
        }
        self.live = self.live && !frees(entry);
        Ok(())
    }

    /// The state of a node at a byte, where the tree has this node and this byte.
    pub fn perm(&mut self, node: Tag, at: u32) -> Option<Perm>
        ensures perm { result ≡ perm_of self.old node at }
        ensures same { self.new ≡ self.old }
    {
        match &mut self.tree {
            Some(tree) => tree.state(node, at).map(|(perm, _)| perm),
            None => None,
        }
    }
}
