//! A made allocation.
ghost use Rattle.std.specs.Prelude.{IfOk, IfSome, OnOk, OnErr, ◌≡◌, ◌≤◌, ◌<◌, All, IsTrue, List, [], Some, None, false, length};
ghost use Rattle.eager_tree.specs.Tree.{new_tree};
ghost use Rattle.lazy_tree.specs.Eager.{eager_of};
ghost use Rattle.history.specs.Pieces.{Byte};
ghost use Rattle.history.specs.Objects.{answer, node_through};
ghost use Rattle.history.specs.Histories.{fits, is_make};
ghost use Rattle.history.specs.Memory.{trap_in};
ghost use Rattle.history.specs.Fragments.{piece_at};
ghost use Rattle.history.specs.declared.entry.Request.TheVariants.{CopyOut as CopyOutRequest};
ghost use Rattle.alloc_state.specs.Outcomes.{reply_with, HasBytesOut};
ghost use Rattle.alloc_state.specs.Asking.{asked, asked_reborrow, asks_on, asks_through, judged_as, MayAsk};
ghost use Rattle.alloc_state.specs.Counted.{IsCounted, IsRoomTaken};
ghost use Rattle.alloc_state.specs.MadeValues.{made_of, object_of, judged_of, IsPrepared, KeepsPrepared, IsStepCounted};

use crate::outcome::{Outcome, Seen};
use crate::plain_mem::PlainMem;
use crate::tree_steps::ask;
use bsan_ids::{AllocNo, NoMemory, Prov, Span, Stamp, Tag};
use eager_tree::Violation;
use history::{Piece, Request, Verdict};
use lazy_access::TreeRequest;
use lazy_tree::LazyTree;
use perm_table::{Guard, Kind, RetagKind};
use std::alloc::Global;
use std::marker::Model;

/// A made allocation.
///
/// Plain memory comes first: a request that traps changes nothing. Whatever the tree then says, the
/// data are read, written or freed. The first violation closes the tree, which judges nothing from then
/// on.
#[derive(Drop)]
pub struct MadeState {
    plain: PlainMem,
    tree: LazyTree,
    closed: bool,
}

impl Model for MadeState {
    ghost use Rattle.std.specs.Prelude.{◌≡◌, length};
    ghost use Rattle.alloc_state.specs.MadeValues.{MadeValue};

    ghost Value = { MadeValue };

    ghost view = { λ s. record { plain = s.plain; tree = s.tree; closed = s.closed } };

    ghost invariant = { λ s. length s.plain.memory.bytes ≡ s.tree.size };
}

/// So many bytes from a place on.
fn bytes(start: u32, len: u32) -> Span
    ensures { result ≡ record { start = start; len = len } }
{
    Span { start, len }
}

impl MadeState {
    /// An allocation with this memory, whose tree is its root alone. It takes no memory.
    pub fn new(alloc: Global, plain: PlainMem, root: Tag) -> MadeState
        requires { 1 ≤ length plain.memory.bytes }
        ensures plain { result.plain ≡ plain }
        ensures tree { eager_of result.tree ≡ new_tree (length plain.memory.bytes) root }
        ensures closed { result.closed ≡ false }
        ensures nodes { result.tree.nodes ≡ [] }
    {
        let size = plain.size();
        MadeState {
            plain,
            tree: LazyTree::new(alloc, root, size),
            closed: false,
        }
    }

    /// The tree.
    pub fn tree(&self) -> &LazyTree
        ensures { result.now ≡ self.now.tree }
    {
        &self.tree
    }

    /// The bytes from `at` on with their fragments, at most 32. They are none where a copy of them
    /// traps.
    ///
    /// # Errors
    ///
    /// `NoMemory`: out of memory.
    pub fn piece(&self, alloc: Global, at: u32, len: u8) -> Result<Piece, NoMemory>
        requires few { len ≤ 32 }
        ensures { IfOk result (λ piece. trap_in (made_of self.now).memory (CopyOutRequest at len None) ≡ None → piece ≡ piece_at (made_of self.now).memory (made_of self.now).shadow at len) }
    {
        self.plain.piece(alloc, at, len)
    }

    /// Takes all memory that `step` needs for a request, and answers what the request asks the tree, or
    /// the verdict on it where the tree isn't asked.
    ///
    /// # Errors
    ///
    /// `NoMemory`: out of memory. The allocation is as before, and what was prepared stays so.
    pub fn prepare(
        &mut self,
        number: AllocNo,
        request: &Request,
    ) -> Result<Result<TreeRequest, Verdict>, NoMemory>
        requires { IsTrue (fits request.now) }
        ensures ok { OnOk result (IsPrepared number.0 self.new request.now) }
        ensures asks { IfOk result (λ asks. asks ≡ asked number.0 (made_of self.new) request.now) }
        ensures err { OnErr result (KeepsPrepared number.0 self.old self.new) }
        ensures made { made_of self.new ≡ made_of self.old }
        ensures taken { IsRoomTaken self.old.tree self.new.tree (asked number.0 (made_of self.old) request.now) }
    {
        self.plain.reserve(request)?;
        let asks = self.asks(number, request);
        if let Ok(asked) = &asks {
            lazy_access::prepare(&mut self.tree, asked)?;
        }
        Ok(asks)
    }

    // Tells the caller's proof that the tree has as many bytes as there are. Nothing is done.
    fn sizes(&self)
        ensures { length self.now.plain.memory.bytes ≡ self.now.tree.size }
    {
        // read, so that the proof knows what the allocation's type keeps
        let _ = &self.tree;
    }

    // The node through which a provenance may use this allocation. Without one it is a stranger's.
    fn node(&self, number: AllocNo, prov: Option<Prov>) -> Option<Tag>
        ensures { result ≡ node_through number.0 (eager_of self.now.tree) prov }
    {
        match prov {
            Some(prov) if prov.alloc == number && self.tree.has(prov.tag) => Some(prov.tag),
            _ => None,
        }
    }

    // An access through a provenance, as the tree is asked for it.
    fn access(
        &self,
        number: AllocNo,
        prov: Option<Prov>,
        span: Span,
        kind: Kind,
    ) -> Result<TreeRequest, Verdict>
        ensures { result ≡ asks_through (node_through number.0 (eager_of self.now.tree) prov) (asks_on (Some span) kind) }
    {
        match self.node(number, prov) {
            Some(tag) => Ok(TreeRequest::Access { tag, span, kind }),
            None => Err(Verdict::Violated(Violation::Stranger)),
        }
    }

    // A reborrow through a provenance, as the tree is asked for it.
    fn reborrow(
        &self,
        number: AllocNo,
        prov: Option<Prov>,
        span: Span,
        kind: RetagKind,
        guard: Guard,
    ) -> Result<TreeRequest, Verdict>
        ensures { result ≡ asked_reborrow number.0 (made_of self.now) (record { span = span; kind = kind; guard = guard; prov = prov }) }
    {
        if !self.plain.is_live() {
            return Err(Verdict::Violated(Violation::Freed));
        }
        let size = self.plain.size();
        if span.start > size || span.len > size - span.start {
            return Err(Verdict::Violated(Violation::OutOfRange));
        }
        match self.node(number, prov) {
            Some(parent) => Ok(TreeRequest::Retag {
                parent,
                span,
                kind,
                guard,
            }),
            None => Err(Verdict::Violated(Violation::Stranger)),
        }
    }

    // The free of the allocation through a provenance, as the tree is asked for it.
    fn free(&self, number: AllocNo, prov: Option<Prov>) -> Result<TreeRequest, Verdict>
        ensures { result ≡ asks_through (node_through number.0 (eager_of self.now.tree) prov) (asks_on None Kind.Write) }
    {
        match self.node(number, prov) {
            Some(tag) => Ok(TreeRequest::FreeAll { tag }),
            None => Err(Verdict::Violated(Violation::Stranger)),
        }
    }

    // What a request asks the tree, or the verdict on it where the tree isn't asked.
    fn asks(&self, number: AllocNo, request: &Request) -> Result<TreeRequest, Verdict>
        ensures { result ≡ asked number.0 (made_of self.now) request.now }
    {
        if self.closed {
            return Err(Verdict::Closed);
        }
        match request {
            Request::Retag {
                at,
                len,
                kind,
                guard,
                prov,
            } => self.reborrow(number, *prov, bytes(*at, *len), *kind, *guard),
            Request::EndProtector { tag } => {
                if self.plain.is_live() && self.tree.has(*tag) {
                    Ok(TreeRequest::EndProtector { tag: *tag })
                } else {
                    Err(Verdict::Clean)
                }
            }
            Request::Load { at, ty, prov } => {
                self.access(number, *prov, bytes(*at, ty.bytes()), Kind::Read)
            }
            Request::Store { at, ty, prov, .. } => {
                self.access(number, *prov, bytes(*at, ty.bytes()), Kind::Write)
            }
            Request::Modify {
                at,
                width,
                prov,
                ..
            }
            | Request::CmpXchg {
                at,
                width,
                prov,
                ..
            } => self.access(number, *prov, bytes(*at, width.bytes()), Kind::Write),
            Request::CopyOut { at, len, prov } => {
                self.access(number, *prov, bytes(*at, u32::from(*len)), Kind::Read)
            }
            Request::CopyIn { at, piece, prov } => {
                self.access(number, *prov, bytes(*at, piece.len() as u32), Kind::Write)
            }
            Request::Free { prov, .. } => self.free(number, *prov),
            Request::Make { .. }
            | Request::Print { .. }
            | Request::Host { .. }
            | Request::Spawn { .. }
            | Request::Join { .. } => Err(Verdict::Violated(Violation::Stranger)),
        }
    }

    // The verdict on what was asked of the tree, or settled without it. A violation closes the tree.
    fn judge(&mut self, asks: Result<TreeRequest, Verdict>, new: Tag) -> Verdict
        requires { IfOk asks (MayAsk self.old.tree new) }
        ensures judged { judged_of result self.new ≡ judged_as (eager_of self.old.tree) asks new }
        ensures plain { self.new.plain ≡ self.old.plain }
        ensures counted { IsCounted self.old.tree self.new.tree asks result }
    {
        let verdict = match asks {
            Err(verdict) => verdict,
            Ok(request) => match ask(&mut self.tree, request, new) {
                None => Verdict::Clean,
                Some(violation) => Verdict::Violated(violation),
            },
        };
        self.closed = !matches!(verdict, Verdict::Clean);
        verdict
    }

    /// Answers a request other than a Make, after `prepare` for it answered what it asks the tree. The tag
    /// of a new node is the stamp, which is greater than each tag of the tree. It takes no memory.
    pub fn step(
        &mut self,
        number: AllocNo,
        request: &Request,
        asks: Result<TreeRequest, Verdict>,
        stamp: Stamp,
    ) -> Outcome
        requires make { is_make request.now ≡ false }
        requires fitting { IsTrue (fits request.now) }
        requires prepared { IsPrepared number.0 self.old request.now }
        requires asked { asks ≡ asked number.0 (made_of self.old) request.now }
        requires newest { All (λ n. n.tag.0 < stamp.0) (eager_of self.old.tree).nodes }
        ensures answer { (piece : List Byte) → HasBytesOut (Some (made_of self.old)) request.now piece → record { reply = reply_with piece result; object = object_of number.0 self.new } ≡ answer (object_of number.0 self.old) request.now stamp }
        ensures counted { IsStepCounted number.0 self.old self.new request.now result.verdict }
    {
        self.sizes();
        let new = Tag(stamp.0);
        match request {
            Request::Retag { prov, .. } => {
                let verdict = self.judge(asks, new);
                match verdict {
                    Verdict::Clean => Outcome {
                        seen: Seen::Retagged { added: true },
                        carried: Some(Prov {
                            alloc: number,
                            tag: new,
                        }),
                        verdict,
                    },
                    _ => Outcome {
                        seen: Seen::Retagged { added: false },
                        carried: *prov,
                        verdict,
                    },
                }
            }
            Request::EndProtector { .. } => Outcome {
                seen: Seen::Done,
                carried: None,
                verdict: self.judge(asks, new),
            },
            _ => match self.plain.run(request) {
                Err(trap) => Outcome::clean(Seen::Trapped(trap)),
                Ok((seen, carried)) => Outcome {
                    seen,
                    carried,
                    verdict: self.judge(asks, new),
                },
            },
        }
    }
}
