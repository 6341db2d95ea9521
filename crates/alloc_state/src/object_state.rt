//! The object of one allocation, with the memory that the next request needs.
ghost use Rattle.std.specs.Prelude.{◌≡◌, IfOk, IsTrue, List, MatchOption, None, OnErr, OnOk, Some};
ghost use Rattle.std.specs.Option.{option_map};
ghost use Rattle.history.specs.Objects.{answer};
ghost use Rattle.history.specs.Histories.{fits};
ghost use Rattle.lazy_tree.specs.Eager.{eager_of};
ghost use Rattle.history.specs.Pieces.{Byte};
ghost use Rattle.alloc_state.specs.Asking.{asked};
ghost use Rattle.alloc_state.specs.MadeValues.{made_of, made_in, object_in, IsPrepared};
ghost use Rattle.alloc_state.specs.Outcomes.{reply_with, HasBytesOut};
ghost use Rattle.alloc_state.specs.Prepared.{AreBelow, IsFreshFor, is_made_in, unasked};
ghost use Rattle.alloc_state.specs.Repeats.{IsPrepareCounted, IsRunCounted};

use crate::made_state::MadeState;
use crate::outcome::{Outcome, Seen};
use crate::plain_mem::PlainMem;
use bsan_ids::{AllocNo, Copied, NoMemory, Prov, Stamp, Tag};
use history::{Piece, Reply, Request, Verdict};
use lazy_access::TreeRequest;
use lazy_tree::LazyTree;
use std::alloc::Global;
use std::marker::Model;

/// What a request needs besides the allocation: the memory of the one that it makes, and what it asks the
/// tree, or the verdict on it where the tree isn't asked.
#[derive(Drop)]
pub struct Needs {
    fresh: Option<PlainMem>,
    asks: Result<TreeRequest, Verdict>,
}

/// The request for which memory was taken: a copy of it, what it needs, and the bytes that it copies out,
/// twice.
#[derive(Drop)]
pub struct Ready {
    request: Request,
    needs: Needs,
    piece: Piece,
    again: Piece,
}

/// The object of one allocation, with the memory that the next request needs.
#[derive(Drop)]
pub struct ObjectState {
    number: AllocNo,
    made: Option<MadeState>,
    ready: Option<Ready>,
}

impl Model for ObjectState {
    ghost use Rattle.std.specs.Prelude.{MatchOption};
    ghost use Rattle.std.specs.Option.{option_map};
    ghost use Rattle.alloc_state.specs.MadeValues.{object_in};
    ghost use Rattle.alloc_state.specs.Prepared.{Prepared, IsReady};

    ghost Value = { Prepared };

    ghost view = { λ s. record { object = object_in s.number.0 s.made; tree = option_map (λ v. v.tree) s.made; ready = option_map (λ r. r.request) s.ready } };

    ghost invariant = { λ s. MatchOption s.ready (Unit {0}) (IsReady s.number.0 s.made) };
}

/// What a request that ran leaves: the stored copy of it, and its reply twice.
#[derive(Drop)]
pub struct Ran {
    pub request: Request,
    pub reply: Reply,
    pub again: Reply,
}

/// The memory of the allocation that a request makes, if it makes one.
fn fresh_for(alloc: Global, request: &Request) -> Result<Option<PlainMem>, NoMemory>
    requires { IsTrue (fits request.now) }
    ensures { IfOk result (IsFreshFor request.now) }
{
    match request {
        Request::Make { size, place } => Ok(Some(PlainMem::new(alloc, *size, *place)?)),
        _ => Ok(None),
    }
}

/// The bytes that a request copies out, where it does and isn't refused, and a copy of them.
fn pieces_for(
    alloc: Global,
    made: &Option<MadeState>,
    request: &Request,
) -> Result<(Piece, Piece), NoMemory>
    requires { IsTrue (fits request.now) }
    ensures bytes { IfOk result (λ pieces. HasBytesOut (made_in made.now) request.now pieces.0) }
    ensures twice { IfOk result (λ pieces. pieces.1 ≡ pieces.0) }
{
    match (made, request) {
        (Some(made), Request::CopyOut { at, len, .. }) => {
            let piece = made.piece(alloc, *at, *len)?;
            let again = piece.copy()?;
            Ok((piece, again))
        }
        _ => Ok((Piece::new(alloc), Piece::new(alloc))),
    }
}

/// Answers a request with the memory that was made for it. A Make's tag is its stamp.
fn outcome_of(
    number: AllocNo,
    alloc: Global,
    made: &mut Option<MadeState>,
    needs: Needs,
    request: &Request,
    stamp: Stamp,
) -> Outcome
    requires fresh { IsFreshFor request.now needs.fresh }
    requires asked { MatchOption made.old (Unit {0}) (λ v. needs.asks ≡ asked number.0 (made_of v) request.now) }
    requires room { MatchOption made.old (Unit {0}) (λ v. IsPrepared number.0 v request.now) }
    requires newest { AreBelow stamp.0 (object_in number.0 made.old) }
    requires fitting { IsTrue (fits request.now) }
    ensures counted { IsRunCounted number.0 (made_in made.old) (option_map (λ v. v.tree) made.old) (option_map (λ v. v.tree) made.new) request.now result.verdict }
    ensures answer { (piece : List Byte) → HasBytesOut (made_in made.old) request.now piece → record { reply = reply_with piece result; object = object_in number.0 made.new } ≡ answer (object_in number.0 made.old) request.now stamp }
{
    let Needs { fresh, asks } = needs;
    if let Some(fresh) = fresh {
        let tag = Tag(stamp.0);
        *made = Some(MadeState::new(alloc, fresh, tag));
        return Outcome {
            seen: Seen::Made(number),
            carried: Some(Prov { alloc: number, tag }),
            verdict: Verdict::Clean,
        };
    }
    match made {
        Some(made) => made.step(number, request, asks, stamp),
        None => Outcome::unmade(request),
    }
}

impl ObjectState {
    /// A number that was never made.
    pub fn new(number: AllocNo) -> ObjectState
        ensures { result ≡ unasked number.0 }
    {
        ObjectState {
            number,
            made: None,
            ready: None,
        }
    }

    /// Whether the allocation is made.
    pub fn is_made(&self) -> bool
        ensures { result ≡ is_made_in self.now.object }
    {
        self.made.is_some()
    }

    /// The tree, where the allocation is made.
    pub fn tree(&self) -> Option<&LazyTree>
        ensures tree { option_map (λ t. t.now) result ≡ self.now.tree }
        ensures eager { option_map eager_of self.now.tree ≡ option_map (λ m. m.tree) self.now.object.made }
    {
        match &self.made {
            Some(made) => Some(made.tree()),
            None => None,
        }
    }

    /// Takes all memory that `run` needs for this request.
    ///
    /// # Errors
    ///
    /// `NoMemory`: out of memory. The object and a request that is ready stay.
    pub fn prepare(&mut self, alloc: Global, request: &Request) -> Result<(), NoMemory>
        requires { IsTrue (fits request.now) }
        ensures ok { OnOk result (self.new.ready ≡ Some request.now) }
        ensures err { OnErr result (self.new.ready ≡ self.old.ready) }
        ensures object { self.new.object ≡ self.old.object }
        ensures stands { option_map eager_of self.old.tree ≡ option_map (λ m. m.tree) self.old.object.made }
        ensures counted { IsPrepareCounted self.old.object.number self.old.object.made self.old.tree self.new.tree request.now }
    {
        let number = self.number;
        let copy = request.copy()?;
        let fresh = fresh_for(alloc, request)?;
        let (piece, again) = pieces_for(alloc, &self.made, request)?;
        let asks = match &mut self.made {
            Some(made) => made.prepare(number, request)?,
            None => Err(Verdict::Clean),
        };
        self.ready = Some(Ready {
            request: copy,
            needs: Needs { fresh, asks },
            piece,
            again,
        });
        Ok(())
    }

    /// Answers the request that is ready. It takes no memory.
    pub fn run(&mut self, alloc: Global, request: &Request, stamp: Stamp) -> Ran
        requires ready { self.old.ready ≡ Some request.now }
        requires newest { AreBelow stamp.0 self.old.object }
        requires fitting { IsTrue (fits request.now) }
        ensures request { result.request ≡ request.now }
        ensures reply { result.reply ≡ (answer self.old.object request.now stamp).reply }
        ensures again { result.again ≡ result.reply }
        ensures object { self.new.object ≡ (answer self.old.object request.now stamp).object }
        ensures ready { self.new.ready ≡ None }
        ensures stands { option_map eager_of self.old.tree ≡ option_map (λ m. m.tree) self.old.object.made }
        ensures counted { IsRunCounted self.old.object.number self.old.object.made self.old.tree self.new.tree request.now result.reply.verdict }
    {
        let Some(ready) = self.ready.take() else {
            unreachable!()
        };
        let Ready {
            request: copy,
            needs,
            piece,
            again,
        } = ready;
        let outcome = outcome_of(self.number, alloc, &mut self.made, needs, request, stamp);
        Ran {
            request: copy,
            reply: outcome.reply(piece),
            again: outcome.reply(again),
        }
    }
}
