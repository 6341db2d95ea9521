//! What a step is answered, but for the bytes that a copy out of memory brings.
ghost use Rattle.std.specs.Prelude.{◌≡◌, ℕ, List, None, false};
ghost use Rattle.bsan_ids.specs.declared.numbers.Stamp.{Stamp as AnyStamp};
ghost use Rattle.history.specs.Pieces.{Byte};
ghost use Rattle.history.specs.Histories.{is_make};
ghost use Rattle.history.specs.Objects.{answer, clean, unmade};
ghost use Rattle.history.specs.declared.entry.Plain.TheVariants.{Trapped};
ghost use Rattle.alloc_state.specs.Outcomes.{reply_with};

use bsan_ids::{AllocNo, Prov};
use history::{Piece, Plain, Reply, Request, Trap, Verdict};

/// What a program sees of a reply. It owns no memory.
#[derive(Clone, Copy)]
pub enum Seen {
    /// The number of the allocation that was made.
    Made(AllocNo),
    /// The number that was read.
    Value(u64),
    /// Bytes were copied out.
    Copied,
    /// The step was done, and has no value.
    Done,
    /// A retag was done: whether the tree has a new node for it.
    Retagged { added: bool },
    /// The step was refused.
    Trapped(Trap),
}

/// What a step is answered, but for the bytes that were copied out.
#[derive(Clone, Copy)]
pub struct Outcome {
    /// What the program sees.
    pub seen: Seen,
    /// The provenance of the pointer that was loaded, made or retagged, if one was.
    pub carried: Option<Prov>,
    /// What the tree says of the step.
    pub verdict: Verdict,
}

impl Outcome {
    /// A step that no tree has to do with, and that carries no provenance.
    pub fn clean(seen: Seen) -> Outcome
        ensures { result ≡ record { seen = seen; carried = None; verdict = Verdict.Clean } }
    {
        Outcome {
            seen,
            carried: None,
            verdict: Verdict::Clean,
        }
    }

    /// The answer to a request other than a Make where the allocation isn't made.
    pub fn unmade(request: &Request) -> Outcome
        requires { is_make request.now ≡ false }
        ensures { (piece : List Byte) (number : ℕ) (stamp : AnyStamp) → record { reply = reply_with piece result; object = unmade number } ≡ answer (unmade number) request.now stamp }
    {
        match request {
            Request::Retag { .. } => Outcome::clean(Seen::Retagged { added: false }),
            Request::EndProtector { .. } => Outcome::clean(Seen::Done),
            _ => Outcome::clean(Seen::Trapped(Trap::NoAllocation)),
        }
    }

    /// The reply, with the bytes that were copied out, where some were.
    // inlined, since a call moves the outcome and the piece once more
    #[inline(always)]
    pub fn reply(self, piece: Piece) -> Reply
        ensures { result ≡ reply_with piece self }
    {
        let plain = match self.seen {
            Seen::Made(number) => Plain::Made(number),
            Seen::Value(value) => Plain::Value(value),
            Seen::Copied => Plain::Copied(piece),
            Seen::Done => Plain::Done,
            Seen::Retagged { added } => Plain::Retagged { added },
            Seen::Trapped(trap) => Plain::Trapped(trap),
        };
        Reply {
            plain,
            carried: self.carried,
            verdict: self.verdict,
        }
    }
}
