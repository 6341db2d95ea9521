//! What one node keeps of a byte, and what an access makes of that.
ghost use Rattle.std.specs.Prelude.{◌≡◌, Some, true, false};
ghost use Rattle.perm_table.specs.Table.{after_foreign};
ghost use Rattle.eager_tree.specs.Visit.{next_cell};
ghost use Rattle.dated_tree.specs.Dates.{dated, is_noted as is_end, seen_date, seen_below, put_off as put_off_by};
ghost use Rattle.dated_tree.specs.Eager.{eager_cell};
ghost use Rattle.dated_tree.specs.Meet.{is_refused, met_after, kept_cell, IsLocalSlot, IsForeignSlot};

use crate::node::{Dates, Slot};
use perm_table::{Guard, Kind, Outcome, Perm, step};

/// Whether a date is one of these ends.
pub fn is_noted(ends: &[u64], date: u64) -> bool
    ensures { result ≡ is_end ends.now date }
{
    ends.iter().any(|end| *end == date)
}

/// A date, or the kept one in its place where it is noted.
fn date_seen(ends: &[u64], kept: u64, date: u64) -> u64
    ensures { result ≡ seen_date ends.now kept date }
{
    if is_noted(ends, date) { kept } else { date }
}

/// What a foreign access makes of the state of a node without a guard.
fn foreign(perm: Perm, kind: Kind) -> Perm
    ensures { result ≡ after_foreign kind false perm }
{
    match step(perm, false, Guard::Free, false, kind) {
        Outcome::Next { perm, .. } => perm,
        Outcome::Denied => unreachable!(),
    }
}

/// State and flag after an access, which a denied one leaves as they are.
fn after(perm: Perm, accessed: bool, guard: Guard, local: bool, kind: Kind) -> (Perm, bool)
    ensures { record { perm = result.0; accessed = result.1 } ≡ next_cell (Some kind) local guard record { perm = perm; accessed = accessed } }
{
    match step(perm, accessed, guard, local, kind) {
        Outcome::Next { perm, accessed } => (perm, accessed),
        Outcome::Denied => (perm, accessed),
    }
}

/// Whether the table denies an access.
fn denies(perm: Perm, accessed: bool, guard: Guard, local: bool, kind: Kind) -> bool
    ensures { result ≡ is_refused (Some kind) local guard record { perm = perm; accessed = accessed } }
{
    match step(perm, accessed, guard, local, kind) {
        Outcome::Next { .. } => false,
        Outcome::Denied => true,
    }
}

impl Dates {
    /// What is seen below a node that has met these dates and noted those ends, where its parent sees
    /// other ones.
    pub fn below(self, ends: &[u64], seen: Dates) -> Dates
        ensures { result ≡ seen_below ends.now self seen }
    {
        Dates {
            access: date_seen(ends, self.access, seen.access),
            write: date_seen(ends, self.write, seen.write),
        }
    }

    /// A byte's dates after an access.
    pub fn after(self, kind: Kind, date: u64) -> Dates
        ensures { result ≡ dated kind date self }
    {
        match kind {
            Kind::Read => Dates {
                access: date,
                write: self.write,
            },
            Kind::Write => Dates {
                access: date,
                write: date,
            },
        }
    }

    /// What is put off at a node that has met these dates and sees other ones.
    fn put_off(self, seen: Dates) -> Option<Kind>
        ensures { result ≡ put_off_by self seen }
    {
        if self.write < seen.write {
            Some(Kind::Write)
        } else if self.access < seen.access {
            Some(Kind::Read)
        } else {
            None
        }
    }

    /// What a node with those ends has met after a local access, that had met these dates.
    fn after_local(self, kind: Kind, ends: &[u64], date: u64) -> Dates
        ensures { result ≡ met_after kind ends.now date self }
    {
        match kind {
            Kind::Read if !ends.is_empty() => Dates {
                access: date,
                write: self.write,
            },
            Kind::Read | Kind::Write => Dates {
                access: date,
                write: date,
            },
        }
    }
}

impl Slot {
    /// The state of a node that sees these dates: the kept one after what is put off.
    pub fn perm_by(self, seen: Dates) -> Perm
        ensures { result ≡ (eager_cell seen self).perm }
    {
        match self.met.put_off(seen) {
            Some(kind) => foreign(self.perm, kind),
            None => self.perm,
        }
    }

    /// Whether a node that sees these dates denies a local access.
    pub fn denies_local(self, guard: Guard, seen: Dates, kind: Kind) -> bool
        ensures { result ≡ is_refused (Some kind) true guard (eager_cell seen self) }
    {
        denies(self.perm_by(seen), self.accessed, guard, true, kind)
    }

    /// Whether a node that has met all denies a foreign access.
    pub fn denies_foreign(self, guard: Guard, kind: Kind) -> bool
        ensures { result ≡ is_refused (Some kind) false guard (kept_cell self) }
    {
        denies(self.perm, self.accessed, guard, false, kind)
    }

    /// The slot after a local access at a date, of a node that sees these dates and has noted those ends.
    pub fn after_local(self, guard: Guard, ends: &[u64], date: u64, seen: Dates, kind: Kind) -> Slot
        ensures { IsLocalSlot kind guard ends.now date seen self result }
    {
        let (perm, accessed) = after(self.perm_by(seen), self.accessed, guard, true, kind);
        let stays = perm == self.perm && accessed == self.accessed && perm != Perm::Unique;
        if stays && kind == Kind::Read {
            self
        } else {
            Slot {
                perm,
                accessed,
                met: self.met.after_local(kind, ends, date),
            }
        }
    }

    /// The slot of a guarded node after a foreign access, which it meets at once.
    pub fn after_foreign(self, guard: Guard, kind: Kind) -> Slot
        ensures { IsForeignSlot kind guard self result }
    {
        let (perm, accessed) = after(self.perm, self.accessed, guard, false, kind);
        Slot {
            perm,
            accessed,
            met: self.met,
        }
    }
}
