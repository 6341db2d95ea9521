//! The accesses of each allocation so far.
ghost use Rattle.std.specs.Prelude.{◌≡◌, ◌≢◌, [], ℕ, Some, true, false, IfOk, OnOk};
ghost use Rattle.std.specs.BTreeMap.{get};
ghost use Rattle.std.specs.Ordering.{nat_cmp};
ghost use Rattle.race_check.specs.declared.uses.Access.{Access};
ghost use Rattle.race_check.specs.Accesses as accesses;
ghost use Rattle.race_check.specs.Uses.{HasUse, AllBelow};
ghost use Rattle.race_check.specs.Tracked.{Spot, row_at, Leaves, Meets, Notes, IsClear, is_raced, places_in, tracked_at};

use crate::access::{end_of, is_free, start_of};
use crate::uses::{Access, LastUses, is_unordered, note_bytes, note_use};
use bsan_ids::{AllocNo, NoMemory};
use history::Request;
use std::alloc::Global;
use std::collections::BTreeMap;

/// The last uses of an allocation: of each byte, of the whole by any access, and by a free.
#[derive(Drop)]
pub struct Rows {
    bytes: BTreeMap<u64, Vec<LastUses>>,
    whole: Vec<LastUses>,
    freed: Vec<LastUses>,
}

impl Rows {
    fn new(alloc: Global) -> Rows
        ensures { (spot : Spot) → row_at result spot ≡ [] }
    {
        Rows {
            bytes: BTreeMap::new(alloc),
            whole: Vec::new(alloc),
            freed: Vec::new(alloc),
        }
    }

    fn note_free(
        &mut self,
        request: &Request,
        access: Access,
        clock: &[u128],
    ) -> Result<bool, NoMemory>
        requires { accesses.is_free request.now ≡ true }
        ensures below { IfOk result (λ unordered. unordered ≡ false → (spot : Spot) → Meets request.now spot → AllBelow access.kind clock.now (row_at self.old spot)) }
        ensures left { OnOk result ((spot : Spot) → Leaves request.now spot → HasUse (row_at self.new spot) access) }
        ensures kept { OnOk result ((spot : Spot) (other : Access) → HasUse (row_at self.old spot) other → HasUse (row_at self.new spot) other) }
    {
        let unordered = is_unordered(&self.whole, access.kind, clock);
        note_use(&mut self.whole, access)?;
        note_use(&mut self.freed, access)?;
        Ok(unordered)
    }

    fn note_range(
        &mut self,
        alloc: Global,
        request: &Request,
        access: Access,
        clock: &[u128],
    ) -> Result<bool, NoMemory>
        requires { accesses.is_free request.now ≡ false }
        ensures below { IfOk result (λ unordered. unordered ≡ false → (spot : Spot) → Meets request.now spot → AllBelow access.kind clock.now (row_at self.old spot)) }
        ensures left { OnOk result ((spot : Spot) → Leaves request.now spot → HasUse (row_at self.new spot) access) }
        ensures kept { OnOk result ((spot : Spot) (other : Access) → HasUse (row_at self.old spot) other → HasUse (row_at self.new spot) other) }
    {
        let freed = is_unordered(&self.freed, access.kind, clock);
        note_use(&mut self.whole, access)?;
        let start = u64::from(start_of(request));
        let end = end_of(request);
        let used = note_bytes(alloc, &mut self.bytes, start, end, access, clock)?;
        Ok(freed || used)
    }

    /// Notes an access. The answer is whether some last use of what it uses that clashes with it does
    /// not go before it, by its clock.
    fn note(
        &mut self,
        alloc: Global,
        request: &Request,
        access: Access,
        clock: &[u128],
    ) -> Result<bool, NoMemory>
        ensures below { IfOk result (λ unordered. unordered ≡ false → (spot : Spot) → Meets request.now spot → AllBelow access.kind clock.now (row_at self.old spot)) }
        ensures left { OnOk result ((spot : Spot) → Leaves request.now spot → HasUse (row_at self.new spot) access) }
        ensures kept { OnOk result ((spot : Spot) (other : Access) → HasUse (row_at self.old spot) other → HasUse (row_at self.new spot) other) }
    {
        if is_free(request) {
            self.note_free(request, access, clock)
        } else {
            self.note_range(alloc, request, access, clock)
        }
    }
}

/// The accesses of an allocation: whether a race is found on it, and else their places in the list of
/// entries, and its last uses.
#[derive(Drop)]
pub struct Tracked {
    raced: bool,
    places: Vec<usize>,
    rows: Rows,
}

impl Tracked {
    fn new(alloc: Global, raced: bool) -> Tracked
        ensures raced { result.raced ≡ raced }
        ensures places { result.places.items ≡ [] }
        ensures rows { (spot : Spot) → row_at result.rows spot ≡ [] }
    {
        Tracked {
            raced,
            places: Vec::new(alloc),
            rows: Rows::new(alloc),
        }
    }

    fn note(
        &mut self,
        alloc: Global,
        request: &Request,
        access: Access,
        clock: &[u128],
    ) -> Result<bool, NoMemory>
        ensures below { IfOk result (λ unordered. unordered ≡ false → IsClear request.now access.kind clock.now (Some self.old)) }
        ensures fresh { IfOk result (λ unordered. unordered ≡ true → self.old.raced ≡ false) }
        ensures notes { OnOk result (Notes request.now access (Some self.old) (Some self.new)) }
    {
        if self.raced {
            return Ok(false);
        }
        let unordered = self.rows.note(alloc, request, access, clock)?;
        self.places.push(access.place)?;
        Ok(unordered)
    }
}

/// The accesses of each allocation that has one, by its number.
#[derive(Drop)]
pub struct Allocations {
    tracked: BTreeMap<u32, Tracked>,
}

impl Allocations {
    pub fn new(alloc: Global) -> Allocations
        ensures { (n : ℕ) → tracked_at result n ≡ None }
    {
        Allocations {
            tracked: BTreeMap::new(alloc),
        }
    }

    /// The places of the accesses of an allocation, in order.
    pub fn places(&self, number: AllocNo) -> &[usize]
        ensures { result.now ≡ places_in (tracked_at self.now number.0) }
    {
        match self.tracked.get(&number.0) {
            Some(tracked) => &tracked.places,
            None => &[],
        }
    }

    /// Notes an access of an allocation. The answer is whether no race is found on it yet and some
    /// last use that clashes with the access does not go before it, by its clock.
    pub fn note(
        &mut self,
        alloc: Global,
        number: AllocNo,
        request: &Request,
        access: Access,
        clock: &[u128],
    ) -> Result<bool, NoMemory>
        ensures below { IfOk result (λ unordered. unordered ≡ false → IsClear request.now access.kind clock.now (tracked_at self.old number.0)) }
        ensures fresh { IfOk result (λ unordered. unordered ≡ true → is_raced (tracked_at self.old number.0) ≡ false) }
        ensures notes { OnOk result (Notes request.now access (tracked_at self.old number.0) (tracked_at self.new number.0)) }
        ensures others { OnOk result ((n : ℕ) → n ≢ number.0 → tracked_at self.new n ≡ tracked_at self.old n) }
    {
        match self.tracked.get_mut(&number.0) {
            Some(tracked) => {
                let unordered = tracked.note(alloc, request, access, clock)?;
                Ok(unordered)
            }
            None => {
                let mut tracked = Tracked::new(alloc, false);
                let unordered = tracked.note(alloc, request, access, clock)?;
                self.tracked.insert(number.0, tracked)?;
                Ok(unordered)
            }
        }
    }

    /// Notes that a race is found on an allocation, whose accesses are not needed any more.
    pub fn close(&mut self, alloc: Global, number: AllocNo) -> Result<(), NoMemory>
        ensures raced { OnOk result (is_raced (tracked_at self.new number.0) ≡ true) }
        ensures others { OnOk result ((n : ℕ) → n ≢ number.0 → tracked_at self.new n ≡ tracked_at self.old n) }
    {
        self.tracked.insert(number.0, Tracked::new(alloc, true))?;
        Ok(())
    }
}
