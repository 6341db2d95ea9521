//! How a table begins and ends.
ghost use Rattle.std.specs.Prelude.{◌≡◌, ℕ, suc, ◌+◌, ◌<◌, ◌≤◌, Some, None, length, map, replicate, IfOk, slice_get, vec_len, vec_capacity, slice_index_or, false, []};
ghost use Rattle.std.specs.Mem.Slots.{slots_items, slots_filled, slots_len, IsFull};
ghost use Rattle.turn_lock.specs.Places.{width};
ghost use Rattle.turn_lock.specs.Rule.{newcomer};
ghost use Rattle.turn_lock.specs.Closing.{AreCounts, IsWhole, AllSome, AreBlank};

use crate::desk::Desk;
use crate::turns::{GREATEST_ALLOC, Turns, width_of};
use atomic_table::{Closed, Table};
use bsan_ids::{Counters, NoMemory};
use history::Logged;
use std::alloc::Global;

// Takes the values out of all slots, in order.
fn take_values<T: Drop>(closed: &mut Closed<Option<T>, Global>, values: &mut Vec<T>)
    requires filled { IsFull closed.old.slots × AllSome (slots_items closed.old.slots) }
    requires room { (vec_len values.old ≡ 0) × (slots_len closed.old.slots ≤ vec_capacity values.old) }
    ensures values { map Some values.new.items ≡ slots_items closed.old.slots }
    ensures emptied { (k : ℕ) → k < slots_len closed.new.slots → slice_index_or (slots_filled closed.new.slots) k false ≡ false }
{
    for i in 0..closed.slot_count() {
        let found = closed.take(i);
        let Some(value) = found else { unreachable!() };
        let Ok(()) = values.push(value) else {
            unreachable!()
        };
    }
}

// The words at the start, and the values in their slots.
fn lay_out<T: Drop>(alloc: Global, values: Vec<T>) -> Result<(Vec<u64>, Vec<Option<T>>), NoMemory>
    requires { vec_len values ≤ GREATEST_ALLOC }
    ensures words { IfOk result (λ r. r.0.items ≡ replicate (width (length values.items)) 0) }
    ensures slots { IfOk result (λ r. r.1.items ≡ map Some values.items) }
{
    let words = vec![in alloc; 0u64; width_of(values.len())]?;
    let slots = values.into_iter().map(|x| Some(x)).collect(alloc)?;
    Ok((words, slots))
}

impl<T: Logged> Turns<T> {
    /// A table with these values, and its first desk, which has the name 0 and nothing else. There
    /// are at most 65,536 values, without entries, the k-th of them with the number k, from 1 on.
    pub fn new(alloc: Global, values: Vec<T>) -> Result<(Turns<T>, Desk<T>), NoMemory>
    where
        T: Drop,
        requires few { vec_len values ≤ GREATEST_ALLOC }
        requires blank { AreBlank T.number T.entries values.items }
        ensures slots { IfOk result (λ r. r.0.slots ≡ vec_len values) }
        ensures desk { IfOk result (λ r. r.1 ≡ record { table = r.0; view = newcomer 0 0 [] }) }
    {
        let (words, slots) = lay_out(alloc, values)?;
        match Table::new(alloc, words.as_slice(), slots, &()) {
            Ok((table, seat)) => Ok((Turns::of(table), Desk { seat })),
            Err(_) => Err(NoMemory),
        }
    }

    /// Ends the table. The desk that closes it is the first one, which holds no turn and has nothing
    /// out. The answer is how many numbers of each kind were drawn, of which each is one of the
    /// desk's, once, and the values: the k-th has the number k, and its entries rise by stamp and are
    /// exactly the desk's calls on k, each once.
    ///
    /// # Errors
    ///
    /// `NoMemory`: out of memory; then the table is dropped with all its values.
    pub fn close(self, alloc: Global, desk: Desk<T>) -> Result<(Counters, Vec<T>), NoMemory>
    where
        T: Drop,
        requires own { desk.table ≡ self }
        requires root { (desk.view.name ≡ 0) × (desk.view.turn ≡ None) × (desk.view.outs ≡ []) }
        ensures counts { IfOk result (λ r. AreCounts desk.view r.0.stamps r.0.allocs r.0.threads) }
        ensures numbers { IfOk result (λ r. vec_len r.1 ≡ self.slots) }
        ensures values { IfOk result (λ r. (k : ℕ) (x : T) → slice_get r.1.items k ≡ Some x → IsWhole T.number T.entries desk.view (suc k) x) }
    {
        let table = self.into_table();
        let mut values = Vec::with_capacity(alloc, table.slot_count())?;
        let mut closed = table.close_with(desk.into_seat());
        let counters = Counters {
            stamps: closed.word(0),
            allocs: closed.word(1),
            threads: closed.word(2),
        };
        take_values(&mut closed, &mut values);
        closed.free();
        Ok((counters, values))
    }
}
