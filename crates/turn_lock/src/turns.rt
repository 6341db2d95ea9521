//! The table of turns.
ghost use Rattle.std.specs.Prelude.{◌≡◌, true, suc, ◌+◌, ◌-◌, ◌<◌, ◌≤◌, All, Contains, [], Some, None, IfSome, IfNone};
ghost use Rattle.turn_lock.specs.declared.view.HeldTurn.{HeldTurn};
ghost use Rattle.turn_lock.specs.Places.{place, width};
ghost use Rattle.turn_lock.specs.Plays.{IsFresh, Extends, Tells, IsTaken};
ghost use Rattle.turn_lock.specs.Steps.{drew_stamp, drew_alloc, drew_thread, parted, child_of, joins, took, gave};

use crate::desk::Desk;
use crate::rule::{
    Child, ChooseName, DrawAlloc, DrawStamp, DrawThread, GiveTurn, MarkWaited, TakeTurn, TurnRule,
};
use crate::view::View;
use atomic_table::{Seat, Table};
use bsan_ids::{AllocNo, Stamp, ThreadNo};
use history::Logged;
use std::alloc::Global;
use std::hint::spin_loop;
use std::marker::Model;
use std::sync::Wait;

/// The greatest stamp after which a desk may draw another one.
pub const GREATEST_STAMP: u64 = 4_000_000;

/// The greatest allocation number after which a desk may draw another one, and the greatest number
/// of slots of a table.
pub const GREATEST_ALLOC: u64 = 65_536;

/// The greatest thread number for which a desk may be split, and after which it may draw another.
pub const GREATEST_THREAD: u64 = 1023;

const CLOCK: usize = 0;

const ALLOCS: usize = 1;

const THREADS: usize = 2;

// The first words are a line of the cache, which the clock and the counts have for themselves. Then
// come blocks of 512 words, in which the turns of 64 slots that follow one another stand in 64 lines.
const LINE: usize = 8;

const BLOCK: usize = 512;

// The word of a slot's turn.
fn place_of(slot: usize) -> usize
    requires { slot < GREATEST_ALLOC }
    ensures { result ≡ place slot }
{
    LINE + BLOCK * (slot / BLOCK) + LINE * (slot % (BLOCK / LINE)) + slot % BLOCK / (BLOCK / LINE)
}

// How many words a table of so many slots has.
pub(crate) fn width_of(slots: usize) -> usize
    requires { slots ≤ GREATEST_ALLOC }
    ensures { result ≡ width slots }
{
    LINE + BLOCK * ((slots + (BLOCK - 1)) / BLOCK)
}

// The word of a turn. A desk that finds the turn held changes 1 to 2 and parks, which the system
// lets it do only while the word is 2. A give exchanges the word for 0, and wakes one desk that
// parks if the word was 2; else it makes no system call. A desk that has waited takes the turn by
// changing 0 to 2, and not to 1, since others may still park: so its own give wakes the next one.
// If a desk that has not waited takes the turn before the woken one, by changing 0 to 1, the woken
// one changes 1 to 2 again, and parks until that desk gives the turn back.
//
// So no wake-up is lost. While a desk parks on the word, it is 2, and the next give wakes one; or a
// give is about to wake one; or a desk that has waited is awake, which makes the word 2 before it
// parks again or as it takes the turn.
const FREE: u64 = 0;

const HELD: u64 = 1;

const WAITED: u64 = 2;

// How many times a desk that finds a turn held looks whether it is free before it parks. Most turns
// are held for less than that takes, and to park and be woken costs more.
const LOOKS: u32 = 50;

/// A clock, a count of allocation numbers, a count of thread numbers, and for each allocation
/// number a turn and a slot with its value. A contract sees which table it is, with its number of
/// slots.
pub struct Turns<T: Logged> {
    table: Table<Option<T>, View, (), TurnRule<T>, Global>,
}

impl<T: Logged> Model for Turns<T> {
    ghost use Rattle.std.specs.Prelude.{◌≡◌, ◌+◌, ◌≤◌};
    ghost use Rattle.atomic_table.specs.Seated.{TableId};
    ghost use Rattle.turn_lock.specs.Places.{width};

    ghost Value = { TableId };

    ghost view = { λ t. t.table.shared.table_id };

    ghost invariant = { λ t. (t.table.shared.table_id.words ≡ width t.table.shared.table_id.slots) × (t.table.shared.table_id.slots ≤ 65536) };
}

impl<T: Logged + Drop> Drop for Turns<T> {
    fn drop(self) {
        let Self { table } = self;
        drop(table);
    }
}

impl<T: Logged> Turns<T> {
    pub(crate) fn of(table: Table<Option<T>, View, (), TurnRule<T>, Global>) -> Turns<T>
        requires words { table.shared.table_id.words ≡ width table.shared.table_id.slots }
        requires small { table.shared.table_id.slots ≤ GREATEST_ALLOC }
        ensures { result ≡ table.shared.table_id }
    {
        Turns { table }
    }

    pub(crate) fn into_table(self) -> Table<Option<T>, View, (), TurnRule<T>, Global>
        ensures table { result.shared.table_id ≡ self }
        ensures words { result.shared.table_id.words ≡ width result.shared.table_id.slots }
    {
        let Self { table } = self;
        table
    }

    /// Draws the next stamp, by one fetch-add. It is greater than all that the desk has seen, and
    /// the desk has then seen it. The desk itself has drawn no stamp above 4,000,000.
    pub fn draw_stamp(&self, desk: &mut Desk<T>) -> Stamp
        requires own { desk.old.table ≡ self.now }
        requires room { All (λ n. n ≤ GREATEST_STAMP) desk.old.view.stamps.own }
        ensures desk { desk.new ≡ record { table = desk.old.table; view = drew_stamp desk.old.view result.0 } }
        ensures later { desk.old.view.seen < result.0 }
    {
        let found = self
            .table
            .shared
            .fetch_add::<DrawStamp>(&mut desk.seat, CLOCK, 1);
        Stamp(found + 1)
    }

    /// Draws the next allocation number, by one fetch-add. It is fresh on the desk: one of its
    /// numbers, for which no Make was given. The desk itself has drawn none above 65,536.
    pub fn draw_alloc(&self, desk: &mut Desk<T>) -> u64
        requires own { desk.old.table ≡ self.now }
        requires room { All (λ n. n ≤ GREATEST_ALLOC) desk.old.view.allocs.own }
        ensures desk { desk.new ≡ record { table = desk.old.table; view = drew_alloc desk.old.view result } }
        ensures fresh { IsFresh desk.new.view result }
        ensures first { 1 ≤ result }
    {
        let found = self
            .table
            .shared
            .fetch_add::<DrawAlloc>(&mut desk.seat, ALLOCS, 1);
        found + 1
    }

    /// Draws the next thread number, by one fetch-add. It is greater than the desk's name and than
    /// each thread number that the desk drew before, and the desk has not been split for it. The
    /// desk itself has drawn none above 1,023.
    pub fn draw_thread(&self, desk: &mut Desk<T>) -> u64
        requires own { desk.old.table ≡ self.now }
        requires room { All (λ n. n ≤ GREATEST_THREAD) desk.old.view.threads.own }
        ensures desk { desk.new ≡ record { table = desk.old.table; view = drew_thread desk.old.view result } }
        ensures greater { desk.old.view.name < result }
        ensures greatest { All (λ n. n < result) desk.old.view.threads.own × All (λ n. n < result) desk.old.view.threads.joined }
        ensures unused { (¬ (Contains desk.old.view.outs result)) × (¬ (Contains desk.old.view.joined result)) }
    {
        let found = self
            .table
            .shared
            .fetch_add::<DrawThread>(&mut desk.seat, THREADS, 1);
        found + 1
    }

    /// Splits a desk from this one, for a thread number that this one drew itself and has not been
    /// split for. The new desk has that number as its name. It has seen what its maker has seen, and
    /// is told of the calls that its maker made or was told of. It has no numbers, calls, outs,
    /// joined names or turn.
    pub fn split(&self, desk: &mut Desk<T>, name: ThreadNo) -> Desk<T>
        requires own { desk.old.table ≡ self.now }
        requires idle { desk.old.view.turn ≡ None }
        requires drawn { Contains desk.old.view.threads.own name.0 × (name.0 ≤ GREATEST_THREAD) }
        requires unused { (¬ (Contains desk.old.view.outs name.0)) × (¬ (Contains desk.old.view.joined name.0)) }
        ensures parent { desk.new ≡ record { table = desk.old.table; view = parted desk.old.view name.0 } }
        ensures child { result ≡ record { table = desk.old.table; view = child_of desk.old.view name.0 } }
    {
        let name = name.0 as u64;
        self.table
            .shared
            .compare_exchange::<ChooseName>(&mut desk.seat, CLOCK, name, name);
        Desk {
            seat: self.table.shared.split_seat::<Child>(&mut desk.seat),
        }
    }

    /// Joins a desk back into the one from which it was split: its numbers, its calls and what it
    /// has seen are then this desk's too. Its name is no longer out, but joined, with the names
    /// joined into it. Neither desk holds a turn, and nothing is out on the child.
    pub fn join(&self, desk: &mut Desk<T>, child: Desk<T>)
        requires own { (desk.old.table ≡ self.now) × (child.table ≡ self.now) }
        requires idle { (desk.old.view.turn ≡ None) × (child.view.turn ≡ None) }
        requires out { Contains desk.old.view.outs child.view.name }
        requires alone { child.view.outs ≡ [] }
        ensures desk { desk.new ≡ record { table = desk.old.table; view = joins desk.old.view child.view } }
        ensures returned { ¬ (Contains desk.new.view.outs child.view.name) }
    {
        let shared = &self.table.shared;
        shared.join_seat::<Child>(&mut desk.seat, child.into_seat());
    }

    // Takes the turn and the value out of its slot, if the turn is free. The word is then `held`.
    fn try_acquire(&self, seat: &mut Seat<Option<T>, View>, slot: usize, held: u64) -> Option<T>
        requires own { seat.old.table_id ≡ self.now }
        requires idle { (seat.old.me.0.live ≡ true) × (seat.old.me.0.turn ≡ None) × (seat.old.me.1 ≡ []) }
        requires slot { slot < self.now.slots }
        requires held { (HELD ≤ held) × (held ≤ WAITED) }
        ensures table { seat.new.table_id ≡ seat.old.table_id }
        ensures some { IfSome result (λ x. IsTaken T.number T.entries slot seat.old.me x seat.new.me) }
        ensures none { IfNone result (seat.new.me ≡ seat.old.me) }
    {
        let shared = &self.table.shared;
        if shared.compare_exchange::<TakeTurn>(seat, place_of(slot), FREE, held) == FREE {
            shared.exchange(seat, slot, None)
        } else {
            None
        }
    }

    // Marks the turn as waited for and sleeps, unless it is free by now.
    fn sleep<R: Wait>(&self, rt: &R, seat: &mut Seat<Option<T>, View>, slot: usize)
        requires own { seat.old.table_id ≡ self.now }
        requires slot { slot < self.now.slots }
        ensures table { seat.new.table_id ≡ seat.old.table_id }
        ensures me { seat.new.me ≡ seat.old.me }
    {
        let shared = &self.table.shared;
        let word = place_of(slot);
        if shared.compare_exchange::<MarkWaited>(seat, word, HELD, WAITED) != FREE {
            shared.park(rt, word, WAITED as u32);
        }
    }

    // Whether the turn is found free within some looks.
    fn comes_free(&self, slot: usize) -> bool
        requires { slot < self.now.slots }
    {
        let shared = &self.table.shared;
        let word = place_of(slot);
        for _ in 0..LOOKS {
            if shared.peek(word) == FREE {
                return true;
            }
            spin_loop();
        }
        false
    }

    // Waits for the turn, and takes the value out of its slot.
    fn acquire<R: Wait>(&self, rt: &R, seat: &mut Seat<Option<T>, View>, slot: usize) -> T
        requires own { seat.old.table_id ≡ self.now }
        requires idle { (seat.old.me.0.live ≡ true) × (seat.old.me.0.turn ≡ None) × (seat.old.me.1 ≡ []) }
        requires slot { slot < self.now.slots }
        ensures table { seat.new.table_id ≡ seat.old.table_id }
        ensures taken { IsTaken T.number T.entries slot seat.old.me result seat.new.me }
    {
        let mut held = HELD;
        for _ in rt.forever() {
            if let Some(value) = self.try_acquire(seat, slot, held) {
                return value;
            }
            if !self.comes_free(slot) {
                self.sleep(rt, seat, slot);
                held = WAITED;
            }
        }
        unreachable!()
    }

    /// Waits for the turn of this number, and takes its value. All calls on the number that the
    /// desk made or was told of are among the value's entries, and the desk has then seen their
    /// stamps. Where the number is fresh on the desk, no entry is a Make. The number has a slot, and
    /// the desk holds no turn.
    pub fn take<R: Wait>(&self, rt: &R, desk: &mut Desk<T>, alloc: AllocNo) -> T
        requires own { desk.old.table ≡ self.now }
        requires idle { desk.old.view.turn ≡ None }
        requires slot { (1 ≤ alloc.0) × (alloc.0 ≤ self.now.slots) }
        ensures desk { desk.new ≡ record { table = desk.old.table; view = took desk.old.view (alloc.0 - 1) (T.entries result) } }
        ensures number { T.number result ≡ alloc.0 }
        ensures told { Tells alloc.0 desk.old.view (T.entries result) }
    {
        self.acquire(rt, &mut desk.seat, alloc.0 as usize - 1)
    }

    /// Gives the turn back with its value, and wakes one thread that waits for it, if there is one.
    /// The value has the entries that it was taken with, or one more, which names this number, is a
    /// Make only where the number is fresh on the desk, and has a stamp that the desk drew since the
    /// take. That entry is then one of the desk's calls.
    pub fn give(&self, desk: &mut Desk<T>, alloc: AllocNo, value: T)
        requires own { desk.old.table ≡ self.now }
        requires turn { (t : HeldTurn) × (desk.old.view.turn ≡ Some t) × (suc t.slot ≡ alloc.0) × Extends desk.old.view t (T.entries value) }
        requires number { T.number value ≡ alloc.0 }
        ensures { desk.new ≡ record { table = desk.old.table; view = gave desk.old.view (T.entries value) } }
    {
        let shared = &self.table.shared;
        let slot = alloc.0 as usize - 1;
        let found = shared.exchange(&mut desk.seat, slot, Some(value));
        let None = found else { unreachable!() };
        let word = place_of(slot);
        if shared.swap::<GiveTurn>(&mut desk.seat, word, FREE) == WAITED {
            shared.wake_one(word);
        }
    }
}
