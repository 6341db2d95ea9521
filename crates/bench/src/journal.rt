//! A small example of a `Logged` value, and calls on it.
ghost use Rattle.std.specs.Prelude.{◌≡◌, ◌++◌, ◌∷◌, [], ◌<◌, ◌≤◌, ℕ, All, None, IfOk, IfSome, IfNone, vec_len, vec_capacity};
ghost use Rattle.bench.specs.Journals.{AreBlankJournals, IsCall, Answers, Calls, IsChild};
ghost use Rattle.turn_lock.specs.Steps.{drew_thread};

use bsan_ids::{AllocNo, NoMemory, Stamp, Tag, ThreadNo};
use history::{Entry, Logged, Plain, Reply, Request, Verdict};
use std::alloc::Global;
use std::sync::Wait;
use turn_lock::{Desk, GREATEST_STAMP, GREATEST_THREAD, Turns};

/// An allocation's number and the entries of the calls on it, and nothing more of it.
#[derive(Drop)]
pub struct Journal {
    number: AllocNo,
    entries: Vec<Entry>,
}

impl Logged for Journal {
    ghost number = { λ j. j.number.0 };

    ghost entries = { λ j. j.entries.items };
}

impl Journal {
    /// A journal of this number without entries.
    pub fn new(alloc: Global, number: AllocNo) -> Journal
        ensures { (result.number ≡ number) × (result.entries.items ≡ []) }
    {
        Journal {
            number,
            entries: Vec::new(alloc),
        }
    }

    /// The entries of the calls on it, in order.
    pub fn entries(&self) -> &[Entry]
        ensures { result.now ≡ self.now.entries.items }
    {
        self.entries.as_slice()
    }

    // Takes the memory for one entry more.
    fn reserve(&mut self) -> Result<(), NoMemory>
        ensures same { (self.new.number ≡ self.old.number) × (self.new.entries.items ≡ self.old.entries.items) }
        ensures room { IfOk result (λ _. vec_len self.new.entries < vec_capacity self.new.entries) }
    {
        self.entries.reserve(1)?;
        Ok(())
    }

    fn push(&mut self, entry: Entry)
        requires { vec_len self.old.entries < vec_capacity self.old.entries }
        ensures { (self.new.number ≡ self.old.number) × (self.new.entries.items ≡ self.old.entries.items ++ entry ∷ []) }
    {
        self.entries.push_reserved(entry);
    }
}

// The entry of a call that changes nothing.
fn entry_of_call(thread: ThreadNo, site: u32, alloc: AllocNo, stamp: Stamp) -> Entry
    ensures { IsCall thread site alloc stamp result }
{
    Entry {
        thread,
        stamp,
        site,
        alloc: Some(alloc),
        request: Request::EndProtector { tag: Tag(1) },
        reply: Reply {
            plain: Plain::Done,
            carried: None,
            verdict: Verdict::Clean,
        },
    }
}

/// Makes one call: takes the turn of the number and the memory for the entry, draws the stamp,
/// and gives the turn back.
///
/// # Errors
///
/// `NoMemory`: out of memory; then no call was made.
pub fn call<R: Wait>(
    rt: &R,
    turns: &Turns<Journal>,
    desk: &mut Desk<Journal>,
    thread: ThreadNo,
    site: u32,
    alloc: AllocNo,
) -> Result<Stamp, NoMemory>
    requires own { desk.old.table ≡ turns.now }
    requires idle { desk.old.view.turn ≡ None }
    requires room { All (λ n. n ≤ GREATEST_STAMP) desk.old.view.stamps.own }
    requires slot { (1 ≤ alloc.0) × (alloc.0 ≤ turns.now.slots) }
    ensures { Answers thread site alloc desk.old desk.new result }
{
    let mut journal = turns.take(rt, desk, alloc);
    if journal.reserve().is_err() {
        turns.give(desk, alloc, journal);
        return Err(NoMemory);
    }
    let stamp = turns.draw_stamp(desk);
    journal.push(entry_of_call(thread, site, alloc, stamp));
    turns.give(desk, alloc, journal);
    Ok(stamp)
}

/// `count` journals without entries, with the numbers 1 and so on.
///
/// # Errors
///
/// `NoMemory`: out of memory.
pub fn journals(alloc: Global, count: u32) -> Result<Vec<Journal>, NoMemory>
    requires { count ≤ 65536 }
    ensures many { IfOk result (λ all. vec_len all ≡ count) }
    ensures blank { IfOk result (λ all. AreBlankJournals all.items) }
{
    let mut all = Vec::new(alloc);
    for k in 0..count {
        all.push(Journal::new(alloc, AllocNo(k + 1)))?;
    }
    Ok(all)
}

/// Draws a thread number and splits a desk for it. There is none where the number is above 1,023.
pub fn next_desk<T: Logged>(turns: &Turns<T>, desk: &mut Desk<T>) -> Option<(ThreadNo, Desk<T>)>
    requires own { desk.old.table ≡ turns.now }
    requires idle { desk.old.view.turn ≡ None }
    requires room { All (λ n. n ≤ GREATEST_THREAD) desk.old.view.threads.own }
    ensures some { IfSome result (λ r. IsChild desk.old desk.new r.0 r.1) }
    ensures none { IfNone result ((n : ℕ) × (GREATEST_THREAD < n) × (desk.new ≡ record { table = desk.old.table; view = drew_thread desk.old.view n })) }
{
    let number = turns.draw_thread(desk);
    if number > GREATEST_THREAD {
        return None;
    }
    let name = ThreadNo(number as u32);
    let child = turns.split(desk, name);
    Some((name, child))
}

/// Makes at most `count` calls on one number, none of which is a Make, and answers how many were
/// made. Their sites are 0, 1 and so on, in order.
pub fn calls<R: Wait>(
    rt: &R,
    turns: &Turns<Journal>,
    desk: &mut Desk<Journal>,
    thread: ThreadNo,
    alloc: AllocNo,
    count: u32,
) -> u32
    requires own { desk.old.table ≡ turns.now }
    requires idle { desk.old.view.turn ≡ None }
    requires room { All (λ n. n ≤ GREATEST_STAMP) desk.old.view.stamps.own }
    requires slot { (1 ≤ alloc.0) × (alloc.0 ≤ turns.now.slots) }
    ensures calls { Calls thread alloc result desk.old desk.new }
    ensures within { result ≤ count }
{
    for site in 0..count {
        let Ok(stamp) = call(rt, turns, desk, thread, site, alloc) else {
            return site;
        };
        if stamp.0 > GREATEST_STAMP {
            return site + 1;
        }
    }
    count
}
