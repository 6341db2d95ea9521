//! Whether threads start before they go on, and end before they are joined.
ghost use Rattle.std.specs.Prelude.{◌≡◌, ◌≢◌, ◌↔◌, ◌<◌, ◌≤◌, ℕ, IfOk, IsTrue, None, Some, false, slice_get, true};
ghost use Rattle.history.specs.Objects.{clean};
ghost use Rattle.history.specs.declared.entry.Plain.TheVariants as plain;
ghost use Rattle.history.specs.declared.entry.Verdict.TheVariants as verdict;
ghost use Rattle.ir_ast.specs.HostAnswers.{Allows, MayAnswer};
ghost use Rattle.runs.specs.Parts.{child_of};
ghost use Rattle.source_sem.specs.Records.{allowed};
ghost use Rattle.record_file.specs.Following.{ComeInTurn, ComesNext, ComesRight, first_thread, is_set, joined_by, no_thread, set_by};

use bsan_ids::{AllocNo, Limits, NoMemory, ThreadNo};
use history::{Entry, Plain, Reply, Request, Verdict};
use ir_ast::{HostRule, HostTable};
use std::alloc::Global;

/// How many threads there may be.
const THREADS: usize = 1024;

/// Whether the flag of this number is set.
fn is_set(flags: &[bool], number: u32) -> bool
    ensures { result ≡ is_set flags.now number }
{
    match flags.get(number as usize) {
        Some(flag) => *flag,
        None => false,
    }
}

/// Sets the flag of this number.
#[tactic(auto, using(crate::proofs::Ordering::set_beyond))]
fn set(flags: &mut Vec<bool>, number: Option<u32>)
    ensures { flags.new.items ≡ set_by flags.old.items number }
{
    let Some(number) = number else {
        return;
    };
    let at = number as usize;
    if at < flags.len() {
        flags[at] = true;
    }
}

/// The thread that an entry starts.
fn child_of(entry: &Entry) -> Option<u32>
    ensures { result ≡ child_of entry.now }
{
    match (&entry.request, &entry.reply.plain) {
        (Request::Spawn { .. }, Plain::Spawned(child)) => Some(child.0),
        _ => None,
    }
}

/// The thread that a request joins.
fn joined_by(request: &Request) -> Option<u32>
    ensures { result ≡ joined_by request.now }
{
    match request {
        Request::Join { child } => Some(child.0),
        _ => None,
    }
}

/// Whether a host function of this rule may answer so.
fn allows(rule: HostRule, first: u64, second: u64, answer: u64) -> bool
    ensures { IsTrue result ↔ Allows rule first second answer }
{
    match rule {
        HostRule::Min => answer == first.min(second),
        HostRule::Max => answer == first.max(second),
        HostRule::Popcount => answer == u64::from(first.count_ones()),
        HostRule::ByteSwap => answer == first.swap_bytes(),
        HostRule::Any => true,
    }
}

/// Whether the host function of this number may answer so.
fn may_answer(hosts: &HostTable, number: u32, first: u64, second: u64, answer: u64) -> bool
    ensures { IsTrue result ↔ MayAnswer (slice_get hosts.now.entries number) first second answer }
{
    match hosts.entries.as_slice().get(number as usize) {
        Some(host) => allows(host.rule, first, second, answer),
        None => false,
    }
}

/// Whether a reply is this, without provenance and violation.
fn is_clean(reply: &Reply, plain: Plain) -> bool
    ensures { IsTrue result ↔ (reply.now ≡ clean plain None) }
{
    reply.equals(&Reply {
        plain,
        carried: None,
        verdict: Verdict::Clean,
    })
}

/// Whether a reply is a word that the host function of this number may answer.
fn answers_host(hosts: &HostTable, number: u32, first: u64, second: u64, reply: &Reply) -> bool
    ensures { IsTrue result ↔ ((v : ℕ) × MayAnswer (slice_get hosts.now.entries number) first second v × (reply.now ≡ clean (plain.Value v) None)) }
{
    match &reply.plain {
        Plain::Value(word) => may_answer(hosts, number, first, second, *word)
            && is_clean(reply, Plain::Value(*word)),
        _ => false,
    }
}

/// Whether a reply is a thread that has not started.
fn starts_new(started: &[bool], reply: &Reply) -> bool
    ensures { IsTrue result ↔ ((c : ThreadNo) × (0 < c.0) × (c.0 ≤ 1023) × (is_set started.now c.0 ≡ false) × (reply.now ≡ clean (plain.Spawned c) None)) }
{
    match &reply.plain {
        Plain::Spawned(child) => 0 < child.0
            && child.0 <= 1023
            && !is_set(started, child.0)
            && is_clean(reply, Plain::Spawned(*child)),
        _ => false,
    }
}

/// Whether a number is there, and is one from 1 to the limit.
fn is_within(number: Option<AllocNo>, most: u32) -> bool
    ensures { IsTrue result ↔ ((a : AllocNo) × (number ≡ Some a) × (0 < a.0) × (a.0 ≤ most)) }
{
    match number {
        Some(number) => 0 < number.0 && number.0 <= most,
        None => false,
    }
}

fn is_somewhere(number: Option<AllocNo>) -> bool
    ensures { IsTrue result ↔ ((a : AllocNo) × (number ≡ Some a)) }
{
    number.is_some()
}

/// Whether a join is of a started thread, another than its own, and without a violation.
fn joins_started(started: &[bool], child: ThreadNo, entry: &Entry) -> bool
    ensures { IsTrue result ↔ ((is_set started.now child.0 ≡ true) × (child.0 ≢ entry.now.thread.0) × (entry.now.reply.verdict ≡ verdict.Clean)) }
{
    is_set(started, child.0) && child.0 != entry.thread.0 && entry.reply.verdict == Verdict::Clean
}

/// Whether the entry comes right by itself and by who has started.
fn comes_right(limits: &Limits, hosts: &HostTable, started: &[bool], entry: &Entry) -> bool
    ensures { IsTrue result ↔ ComesRight (allowed limits.now hosts.now) started.now entry.now entry.now.request }
{
    match &entry.request {
        Request::Make { .. } => is_within(entry.alloc, limits.allocs),
        Request::Print { .. } => is_clean(&entry.reply, Plain::Done),
        Request::Host {
            number,
            first,
            second,
        } => answers_host(hosts, *number, *first, *second, &entry.reply),
        Request::Spawn { .. } => starts_new(started, &entry.reply),
        Request::Join { child } => joins_started(started, *child, entry),
        _ => is_somewhere(entry.alloc),
    }
}

/// Whether the entry is of a thread that has started and was not joined, and comes right.
fn comes_next(
    limits: &Limits,
    hosts: &HostTable,
    started: &[bool],
    joined: &[bool],
    entry: &Entry,
) -> bool
    ensures { IsTrue result ↔ ComesNext (allowed limits.now hosts.now) started.now joined.now entry.now }
{
    is_set(started, entry.thread.0)
        && !is_set(joined, entry.thread.0)
        && comes_right(limits, hosts, started, entry)
}

/// Whether each entry, in turn, is of a started thread that was not joined, and comes right.
///
/// # Errors
///
/// `NoMemory`: out of memory.
pub(crate) fn come_in_turn(
    alloc: Global,
    limits: &Limits,
    hosts: &HostTable,
    entries: &[Entry],
) -> Result<bool, NoMemory>
    ensures { IfOk result (λ holds. IsTrue holds ↔ ComeInTurn (allowed limits.now hosts.now) first_thread no_thread entries.now) }
{
    let mut started = vec![in alloc; false; THREADS]?;
    let mut joined = vec![in alloc; false; THREADS]?;
    set(&mut started, Some(0));
    for entry in entries {
        if !comes_next(limits, hosts, &started, &joined, entry) {
            return Ok(false);
        }
        set(&mut started, child_of(entry));
        set(&mut joined, joined_by(&entry.request));
    }
    Ok(true)
}
