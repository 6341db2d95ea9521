//! Borrows at a function's entry.
ghost use Rattle.std.specs.Prelude.{◌≡◌, ◌==◌, ◌++◌, ◌≤◌, IfOk, OnOk, count_by, find, length, nat_lt, slice_get};
ghost use Rattle.std.specs.List.{flat_map, prefix_len, suffix_len};
ghost use Rattle.std.specs.Option.{option_copied};
ghost use Rattle.perm_table.specs.Table.{is_protected};
ghost use Rattle.history.specs.Merge.{stamp_of};
ghost use Rattle.notes.specs.Entries as entries;

use bsan_ids::{NoMemory, ThreadNo};
use history::{Entry, Request, ThreadLog};
use ir_ast::{Attr, Block, Function, Param};
use perm_table::{Guard, RetagKind};
use std::alloc::Global;

fn is_protected(guard: Guard) -> bool
    ensures { result ≡ is_protected guard }
{
    matches!(guard, Guard::Weak | Guard::Strong)
}

fn is_entry(request: &Request) -> bool
    ensures { result ≡ entries.is_entry request.now }
{
    match request {
        Request::Retag { guard, .. } => is_protected(*guard),
        _ => false,
    }
}

fn block_start(block: &Block) -> u32
    ensures { result ≡ entries.block_start block.now }
{
    match block.insts.get(0) {
        Some(inst) => inst.at,
        None => block.term.at,
    }
}

/// The place of a function's first instruction.
fn function_start(function: &Function) -> Option<u32>
    ensures { result ≡ entries.function_start function.now }
{
    Some(block_start(function.blocks.get(0)?))
}

fn is_place(at: Option<u32>, other: Option<u32>) -> bool
    ensures { result ≡ entries.is_place at other }
{
    match (at, other) {
        (Some(at), Some(other)) => at == other,
        _ => false,
    }
}

fn starting_at(functions: &[Function], at: Option<u32>) -> Option<&Function>
    ensures { option_copied result ≡ find (λ f. entries.is_place at (entries.function_start f)) functions.now }
{
    functions
        .iter()
        .find(|function| is_place(at, function_start(function)))
}

/// The function at whose entry a step is a borrow, if it is one. The step's instruction is at this place.
pub fn entered<'a>(functions: &'a [Function], at: Option<u32>, step: &Entry) -> Option<&'a Function>
    ensures { option_copied result ≡ entries.entered functions.now at step.now }
{
    if is_entry(&step.request) {
        starting_at(functions, at)
    } else {
        None
    }
}

fn is_kind(kind: RetagKind, other: RetagKind) -> bool
    ensures { result ≡ entries.is_kind kind other }
{
    match (kind, other) {
        (RetagKind::Mut, RetagKind::Mut)
        | (RetagKind::Cell, RetagKind::Cell)
        | (RetagKind::Shr, RetagKind::Shr)
        | (RetagKind::Boxed, RetagKind::Boxed)
        | (RetagKind::ShrCell, RetagKind::ShrCell) => true,
        _ => false,
    }
}

fn is_attr(kind: RetagKind, len: u32, attr: Option<Attr>) -> bool
    ensures { result ≡ entries.is_attr kind len attr }
{
    match attr {
        Some(attr) => is_kind(kind, attr.kind) && len == attr.size,
        None => false,
    }
}

fn is_borrowed(request: &Request, param: &Param) -> bool
    ensures { result ≡ entries.is_borrowed request.now param.now }
{
    match request {
        Request::Retag { kind, len, .. } => is_attr(*kind, *len, param.attr),
        _ => false,
    }
}

fn is_retag_as(kind: RetagKind, len: u32, request: &Request) -> bool
    ensures { result ≡ entries.is_retag_as kind len request.now }
{
    match request {
        Request::Retag {
            kind: other,
            len: bytes,
            ..
        } => is_kind(kind, *other) && len == *bytes,
        _ => false,
    }
}

fn is_twin(request: &Request, step: &Entry) -> bool
    ensures { result ≡ entries.is_twin request.now step.now }
{
    match request {
        Request::Retag { kind, len, .. } => is_retag_as(*kind, *len, &step.request),
        _ => false,
    }
}

fn is_entry_at(site: u32, step: &Entry) -> bool
    ensures { result ≡ entries.is_entry_at site step.now }
{
    is_entry(&step.request) && step.site == site
}

fn log_of(threads: &[ThreadLog], number: ThreadNo) -> Option<&ThreadLog>
    ensures { option_copied result ≡ find (λ log. log.number.0 == number.0) threads.now }
{
    threads.iter().find(|log| log.number.0 == number.0)
}

fn steps_of(threads: &[ThreadLog], number: ThreadNo) -> &[Entry]
    ensures { result.now ≡ entries.steps_of threads.now number.0 }
{
    match log_of(threads, number) {
        Some(log) => log.entries.as_slice(),
        None => &[],
    }
}

fn before_len(stamp: u64, steps: &[Entry]) -> usize
    ensures value { result ≡ prefix_len (λ e. nat_lt (stamp_of e) stamp) steps.now }
    ensures within { result ≤ length steps.now }
{
    steps.iter().take_while(|step| step.stamp.0 < stamp).count()
}

fn before(stamp: u64, steps: &[Entry]) -> &[Entry]
    ensures { result.now ≡ entries.before stamp steps.now }
{
    &steps[..before_len(stamp, steps)]
}

fn borrows_len(site: u32, steps: &[Entry]) -> usize
    ensures value { result ≡ suffix_len (entries.is_entry_at site) steps.now }
    ensures within { result ≤ length steps.now }
{
    steps
        .iter()
        .rev()
        .take_while(|step| is_entry_at(site, step))
        .count()
}

/// The borrows at an entry with which these steps end.
fn last_borrows(site: u32, steps: &[Entry]) -> &[Entry]
    ensures { result.now ≡ entries.last_borrows site steps.now }
{
    &steps[steps.len() - borrows_len(site, steps)..]
}

fn twin_count(request: &Request, steps: &[Entry]) -> usize
    ensures { result ≡ count_by (entries.is_twin request.now) steps.now }
{
    steps.iter().filter(|step| is_twin(request, step)).count()
}

/// How many borrows of its kind and with as many bytes the step's thread made at this entry just before it.
fn twins_before(threads: &[ThreadLog], step: &Entry) -> usize
    ensures { result ≡ entries.twins_before threads.now step.now }
{
    let steps = before(step.stamp.0, steps_of(threads, step.thread));
    twin_count(&step.request, last_borrows(step.site, steps))
}

fn push_borrowed(request: &Request, param: &Param, places: &mut Vec<u32>) -> Result<(), NoMemory>
    ensures { OnOk result (places.new.items ≡ places.old.items ++ entries.borrowed_place request.now param.now) }
{
    if is_borrowed(request, param) {
        places.push(param.reg.at)?;
    }
    Ok(())
}

/// The places of the parameters that have the attribute by which such a borrow is made.
fn borrowed_places(alloc: Global, request: &Request, params: &[Param]) -> Result<Vec<u32>, NoMemory>
    ensures { IfOk result (λ places. places.items ≡ flat_map (entries.borrowed_place request.now) params.now) }
{
    let mut places = Vec::new(alloc);
    for param in params {
        push_borrowed(request, param, &mut places)?;
    }
    Ok(places)
}

fn in_turn(places: &[u32], n: usize, other: u32) -> u32
    ensures { result ≡ entries.in_turn places.now n other }
{
    if places.is_empty() {
        return other;
    }
    match places.get(n % places.len()) {
        Some(at) => *at,
        None => other,
    }
}

/// The place of the parameter of which a step is the borrow at the function's entry; that of the function's name where there is none.
pub fn entry_place(
    alloc: Global,
    threads: &[ThreadLog],
    function: &Function,
    step: &Entry,
) -> Result<u32, NoMemory>
    ensures { IfOk result (λ at. at ≡ entries.entry_place threads.now function.now step.now) }
{
    let places = borrowed_places(alloc, &step.request, function.params.as_slice())?;
    Ok(in_turn(
        places.as_slice(),
        twins_before(threads, step),
        function.name.at,
    ))
}
