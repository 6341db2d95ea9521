//! A right record is read again from its text: each number of it is in the range of its type, and each entry is of its log's
//! thread and names its allocation.
ghost use Rattle.std.specs.Prelude.{IsSome};
ghost use Rattle.std.specs.List.{AllByRecursion};
ghost use Rattle.history.specs.Replies.{IsOnNumber};
ghost use Rattle.history.specs.declared.log.ThreadLog.{ThreadLog};
ghost use Rattle.record_text.specs.Lines.{head_of, record_text, step_of};
ghost use Rattle.record_text.specs.Ranges.{AllocFits, CountersFit, EndFits, Fits8, Fits32, Fits64, FragFits, HeadFits, ParentFits, PieceFits, PlainFits, ProvFits, RequestFits, StepFits, TrapFits, VerdictFits, asked};
ghost use Rattle.record_text.specs.Texts.{IsTextOf, LogFits};
ghost use Rattle.source_sem.specs.Records.{IsRightRecord};
ghost use Rattle.runs.specs.Parts.{Has};
ghost use Rattle.record_file.specs.Naming.{HasNamed, IsAddressed, IsNamed};

use bsan_ids::{AllocNo, Counters, Frag, Limits, Prov, ThreadNo};
use eager_tree::Violation;
use history::{End, Entry, Piece, Plain, Request, RunRecord, ThreadLog, Trap, Verdict};
use ir_ast::HostTable;
use ir_rules::Verified;

/// A number of 8 bits.
fn fits8(number: u8)
    ensures { Fits8 number }
{}

/// A number of 32 bits.
fn fits32(number: u32)
    ensures { Fits32 number }
{}

/// A number of 64 bits.
fn fits64(number: u64)
    ensures { Fits64 number }
{}

fn prov_fits(prov: Option<Prov>)
    ensures { ProvFits prov }
{
    if let Some(prov) = prov {
        fits32(prov.alloc.0);
        fits64(prov.tag.0);
    }
}

fn parent_fits(parent: Option<ThreadNo>)
    ensures { ParentFits parent }
{
    if let Some(number) = parent {
        fits32(number.0);
    }
}

fn frag_fits(frag: Option<Frag>)
    ensures { FragFits frag }
{
    if let Some(frag) = frag {
        fits32(frag.prov.alloc.0);
        fits64(frag.prov.tag.0);
        fits8(frag.index);
    }
}

/// A piece has at most 32 bytes.
fn piece_fits(piece: &Piece)
    ensures { PieceFits piece.now }
{
    for at in 0..piece.len() {
        let (byte, frag) = piece.get(at);
        fits8(byte);
        frag_fits(frag);
    }
}

fn trap_fits(trap: Trap)
    ensures { TrapFits trap }
{
    match trap {
        Trap::AllocLimit { drawn } | Trap::ThreadLimit { drawn } => fits64(drawn),
        _ => {}
    }
}

fn end_fits(end: End)
    ensures { EndFits end }
{
    match end {
        End::Returned { value, carried } => {
            fits64(value);
            prov_fits(carried);
        }
        End::Trapped(trap) => trap_fits(trap),
        End::StepLimit(stamp) => fits64(stamp.0),
        End::ChildEnded(child) => fits32(child.0),
        End::TurnLimit | End::NoMemory => {}
    }
}

/// The number of an allocation that is asked.
fn alloc_fits(alloc: Option<AllocNo>)
    requires { IsSome alloc }
    ensures { AllocFits alloc }
{
    if let Some(number) = alloc {
        fits32(number.0);
    }
}

/// An allocation that is asked, a place in it, and the provenance that is used.
fn access_fits(alloc: Option<AllocNo>, at: u32, prov: Option<Prov>)
    requires { IsSome alloc }
    ensures alloc { AllocFits alloc }
    ensures at { Fits32 at }
    ensures prov { ProvFits prov }
{
    alloc_fits(alloc);
    fits32(at);
    prov_fits(prov);
}

/// A request that an allocation of a number is asked.
fn asks_number(alloc: Option<AllocNo>, request: &Request)
    requires some { IsSome alloc }
    requires asks { IsOnNumber request.now }
    ensures { RequestFits (alloc, request.now) }
{
    match request {
        Request::Load { at, prov, .. } | Request::Free { at, prov, .. } => {
            access_fits(alloc, *at, *prov);
        }
        Request::Store {
            at,
            value,
            carried,
            prov,
            ..
        } => {
            access_fits(alloc, *at, *prov);
            fits64(*value);
            prov_fits(*carried);
        }
        Request::Modify {
            at,
            value,
            prov,
            ..
        } => {
            access_fits(alloc, *at, *prov);
            fits64(*value);
        }
        Request::CmpXchg {
            at,
            expected,
            value,
            prov,
            ..
        } => {
            access_fits(alloc, *at, *prov);
            fits64(*expected);
            fits64(*value);
        }
        Request::CopyOut { at, len, prov } => {
            access_fits(alloc, *at, *prov);
            fits8(*len);
        }
        Request::CopyIn { at, piece, prov } => {
            access_fits(alloc, *at, *prov);
            piece_fits(piece);
        }
        Request::Retag { at, len, prov, .. } => {
            access_fits(alloc, *at, *prov);
            fits32(*len);
        }
        Request::EndProtector { tag } => {
            alloc_fits(alloc);
            fits64(tag.0);
        }
        _ => {}
    }
}

/// A request, with the allocation that it addresses.
fn request_fits(alloc: Option<AllocNo>, request: &Request)
    requires { IsAddressed alloc request.now }
    ensures { RequestFits (asked alloc request.now, request.now) }
{
    match request {
        Request::Make { size, .. } => fits32(*size),
        Request::Print { value } => fits64(*value),
        Request::Host {
            number,
            first,
            second,
        } => {
            fits32(*number);
            fits64(*first);
            fits64(*second);
        }
        Request::Spawn { function } => fits32(*function),
        Request::Join { child } => fits32(child.0),
        _ => asks_number(alloc, request),
    }
}

fn plain_fits(plain: &Plain)
    ensures { PlainFits plain.now }
{
    match plain {
        Plain::Made(number) => fits32(number.0),
        Plain::Value(value) => fits64(*value),
        Plain::Copied(piece) => piece_fits(piece),
        Plain::Spawned(number) => fits32(number.0),
        Plain::Trapped(trap) => trap_fits(*trap),
        Plain::Done | Plain::Retagged { .. } => {}
    }
}

fn verdict_fits(verdict: Verdict)
    ensures { VerdictFits verdict }
{
    match verdict {
        Verdict::Violated(
            Violation::Denied { offset, node, .. } | Violation::StrongFree { offset, node, .. },
        ) => {
            fits32(offset);
            fits64(node.0);
        }
        _ => {}
    }
}

/// The step of an entry.
fn step_fits(entry: &Entry)
    requires { IsNamed entry.now }
    ensures { StepFits (step_of entry.now) }
{
    fits64(entry.stamp.0);
    fits32(entry.site);
    request_fits(entry.alloc, &entry.request);
    plain_fits(&entry.reply.plain);
    prov_fits(entry.reply.carried);
    verdict_fits(entry.reply.verdict);
}

/// A log but for its entries.
fn head_fits(log: &ThreadLog)
    ensures { HeadFits (head_of log.now) }
{
    fits32(log.number.0);
    parent_fits(log.parent);
    fits32(log.entry_function);
    fits64(log.instructions);
    fits32(log.last);
    end_fits(log.end);
}

fn log_fits(log: &ThreadLog)
    requires { HasNamed log.now }
    ensures { LogFits log.now }
{
    head_fits(log);
    for entry in log.entries.as_slice() {
        step_fits(entry);
    }
}

fn logs_fit(logs: &[ThreadLog])
    requires { (log : ThreadLog) → Has logs.now log → HasNamed log }
    ensures { AllByRecursion LogFits logs.now }
{
    for log in logs {
        log_fits(log);
    }
}

fn counters_fit(drawn: Counters)
    ensures { CountersFit drawn }
{
    fits64(drawn.stamps);
    fits64(drawn.allocs);
    fits64(drawn.threads);
}

/// A right record, of whatever run it is, is that of its text. So `read_record`, given the bytes that `write_record` answers for
/// it and the limit on the run's allocations, answers this record, unless memory runs out.
pub fn is_read_again(
    program: &Verified,
    input: &[u8],
    limits: &Limits,
    hosts: &HostTable,
    kept: &RunRecord,
)
    requires { IsRightRecord program.now.program input.now hosts.now limits.now kept.now }
    ensures { IsTextOf limits.now.allocs (record_text kept.now) kept.now }
{
    let _ = program;
    let _ = input;
    let _ = limits;
    let _ = hosts;
    logs_fit(kept.threads.as_slice());
    counters_fit(kept.words);
}
