//! The text of a record, as it is written.
ghost use Rattle.std.specs.Prelude.{◌≡◌, ◌++◌, IfOk, OnOk, string_bytes};
ghost use Rattle.std.specs.List.{flat_map, join_with_byte};
ghost use Rattle.history.specs.Restriction.{number_of};
ghost use Rattle.record_text.specs.Words as words;
ghost use Rattle.record_text.specs.Lines as lines;
ghost use Rattle.record_text.specs.Written as written;

use crate::names::{flag_word, guard_word, perm_name, place_word, side_word, trap_name};
use bsan_ids::{AllocNo, Counters, Frag, NoMemory, Prov, ThreadNo};
use eager_tree::Violation;
use history::{End, Entry, Piece, Plain, Request, RunRecord, ThreadLog, Trap, Verdict};
use ir_ast::{ModifyOp, Ty, Width, kind_word, modify_word, type_word, width_word};
use perm_table::{Guard, RetagKind};
use std::alloc::{AllocError, Global};

fn prov_word(alloc: Global, prov: Option<Prov>) -> Result<String, AllocError>
    ensures { IfOk result (λ text. string_bytes text ≡ words.prov_word prov) }
{
    match prov {
        None => format!(in alloc; "-"),
        Some(prov) => {
            let number = prov.alloc.0;
            let tag = prov.tag.0;
            format!(in alloc; "{number}.{tag}")
        }
    }
}

fn parent_word(alloc: Global, parent: Option<ThreadNo>) -> Result<String, AllocError>
    ensures { IfOk result (λ text. string_bytes text ≡ words.parent_word parent) }
{
    match parent {
        None => format!(in alloc; "-"),
        Some(parent) => {
            let number = parent.0;
            format!(in alloc; "{number}")
        }
    }
}

fn byte_word(alloc: Global, byte: u8, frag: Option<Frag>) -> Result<String, AllocError>
    ensures { IfOk result (λ text. string_bytes text ≡ words.byte_word (byte, frag)) }
{
    match frag {
        None => format!(in alloc; "{byte}"),
        Some(frag) => {
            let number = frag.prov.alloc.0;
            let tag = frag.prov.tag.0;
            let index = frag.index;
            format!(in alloc; "{byte}:{number}.{tag}.{index}")
        }
    }
}

/// What stands before a byte of a piece: nothing before the first one.
fn comma(at: usize) -> &'static str
    ensures { result.now ≡ written.comma at }
{
    if at > 0 { "," } else { "" }
}

/// The bytes of a piece, with commas between them.
fn bytes_word(alloc: Global, piece: &Piece) -> Result<String, AllocError>
    ensures { IfOk result (λ text. string_bytes text ≡ words.bytes_word piece.now) }
{
    let mut text = String::new(alloc);
    for at in 0..piece.len() {
        text.push_str(comma(at))?;
        let (byte, frag) = piece.get(at);
        text.push_str(byte_word(alloc, byte, frag)?.as_str())?;
    }
    Ok(text)
}

fn piece_word(alloc: Global, piece: &Piece) -> Result<String, AllocError>
    ensures { IfOk result (λ text. string_bytes text ≡ words.piece_word piece.now) }
{
    let bytes = bytes_word(alloc, piece)?;
    format!(in alloc; "[{bytes}]")
}

fn trap_words(alloc: Global, trap: Trap) -> Result<String, AllocError>
    ensures { IfOk result (λ text. string_bytes text ≡ join_with_byte 32 (words.trap_words trap)) }
{
    let name = trap_name(trap);
    match trap {
        Trap::AllocLimit { drawn } | Trap::ThreadLimit { drawn } => {
            format!(in alloc; "{name} {drawn}")
        }
        _ => format!(in alloc; "{name}"),
    }
}

fn end_words(alloc: Global, end: End) -> Result<String, AllocError>
    ensures { IfOk result (λ text. string_bytes text ≡ join_with_byte 32 (words.end_words end)) }
{
    match end {
        End::Returned { value, carried } => {
            let prov = prov_word(alloc, carried)?;
            format!(in alloc; "returned {value} {prov}")
        }
        End::Trapped(trap) => {
            let words = trap_words(alloc, trap)?;
            format!(in alloc; "trapped {words}")
        }
        End::StepLimit(stamp) => {
            let number = stamp.0;
            format!(in alloc; "steplimit {number}")
        }
        End::TurnLimit => format!(in alloc; "turnlimit"),
        End::NoMemory => format!(in alloc; "nomemory"),
        End::ChildEnded(child) => {
            let number = child.0;
            format!(in alloc; "childended {number}")
        }
    }
}

fn alloc_number(alloc: Option<AllocNo>) -> u32
    ensures { result ≡ number_of alloc }
{
    match alloc {
        Some(number) => number.0,
        None => 0,
    }
}

/// The words of a request, and of the allocation that it asks.
fn request_words(
    alloc: Global,
    asked: Option<AllocNo>,
    request: &Request,
) -> Result<String, AllocError>
    ensures { IfOk result (λ text. string_bytes text ≡ join_with_byte 32 (words.request_words asked request.now)) }
{
    let number = alloc_number(asked);
    match request {
        Request::Load { at, ty, prov } => {
            let ty = type_word(*ty);
            let prov = prov_word(alloc, *prov)?;
            format!(in alloc; "load {number} {at} {ty} {prov}")
        }
        Request::Store {
            at,
            ty,
            value,
            carried,
            prov,
        } => {
            let ty = type_word(*ty);
            let carried = prov_word(alloc, *carried)?;
            let prov = prov_word(alloc, *prov)?;
            format!(in alloc; "store {number} {at} {ty} {value} {carried} {prov}")
        }
        Request::Modify {
            at,
            width,
            op,
            value,
            prov,
        } => {
            let width = width_word(*width);
            let op = modify_word(*op);
            let prov = prov_word(alloc, *prov)?;
            format!(in alloc; "rmw {number} {at} {width} {op} {value} {prov}")
        }
        Request::CmpXchg {
            at,
            width,
            expected,
            value,
            prov,
        } => {
            let width = width_word(*width);
            let prov = prov_word(alloc, *prov)?;
            format!(in alloc; "cmpxchg {number} {at} {width} {expected} {value} {prov}")
        }
        Request::CopyOut { at, len, prov } => {
            let prov = prov_word(alloc, *prov)?;
            format!(in alloc; "out {number} {at} {len} {prov}")
        }
        Request::CopyIn { at, piece, prov } => {
            let bytes = piece_word(alloc, piece)?;
            let prov = prov_word(alloc, *prov)?;
            format!(in alloc; "in {number} {at} {bytes} {prov}")
        }
        Request::Retag {
            at,
            len,
            kind,
            guard,
            prov,
        } => {
            let kind = kind_word(*kind);
            let guard = guard_word(*guard);
            let prov = prov_word(alloc, *prov)?;
            format!(in alloc; "retag {number} {at} {len} {kind} {guard} {prov}")
        }
        Request::EndProtector { tag } => {
            let tag = tag.0;
            format!(in alloc; "endprotector {number} {tag}")
        }
        Request::Free { at, stack, prov } => {
            let stack = flag_word(*stack);
            let prov = prov_word(alloc, *prov)?;
            format!(in alloc; "free {number} {at} {stack} {prov}")
        }
        Request::Make { size, place } => {
            let place = place_word(*place);
            format!(in alloc; "make {size} {place}")
        }
        Request::Print { value } => format!(in alloc; "print {value}"),
        Request::Host {
            number,
            first,
            second,
        } => format!(in alloc; "host {number} {first} {second}"),
        Request::Spawn { function } => format!(in alloc; "spawn {function}"),
        Request::Join { child } => {
            let child = child.0;
            format!(in alloc; "join {child}")
        }
    }
}

fn plain_words(alloc: Global, plain: &Plain) -> Result<String, AllocError>
    ensures { IfOk result (λ text. string_bytes text ≡ join_with_byte 32 (words.plain_words plain.now)) }
{
    match plain {
        Plain::Made(number) => {
            let number = number.0;
            format!(in alloc; "made {number}")
        }
        Plain::Value(value) => format!(in alloc; "value {value}"),
        Plain::Copied(piece) => {
            let bytes = piece_word(alloc, piece)?;
            format!(in alloc; "copied {bytes}")
        }
        Plain::Done => format!(in alloc; "done"),
        Plain::Retagged { added } => {
            let added = flag_word(*added);
            format!(in alloc; "retagged {added}")
        }
        Plain::Spawned(number) => {
            let number = number.0;
            format!(in alloc; "spawned {number}")
        }
        Plain::Trapped(trap) => {
            let words = trap_words(alloc, *trap)?;
            format!(in alloc; "trapped {words}")
        }
    }
}

fn violation_words(alloc: Global, violation: Violation) -> Result<String, AllocError>
    ensures { IfOk result (λ text. string_bytes text ≡ join_with_byte 32 (words.violation_words violation)) }
{
    match violation {
        Violation::Denied {
            offset,
            node,
            perm,
            local,
        } => {
            let node = node.0;
            let perm = perm_name(perm);
            let side = side_word(local);
            format!(in alloc; "denied {offset} {node} {perm} {side}")
        }
        Violation::StrongFree { offset, node, perm } => {
            let node = node.0;
            let perm = perm_name(perm);
            format!(in alloc; "strongfree {offset} {node} {perm}")
        }
        Violation::Stranger => format!(in alloc; "stranger"),
        Violation::Freed => format!(in alloc; "freed"),
        Violation::OutOfRange => format!(in alloc; "outofrange"),
    }
}

fn verdict_words(alloc: Global, verdict: Verdict) -> Result<String, AllocError>
    ensures { IfOk result (λ text. string_bytes text ≡ join_with_byte 32 (words.verdict_words verdict)) }
{
    match verdict {
        Verdict::Clean => format!(in alloc; "clean"),
        Verdict::Closed => format!(in alloc; "closed"),
        Verdict::Violated(violation) => violation_words(alloc, violation),
    }
}

/// The line of a step up to its request.
fn step_start(alloc: Global, entry: &Entry) -> Result<String, AllocError>
    ensures { IfOk result (λ text. string_bytes text ≡ written.step_start entry.now) }
{
    let stamp = entry.stamp.0;
    let site = entry.site;
    let request = request_words(alloc, entry.alloc, &entry.request)?;
    format!(in alloc; "{stamp} {site} {request}")
}

/// The line of a step, with its newline.
fn step_line(alloc: Global, entry: &Entry) -> Result<String, AllocError>
    ensures { IfOk result (λ text. string_bytes text ≡ written.step_text entry.now) }
{
    let start = step_start(alloc, entry)?;
    let plain = plain_words(alloc, &entry.reply.plain)?;
    let carried = prov_word(alloc, entry.reply.carried)?;
    let verdict = verdict_words(alloc, entry.reply.verdict)?;
    format!(in alloc; "{start} = {plain} {carried} {verdict}\n")
}

/// The line with which a thread's log begins, up to its function.
fn head_start(alloc: Global, log: &ThreadLog) -> Result<String, AllocError>
    ensures { IfOk result (λ text. string_bytes text ≡ written.head_start log.now) }
{
    let number = log.number.0;
    let parent = parent_word(alloc, log.parent)?;
    let function = log.entry_function;
    format!(in alloc; "thread {number} {parent} {function}")
}

/// The line with which a thread's log begins, with its newline.
fn head_line(alloc: Global, log: &ThreadLog) -> Result<String, AllocError>
    ensures { IfOk result (λ text. string_bytes text ≡ written.head_text log.now) }
{
    let start = head_start(alloc, log)?;
    let instructions = log.instructions;
    let last = log.last;
    let end = end_words(alloc, log.end)?;
    format!(in alloc; "{start} {instructions} {last} {end}\n")
}

/// The first two lines, with their newlines.
fn first_lines(alloc: Global, drawn: Counters) -> Result<String, AllocError>
    ensures { IfOk result (λ text. string_bytes text ≡ written.first_text drawn) }
{
    let stamps = drawn.stamps;
    let allocs = drawn.allocs;
    let threads = drawn.threads;
    format!(in alloc; "record 1\nwords {stamps} {allocs} {threads}\n")
}

/// Appends the lines of a thread's steps.
fn append_steps(alloc: Global, text: &mut Vec<u8>, entries: &[Entry]) -> Result<(), NoMemory>
    ensures { OnOk result (text.new.items ≡ text.old.items ++ flat_map written.step_text entries.now) }
{
    for entry in entries {
        text.extend_from_slice(step_line(alloc, entry)?.as_bytes())?;
    }
    Ok(())
}

/// Appends the lines of a thread's log.
fn append_log(alloc: Global, text: &mut Vec<u8>, log: &ThreadLog) -> Result<(), NoMemory>
    ensures { OnOk result (text.new.items ≡ text.old.items ++ written.log_text log.now) }
{
    text.extend_from_slice(head_line(alloc, log)?.as_bytes())?;
    append_steps(alloc, text, log.entries.as_slice())
}

/// Appends the lines of threads' logs.
fn append_logs(alloc: Global, text: &mut Vec<u8>, logs: &[ThreadLog]) -> Result<(), NoMemory>
    ensures { OnOk result (text.new.items ≡ text.old.items ++ flat_map written.log_text logs.now) }
{
    for log in logs {
        append_log(alloc, text, log)?;
    }
    Ok(())
}

/// The text of a record, without its allocation logs: a line for each thread's log and each of its
/// steps, between two lines at the front and one at the end.
///
/// # Errors
///
/// `NoMemory`: out of memory.
pub fn write_record(alloc: Global, kept: &RunRecord) -> Result<Vec<u8>, NoMemory>
    ensures { IfOk result (λ text. text.items ≡ lines.record_text kept.now) }
{
    let mut text = Vec::from_slice(alloc, first_lines(alloc, kept.words)?.as_bytes())?;
    append_logs(alloc, &mut text, kept.threads.as_slice())?;
    text.extend_from_slice(b"end\n")?;
    Ok(text)
}
