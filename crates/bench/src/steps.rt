//! A machine's own work: local instructions, and the steps of a flat loop.
ghost use Rattle.std.specs.Prelude.{◌≡◌, ◌<◌, length, None, IfOk, IfSome, IsTrue};
ghost use Rattle.history.specs.declared.ask.Ask.TheVariants as asked;
ghost use Rattle.thread_machine.specs.Thread.{thread_ask};
ghost use Rattle.history.specs.declared.entry.Verdict.TheVariants.{Clean};
ghost use Rattle.history.specs.Replies.{Answers};
ghost use Rattle.thread_parts.specs.Fits.{ReplyFits};

use bsan_ids::{AllocNo, ListOf, NoMemory, Prov, Stamp, Tag, ThreadNo};
use history::{Ask, Entry, Plain, Reply, Request, Verdict};
use ir_ast::{BinaryOp, Place, Ty, Width};
use std::alloc::Global;
use target_code::{Line, Operand, Target, TargetFunction};
use thread_machine::Machine;

const WORD: Ty = Ty::Int(Width::W64);

/// What a loop does beside its jump.
#[derive(Clone, Copy)]
pub enum LoopOf {
    Additions,
    Loads,
}

/// One turn of a loop of additions.
fn addition(alloc: Global) -> Result<Vec<Line>, NoMemory> {
    let lines = vec![in alloc;
        Line::Turn { number: 2 },
        Line::Binary {
            slot: 1,
            op: BinaryOp::Add,
            width: Width::W64,
            a: Operand::Slot(1),
            b: Operand::Number(1)
        },
        Line::Turn { number: 3 },
        Line::Jump { block: 1 },
    ]?;
    Ok(lines)
}

/// One turn of a loop of loads.
fn load(alloc: Global) -> Result<Vec<Line>, NoMemory> {
    let lines = vec![in alloc;
        Line::Turn { number: 2 },
        Line::CheckRead {
            ptr: 0,
            ptr_shadow: 0,
            bytes: 8
        },
        Line::Load {
            slot: 1,
            ty: WORD,
            ptr: 0
        },
        Line::Turn { number: 3 },
        Line::Jump { block: 1 },
    ]?;
    Ok(lines)
}

/// A function of two blocks: the first makes an allocation, and the second is the loop.
fn looping(alloc: Global, what: LoopOf) -> Result<Target, NoMemory>
    ensures { IfOk result (λ t. 0 < length t.functions) }
{
    let first = vec![in alloc;
        Line::Turn { number: 0 },
        Line::Make {
            slot: 0,
            shadow: 0,
            place: Place::Heap,
            size: Operand::Number(8)
        },
        Line::Turn { number: 1 },
        Line::Jump { block: 1 },
    ]?;
    let lines = match what {
        LoopOf::Additions => addition(alloc)?,
        LoopOf::Loads => load(alloc)?,
    };
    let function = TargetFunction {
        name: ListOf::from_slice(alloc, b"main")?,
        slots: 2,
        entry: ListOf::from_vec(vec![in alloc; Line::PushFrame]?),
        blocks: ListOf::from_vec(vec![in alloc; ListOf::from_vec(first), ListOf::from_vec(lines)]?),
    };
    Ok(Target {
        version: 1,
        functions: ListOf::from_vec(vec![in alloc; function]?),
    })
}

/// An entry with a clean reply.
fn entry(alloc: Option<AllocNo>, request: Request, plain: Plain, carried: Option<Prov>) -> Entry
    ensures { result ≡ record { thread = record { 0 = 0 }; stamp = record { 0 = 1 }; site = 0; alloc = alloc; request = request; reply = record { plain = plain; carried = carried; verdict = Clean } } }
{
    Entry {
        thread: ThreadNo(0),
        stamp: Stamp(1),
        site: 0,
        alloc,
        request,
        reply: Reply {
            plain,
            carried,
            verdict: Verdict::Clean,
        },
    }
}

/// An entry with a clean reply to a load of a word.
fn loaded(alloc: AllocNo, request: Request) -> Option<Entry>
    ensures answers { IfSome result (λ e. Answers (asked.At alloc request) e) }
    ensures fits { IfSome result (λ e. ReplyFits None e e.request) }
{
    match request {
        Request::Load {
            ty: Ty::Int(Width::W64),
            ..
        } => Some(entry(Some(alloc), request, Plain::Value(7), None)),
        _ => None,
    }
}

/// Goes on with a clean reply to what a part of a loop asks. Answers whether it is one.
fn reply(machine: &mut Machine<'_>, ask: Ask) -> bool
    requires asks { thread_ask machine.old.setting machine.old.thread ≡ ask }
    requires prepared { IsTrue machine.old.prepared }
{
    match ask {
        Ask::Make { size, place } => {
            let number = AllocNo(1);
            let carried = Some(Prov {
                alloc: number,
                tag: Tag(1),
            });
            let request = Request::Make { size, place };
            machine.answer(&entry(Some(number), request, Plain::Made(number), carried));
            true
        }
        Ask::At { alloc, request } => match loaded(alloc, request) {
            Some(entry) => {
                machine.answer(&entry);
                true
            }
            None => false,
        },
        _ => false,
    }
}

/// Goes on with a part of a loop, where it is one. Answers whether it is.
fn part(machine: &mut Machine<'_>) -> Result<bool, NoMemory> {
    machine.prepare()?;
    let ask = machine.ask()?;
    if let Ask::Turn = ask {
        machine.turn();
        Ok(true)
    } else {
        Ok(reply(machine, ask))
    }
}

/// Runs so many parts of a loop, with clean replies. Answers how many instructions were counted.
pub fn run(alloc: Global, what: LoopOf, parts: u32) -> Result<u64, NoMemory> {
    let target = looping(alloc, what)?;
    let mut machine = Machine::start(alloc, &target, 0, &[], &[])?;
    for _ in 0..parts {
        if !part(&mut machine)? {
            break;
        }
    }
    Ok(machine.instructions())
}
