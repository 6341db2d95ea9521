use bsan_ids::{ListOf, NoMemory};
use ir_ast::{Place, Ty, Width};
use perm_table::{Guard, RetagKind};
use std::alloc::Global;
use std::test::Fail;
use target_check::well_formed;
use target_code::{Line, Operand, Target, TargetFunction, text};

/// A function with three slots, these entry lines and these blocks.
fn target(alloc: Global, entry: Vec<Line>, blocks: Vec<ListOf<Line>>) -> Result<Target, NoMemory> {
    let mut functions = ListOf::new(alloc);
    functions.push(TargetFunction {
        name: ListOf::from_slice(alloc, b"main")?,
        slots: 3,
        entry: ListOf::from_vec(entry),
        blocks: ListOf::from_vec(blocks),
    })?;
    Ok(Target {
        version: 1,
        functions,
    })
}

fn one_block(alloc: Global, block: Vec<Line>) -> Result<Target, NoMemory> {
    let entry = vec![in alloc; Line::PushFrame]?;
    target(alloc, entry, vec![in alloc; ListOf::from_vec(block)]?)
}

/// One block, which begins with these lines and ends with a return.
fn begun(alloc: Global, mut block: Vec<Line>) -> Result<Target, NoMemory> {
    block.push(Line::PopFrame)?;
    block.push(Line::Return)?;
    one_block(alloc, block)
}

/// A shared reborrow of a stack allocation.
fn reborrowed(alloc: Global) -> Result<Vec<Line>, NoMemory> {
    let mut block = Vec::new(alloc);
    block.push(Line::Turn { number: 0 })?;
    block.push(Line::Make {
        slot: 0,
        shadow: 0,
        place: Place::Stack,
        size: Operand::Number(8),
    })?;
    block.push(Line::Turn { number: 1 })?;
    block.push(Line::Retag {
        shadow: 1,
        kind: RetagKind::Shr,
        guard: Guard::Free,
        ptr: 0,
        ptr_shadow: 0,
        size: 8,
    })?;
    block.push(Line::Move { slot: 1, from: 0 })?;
    block.push(Line::Turn { number: 2 })?;
    Ok(block)
}

/// A load through it, and its return.
fn loaded(alloc: Global, mut block: Vec<Line>) -> Result<Target, NoMemory> {
    block.push(Line::Load {
        slot: 2,
        ty: Ty::Int(Width::W64),
        ptr: 1,
    })?;
    block.push(Line::Turn { number: 3 })?;
    block.push(Line::Result {
        value: Operand::Slot(2),
    })?;
    begun(alloc, block)
}

fn unchecked(alloc: Global) -> Result<Target, NoMemory> {
    loaded(alloc, reborrowed(alloc)?)
}

fn worked(alloc: Global) -> Result<Target, NoMemory> {
    let mut block = reborrowed(alloc)?;
    block.push(Line::CheckRead {
        ptr: 1,
        ptr_shadow: 1,
        bytes: 8,
    })?;
    loaded(alloc, block)
}

const WORKED: &str =
    "target 1\nfunc 0 @main slots 3\npushframe\nblock 0\nturn 0\ns0 h0 = make stack 8\nturn 1\nh1 = retag shr free s0 h0 8\ns1 = s0\nturn 2\ncheck read s1 h1 8\ns2 = load i64 s1\nturn 3\nresult = s2\npopframe\nreturn\n";

#[test]
fn worked_code(rt: HostRuntime) -> Result<(), Fail> {
    let alloc = rt.alloc();
    let Ok(whole) = worked(alloc) else {
        return Err(Fail::new("no memory"));
    };
    let Ok(written) = text(alloc, &whole) else {
        return Err(Fail::new("no memory"));
    };
    assert!(rt; written.as_slice() == WORKED.as_bytes());
    assert!(rt; well_formed(&whole));
    Ok(())
}

fn turn() -> Line {
    Line::Turn { number: 0 }
}

/// A turn and then this line, before a return.
fn with_line(alloc: Global, line: Line) -> Result<Target, NoMemory> {
    begun(alloc, vec![in alloc; turn(), line]?)
}

/// A turn and then this line.
fn ending_in(alloc: Global, line: Line) -> Result<Target, NoMemory> {
    one_block(alloc, vec![in alloc; turn(), line]?)
}

fn no_block(alloc: Global) -> Result<Target, NoMemory> {
    target(alloc, vec![in alloc; Line::PushFrame]?, Vec::new(alloc))
}

/// No entry lines.
fn no_entry(alloc: Global) -> Result<Target, NoMemory> {
    let block = vec![in alloc; turn(), Line::Unreachable]?;
    target(
        alloc,
        Vec::new(alloc),
        vec![in alloc; ListOf::from_vec(block)]?,
    )
}

/// Code that breaks one sentence of the list, for each number below 12.
fn broken(alloc: Global, case: u8) -> Result<Target, NoMemory> {
    match case {
        0 => unchecked(alloc),
        1 => with_line(
            alloc,
            Line::CheckFree {
                ptr: 0,
                ptr_shadow: 0,
            },
        ),
        2 => with_line(
            alloc,
            Line::Const {
                slot: 0,
                ty: Ty::Ptr,
                value: 0,
            },
        ),
        3 => no_block(alloc),
        4 => begun(alloc, Vec::new(alloc)),
        5 => no_entry(alloc),
        6 => with_line(alloc, Line::PushFrame),
        7 => ending_in(alloc, Line::Return),
        8 => ending_in(alloc, Line::PopFrame),
        9 => with_line(alloc, Line::Join { handle: 3 }),
        10 => ending_in(alloc, Line::Jump { block: 1 }),
        _ => with_line(alloc, Line::Call { function: 1 }),
    }
}

#[test]
fn each_sentence_counts(rt: HostRuntime) -> Result<(), Fail> {
    let alloc = rt.alloc();
    for case in 0..12 {
        let Ok(target) = broken(alloc, case) else {
            return Err(Fail::new("no memory"));
        };
        assert!(rt; !well_formed(&target), "case {case}");
    }
    Ok(())
}
