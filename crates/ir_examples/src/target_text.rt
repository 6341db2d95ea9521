use bsan_ids::{Copied, ListOf, NoMemory};
use std::alloc::Global;
use std::test::Fail;
use target_code::{Line, Operand, Target, TargetFunction, text};

/// Only for what threads may share and hand over.
fn ask_shared<T: Send + Sync>(_: &T) {}

/// One function, whose block asks the host.
fn target(alloc: Global) -> Result<Target, NoMemory> {
    let mut entry = ListOf::new(alloc);
    entry.push(Line::PushFrame)?;
    let mut block = ListOf::new(alloc);
    block.push(Line::Host {
        slot: 0,
        host: 3,
        args: ListOf::from_slice(alloc, &[Operand::Number(7), Operand::Slot(0)])?,
    })?;
    block.push(Line::Unreachable)?;
    let mut blocks = ListOf::new(alloc);
    blocks.push(block)?;
    let mut functions = ListOf::new(alloc);
    functions.push(TargetFunction {
        name: ListOf::from_slice(alloc, b"main")?,
        slots: 1,
        entry,
        blocks,
    })?;
    Ok(Target {
        version: 2,
        functions,
    })
}

/// The text of a copy.
fn text_of_copy(alloc: Global, target: &Target) -> Result<Vec<u8>, NoMemory> {
    let copy = target.copy()?;
    text(alloc, &copy)
}

#[test]
fn a_copy_finds_memory_and_is_written(rt: HostRuntime) -> Result<(), Fail> {
    let alloc = rt.alloc();
    let Ok(target) = target(alloc) else {
        return Err(Fail::new("out of memory"));
    };
    ask_shared(&target);
    let Ok(text) = text_of_copy(alloc, &target) else {
        return Err(Fail::new("out of memory"));
    };
    let expected =
        b"target 2\nfunc 0 @main slots 1\npushframe\nblock 0\ns0 = host 3 7 s0\nunreachable\n";
    assert_eq!(rt; text.as_slice(), expected.as_slice());
    Ok(())
}
