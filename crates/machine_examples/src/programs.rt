//! What threads of whole programs ask that are given entries, and where each of them stands.

use crate::entries::{
    end_protector, entry_for, leave, load, make, retag, store, through, violated,
};
use crate::pair::Pair;
use crate::sharing::is_shared;
use bsan_ids::ListOf;
use history::{Ask, Entry};
use instrument::instrument;
use ir_ast::HostTable;
use ir_reader::read;
use ir_rules::Verified;
use ir_verify::verify;
use perm_table::{Guard, Perm};
use std::alloc::Global;
use std::test::Fail;

fn verified(alloc: Global, text: &str) -> Result<Verified, Fail> {
    let Ok(program) = read(alloc, text.as_bytes()) else {
        return Err(Fail::new("read"));
    };
    let hosts = HostTable {
        entries: ListOf::new(alloc),
    };
    match verify(alloc, program, &hosts) {
        Ok(program) => Ok(program),
        Err(_) => Err(Fail::new("verified")),
    }
}

/// Whether a thread that is given these entries asks for each of them at its site, then returns 0, and has begun so many
/// instructions.
fn takes_all(pair: &mut Pair<'_>, entries: &[Entry], instructions: u64) -> Result<bool, Fail> {
    for entry in entries {
        pair.turn_on()?;
        if !pair.feed(entry)? {
            return Ok(false);
        }
    }
    pair.turn_on()?;
    Ok(pair.has_returned(0)? && pair.source.instructions() == instructions)
}

/// Whether the thread of a function without parameters takes these entries, and so many instructions.
fn takes(
    alloc: Global,
    text: &str,
    function: u32,
    entries: &[Entry],
    instructions: u64,
) -> Result<bool, Fail> {
    let program = verified(alloc, text)?;
    if function >= program.function_count() {
        return Err(Fail::new("function"));
    }
    let target = instrument(alloc, &program)?;
    let mut pair = Pair::start(alloc, &program, &target, function, &[])?;
    takes_all(&mut pair, entries, instructions)
}

const REBORROW: &str = "bir 1
func @main() -> i64 {
entry:
  %x = alloca 8
  %y = retag mut %x, 8
  store i64 1, %y
  %v = load i64, %x
  store i64 2, %y
  ret i64 0
}
";

const PROTECTED: &str = "bir 1
func @f(ptr mut(8) %y, ptr %x) -> ptr {
entry:
  store i64 1, %y
  %q = gep %x, 8
  %z = retag mut %q, 8
  ret ptr %z
}
func @main() -> i64 {
entry:
  %x = alloca 16
  %z = call ptr @f(ptr %x, ptr %x)
  %p = gep %z, 18446744073709551608
  %v = load i64, %p
  ret i64 0
}
";

#[test]
fn asks_for_the_entries_of_a_run(rt: HostRuntime) -> Result<(), Fail> {
    let frozen = [
        make(1, 0, 8),
        retag(2, 1, 0, Guard::Free, 1),
        store(3, 2, 1, 2),
        load(4, 3, 1, 1),
        violated(store(5, 4, 2, 2), 2, Perm::Frozen),
        leave(6, 5),
    ];
    assert!(rt; takes(rt.alloc(), REBORROW, 0, &frozen, 6)?);
    let protected = [
        make(1, 4, 16),
        retag(2, 0, 0, Guard::Strong, 1),
        store(3, 0, 1, 2),
        retag(4, 2, 8, Guard::Free, 1),
        end_protector(5, 3, 2),
        violated(load(6, 7, 1, 4), 4, Perm::Disabled),
        leave(7, 8),
    ];
    assert!(rt; takes(rt.alloc(), PROTECTED, 1, &protected, 9)?);
    Ok(())
}

const SUMS: &str = "bir 1
func @part(ptr mut(32) %p) -> i64 {
entry:
  br loop(i64 0, i64 0)
loop(i64 %i, i64 %s):
  %q = gep %p, %i
  %w = load i64, %q
  %t = add i64 %s, %w
  %j = add i64 %i, 8
  %c = icmp ult i64 %j, 32
  condbr %c, loop(i64 %j, i64 %t), done(i64 %t)
done(i64 %r):
  store i64 %r, %p
  ret i64 %r
}
func @main() -> i64 {
entry:
  %x = malloc 128
  br fill(i64 0)
fill(i64 %i):
  %q = gep %x, %i
  store i64 %i, %q
  %j = add i64 %i, 8
  %c = icmp ult i64 %j, 128
  condbr %c, fill(i64 %j), go
go:
  %p1 = gep %x, 32
  %p2 = gep %x, 64
  %p3 = gep %x, 96
  %h0 = spawn @part(ptr %x)
  %h1 = spawn @part(ptr %p1)
  %h2 = spawn @part(ptr %p2)
  %h3 = spawn @part(ptr %p3)
  %r0 = join i64 %h0
  %r1 = join i64 %h1
  %r2 = join i64 %h2
  %r3 = join i64 %h3
  %a = add i64 %r0, %r1
  %b = add i64 %a, %r2
  %d = add i64 %b, %r3
  print i64 %d
  free %x
  ret i64 0
}
";

/// Does the local instructions that come next, and goes on with a clean entry of this number. Answers whether there was
/// a step to answer.
fn step(pair: &mut Pair<'_>, number: u32) -> Result<bool, Fail> {
    pair.turn_on()?;
    let asked = pair.source.ask()?;
    let Some(entry) = entry_for(asked, number, pair.source.site()) else {
        return Ok(false);
    };
    if pair.feed(&entry)? {
        Ok(true)
    } else {
        Err(Fail::new("entry"))
    }
}

/// Does so many steps, or those up to the thread's end, with clean entries whose numbers go from `first` on. Answers how
/// many steps there were.
fn run(pair: &mut Pair<'_>, first: u8, most: u8) -> Result<u32, Fail> {
    for steps in 0..u32::from(most) {
        if !step(pair, u32::from(first) + steps)? {
            return Ok(steps);
        }
    }
    Ok(u32::from(most))
}

/// Whether the child that a spawn starts does 7 steps and begins 27 instructions, as all machines agree in each part.
fn runs_as_child(main: &Pair<'_>) -> Result<bool, Fail> {
    let mut child = main.child()?;
    let steps = run(&mut child, 100, 32)?;
    Ok(steps == 7 && child.source.instructions() == 27)
}

/// Whether a thread does 17 steps before it starts a child, and 10 from then on, and begins 99 instructions, as all
/// machines agree in each part, and its child does what it should.
fn runs_with_a_child(main: &mut Pair<'_>) -> Result<bool, Fail> {
    let before = run(main, 1, 17)?;
    main.turn_on()?;
    let is_child_right = runs_as_child(main)?;
    let after = run(main, 18, 32)?;
    let has_returned = main.has_returned(0)?;
    let instructions = main.source.instructions();
    Ok(is_child_right && has_returned && before == 17 && after == 10 && instructions == 99)
}

/// Whether the machines of a program's main thread, which is its second function, and of its first child agree in each
/// part, and may go to other threads and be shared.
fn agrees(alloc: Global, text: &str) -> Result<bool, Fail> {
    let program = verified(alloc, text)?;
    if program.function_count() != 2 {
        return Err(Fail::new("functions"));
    }
    let target = instrument(alloc, &program)?;
    let mut main = Pair::start(alloc, &program, &target, 1, &[])?;
    let agree = runs_with_a_child(&mut main)?;
    Ok(agree && is_shared(&main))
}

#[test]
fn machines_of_a_thread_and_its_child_agree(rt: HostRuntime) -> Result<(), Fail> {
    assert!(rt; agrees(rt.alloc(), SUMS)?);
    Ok(())
}
