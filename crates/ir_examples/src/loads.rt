ghost use Rattle.std.specs.Prelude.{◌≤◌};

use bsan_ids::{ListOf, NoMemory};
use ir_ast::{HostTable, print};
use ir_verify::verify;
use std::alloc::Global;
use std::process::Abort;
use std::test::Fail;
use workload::{made_is_program, make};

const HEADS: [&str; 4] = [
    "func @w0(ptr mut(32) %p0) -> i64 {\n",
    "func @w1(ptr mut(32) %p0) -> i64 {\n",
    "func @w2(ptr mut(32) %p0) -> i64 {\n",
    "func @w3(ptr mut(32) %p0) -> i64 {\n",
];

const POINTERS: &str = "entry:
  %p1 = gep %p0, 8
  %p2 = gep %p0, 16
  %p3 = gep %p0, 24
";

const AFTER_STORES: &str = "  %v0 = load i64, %p0
  %v1 = load i64, %p1
  %v2 = load i64, %p2
  %v3 = load i64, %p3
  %s1 = add i64 %v0, %v1
  %s2 = add i64 %s1, %v2
  %s3 = add i64 %s2, %v3
  ret i64 %s3
}
";

const MAIN: &str = "func @main() -> i64 {
entry:
  %x = malloc 128
  %x1 = gep %x, 32
  %x2 = gep %x, 64
  %x3 = gep %x, 96
  %h0 = spawn @w0(ptr %x)
  %h1 = spawn @w1(ptr %x1)
  %h2 = spawn @w2(ptr %x2)
  %h3 = spawn @w3(ptr %x3)
  %r0 = join i64 %h0
  %r1 = join i64 %h1
  %r2 = join i64 %h2
  %r3 = join i64 %h3
  %a = add i64 %r0, %r1
  %b = add i64 %a, %r2
  %c = add i64 %b, %r3
  print i64 %c
  free %x
  ret i64 0
}
";

fn text_of(alloc: Global, stores: &[&str; 4]) -> Result<String, NoMemory> {
    let mut text = String::new(alloc);
    text.push_str("bir 1\n")?;
    for (head, stores) in HEADS.iter().zip(stores) {
        text.push_str(head)?;
        text.push_str(POINTERS)?;
        text.push_str(stores)?;
        text.push_str(AFTER_STORES)?;
    }
    text.push_str(MAIN)?;
    Ok(text)
}

/// How many instructions the verifier counts in the generated program.
fn verified_instructions(alloc: Global, seed: u32, size: u32) -> Result<u32, NoMemory>
    requires some { 1 ≤ size }
    requires few { size ≤ 10000 }
{
    let entries = ListOf::new(alloc);
    made_is_program();
    match verify(alloc, make(alloc, seed, size)?, &HostTable { entries }) {
        Ok(verified) => Ok(verified.instruction_count()),
        Err(_) => Err(NoMemory),
    }
}

/// The program's text has these lines of stores in its four workers, and it is accepted with so many instructions.
fn check(
    rt: &impl Abort,
    alloc: Global,
    seed: u32,
    size: u32,
    stores: [&str; 4],
    instructions: u32,
) -> Result<(), NoMemory>
    requires some { 1 ≤ size }
    requires few { size ≤ 10000 }
{
    let text = print(alloc, &make(alloc, seed, size)?)?;
    let wanted = text_of(alloc, &stores)?;
    assert_eq!(rt; text.as_slice(), wanted.as_bytes(), "seed {seed}");
    let counted = verified_instructions(alloc, seed, size)?;
    assert_eq!(rt; counted, instructions, "seed {seed}");
    Ok(())
}

#[test]
fn makes_programs_that_are_accepted(rt: HostRuntime) -> Result<(), Fail> {
    let alloc = rt.alloc();
    let stores = [
        "  store i64 0, %p0\n",
        "  store i64 5367, %p0\n",
        "  store i64 2497, %p0\n",
        "  store i64 5529, %p1\n",
    ];
    check(&rt, alloc, 0, 1, stores, 66)?;
    let stores = [
        "  store i64 4209, %p2\n",
        "  store i64 1439, %p2\n",
        "  store i64 2528, %p1\n",
        "  store i64 4378, %p3\n",
    ];
    check(&rt, alloc, 1, 1, stores, 66)?;
    let stores = [
        "  store i64 3982, %p1\n  store i64 1102, %p1\n",
        "  store i64 2465, %p2\n  store i64 6679, %p2\n",
        "  store i64 2178, %p1\n  store i64 7056, %p2\n",
        "  store i64 2270, %p0\n  store i64 8015, %p3\n",
    ];
    check(&rt, alloc, 4_294_967_295, 2, stores, 70)?;
    Ok(())
}
