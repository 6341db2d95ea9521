//! Four workers that store and add numbers, and a main function that runs them.
use crate::build::Builder;
use crate::build::Operand::{Num, Reg};
use bsan_ids::NoMemory;
use ir_ast::print;
use std::test::Fail;

fn worker(to: &mut Builder, name: &str, value: u64, ptr: &str) -> Result<(), NoMemory> {
    for (dest, offset) in [("p1", 8), ("p2", 16), ("p3", 24)] {
        to.gep(dest, "p0", Num(offset))?;
    }
    to.store(Num(value), ptr)?;
    for (dest, ptr) in [("v0", "p0"), ("v1", "p1"), ("v2", "p2"), ("v3", "p3")] {
        to.load(dest, ptr)?;
    }
    for (dest, a, b) in [("s1", "v0", "v1"), ("s2", "s1", "v2"), ("s3", "s2", "v3")] {
        to.add(dest, a, Reg(b))?;
    }
    to.ret("entry", &[], Reg("s3"))?;
    to.worker(name, "p0")
}

fn main_function(to: &mut Builder) -> Result<(), NoMemory> {
    to.malloc("x", 128)?;
    for (dest, offset) in [("x1", 32), ("x2", 64), ("x3", 96)] {
        to.gep(dest, "x", Num(offset))?;
    }
    to.spawn("h0", "w0", "x")?;
    to.spawn("h1", "w1", "x1")?;
    to.spawn("h2", "w2", "x2")?;
    to.spawn("h3", "w3", "x3")?;
    to.finish("entry", "c")?;
    to.main()
}

/// Seed 1, one store a worker: the draws are 16838, 5758, 10113 and 17515.
fn program(to: &mut Builder) -> Result<(), NoMemory> {
    worker(to, "w0", 4209, "p2")?;
    worker(to, "w1", 1439, "p2")?;
    worker(to, "w2", 2528, "p1")?;
    worker(to, "w3", 4378, "p3")?;
    main_function(to)
}

const TEXT: &str = "bir 1
func @w0(ptr mut(32) %p0) -> i64 {
entry:
  %p1 = gep %p0, 8
  %p2 = gep %p0, 16
  %p3 = gep %p0, 24
  store i64 4209, %p2
  %v0 = load i64, %p0
  %v1 = load i64, %p1
  %v2 = load i64, %p2
  %v3 = load i64, %p3
  %s1 = add i64 %v0, %v1
  %s2 = add i64 %s1, %v2
  %s3 = add i64 %s2, %v3
  ret i64 %s3
}
func @w1(ptr mut(32) %p0) -> i64 {
entry:
  %p1 = gep %p0, 8
  %p2 = gep %p0, 16
  %p3 = gep %p0, 24
  store i64 1439, %p2
  %v0 = load i64, %p0
  %v1 = load i64, %p1
  %v2 = load i64, %p2
  %v3 = load i64, %p3
  %s1 = add i64 %v0, %v1
  %s2 = add i64 %s1, %v2
  %s3 = add i64 %s2, %v3
  ret i64 %s3
}
func @w2(ptr mut(32) %p0) -> i64 {
entry:
  %p1 = gep %p0, 8
  %p2 = gep %p0, 16
  %p3 = gep %p0, 24
  store i64 2528, %p1
  %v0 = load i64, %p0
  %v1 = load i64, %p1
  %v2 = load i64, %p2
  %v3 = load i64, %p3
  %s1 = add i64 %v0, %v1
  %s2 = add i64 %s1, %v2
  %s3 = add i64 %s2, %v3
  ret i64 %s3
}
func @w3(ptr mut(32) %p0) -> i64 {
entry:
  %p1 = gep %p0, 8
  %p2 = gep %p0, 16
  %p3 = gep %p0, 24
  store i64 4378, %p3
  %v0 = load i64, %p0
  %v1 = load i64, %p1
  %v2 = load i64, %p2
  %v3 = load i64, %p3
  %s1 = add i64 %v0, %v1
  %s2 = add i64 %s1, %v2
  %s3 = add i64 %s2, %v3
  ret i64 %s3
}
func @main() -> i64 {
entry:
  %x = malloc 128
  %x1 = gep %x, 32
  %x2 = gep %x, 64
  %x3 = gep %x, 96
  %h0 = spawn @w0(ptr %x)
  %h1 = spawn @w1(ptr %x1)
  %h2 = spawn @w2(ptr %x2)
  %h3 = spawn @w3(ptr %x3)
  %r0 = join i64 %h0
  %r1 = join i64 %h1
  %r2 = join i64 %h2
  %r3 = join i64 %h3
  %a = add i64 %r0, %r1
  %b = add i64 %a, %r2
  %c = add i64 %b, %r3
  print i64 %c
  free %x
  ret i64 0
}
";

#[test]
fn prints_the_generated_program(rt: HostRuntime) -> Result<(), Fail> {
    let mut builder = Builder::new(rt.alloc());
    program(&mut builder)?;
    let text = print(rt.alloc(), &builder.program())?;
    assert_eq!(rt; text.as_slice(), TEXT.as_bytes());
    Ok(())
}
