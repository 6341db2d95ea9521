//! Threads that add up the parts of an array, and a main function that fills it and joins them.
use crate::build::Builder;
use crate::build::Operand::{Num, Reg};
use bsan_ids::NoMemory;
use ir_ast::print;
use std::test::Fail;

fn part(to: &mut Builder) -> Result<(), NoMemory> {
    to.br("entry", "loop", &[Num(0), Num(0)])?;
    to.gep("q", "p", Reg("i"))?;
    to.load("w", "q")?;
    to.add("t", "s", Reg("w"))?;
    to.add("j", "i", Num(8))?;
    to.compare(32)?;
    let again = [Reg("j"), Reg("t")];
    let last = [Reg("t")];
    to.branch("loop", &["i", "s"], ("loop", &again), ("done", &last))?;
    to.store(Reg("r"), "p")?;
    to.ret("done", &["r"], Reg("r"))?;
    to.worker("part", "p")
}

fn main_function(to: &mut Builder) -> Result<(), NoMemory> {
    to.malloc("x", 128)?;
    to.br("entry", "fill", &[Num(0)])?;
    to.gep("q", "x", Reg("i"))?;
    to.store(Reg("i"), "q")?;
    to.add("j", "i", Num(8))?;
    to.compare(128)?;
    to.branch("fill", &["i"], ("fill", &[Reg("j")]), ("go", &[]))?;
    for (dest, offset) in [("p1", 32), ("p2", 64), ("p3", 96)] {
        to.gep(dest, "x", Num(offset))?;
    }
    for (dest, ptr) in [("h0", "x"), ("h1", "p1"), ("h2", "p2"), ("h3", "p3")] {
        to.spawn(dest, "part", ptr)?;
    }
    to.finish("go", "d")?;
    to.main()
}

const TEXT: &str = "bir 1
func @part(ptr mut(32) %p) -> i64 {
entry:
  br loop(i64 0, i64 0)
loop(i64 %i, i64 %s):
  %q = gep %p, %i
  %w = load i64, %q
  %t = add i64 %s, %w
  %j = add i64 %i, 8
  %c = icmp ult i64 %j, 32
  condbr %c, loop(i64 %j, i64 %t), done(i64 %t)
done(i64 %r):
  store i64 %r, %p
  ret i64 %r
}
func @main() -> i64 {
entry:
  %x = malloc 128
  br fill(i64 0)
fill(i64 %i):
  %q = gep %x, %i
  store i64 %i, %q
  %j = add i64 %i, 8
  %c = icmp ult i64 %j, 128
  condbr %c, fill(i64 %j), go
go:
  %p1 = gep %x, 32
  %p2 = gep %x, 64
  %p3 = gep %x, 96
  %h0 = spawn @part(ptr %x)
  %h1 = spawn @part(ptr %p1)
  %h2 = spawn @part(ptr %p2)
  %h3 = spawn @part(ptr %p3)
  %r0 = join i64 %h0
  %r1 = join i64 %h1
  %r2 = join i64 %h2
  %r3 = join i64 %h3
  %a = add i64 %r0, %r1
  %b = add i64 %a, %r2
  %d = add i64 %b, %r3
  print i64 %d
  free %x
  ret i64 0
}
";

#[test]
fn prints_the_realistic_program(rt: HostRuntime) -> Result<(), Fail> {
    let mut builder = Builder::new(rt.alloc());
    part(&mut builder)?;
    main_function(&mut builder)?;
    let text = print(rt.alloc(), &builder.program())?;
    assert_eq!(rt; text.as_slice(), TEXT.as_bytes());
    Ok(())
}
