//! Texts in the canonical form, which are read and printed again.
use ir_ast::print;
use ir_reader::read;
use std::test::Fail;

/// Each operation, terminator, type and kind at least once.
const EACH: &str = "bir 2
func @f(i8 %a, ptr mut(0) %b, ptr cell(4294967295) %c, ptr %d) -> ptr shr(8) {
entry:
  %k = const i64 18446744073709551615
  %n = null
  %s = alloca 8
  %h = malloc %k
  %g = gep %b, 8
  %l = load i32, %g
  %r = retag box %b, 8
  %ra = retag shrcell %b, 8
  %x = sdiv i16 65535, %l
  %y = icmp sle ptr %b, %c
  %z = select i8 255, 1, %a
  %w = trunc i64 %k to i8
  %p = ptrtoint %b
  %i = input 0
  %m = rmw umax i64 %b, 1
  %o = cmpxchg i32 %b, 0, %l
  %u = call ptr @f(i8 1, ptr %b, ptr %c, ptr %d)
  %v = host i64 @min()
  %t = spawn @f()
  %j = join ptr %t
  store i8 0, %b
  memcpy %b, %c, 4
  free %h
  print i8 %a
  call void @g()
  call i64 @g(i64 %k)
  join void %t
  join i8 %t
  condbr %y, entry, last(i8 1, ptr %b)
last(i8 %q, ptr %e):
  br done
done:
  ret ptr %e
}
func @func() -> void {
inttoptr:
  ret void
ret:
  unreachable
}
";

/// The same program in another layout.
const LOOSE: &str =
    "bir 0001;x\nfunc@main(ptr mut(08)%a)->void{b:;\t$\r\n%c=add i8 1,002 ret void}";

const PLAIN: &str = "bir 1
func @main(ptr mut(8) %a) -> void {
b:
  %c = add i8 1, 2
  ret void
}
";

#[test]
fn reads_what_was_printed(rt: HostRuntime) -> Result<(), Fail> {
    for (text, again) in [(EACH, EACH), (LOOSE, PLAIN), (PLAIN, PLAIN)] {
        let program = read(rt.alloc(), text.as_bytes())?;
        let printed = print(rt.alloc(), &program)?;
        assert_eq!(rt; printed.as_slice(), again.as_bytes());
        assert_eq!(rt; program.end as usize, text.len());
    }
    Ok(())
}
