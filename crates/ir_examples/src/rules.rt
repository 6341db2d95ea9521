//! Programs, and the first rule that is broken in each, with its place.
ghost use Rattle.std.specs.Prelude.{◌≡◌, length, IfOk};

use bsan_ids::{ListOf, Name, NoMemory};
use ir_ast::{HostEntry, HostRule, HostTable};
use ir_reader::read;
use ir_rules::Rule;
use ir_verify::{VerifyFault, verify};
use std::alloc::Global;
use std::process::Abort;
use std::test::Fail;

/// A program in which a rule is broken: the text, the rule, its place.
type Row = (&'static str, Rule, u32);

/// Names that stand for nothing or for too much, values of other types, and registers that no step has defined.
const NAMES: [Row; 17] = [
    // unknown register
    (
        "bir 1 func @main() -> i64 { e: print i64 %x ret i64 0 }",
        Rule::Unknown,
        41,
    ),
    // unknown function
    (
        "bir 1 func @main() -> i64 { e: %r = call i64 @f() ret i64 %r }",
        Rule::Unknown,
        45,
    ),
    // unknown spawned function
    (
        "bir 1 func @main() -> i64 { e: %h = spawn @f() %r = join i64 %h ret i64 %r }",
        Rule::Unknown,
        42,
    ),
    // unknown host
    (
        "bir 1 func @main() -> i64 { e: %r = host i64 @nohost() ret i64 %r }",
        Rule::Unknown,
        45,
    ),
    // second register
    (
        "bir 1 func @main() -> i64 { e: %a = const i64 1 %a = const i64 2 ret i64 %a }",
        Rule::Twice,
        48,
    ),
    // a parameter defined again
    (
        "bir 1 func @g(i64 %p) -> i64 { e: %p = const i64 1 ret i64 %p } func @main() -> i64 { e: ret i64 0 }",
        Rule::Twice,
        34,
    ),
    // second label
    (
        "bir 1 func @main() -> i64 { e: br f f: ret i64 0 f: ret i64 0 }",
        Rule::Twice,
        49,
    ),
    // second function
    (
        "bir 1 func @main() -> i64 { e: ret i64 0 } func @main() -> i64 { e: ret i64 0 }",
        Rule::Twice,
        48,
    ),
    // register of another type
    (
        "bir 1 func @main() -> i64 { e: %a = const i8 1 print i64 %a ret i64 0 }",
        Rule::TypeClash,
        57,
    ),
    // the second definition's type doesn't count
    (
        "bir 1 func @main() -> i64 { e: %a = const i8 1 print i64 %a %a = const i64 1 ret i64 0 }",
        Rule::TypeClash,
        57,
    ),
    // ret of another type
    (
        "bir 1 func @main() -> i64 { e: ret i8 0 }",
        Rule::TypeClash,
        35,
    ),
    // ret void
    (
        "bir 1 func @main() -> i64 { e: ret void }",
        Rule::TypeClash,
        35,
    ),
    // zext to the same width
    (
        "bir 1 func @main() -> i64 { e: %a = zext i8 1 to i8 ret i64 0 }",
        Rule::TypeClash,
        49,
    ),
    // trunc to a wider one
    (
        "bir 1 func @main() -> i64 { e: %a = trunc i8 1 to i64 ret i64 0 }",
        Rule::TypeClash,
        50,
    ),
    // one path doesn't define it
    (
        "bir 1 func @main() -> i64 { e: condbr 1, f, g f: %x = const i64 1 br g g: print i64 %x ret i64 0 }",
        Rule::Unassigned,
        84,
    ),
    // used before its definition in one block
    (
        "bir 1 func @main() -> i64 { e: print i64 %x %x = const i64 1 ret i64 0 }",
        Rule::Unassigned,
        41,
    ),
    // used by its own definition
    (
        "bir 1 func @main() -> i64 { e: %x = add i64 %x, 1 ret i64 0 }",
        Rule::Unassigned,
        44,
    ),
];

/// Jumps, calls, spawns, hosts and joins that do not fit.
const JUMPS: [Row; 14] = [
    // no such label
    (
        "bir 1 func @main() -> i64 { e: br nowhere }",
        Rule::BadTarget,
        34,
    ),
    // a goal to the first block
    ("bir 1 func @main() -> i64 { e: br e }", Rule::BadTarget, 34),
    // a goal with another number of arguments
    (
        "bir 1 func @main() -> i64 { e: br f f(i64 %p): ret i64 %p }",
        Rule::BadTarget,
        34,
    ),
    // a goal with another type
    (
        "bir 1 func @main() -> i64 { e: br f(i8 1) f(i64 %p): ret i64 %p }",
        Rule::BadTarget,
        34,
    ),
    // a first block with parameters
    (
        "bir 1 func @main() -> i64 { e(i64 %p): ret i64 %p }",
        Rule::BadTarget,
        28,
    ),
    // arguments
    (
        "bir 1 func @main() -> i64 { e: %r = call i64 @f(i64 1) ret i64 %r } func @f() -> i64 { e: ret i64 0 }",
        Rule::BadCall,
        45,
    ),
    // result
    (
        "bir 1 func @main() -> i64 { e: call void @f() ret i64 0 } func @f() -> i64 { e: ret i64 0 }",
        Rule::BadCall,
        41,
    ),
    // spawn's arguments
    (
        "bir 1 func @main() -> i64 { e: %h = spawn @f(i64 1) %r = join i64 %h ret i64 %r } func @f() -> i64 { e: ret i64 0 }",
        Rule::BadCall,
        42,
    ),
    // host's arity
    (
        "bir 1 func @main() -> i64 { e: %r = host i64 @min(i64 1) ret i64 %r }",
        Rule::BadCall,
        45,
    ),
    // host's argument type
    (
        "bir 1 func @main() -> i64 { e: %r = host i64 @min(i64 1, i8 1) ret i64 %r }",
        Rule::BadCall,
        45,
    ),
    // host's result type
    (
        "bir 1 func @main() -> i64 { e: %r = host i8 @min(i64 1, i64 2) ret i64 0 }",
        Rule::BadCall,
        44,
    ),
    // join of another type
    (
        "bir 1 func @main() -> i64 { e: %h = spawn @f() %r = join i8 %h ret i64 0 } func @f() -> i64 { e: ret i64 0 }",
        Rule::BadCall,
        57,
    ),
    // a handle as an operand
    (
        "bir 1 func @main() -> i64 { e: %h = spawn @f() print i64 %h %r = join i64 %h ret i64 %r } func @f() -> i64 { e: ret i64 0 }",
        Rule::HandleUse,
        57,
    ),
    // a join of a value
    (
        "bir 1 func @main() -> i64 { e: %a = const i64 1 %r = join i64 %a ret i64 %r }",
        Rule::HandleUse,
        62,
    ),
];

/// The function `main`, and programs in which two rules are broken, of which the first is told.
const ORDER: [Row; 9] = [
    // no main
    ("bir 1 func @f() -> i64 { e: ret i64 0 }", Rule::NoMain, 39),
    // main with a parameter
    (
        "bir 1 func @main(i64 %p) -> i64 { e: ret i64 %p }",
        Rule::NoMain,
        49,
    ),
    // main without result
    (
        "bir 1 func @main() -> void { e: ret void }",
        Rule::NoMain,
        42,
    ),
    // TypeClash and Unassigned
    (
        "bir 1 func @main() -> i64 { e: condbr 1, f, g f: %x = const i8 1 br g g: print i64 %x ret i64 0 }",
        Rule::TypeClash,
        83,
    ),
    // TypeClash and Unassigned, in one block
    (
        "bir 1 func @main() -> i64 { e: print i64 %x %x = const i8 1 ret i64 0 }",
        Rule::TypeClash,
        41,
    ),
    // Unassigned and HandleUse: a handle as an operand
    (
        "bir 1 func @main() -> i64 { e: print i64 %h %h = spawn @f() %r = join i64 %h ret i64 %r } func @f() -> i64 { e: ret i64 0 }",
        Rule::Unassigned,
        41,
    ),
    // Unassigned and HandleUse: a join of a value
    (
        "bir 1 func @main() -> i64 { e: %r = join i64 %a %a = const i64 1 ret i64 %r } func @f() -> i64 { e: ret i64 0 }",
        Rule::Unassigned,
        45,
    ),
    // a later rule at a lesser place
    (
        "bir 1 func @main() -> i64 { e: %h = spawn @f() print i64 %h print i64 %x %r = join i64 %h ret i64 %r } func @f() -> i64 { e: ret i64 0 }",
        Rule::HandleUse,
        57,
    ),
    // NoMain after all others
    ("bir 1 func @f() -> i64 { e: br e }", Rule::BadTarget, 31),
];

/// Programs in which no rule is broken.
const ACCEPTED: [&str; 5] = [
    // a goal to a label that is defined once, arguments and loop
    "bir 1 func @main() -> i64 { e: br l(i64 0) l(i64 %i): %j = add i64 %i, 1 %c = icmp ult i64 %j, 3 condbr %c, l(i64 %j), d d: ret i64 %j }",
    // an unreachable block uses what no path defines
    "bir 1 func @main() -> i64 { e: ret i64 0 u: print i64 %x %x = const i64 1 br u }",
    // the greatest allocation of version 2
    "bir 2 func @main() -> i64 { e: %x = alloca 1048576 %q = gep %x, 1048568 store i64 3, %q %v = load i64, %q print i64 %v ret i64 0 }",
    // two pointers to shared cells
    "bir 2 func @main() -> i64 { e: %x = alloca 8 %y = retag shrcell %x, 8 %z = retag shrcell %x, 8 store i64 1, %y %v = load i64, %z store i64 2, %x store i64 3, %z ret i64 0 }",
    // a parameter and a result that are retagged as pointers to shared cells
    "bir 2 func @f(ptr shrcell(8) %a) -> ptr shrcell(8) { b: ret ptr %a } func @main() -> i64 { e: %x = alloca 8 %y = call ptr @f(ptr %x) %v = load i64, %y ret i64 %v }",
];

/// A table with one host function, of two arguments.
fn hosts(alloc: Global) -> Result<HostTable, NoMemory>
    ensures { IfOk result (λ hosts. length hosts.entries ≡ 1) }
{
    let mut entries = ListOf::new(alloc);
    entries.push(HostEntry {
        name: Name::from_slice(alloc, b"min")?,
        arity: 2,
        rule: HostRule::Min,
    })?;
    Ok(HostTable { entries })
}

/// The rule that is broken first in the program of a text, and where. A text that is not read finds no memory.
fn first_broken(alloc: Global, text: &str) -> Result<Option<(Rule, u32)>, NoMemory> {
    let hosts = hosts(alloc)?;
    let Ok(program) = read(alloc, text.as_bytes()) else {
        return Err(NoMemory);
    };
    match verify(alloc, program, &hosts) {
        Ok(_) => Ok(None),
        Err(VerifyFault::Refused { rule, at }) => Ok(Some((rule, at))),
        Err(VerifyFault::NoMemory) => Err(NoMemory),
    }
}

fn check(rt: &impl Abort, alloc: Global, rows: &[Row]) -> Result<(), NoMemory> {
    for (text, rule, at) in rows {
        assert_eq!(rt; first_broken(alloc, text)?, Some((*rule, *at)), "{text}");
    }
    Ok(())
}

#[test]
fn tells_what_is_broken_of_names(rt: HostRuntime) -> Result<(), Fail> {
    check(&rt, rt.alloc(), &NAMES)?;
    Ok(())
}

#[test]
fn tells_what_is_broken_of_jumps(rt: HostRuntime) -> Result<(), Fail> {
    check(&rt, rt.alloc(), &JUMPS)?;
    Ok(())
}

#[test]
fn tells_the_first_broken_rule(rt: HostRuntime) -> Result<(), Fail> {
    check(&rt, rt.alloc(), &ORDER)?;
    Ok(())
}

#[test]
fn accepts_programs(rt: HostRuntime) -> Result<(), Fail> {
    for text in ACCEPTED {
        assert_eq!(rt; first_broken(rt.alloc(), text)?, None, "{text}");
    }
    Ok(())
}
