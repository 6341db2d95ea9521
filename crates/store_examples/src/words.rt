ghost use Rattle.std.specs.Prelude.{◌<◌};
ghost use Rattle.ir_ast.specs.Words.{modulus};

use ir_ast::{BinaryOp, CastOp, Cond, ModifyOp, Width};
use word_ops::{WordTrap, binary, cast, compare, modify};

/// The lowest bits of a number, as many as a word of this width has.
fn cut(width: Width, number: u64) -> u64
    ensures { result < modulus width }
{
    match width {
        Width::W8 => number % 0x100,
        Width::W16 => number % 0x1_0000,
        Width::W32 => number % 0x1_0000_0000,
        Width::W64 => number,
    }
}

#[test]
fn words_are_worked(rt: HostRuntime) {
    let worked = [
        (BinaryOp::Add, Width::W8, 200, 100, Ok(44)),
        (BinaryOp::Sub, Width::W16, 0, 1, Ok(65_535)),
        (BinaryOp::Mul, Width::W32, 65_536, 65_537, Ok(65_536)),
        (BinaryOp::Sdiv, Width::W8, 128, 255, Ok(128)),
        (BinaryOp::Srem, Width::W8, 128, 255, Ok(0)),
        (BinaryOp::Sdiv, Width::W8, 249, 2, Ok(253)),
        (BinaryOp::Srem, Width::W8, 249, 2, Ok(255)),
        (BinaryOp::Urem, Width::W64, 7, 0, Err(WordTrap::DivZero)),
        (BinaryOp::Shl, Width::W16, 32_769, 1, Ok(2)),
        (BinaryOp::Ashr, Width::W8, 128, 7, Ok(255)),
        (BinaryOp::Lshr, Width::W8, 1, 8, Err(WordTrap::ShiftTooFar)),
    ];
    for (op, width, a, b, want) in worked {
        assert_eq!(rt; binary(op, width, cut(width, a), cut(width, b)), want);
    }
    let (least, most) = (cut(Width::W8, 128), cut(Width::W8, 127));
    assert!(rt; compare(Cond::Slt, Width::W8, least, most));
    assert!(rt; compare(Cond::Ult, Width::W8, most, least));
    assert!(rt; !compare(Cond::Ult, Width::W8, most, most));
    assert_eq!(rt; cast(CastOp::Sext, Width::W8, Width::W16, least), 65_408);
    assert_eq!(rt; cast(CastOp::Zext, Width::W8, Width::W16, least), 128);
    assert_eq!(rt;
        cast(CastOp::Trunc, Width::W16, Width::W8, cut(Width::W16, 511)),
        255
    );
    assert_eq!(rt; modify(ModifyOp::Sub, Width::W8, most, least), 255);
    assert_eq!(rt; modify(ModifyOp::Umax, Width::W8, most, least), 128);
}
