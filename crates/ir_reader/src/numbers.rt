//! Numbers by their digits.
ghost use Rattle.std.specs.Prelude.{◌≡◌, ◌+◌, ◌*◌, ◌≤◌, IfSome};
ghost use Rattle.std.specs.Char.{digit_value};
ghost use Rattle.std.specs.Str.Parse.{digits_value};
ghost use Rattle.ir_ast.specs.Words.{modulus};
ghost use Rattle.ir_reader.specs.Wants.{under};

use ir_ast::Width;

/// The greatest number of a width.
pub fn greatest(width: Width) -> u64
    ensures { result + 1 ≡ modulus width }
{
    match width {
        Width::W8 => u64::from(u8::MAX),
        Width::W16 => u64::from(u16::MAX),
        Width::W32 => u64::from(u32::MAX),
        Width::W64 => u64::MAX,
    }
}

/// The value of a digit or a letter, and 36 of any other byte.
fn digit_value(byte: u8) -> u64
    ensures { result ≡ digit_value byte }
{
    match byte {
        b'0'..=b'9' => u64::from(byte - b'0'),
        b'A'..=b'Z' => u64::from(byte - b'A') + 10,
        b'a'..=b'z' => u64::from(byte - b'a') + 10,
        _ => 36,
    }
}

/// The number with one more digit, unless it is greater than `most`.
fn with_digit(value: u64, digit: u64, most: u64) -> Option<u64>
    ensures { result ≡ under (value * 10 + digit) (most + 1) }
{
    let tens = value.checked_mul(10)?;
    let next = tens.checked_add(digit)?;
    if next <= most { Some(next) } else { None }
}

/// The number that the digits write, unless it is greater than `most`.
pub fn number(digits: &[u8], most: u64) -> Option<u64>
    ensures value { result ≡ under (digits_value 10 digits.now) (most + 1) }
    ensures bounded { IfSome result (λ n. n ≤ most) }
{
    let mut value: u64 = 0;
    for digit in digits {
        value = with_digit(value, digit_value(*digit), most)?;
    }
    Some(value)
}
