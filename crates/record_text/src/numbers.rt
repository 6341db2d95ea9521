//! Numbers in shortest decimal.
ghost use Rattle.std.specs.Prelude.{◌≡◌, ◌+◌, ◌*◌, ◌^◌};
ghost use Rattle.std.specs.Char.{digit_value};
ghost use Rattle.std.specs.Str.Parse.{digits_value};
ghost use Rattle.record_text.specs.Reading.{under, number64, number32, number8, one, IsRead};

use crate::cut::next;
use crate::stop::{Read, Stop, Words};
use itoa::Buffer;

/// The value of a digit or a letter, and 36 of any other byte.
fn digit_value(byte: u8) -> u64
    ensures { result ≡ digit_value byte }
{
    match byte {
        b'0'..=b'9' => u64::from(byte - b'0'),
        b'A'..=b'Z' => u64::from(byte - b'A') + 10,
        b'a'..=b'z' => u64::from(byte - b'a') + 10,
        _ => 36,
    }
}

/// The number with one more digit, unless it passes 64 bits.
fn with_digit(value: u64, digit: u64) -> Option<u64>
    ensures { result ≡ under (value * 10 + digit) (2 ^ 64) }
{
    let tens = value.checked_mul(10)?;
    tens.checked_add(digit)
}

/// The number that the digits write, unless it passes 64 bits.
fn value_of(digits: &[u8]) -> Option<u64>
    ensures { result ≡ under (digits_value 10 digits.now) (2 ^ 64) }
{
    let mut value: u64 = 0;
    for digit in digits {
        value = with_digit(value, digit_value(*digit))?;
    }
    Some(value)
}

/// The number of which the word is the shortest decimal.
#[tactic(auto, unfolding(crate::specs::Reading::number64))]
pub fn number64(word: &[u8]) -> Option<u64>
    ensures { result ≡ number64 word.now }
{
    let value = value_of(word)?;
    let mut buffer = Buffer::new();
    if buffer.format(value).as_bytes() == word {
        Some(value)
    } else {
        None
    }
}

/// The number of at most 32 bits of which the word is the shortest decimal.
#[tactic(auto, unfolding(crate::specs::Reading::number32))]
pub fn number32(word: &[u8]) -> Option<u32>
    ensures { result ≡ number32 word.now }
{
    let number = number64(word)?;
    if number <= u64::from(u32::MAX) {
        Some(number as u32)
    } else {
        None
    }
}

/// The number of at most 8 bits of which the word is the shortest decimal.
#[tactic(auto, unfolding(crate::specs::Reading::number8))]
pub fn number8(word: &[u8]) -> Option<u8>
    ensures { result ≡ number8 word.now }
{
    let number = number64(word)?;
    if number <= u64::from(u8::MAX) {
        Some(number as u8)
    } else {
        None
    }
}

/// A number of at most 64 bits.
pub fn u64_at(words: Words<'_>) -> Read<'_, u64>
    ensures { IsRead (one number64) words.entry result }
{
    let (word, rest) = next(words)?;
    match number64(word) {
        Some(number) => Ok((number, rest)),
        None => Err(Stop::Bad),
    }
}

/// A number of at most 32 bits.
pub fn u32_at(words: Words<'_>) -> Read<'_, u32>
    ensures { IsRead (one number32) words.entry result }
{
    let (word, rest) = next(words)?;
    match number32(word) {
        Some(number) => Ok((number, rest)),
        None => Err(Stop::Bad),
    }
}

/// A number of at most 8 bits.
pub fn u8_at(words: Words<'_>) -> Read<'_, u8>
    ensures { IsRead (one number8) words.entry result }
{
    let (word, rest) = next(words)?;
    match number8(word) {
        Some(number) => Ok((number, rest)),
        None => Err(Stop::Bad),
    }
}
