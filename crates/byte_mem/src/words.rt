//! Numbers in memory, least byte first.
ghost use Rattle.std.specs.Prelude.{◌≡◌, ◌<◌, ◌≤◌, ◌^◌, length};
ghost use Rattle.ir_ast.specs.Words.{bytes_of, word_of};

/// The number that at most eight bytes hold.
pub(crate) fn word(bytes: &[u8]) -> u64
    requires { length bytes.now ≤ 8 }
    ensures value { result ≡ word_of bytes.now }
    ensures bound { result < 256 ^ length bytes.now }
{
    match bytes {
        [] => 0,
        [first, rest @ ..] => u64::from(*first) + 256 * word(rest),
    }
}

/// Writes a number over these bytes. What doesn't fit in them is left out.
pub(crate) fn write_word(bytes: &mut [u8], value: u64)
    ensures { bytes.new ≡ bytes_of (length bytes.old) value }
{
    let mut rest = value;
    for i in 0..bytes.len() {
        bytes[i] = (rest % 256) as u8;
        rest /= 256;
    }
}
