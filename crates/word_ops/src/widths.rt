//! How many bits a word has, and the word that is left of a number.
ghost use Rattle.std.specs.Prelude.{◌≡◌, ◌-◌, ◌%◌, ◌<◌};
ghost use Rattle.ir_ast.specs.Words.{modulus, bits};

use ir_ast::Width;

/// How many bits a word of this width has.
pub(crate) fn bit_count(width: Width) -> u32
    ensures { result ≡ bits width }
{
    8 * width.bytes()
}

/// The greatest word of this width, whose bits are all set.
pub(crate) fn greatest(width: Width) -> u64
    ensures { result ≡ modulus width - 1 }
{
    match width {
        Width::W8 => 0xff,
        Width::W16 => 0xffff,
        Width::W32 => 0xffff_ffff,
        Width::W64 => u64::MAX,
    }
}

/// The lowest bits of a number, as many as a word of this width has.
pub(crate) fn cut(width: Width, number: u64) -> u64
    ensures value { result ≡ number % modulus width }
    ensures word { result < modulus width }
{
    number & greatest(width)
}
