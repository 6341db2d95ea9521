//! The limits of the language.
ghost use Rattle.std.specs.Prelude.{◌≡◌};
ghost use Rattle.ir_ast.specs.Sizes.{most_size_of};

/// The most functions of a program.
pub const MOST_FUNCTIONS: u32 = 256;

/// The most instructions of a program, terminators among them.
pub const MOST_INSTRUCTIONS: u32 = 65_536;

/// The most registers of a function, its own parameters and its blocks' among them.
pub const MOST_REGISTERS: u32 = 1_024;

/// The most bytes of an allocation in a program of any version.
pub const MOST_SIZE: u32 = 1_048_576;

/// The most bytes of an allocation in a program of version 1.
pub const MOST_SIZE_IN_VERSION_1: u32 = 65_536;

/// The most bytes of an allocation in a program of this version.
pub const fn most_size_of(version: u8) -> u32
    ensures { result ≡ most_size_of version }
{
    if version >= 2 {
        MOST_SIZE
    } else {
        MOST_SIZE_IN_VERSION_1
    }
}
