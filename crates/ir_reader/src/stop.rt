//! Why reading stops.
ghost use Rattle.std.specs.Prelude.{◌≡◌};
ghost use Rattle.ir_reader.specs.declared.stop.Stop.TheVariants.{Memory};

use bsan_ids::NoMemory;
use ir_text::Token;
use phrase::Cause;

/// Why reading stopped: out of memory, or a cause and the tokens from the refused one on.
#[derive(Drop)]
pub enum Stop<'a> {
    Memory,
    At(Cause, &'a [Token]),
}

impl<'a> From<NoMemory> for Stop<'a> {
    ghost from_gives = { λ _ e. e ≡ Memory };

    fn from(_: NoMemory) -> Stop<'a> {
        Stop::Memory
    }
}

/// A value and the tokens after it.
pub type Read<'a, T> = Result<(T, &'a [Token]), Stop<'a>>;
