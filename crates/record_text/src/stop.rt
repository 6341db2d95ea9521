//! Why reading stops.
ghost use Rattle.std.specs.Prelude.{◌≡◌};
ghost use Rattle.record_text.specs.declared.stop.Stop.TheVariants.{Memory};

use bsan_ids::NoMemory;
use std::alloc::AllocFailed;

/// Why reading stopped: out of memory, or a word that has none of the forms.
#[derive(Clone, Copy)]
pub enum Stop {
    Memory,
    Bad,
}

impl From<NoMemory> for Stop {
    ghost from_gives = { λ _ e. e ≡ Memory };

    fn from(_: NoMemory) -> Stop {
        Stop::Memory
    }
}

/// What could not be stored is dropped.
impl<T: Drop> From<AllocFailed<T>> for Stop {
    ghost from_gives = { λ _ e. e ≡ Memory };

    fn from(_: AllocFailed<T>) -> Stop {
        Stop::Memory
    }
}

/// The text of a line that is left, from the next word on; `None` at its end.
pub type Words<'a> = Option<&'a [u8]>;

/// A value and the words after it.
pub type Read<'a, T> = Result<(T, Words<'a>), Stop>;
