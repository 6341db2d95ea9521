//! A law of translations. The function does nothing: its contract is what is promised.
ghost use Rattle.instrument.specs.Laws.{IsFormed};

/// The translation of an accepted program is well formed.
pub fn translation_is_formed()
    ensures { IsFormed }
{}
