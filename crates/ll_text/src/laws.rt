//! Laws of the definition of a text's tokens, each as the contract of a function that does nothing.
ghost use Rattle.ll_text.specs.Laws.{SomeOutcome, OneOutcome, SpansInOrder, WrittenToken};

/// A text has one outcome, and only one: these tokens, or this first bad byte.
pub fn one_outcome()
    ensures some { SomeOutcome }
    ensures only { OneOutcome }
{}

/// The tokens of a text are in it, one after the other, and none is empty.
pub fn spans_in_order()
    ensures { SpansInOrder }
{}

/// A token written before a byte that can't continue it is cut there, and what follows it is cut as before.
pub fn written_token()
    ensures { WrittenToken }
{}
