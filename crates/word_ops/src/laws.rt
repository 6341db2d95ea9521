//! What the signed operations make of the numbers that the words stand for.
ghost use Rattle.word_ops.specs.Signed.{DividesSigned, LeavesSigned, OrdersSigned, ShiftsSigned, WidensSigned};

/// Read as signed numbers by two's complement, words are divided, ordered, shifted to the right and
/// widened as these numbers are. A quotient that no word stands for, which is that of the least number
/// by minus one, wraps.
pub fn signed_words()
    ensures divides { DividesSigned }
    ensures leaves { LeavesSigned }
    ensures orders { OrdersSigned }
    ensures shifts { ShiftsSigned }
    ensures widens { WidensSigned }
{}
