//! What holds of the definitions themselves.
ghost use Rattle.lazy_tree.specs.Shape.{Shape};
ghost use Rattle.lazy_tree.specs.Skip.{counted};
ghost use Rattle.lazy_tree.specs.Quiet.{KeepsQuiet, KeepsCuts};

/// To read a state, which changes the counter alone, leaves what is quiet and the cuts.
pub fn counted_keeps_quiet()
    ensures quiet { (t : Shape) → KeepsQuiet t (counted t) }
    ensures cuts { (t : Shape) → KeepsCuts t (counted t) }
{}
