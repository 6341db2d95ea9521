//! Laws of accepted programs. The functions do nothing: their contracts are what is promised.
ghost use Rattle.ir_verify.specs.Joins.{JoinsFindHandles, UsesAreAssigned};

/// In an accepted program a use's register was assigned whatever way the thread came, and what was assigned is of
/// the kind and type that the use wants.
pub fn uses_are_assigned()
    ensures { UsesAreAssigned }
{}

/// In an accepted program a join's register was assigned the handle of a spawned thread whatever way the thread came.
pub fn joins_find_handles()
    ensures { JoinsFindHandles }
{}
