//! Points of a run of threads at which a test may hold a thread.

/// Where a thread is held.
#[derive(Clone, Copy, Debug, PartialEq, Eq)]
pub enum Point {
    /// A child, before its first step.
    Started,
    /// A parent, after it has started a child.
    AfterSpawn,
    /// A thread that holds the turn of the allocation with this number.
    Inside(u32),
}

/// What hears where threads are. It has no effect that a contract speaks of: an implementation
/// waits, so that tests can bring threads into an order.
pub trait Gate {
    /// The thread with this number has come to this point, and goes on when the call returns.
    fn at(&self, thread: u32, point: Point);
}

/// The gate that holds no thread.
#[derive(Clone, Copy, Debug, PartialEq, Eq)]
pub struct NoGate;

impl Gate for NoGate {
    fn at(&self, _thread: u32, _point: Point) {}
}
