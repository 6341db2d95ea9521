//! A thread of a run and its children, each on a native thread of its own.
#![tactic(auto)]

mod boxed;
mod calls;
mod child;
mod program;
mod run;
mod running;
mod step;

pub use calls::HostCalls;
pub use child::{Begun, Child, TreeOf};
pub use program::run_program;
pub use run::run_thread;
pub use running::Running;
