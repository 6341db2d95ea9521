//! What the source thread and the target thread share: the parts of an instruction and what they ask, copies in
//! pieces, what a frame owns, words of a type, and replies that fit.
#![tactic(auto)]

mod owned;

pub use owned::{Owned, StackAllocation};
