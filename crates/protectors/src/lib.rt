//! The protectors of a thread's frames: for each frame the provenances whose nodes its entry retags
//! made.
#![tactic(auto)]

mod frame;
mod frames;

pub use frame::Frame;
pub use frames::Frames;
