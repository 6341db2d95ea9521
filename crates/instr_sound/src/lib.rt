//! A machine over target code that goes on as the thread over the text does.
#![tactic(auto)]

pub mod laws;
mod settling;
mod sound;
mod text;
mod thread;

pub use settling::{end_by, settle};
pub use sound::SoundMachine;
pub use thread::Thread;
