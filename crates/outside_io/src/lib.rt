//! Files and output as traits that count their own faults, their fakes in memory, and the adapters
//! over the system's files and standard output.
#![tactic(auto)]

mod files;
mod gate;
mod mem_files;
mod mem_sink;
mod real_files;
mod real_sink;
mod sink;

pub use files::{FileFault, Files};
pub use gate::{Gate, NoGate, Point};
pub use mem_files::MemFiles;
pub use mem_sink::MemSink;
pub use real_files::RealFiles;
pub use real_sink::RealSink;
pub use sink::{PutFault, Sink};
