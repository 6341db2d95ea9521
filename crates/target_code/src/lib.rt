//! Target code: the lines that an instrumented program runs by, as data and as text; and what it is
//! for target code to be well formed.
#![tactic(auto)]

mod copies;
mod family;
mod line;
mod printer;
mod words;

pub use family::Family;
pub use line::{Line, Operand, Shadow, Target, TargetFunction};
pub use printer::text;
