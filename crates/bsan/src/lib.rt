//! The top call of the sanitizer.
//!
//! It reads the words of a command line, the program's file and the program in its text, and verifies
//! the program. Where that is asked for it reads its input and runs it into a record. It puts one text: the report of
//! that record, the record itself, the report without what rules hold back, the data races of its run, the steps that led to its violations,
//! how large the program is, its target code, whether the record in a file is right, or why there is none.
//!
//! `bsan_alone` serves the commands that need one native thread: `check`, `instrument`, `solo`, `replay`,
//! `races`, `recheck` and `explain`.
//! `bsan` serves `run`, `load`, `record` and `hush` besides, which have a native thread for each thread of the program.
//! Both read the words once, and hand on what they ask for.
#![tactic(auto)]

mod generated;
mod hush;
mod laws;
mod lines;
mod load;
mod native;
mod outcome;
mod recheck;
mod record;
mod top;

pub use laws::the_others_are_held;
pub use native::{bsan, bsan_asked};
pub use top::bsan_alone;
