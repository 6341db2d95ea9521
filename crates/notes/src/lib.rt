//! Notes for a person who has a report in hand: to each violation, data race, refusal and broken rule of it the lines of
//! the program's text that it concerns, where the allocation and its nodes were made and since when a node has its state,
//! and one sentence of help.
#![tactic(auto)]

mod causes;
mod colours;
mod cures;
mod deeds;
mod entries;
mod help;
mod made;
mod races;
mod refusals;
mod source;
mod traps;
mod violations;
mod whole;
mod words;

pub use source::Source;
pub use whole::notes_of;
pub use words::words_note;
