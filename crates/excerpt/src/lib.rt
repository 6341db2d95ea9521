//! Where things stand in a program's text: the line and the column of an offset, the place of each instruction, and
//! a line as it is shown to a person, with a mark under one of its bytes.
//!
//! A text is any bytes. A line ends with its newline, or at the text's end; lines and columns count from 1, and a column
//! counts bytes: a tab, a carriage return and a byte that isn't UTF-8 are one column each, as any other byte. An offset
//! past the text's end counts as that end.
#![tactic(auto)]

mod laws;
mod lines;
mod places;
mod shown;

pub use laws::places_stand_at_numbers;
pub use lines::{before_in_line, column_number, from_in_line, line_number};
pub use places::instruction_places;
pub use shown::{MOST_SHOWN, excerpt, shown_text};
