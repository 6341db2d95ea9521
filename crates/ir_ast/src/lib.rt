//! Programs of the text language as data, with the places of their tokens; the grammar that says which
//! tokens each of them is written with; and their canonical text.
#![tactic(auto)]

mod bounds;
mod copies;
mod hosts;
mod laws;
mod mark;
mod operators;
mod printer;
mod program;
mod types;
mod words;
mod writer;

pub use bounds::{
    MOST_FUNCTIONS, MOST_INSTRUCTIONS, MOST_REGISTERS, MOST_SIZE, MOST_SIZE_IN_VERSION_1,
    most_size_of,
};
pub use hosts::{HostEntry, HostRule, HostTable};
pub use laws::{given_by_parts, keeps_limits, one_proof, one_text};
pub use mark::Mark;
pub use operators::{BinaryOp, CastOp, Cond, ModifyOp};
pub use printer::print;
pub use program::{
    Block, Function, Goal, Inst, Jump, Named, Op, Param, Program, Term, TypedVal, Val,
};
pub use types::{Attr, Place, ResultTy, Ty, Width};
pub use words::{binary_word, cast_word, cond_word, kind_word, modify_word, type_word, width_word};
