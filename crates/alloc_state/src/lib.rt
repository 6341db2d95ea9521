//! One allocation under steps that many threads ask: the entries of its steps so far, and what it is
//! after them, so that the next request is answered at once.
//!
//! A request is first prepared, which takes all memory that it may want, and then committed, which
//! takes none and cannot fail.
#![tactic(auto)]

mod alloc_state;
mod boxed_state;
mod copies;
mod made_state;
mod object_state;
mod outcome;
mod plain_mem;
mod tree_steps;

pub use alloc_state::AllocState;
