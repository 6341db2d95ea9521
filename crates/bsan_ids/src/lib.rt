//! The numbers, spans, provenances, names and lists of which every crate speaks.
#![tactic(auto)]

mod addresses;
mod copied;
mod list_of;
mod numbers;

pub use addresses::{address, parts};
pub use copied::{Copied, copy_vec};
pub use list_of::ListOf;
pub use numbers::{
    AllocNo, Counters, Frag, Limits, Name, NoMemory, Prov, Span, Stamp, Tag, ThreadNo,
};

#[cfg(test)]
mod tests;
