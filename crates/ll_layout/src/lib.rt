//! Sizes, alignments and offsets of LLVM's types on x86-64 Linux.
//!
//! A field's offset is the least multiple of its alignment that is not below the end of the field before it, or that end
//! itself in a packed structure. A structure is aligned like the field that is aligned most, or to 1 if it is packed, and its
//! size is the least multiple of its alignment that is not below the end of its last field.
#![tactic(auto)]

mod layout;
mod layouts;
mod scalars;
mod structs;

pub use layout::{Front, Layout, LayoutFault, MOST_BYTES, Target};
pub use layouts::{Layouts, MOST_NESTED, lay_out};
