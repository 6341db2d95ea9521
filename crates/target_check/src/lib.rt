//! Is target code well formed?
#![tactic(auto)]

mod lines;
mod neighbours;
mod numbers;
mod whole;

pub use whole::well_formed;
