//! Turns of one thread within small limits, and of two threads that share an allocation.
#![tactic(auto)]

#[cfg(test)]
mod space;
