//! What values over bytes, fragments, protectors, words, entries, logs, trees and allocations answer, worked out by hand.
#![tactic(auto)]

#[cfg(test)]
mod allocations;
#[cfg(test)]
mod borrows;
#[cfg(test)]
mod bytes;
#[cfg(test)]
mod exchanges;
#[cfg(test)]
mod fragments;
#[cfg(test)]
mod frames;
#[cfg(test)]
mod frees;
#[cfg(test)]
mod histories;
#[cfg(test)]
mod lazy_trees;
#[cfg(test)]
mod pointers;
#[cfg(test)]
mod ranges;
#[cfg(test)]
mod rings;
#[cfg(test)]
mod trees;
#[cfg(test)]
mod words;
