//! Worked programs whose threads are given entries one by one, as the machine over the text and the machine over target
//! code run them.
#![tactic(auto)]

#[cfg(test)]
mod answering;
#[cfg(test)]
mod entries;
#[cfg(test)]
mod pair;
#[cfg(test)]
mod programs;
#[cfg(test)]
mod sharing;
