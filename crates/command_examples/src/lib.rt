//! Whole commands over files and outputs in memory: the worked programs, reads that fail, outputs without room, threads that a
//! gate holds; and calls that no command makes. What a program shows stands in the rows of tests/.
#![tactic(auto)]

#[cfg(test)]
mod calls;
#[cfg(test)]
mod files;
#[cfg(test)]
mod gates;
#[cfg(test)]
mod host_table;
#[cfg(test)]
mod limits;
#[cfg(test)]
mod others;
#[cfg(test)]
mod records;
#[cfg(test)]
mod refusals;
#[cfg(test)]
mod reports;
#[cfg(test)]
mod threads;
