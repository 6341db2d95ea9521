//! Whole programs and the texts that are printed of them; texts, and the programs that they are read as, or
//! where and why they are refused; programs with the rule of the verifier that each of them breaks; tokens, target
//! code, generated programs and excerpts.
#![tactic(auto)]

#[cfg(test)]
mod assigned;
#[cfg(test)]
mod build;
#[cfg(test)]
mod excerpts;
#[cfg(test)]
mod generated;
#[cfg(test)]
mod limits;
#[cfg(test)]
mod loads;
#[cfg(test)]
mod realistic;
#[cfg(test)]
mod refusals;
#[cfg(test)]
mod round_trip;
#[cfg(test)]
mod rules;
#[cfg(test)]
mod target_text;
#[cfg(test)]
mod tokens;
#[cfg(test)]
mod well_formed;
