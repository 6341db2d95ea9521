//! What is found among the first entries of a list.
ghost use Rattle.std.specs.Prelude.{◌≡◌, ℕ, None, []};
ghost use Rattle.race_check.specs.Tracked.{tracked_at};

use crate::race::Race;
use crate::tracked::Allocations;
use std::alloc::Global;

/// The races, and the accesses of each allocation.
#[derive(Drop)]
pub struct Found {
    pub races: Vec<Race>,
    pub allocs: Allocations,
}

impl Found {
    pub fn new(alloc: Global) -> Found
        ensures races { result.races.items ≡ [] }
        ensures allocs { (n : ℕ) → tracked_at result.allocs n ≡ None }
    {
        Found {
            races: Vec::new(alloc),
            allocs: Allocations::new(alloc),
        }
    }
}
