//! What is timed and measured from outside: calls of threads on a table of turns, writes on maps of
//! runs, parts of a machine, and steps on an allocation. Without words it says how it is used, and makes
//! 1,000 random writes on 64 bytes.
#![tactic(auto)]

ghost use Rattle.std.specs.Prelude.{◌≤◌};

mod allocations;
mod journal;
mod maps;
mod rates;
mod steps;
#[cfg(test)]
mod tests;

use allocations::{Asked, chain, plain, siblings};
use bsan_ids::NoMemory;
use maps::{even_writes, random_writes, run_count};
use rates::rate;
use std::alloc::Global;
use std::{env, io};
use steps::{LoopOf, run};

const USE: &str = "bench turns CALLS measures 1, 2 and 4 threads that make CALLS calls each
bench random LENGTH makes 100,000 random writes on a map of LENGTH bytes
bench even LENGTH makes one write at each even byte of a map of LENGTH bytes
bench local PARTS runs a machine over so many local instructions
bench steps PARTS runs a machine over so many parts of a loop that loads
bench chain DEPTH STEPS writes STEPS times through the last of a chain of DEPTH reborrows
bench siblings COUNT STEPS reads STEPS times through the first of COUNT reborrows of one pointer
bench plain SIZE STEPS writes STEPS times to an allocation of SIZE bytes without a reborrow";

fn word_at(words: &[String], index: usize) -> Option<&str> {
    Some(words.get(index)?.as_str())
}

/// The number that is a word, if it is one.
fn number_at(words: &[String], index: usize) -> Option<u32> {
    word_at(words, index)?.parse::<u32>().ok()
}

/// An allocation after steps of a kind, if the kind is one of an allocation's.
fn steps_of(alloc: Global, kind: &str, number: u32, steps: u32) -> Option<Result<Asked, NoMemory>>
    requires { 1 ≤ number }
{
    match kind {
        "chain" => Some(chain(alloc, number, steps)),
        "siblings" => Some(siblings(alloc, number, steps)),
        "plain" => Some(plain(alloc, number.min(1_048_576), steps)),
        _ => None,
    }
}

/// What a machine's loop does, if the kind is one of a machine's.
fn loop_of(kind: &str) -> Option<LoopOf> {
    match kind {
        "local" => Some(LoopOf::Additions),
        "steps" => Some(LoopOf::Loads),
        _ => None,
    }
}

fn main(rt: HostRuntime) -> Result<(), io::Error> {
    let alloc = rt.alloc();
    let words: Vec<String> = env::args(&rt)?.collect(alloc)?;
    let kind = word_at(&words, 1).unwrap_or("");
    let number = number_at(&words, 2).unwrap_or(64).max(1);
    let steps = number_at(&words, 3).unwrap_or(0);
    if let Some(asked) = steps_of(alloc, kind, number, steps) {
        return match asked {
            Ok(asked) => println!(rt; "{steps} steps, the counter is {}", asked.visits()),
            Err(NoMemory) => println!(rt; "no memory"),
        };
    }
    if kind == "turns" {
        for threads in [1, 2, 4] {
            let one = rate(&rt, alloc, threads, false, number)?;
            let each = rate(&rt, alloc, threads, true, number)?;
            let ratio = each.saturating_mul(100) / one.max(1);
            println!(rt; "threads {threads}: {one} calls a second on one number")?;
            println!(rt;
                "threads {threads}: {each} calls a second on a number each, {ratio} to 100"
            )?;
        }
        return Ok(());
    }
    if let Some(what) = loop_of(kind) {
        return match run(alloc, what, number) {
            Ok(count) => println!(rt; "{count} instructions"),
            Err(NoMemory) => println!(rt; "no memory"),
        };
    }
    let made = match kind {
        "even" => even_writes(alloc, number),
        "random" => random_writes(alloc, number, 100_000),
        _ => {
            println!(rt; "{USE}")?;
            random_writes(alloc, number, 1_000)
        }
    };
    match made {
        Ok(map) => println!(rt; "{number} bytes, {} runs", run_count(&map, number)),
        Err(NoMemory) => println!(rt; "no memory"),
    }
}
