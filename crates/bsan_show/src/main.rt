//! The command with notes: the top call, whose text goes to standard output as it is and whose status is the program's; and
//! then, on standard error, notes on what of the program's text that concerns. They are in colours where the environment
//! has `CLICOLOR_FORCE`.
#![tactic(auto)]

ghost use Rattle.std.specs.Prelude.{◌<◌, length};
ghost use Rattle.hosts.specs.Rules.{IsAnswer};
ghost use Rattle.hosts.specs.Standard.{standard_table};

mod file;
mod remembering;
mod top;

use crate::remembering::Remembering;
use crate::top::Outside;
use command_words::words_of;
use hosts::{Hosts, standard_answer, standard_table};
use outside_io::{RealFiles, RealSink, Sink};
use run_record::RunRecord;
use std::process::ExitCode;
use std::{env, io};

#[cfg(test)]
mod tests;

const NO_MEMORY: u8 = 9;

fn main(rt: HostRuntime) -> ExitCode {
    let Ok(words) = words_of(rt.alloc(), env::args(&rt)) else {
        return ExitCode::from(NO_MEMORY);
    };
    let Ok(table) = standard_table(rt.alloc()) else {
        return ExitCode::from(NO_MEMORY);
    };
    let answer = |number: u32, first: u64, second: u64|
        requires { number < length standard_table.entries }
        ensures { IsAnswer standard_table number first second result }
    { standard_answer(number, first, second) };
    let Ok(answerer) = Box::new(rt.alloc(), answer) else {
        return ExitCode::from(NO_MEMORY);
    };
    let hosts = Hosts::new(table, answerer);
    let outside = Outside {
        rt: &rt,
        alloc: rt.alloc(),
        hosts: &hosts,
        colours: env::var(&rt, "CLICOLOR_FORCE").is_ok(),
    };
    let mut files = Remembering::new(RealFiles::new(&rt));
    let mut out = RealSink::new(io::writer(&rt));
    let mut kept = RunRecord::new(rt.alloc());
    let shown = outside.show(words.as_slice(), &mut files, &mut out, &mut kept);
    let notes = shown.notes.unwrap_or(Vec::new(rt.alloc()));
    let errors = rt.stderr();
    // Notes that can't be put change nothing.
    let _ = RealSink::new(io::writer(&errors)).put(notes.as_slice());
    ExitCode::from(shown.status)
}
