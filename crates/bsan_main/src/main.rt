//! The command: the system's files and standard output under the top call.
#![tactic(auto)]

ghost use Rattle.std.specs.Prelude.{◌<◌, length};
ghost use Rattle.hosts.specs.Rules.{IsAnswer};
ghost use Rattle.hosts.specs.Standard.{standard_table};

use bsan::bsan;
use command_words::words_of;
use hosts::{Hosts, standard_answer, standard_table};
use outside_io::{NoGate, RealFiles, RealSink};
use run_record::RunRecord;
use std::process::ExitCode;
use std::{env, io};

const NO_MEMORY: u8 = 9;

fn main(rt: HostRuntime) -> ExitCode {
    let Ok(words) = words_of(rt.alloc(), env::args(&rt)) else {
        return ExitCode::from(NO_MEMORY);
    };
    let Ok(table) = standard_table(rt.alloc()) else {
        return ExitCode::from(NO_MEMORY);
    };
    let answer = |number: u32, first: u64, second: u64|
        requires { number < length standard_table.entries }
        ensures { IsAnswer standard_table number first second result }
    { standard_answer(number, first, second) };
    let Ok(answerer) = Box::new(rt.alloc(), answer) else {
        return ExitCode::from(NO_MEMORY);
    };
    let hosts = Hosts::new(table, answerer);
    let mut files = RealFiles::new(&rt);
    let mut out = RealSink::new(io::writer(&rt));
    let mut kept = RunRecord::new(rt.alloc());
    let status = bsan(
        &rt,
        rt.alloc(),
        words.as_slice(),
        &mut files,
        &mut out,
        &NoGate,
        &hosts,
        &mut kept,
    );
    ExitCode::from(status)
}
