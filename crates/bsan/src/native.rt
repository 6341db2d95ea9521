//! Jobs for native threads, and the top call that serves them.
ghost use Rattle.std.specs.Prelude.{◌≡◌, ◌≤◌, ℕ, List, Option, Some, map, string_bytes, MatchResult, IfOk, OnOk, OnErr, IsErrOf};
ghost use Rattle.std.specs.Option.{IsSomeAnd};
ghost use Rattle.command_words.specs.Jobs as jobs;
ghost use Rattle.command_words.specs.Meaning.{job_meant, load_meant, native_job_meant, native_meant, settings_meant};
ghost use Rattle.core_model.specs.Running.{AreLimits};
ghost use Rattle.history.specs.Records.{empty_record};
ghost use Rattle.ir_text.specs.Bytes.{most_bytes};
ghost use Rattle.source_sem.specs.Records.{IsRightRecord};
ghost use Rattle.bsan.specs.Answer.{FindsIn, HasCause, Answers, IsLoaded, IsUnloaded};
ghost use Rattle.bsan.specs.Runs.{IsNativeRun};
ghost use Rattle.bsan.specs.Seen.{seen_by, put_by, Failed, WasTooLong};
ghost use Rattle.bsan.specs.TopCall.{IsTopCall};
ghost use Rattle.bsan.specs.Words.{HasLimits, HasSize, IsInRange, IsReadOf, origin_of};

use crate::generated::generate;
use crate::load::{load, read_input, unread_input};
use crate::outcome::Outcome;
use crate::top::{NO_MEMORY, answer_fault, answer_job, tell};
use bsan_ids::{Limits, NoMemory};
use command_words::{Job, LoadRun, NativeJob, NativeRun, Settings, WordsFault, read_job};
use core_model::main_machine;
use hosts::Hosts;
use instrument::instrument;
use interp::run_program;
use ir_rules::Verified;
use outside_io::{FileFault, Files, Gate, Sink};
use run_record::RunRecord;
use std::alloc::Global;
use std::sync::Wait;
use std::thread::Threads;

/// What the jobs for native threads are given from outside.
#[derive(Clone, Copy)]
pub(crate) struct Native<'a, R, G> {
    pub(crate) rt: &'a R,
    pub(crate) alloc: Global,
    pub(crate) gate: &'a G,
    pub(crate) hosts: &'a Hosts,
}

impl<'a, R: Threads + Wait + Sync, G: Gate + Sync> Native<'a, R, G> {
    /// Runs a verified program with its input.
    fn run(
        &self,
        limits: &Limits,
        verified: &Verified,
        input: &[u8],
        kept: &mut RunRecord,
    ) -> Result<(), NoMemory>
        requires hosts { verified.now.hosts ≡ self.now.hosts.now.table }
        requires limits { AreLimits limits.now }
        requires empty { kept.old ≡ empty_record }
        ensures ok { OnOk result (IsRightRecord verified.now.program input.now self.now.hosts.now.table limits.now kept.new) }
        ensures err { OnErr result (kept.new ≡ empty_record) }
    {
        let target = instrument(self.alloc, verified)?;
        let (main, machine) = main_machine(self.alloc, verified, &target, input)?;
        run_program(
            self.rt, self.alloc, main, machine, limits, self.gate, self.hosts, kept,
        )
    }

    /// Reads the input of a run, and makes it.
    pub(crate) fn run_with<S: Files>(
        &self,
        settings: &Settings<'_>,
        verified: &Verified,
        files: &mut S,
        kept: &mut RunRecord,
    ) -> Result<(), FileFault>
        requires hosts { verified.now.hosts ≡ self.now.hosts.now.table }
        requires limits { AreLimits settings.now.limits }
        requires empty { kept.old ≡ empty_record }
        ensures ran { OnOk result (IsNativeRun
            (seen_by S.content S.faults S.overlong files.old files.new)
            self.now.hosts.now.table kept.new verified.now.program (settings_meant settings.now)) }
        ensures failed { IsErrOf result FileFault.Failed → IsSomeAnd (settings_meant settings.now).input (λ file. Failed
            (seen_by S.content S.faults S.overlong files.old files.new)
            file) }
        ensures too_long { IsErrOf result FileFault.TooLong → IsSomeAnd (settings_meant settings.now).input (λ file. WasTooLong
            (seen_by S.content S.faults S.overlong files.old files.new)
            file most_bytes) }
        ensures err { OnErr result (kept.new ≡ empty_record) }
    {
        let mut input = Vec::new(self.alloc);
        read_input(files, settings.input, &mut input)?;
        match self.run(&settings.limits, verified, input.as_slice(), kept) {
            Ok(()) => Ok(()),
            Err(NoMemory) => Err(FileFault::NoMemory),
        }
    }

    /// Makes a run, and tells of it.
    fn serve_run<S: Files>(
        &self,
        asked: &NativeRun<'_>,
        verified: &Verified,
        files: &mut S,
        kept: &mut RunRecord,
    ) -> Result<Outcome, NoMemory>
        requires hosts { verified.now.hosts ≡ self.now.hosts.now.table }
        requires limits { AreLimits asked.now.settings.limits }
        requires empty { kept.old ≡ empty_record }
        ensures { MatchResult result (λ found. FindsIn
            (seen_by S.content S.faults S.overlong files.old files.new)
            self.now.hosts.now.table kept.new found (jobs.Run (native_meant asked.now)) verified.now.program)
            (λ _. kept.new ≡ empty_record) }
    {
        match self.run_with(&asked.settings, verified, files, kept) {
            Ok(()) => Ok(Outcome::Ran),
            Err(fault) => unread_input(fault),
        }
    }

    /// Makes the run of a generated program, which has no input, and tells of its end.
    fn serve_load<S: Files>(
        &self,
        asked: &LoadRun,
        verified: &Verified,
        files: &mut S,
        kept: &mut RunRecord,
    ) -> Result<Outcome, NoMemory>
        requires hosts { verified.now.hosts ≡ self.now.hosts.now.table }
        requires empty { kept.old ≡ empty_record }
        ensures { MatchResult result (λ found. FindsIn
            (seen_by S.content S.faults S.overlong files.old files.new)
            self.now.hosts.now.table kept.new found (jobs.Load (load_meant asked.now)) verified.now.program)
            (λ _. kept.new ≡ empty_record) }
    {
        match self.run_with(&Settings::defaults(), verified, files, kept) {
            Ok(()) => Ok(Outcome::Loaded {
                seed: asked.seed,
                size: asked.size,
            }),
            Err(fault) => unread_input(fault),
        }
    }

    /// Serves a job on its verified program.
    fn serve<S: Files>(
        &self,
        job: &NativeJob<'_>,
        verified: &Verified,
        files: &mut S,
        kept: &mut RunRecord,
    ) -> Result<Outcome, NoMemory>
        requires hosts { verified.now.hosts ≡ self.now.hosts.now.table }
        requires limits { HasLimits (native_job_meant job.now) }
        requires empty { kept.old ≡ empty_record }
        ensures { MatchResult result (λ found. FindsIn
            (seen_by S.content S.faults S.overlong files.old files.new)
            self.now.hosts.now.table kept.new found (native_job_meant job.now) verified.now.program)
            (λ _. kept.new ≡ empty_record) }
    {
        match job {
            NativeJob::Run(asked) => self.serve_run(asked, verified, files, kept),
            NativeJob::Load(asked) => self.serve_load(asked, verified, files, kept),
            NativeJob::Record(asked) => self.serve_record(asked, verified, files, kept),
            NativeJob::Hush(asked) => self.serve_hush(asked, verified, files, kept),
        }
    }

    /// The program of a job; or what is found where there is none.
    fn program<S: Files>(
        &self,
        job: &NativeJob<'_>,
        files: &mut S,
    ) -> Result<Result<Verified, Outcome>, NoMemory>
        requires { HasSize (origin_of (native_job_meant job.now)) }
        ensures loaded { IfOk result (λ loaded. MatchResult loaded
            (IsLoaded
            (seen_by S.content S.faults S.overlong files.old files.new)
            self.now.hosts.now.table (origin_of (native_job_meant job.now)))
            (IsUnloaded
            (seen_by S.content S.faults S.overlong files.old files.new)
            self.now.hosts.now.table (origin_of (native_job_meant job.now)))) }
        ensures content { (other : List ℕ) → S.content files.new other ≡ S.content files.old other }
        ensures faults { (other : List ℕ) → S.faults files.old other ≤ S.faults files.new other }
        ensures overlong { (other : List ℕ) (most : ℕ) → S.overlong files.old other most ≤ S.overlong files.new other most }
    {
        match job {
            NativeJob::Run(asked) | NativeJob::Record(asked) => {
                load(self.alloc, asked.file, files, self.hosts)
            }
            NativeJob::Load(asked) => Ok(Ok(generate(self.alloc, asked, self.hosts)?)),
            NativeJob::Hush(asked) => load(self.alloc, asked.file, files, self.hosts),
        }
    }

    /// Does the work of a job, up to its text.
    fn find<S: Files>(
        &self,
        job: &NativeJob<'_>,
        files: &mut S,
        kept: &mut RunRecord,
    ) -> Result<Outcome, NoMemory>
        requires range { IsInRange (native_job_meant job.now) }
        requires empty { kept.old ≡ empty_record }
        ensures { MatchResult result
            (HasCause
            (seen_by S.content S.faults S.overlong files.old files.new)
            self.now.hosts.now.table (Some (native_job_meant job.now)) kept.new)
            (λ _. kept.new ≡ empty_record) }
    {
        match self.program(job, files)? {
            Ok(verified) => self.serve(job, &verified, files, kept),
            Err(found) => Ok(found),
        }
    }

    /// Does the work of a job, and puts its text.
    fn answer<S: Files, K: Sink>(
        &self,
        job: &NativeJob<'_>,
        files: &mut S,
        out: &mut K,
        kept: &mut RunRecord,
    ) -> u8
        requires range { IsInRange (native_job_meant job.now) }
        requires empty { kept.old ≡ empty_record }
        ensures { Answers
            (seen_by S.content S.faults S.overlong files.old files.new)
            self.now.hosts.now.table
            (put_by K.taken K.faults out.old out.new)
            (Some (native_job_meant job.now)) kept.new result }
    {
        match self.find(job, files, kept) {
            Ok(found) => tell(self.alloc, &found, out, kept),
            Err(NoMemory) => NO_MEMORY,
        }
    }
}

/// Does the work, and puts its text: of a job for native threads here, of another one on this thread.
fn answer<R: Threads + Wait + Sync, S: Files, K: Sink, G: Gate + Sync>(
    rt: &R,
    alloc: Global,
    asked: &Result<Job<'_>, WordsFault>,
    files: &mut S,
    out: &mut K,
    gate: &G,
    hosts: &Hosts,
    kept: &mut RunRecord,
) -> u8
    requires range { IfOk asked.now (λ job. IsInRange (job_meant job)) }
    ensures { (words : Option jobs.Job) → IsReadOf words asked.now → Answers
        (seen_by S.content S.faults S.overlong files.old files.new) hosts.now.table (put_by K.taken K.faults out.old out.new)
        words kept.new result }
{
    kept.clear();
    let job = match asked {
        Ok(job) => job,
        Err(fault) => return answer_fault(alloc, *fault, out, kept),
    };
    match job.native() {
        Some(native_job) => {
            let native = Native {
                rt,
                alloc,
                gate,
                hosts,
            };
            native.answer(&native_job, files, out, kept)
        }
        None => answer_job(alloc, job, files, out, hosts, kept),
    }
}

/// Does what [`bsan`] does by the words of which `asked` is what [`read_job`] made, for a caller that needs it too.
pub fn bsan_asked<R: Threads + Wait + Sync, S: Files, K: Sink, G: Gate + Sync>(
    rt: &R,
    alloc: Global,
    asked: &Result<Job<'_>, WordsFault>,
    files: &mut S,
    out: &mut K,
    gate: &G,
    hosts: &Hosts,
    kept: &mut RunRecord,
) -> u8
    requires range { IfOk asked.now (λ job. IsInRange (job_meant job)) }
    ensures { (words : Option jobs.Job) → IsReadOf words asked.now → IsTopCall
        (seen_by S.content S.faults S.overlong files.old files.new)
        hosts.now.table
        (put_by K.taken K.faults out.old out.new)
        words
        kept.new
        result }
{
    answer(rt, alloc, asked, files, out, gate, hosts, kept)
}

/// Serves `run FILE`, which runs the program of the file with a native thread for each thread that it starts, and puts
/// the report of that run; `load SEED SIZE`, which runs the program that the number SEED gives so, whose four workers each
/// make SIZE stores; `record FILE`, which runs a program as `run` does and puts the text of its record; `hush FILE RULES`,
/// which runs a program as `run` does and puts its report without the violations that
/// the rules of a file hold back; and all commands of [`bsan_alone`](crate::bsan_alone), as that does. `run`, `record` and `hush` take the
/// same options. `load` takes none: its run has no input and the limits that they have without a value. After `load` the
/// text of a run is the line `load SEED SIZE: ` with the summary of the report, and the line of its status. All of them may
/// wait for their threads. The `gate` is told where they have come to.
///
/// What is done in which order, what is put and what is answered is as for `bsan_alone`: a run on native threads
/// stands where a run on one does. `load` reads no file, so its answer is none of 3, 4 and 7.
///
/// `hush` reads the rules after verifying and before the input. Their file may have up to 1,048,576 bytes, and has a rule a line:
/// `hold CAUSE`, `hold CAUSE at N` or `hold CAUSE in @NAME`, where CAUSE is `any`, `denied`, `strongfree`, `stranger`, `freed` or
/// `outofrange`, N the number of an instruction and NAME that of a function. Lines that are empty or begin with `;` are none. The
/// report has a line for each first violation that no rule holds, counts these and behind `held` the others, and has the status
/// of the run without the others. Of an allocation whose first violation is held no later one is shown. `hush` alone answers
///
/// | status | when | text |
/// |---|---|---|
/// | 7 | besides, a read of the rules' file failed, or it is too long | `read fault: rules`, `too long: rules` |
/// | 12 | a line of the rules, the first such one, has none of the forms, or names a function that is not there | `rules refused: BadLine at line L`, `rules refused: NoFunction at line L`, lines counted from 1 |
///
/// > For every accepted program and input, and however its threads interleave, each allocation's accesses, retags, protector ends and free form one history, ordered by stamps, that holds each thread's calls in program order and once; every reply and verdict is eager Tree Borrows' at that point; the printed reports are exactly the first violations; and the stamped steps merged are a run of the uninstrumented program.
///
/// It claims this sentence where a run is made: memory may run out first. After a run `kept` is a right record, its
/// erasure included, of the program that was read, with the input that was read and within the limits of the words; or of
/// the program that SEED and SIZE give. After `run` the text that is put is the report of `kept`, whose violation lines are the
/// first violations; after `record` it is the record's text; after `hush` the violation lines are exactly those of the first
/// violations that the rules do not hold.
pub fn bsan<R: Threads + Wait + Sync, S: Files, K: Sink, G: Gate + Sync>(
    rt: &R,
    alloc: Global,
    words: &[String],
    files: &mut S,
    out: &mut K,
    gate: &G,
    hosts: &Hosts,
    kept: &mut RunRecord,
) -> u8
    ensures { IsTopCall
        (seen_by S.content S.faults S.overlong files.old files.new)
        hosts.now.table
        (put_by K.taken K.faults out.old out.new)
        (jobs.job_of (map string_bytes words.now))
        kept.new
        result }
{
    let asked = read_job(alloc, words);
    bsan_asked(rt, alloc, &asked, files, out, gate, hosts, kept)
}
