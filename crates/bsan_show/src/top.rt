//! The top call with notes.
ghost use Rattle.std.specs.Prelude.{◌≡◌, [], Option, IfOk, map, string_bytes};
ghost use Rattle.std.specs.Option.{option_map};
ghost use Rattle.command_words.specs.Jobs as jobs;
ghost use Rattle.command_words.specs.Meaning.{job_meant};
ghost use Rattle.explain.specs.Explanations.{AreHistories};
ghost use Rattle.history.specs.Records.{HasDistinctStamps, empty_record};
ghost use Rattle.notes.specs.Meaning.{source_meant};
ghost use Rattle.notes.specs.Whole.{AreNotes};
ghost use Rattle.bsan.specs.Seen.{seen_by, put_by};
ghost use Rattle.bsan.specs.TopCall.{IsTopCall};
ghost use Rattle.bsan.specs.Words.{IsReadOf};
ghost use Rattle.bsan_show.specs.Kept.{text_of};
ghost use Rattle.bsan_show.specs.Shown as shown;

use crate::remembering::Remembering;
use bsan::bsan_asked;
use bsan_ids::NoMemory;
use command_words::{Job, WordsFault, read_job};
use hosts::Hosts;
use notes::{Source, notes_of, words_note};
use outside_io::{Files, NoGate, Sink};
use race_check::{Race, races};
use run_record::RunRecord;
use std::alloc::Global;
use std::sync::Wait;
use std::thread::Threads;

/// What a call with notes gave.
#[derive(Drop)]
pub struct Shown {
    /// The status of the top call.
    pub status: u8,
    /// The notes on what it found, unless there was no memory for them.
    pub notes: Result<Vec<u8>, NoMemory>,
}

/// What a call is given from outside.
#[derive(Clone, Copy)]
pub struct Outside<'a, R> {
    pub rt: &'a R,
    pub alloc: Global,
    /// The functions of the host that a program may call.
    pub hosts: &'a Hosts,
    /// Whether notes are in colours.
    pub colours: bool,
}

/// The file of the program on which a job has notes. `load` has none.
fn noted_file<'w>(job: &Job<'w>) -> Option<&'w str>
    ensures { option_map (λ file. file.now) result ≡ shown.noted_file (job_meant job.now) }
{
    match job {
        Job::Check { file } | Job::Instrument { file } => Some(file),
        Job::Replay(run) | Job::Races(run) | Job::Explain(run) => Some(run.file),
        Job::Run(run) | Job::Record(run) => Some(run.file),
        Job::Recheck(check) => Some(check.file),
        Job::Hush(run) => Some(run.file),
        Job::Load(_) => None,
    }
}

/// The races that a job asks for.
fn asked_races(alloc: Global, job: &Job<'_>, kept: &RunRecord) -> Result<Vec<Race>, NoMemory>
    requires { HasDistinctStamps kept.now }
    ensures { IfOk result (λ found. shown.AreAskedRaces kept.now found.items (job_meant job.now)) }
{
    match job {
        Job::Races(_) => races(alloc, kept),
        _ => Ok(Vec::new(alloc)),
    }
}

/// The notes on a text alone.
fn text_notes(alloc: Global, source: &Source<'_>, hosts: &Hosts) -> Result<Vec<u8>, NoMemory>
    ensures { IfOk result (λ notes. AreNotes (source_meant source.now) hosts.now.table empty_record [] notes.items) }
{
    notes_of(alloc, source, hosts.table(), &RunRecord::new(alloc), &[])
}

/// The notes on a text and on the run that a job made of it, with the record that it left.
fn report_notes(
    alloc: Global,
    job: &Job<'_>,
    source: &Source<'_>,
    hosts: &Hosts,
    kept: &RunRecord,
) -> Result<Vec<u8>, NoMemory>
    requires histories { AreHistories kept.now.allocs }
    requires distinct { HasDistinctStamps kept.now }
    ensures { IfOk result (λ notes. shown.AreReportNotes hosts.now.table kept.now notes.items (job_meant job.now) (source_meant source.now)) }
{
    let found = asked_races(alloc, job, kept)?;
    notes_of(alloc, source, hosts.table(), kept, &found)
}

/// The notes on what a job found in a text, with the record that it left. Those of `hush` are on the text alone, since
/// rules may hold its violations back.
fn notes_on(
    alloc: Global,
    job: &Job<'_>,
    source: &Source<'_>,
    hosts: &Hosts,
    kept: &RunRecord,
) -> Result<Vec<u8>, NoMemory>
    requires histories { AreHistories kept.now.allocs }
    requires distinct { HasDistinctStamps kept.now }
    ensures { IfOk result (λ notes. shown.AreNotesOn hosts.now.table kept.now notes.items (job_meant job.now) (source_meant source.now)) }
{
    match job {
        Job::Hush(_) => text_notes(alloc, source, hosts),
        _ => report_notes(alloc, job, source, hosts, kept),
    }
}

/// What notes on a job show, where the text of its program is kept.
fn source_for<'a, S: Files>(
    colours: bool,
    job: &Job<'a>,
    files: &'a Remembering<S>,
) -> Option<Source<'a>>
    ensures { option_map source_meant result ≡ shown.source_for colours (text_of files.entry.now.first) (job_meant job.now) }
{
    let name = noted_file(job)?;
    let text = files.text_of(name)?;
    Some(Source {
        name,
        text,
        colours,
    })
}

impl<'a, R: Threads + Wait + Sync> Outside<'a, R> {
    /// The notes on what a call found by these words, of which the second is what `read_job` made.
    fn notes<S: Files>(
        &self,
        words: &[String],
        asked: &Result<Job<'_>, WordsFault>,
        files: &Remembering<S>,
        kept: &RunRecord,
    ) -> Result<Vec<u8>, NoMemory>
        requires histories { AreHistories kept.now.allocs }
        requires distinct { HasDistinctStamps kept.now }
        ensures { (read : Option jobs.Job) → IsReadOf read asked.now → IfOk result (λ notes.
            shown.AreShown self.now.colours self.now.hosts.now.table kept.now (text_of files.now.first) (map string_bytes words.now) read notes.items) }
    {
        let job = match asked {
            Ok(job) => job,
            Err(WordsFault::Refused) => return words_note(self.alloc, words, self.colours),
            Err(WordsFault::NoMemory) => return Err(NoMemory),
        };
        match source_for(self.colours, job, files) {
            Some(source) => notes_on(self.alloc, job, &source, self.hosts, kept),
            None => Ok(Vec::new(self.alloc)),
        }
    }

    /// The top call, and notes on what it found: what it reads, puts, keeps and answers is as the contract of
    /// [`bsan`](bsan::bsan) says.
    pub fn show<S: Files, K: Sink>(
        &self,
        words: &[String],
        files: &mut Remembering<S>,
        out: &mut K,
        kept: &mut RunRecord,
    ) -> Shown
        ensures top_call { IsTopCall
            (seen_by S.content S.faults S.overlong files.old.files files.new.files)
            self.now.hosts.now.table
            (put_by K.taken K.faults out.old out.new)
            (jobs.job_of (map string_bytes words.now))
            kept.new
            result.status }
        ensures notes { IfOk result.notes (λ notes. shown.AreShown self.now.colours self.now.hosts.now.table kept.new
            (text_of files.new.first) (map string_bytes words.now) (jobs.job_of (map string_bytes words.now)) notes.items) }
    {
        let asked = read_job(self.alloc, words);
        let status = bsan_asked(
            self.rt, self.alloc, &asked, files, out, &NoGate, self.hosts, kept,
        );
        let notes = self.notes(words, &asked, files, kept);
        Shown { status, notes }
    }
}
