//! The top call.
ghost use Rattle.std.specs.Prelude.{◌≡◌, Option, Some, None, Err, map, string_bytes, MatchResult, IfOk, OnOk, OnErr, IsErrOf};
ghost use Rattle.std.specs.Option.{IsSomeAnd};
ghost use Rattle.command_words.specs.Jobs.{job_of, native_in, on_one_thread};
ghost use Rattle.command_words.specs.Jobs as jobs;
ghost use Rattle.command_words.specs.Meaning.{job_meant, run_meant};
ghost use Rattle.core_model.specs.Kept.{Replayed};
ghost use Rattle.core_model.specs.Running.{AreLimits};
ghost use Rattle.ir_ast.specs.declared.hosts.HostTable.{HostTable};
ghost use Rattle.ir_text.specs.Bytes.{most_bytes};
ghost use Rattle.history.specs.Records.{empty_record, merged, HasDistinctStamps};
ghost use Rattle.explain.specs.Explanations.{AreHistories};
ghost use Rattle.bsan.specs.Answer.{FindsIn, HasCause, Answers, CanBeTold, IsTold, IsRaced, IsTraced};
ghost use Rattle.bsan.specs.Seen.{FilesSeen, seen_by, put_by, Failed, WasTooLong, Puts};
ghost use Rattle.bsan.specs.Runs.{IsScheduledRun};
ghost use Rattle.bsan.specs.TopCall.{IsTopCall};
ghost use Rattle.bsan.specs.Words.{origin_of, HasLimits, IsReadOf};
ghost use Rattle.bsan.specs.Words.Origin.{InFile};

use crate::load::{load, read_input, unread_input};
use crate::outcome::{Outcome, status_for, text_for};
use crate::recheck::serve_recheck;
use bsan_ids::{ListOf, NoMemory};
use command_words::{Job, ScheduledRun, WordsFault, read_job};
use core_model::{main_machine, replay};
use explain::explain;
use hosts::Hosts;
use instrument::instrument;
use ir_rules::Verified;
use outside_io::{FileFault, Files, PutFault, Sink};
use race_check::races;
use run_record::RunRecord;
use std::alloc::Global;

/// The status where the sink failed.
const PUT_FAILED: u8 = 8;

/// The status where a call is out of memory.
pub(crate) const NO_MEMORY: u8 = 9;

/// Puts a text whose status is given, and answers that status, or 8 or 9 where the put failed.
fn put_text<K: Sink>(out: &mut K, text: &[u8], status: u8) -> u8
    ensures { Puts (put_by K.taken K.faults out.old out.new) text.now status result }
{
    match out.put(text) {
        Ok(()) => status,
        Err(PutFault::Failed) => PUT_FAILED,
        Err(PutFault::NoMemory) => NO_MEMORY,
    }
}

/// Replays a verified program with its input.
fn replay_with(
    alloc: Global,
    asked: &ScheduledRun<'_>,
    verified: &Verified,
    input: &[u8],
    hosts: &Hosts,
    kept: &mut RunRecord,
) -> Result<(), NoMemory>
    requires hosts { verified.now.hosts ≡ hosts.now.table }
    requires limits { AreLimits asked.now.settings.limits }
    requires empty { kept.old ≡ empty_record }
    ensures ok { OnOk result (Replayed verified.now.program input.now hosts.now.table asked.now.settings.limits
        (map (λ pick. pick.0) asked.now.schedule) kept.new) }
    ensures err { OnErr result (kept.new ≡ empty_record) }
{
    let target = instrument(alloc, verified)?;
    let (main, machine) = main_machine(alloc, verified, &target, input)?;
    let schedule = asked.schedule.as_slice();
    replay(
        alloc,
        main,
        machine,
        schedule,
        &asked.settings.limits,
        hosts,
        kept,
    )
}

/// Reads the input of a run on one native thread, and makes it.
fn run<S: Files>(
    alloc: Global,
    asked: &ScheduledRun<'_>,
    verified: &Verified,
    files: &mut S,
    hosts: &Hosts,
    kept: &mut RunRecord,
) -> Result<(), FileFault>
    requires hosts { verified.now.hosts ≡ hosts.now.table }
    requires limits { AreLimits asked.now.settings.limits }
    requires empty { kept.old ≡ empty_record }
    ensures ran { OnOk result (IsScheduledRun
        (seen_by S.content S.faults S.overlong files.old files.new)
        hosts.now.table kept.new verified.now.program (run_meant asked.now)) }
    ensures failed { IsErrOf result FileFault.Failed → IsSomeAnd (run_meant asked.now).settings.input (λ file. Failed
        (seen_by S.content S.faults S.overlong files.old files.new)
        file) }
    ensures too_long { IsErrOf result FileFault.TooLong → IsSomeAnd (run_meant asked.now).settings.input (λ file. WasTooLong
        (seen_by S.content S.faults S.overlong files.old files.new)
        file most_bytes) }
    ensures err { OnErr result (kept.new ≡ empty_record) }
{
    let mut input = Vec::new(alloc);
    read_input(files, asked.settings.input, &mut input)?;
    match replay_with(alloc, asked, verified, input.as_slice(), hosts, kept) {
        Ok(()) => Ok(()),
        Err(NoMemory) => Err(FileFault::NoMemory),
    }
}

/// Finds the data races of a run. Without memory for them there is no record of it either.
fn find_races(alloc: Global, kept: &mut RunRecord) -> Result<Outcome, NoMemory>
    requires { HasDistinctStamps kept.old }
    ensures found { IfOk result (IsRaced kept.new) }
    ensures same { OnOk result (kept.new ≡ kept.old) }
    ensures empty { OnErr result (kept.new ≡ empty_record) }
{
    match races(alloc, kept) {
        Ok(races) => Ok(Outcome::Raced {
            races: ListOf::from_vec(races),
        }),
        Err(NoMemory) => {
            kept.clear();
            Err(NoMemory)
        }
    }
}

/// Finds what led to each first violation of a run. Without memory for it there is no record of the run either.
fn find_causes(alloc: Global, kept: &mut RunRecord) -> Result<Outcome, NoMemory>
    requires { AreHistories kept.old.allocs }
    ensures found { IfOk result (IsTraced kept.new) }
    ensures same { OnOk result (kept.new ≡ kept.old) }
    ensures empty { OnErr result (kept.new ≡ empty_record) }
{
    match explain(alloc, kept) {
        Ok(violations) => Ok(Outcome::Traced {
            violations: ListOf::from_vec(violations),
        }),
        Err(NoMemory) => {
            kept.clear();
            Err(NoMemory)
        }
    }
}

/// Makes a run on one native thread, and tells of it.
fn serve_replay<S: Files>(
    alloc: Global,
    asked: &ScheduledRun<'_>,
    verified: &Verified,
    files: &mut S,
    hosts: &Hosts,
    kept: &mut RunRecord,
) -> Result<Outcome, NoMemory>
    requires hosts { verified.now.hosts ≡ hosts.now.table }
    requires limits { AreLimits asked.now.settings.limits }
    requires empty { kept.old ≡ empty_record }
    ensures { MatchResult result (λ found. FindsIn
        (seen_by S.content S.faults S.overlong files.old files.new)
        hosts.now.table kept.new found (job_meant (Job.Replay asked.now)) verified.now.program)
        (λ _. kept.new ≡ empty_record) }
{
    match run(alloc, asked, verified, files, hosts, kept) {
        Ok(()) => Ok(Outcome::Ran),
        Err(fault) => unread_input(fault),
    }
}

/// Makes a run on one native thread, and finds its data races.
fn serve_races<S: Files>(
    alloc: Global,
    asked: &ScheduledRun<'_>,
    verified: &Verified,
    files: &mut S,
    hosts: &Hosts,
    kept: &mut RunRecord,
) -> Result<Outcome, NoMemory>
    requires hosts { verified.now.hosts ≡ hosts.now.table }
    requires limits { AreLimits asked.now.settings.limits }
    requires empty { kept.old ≡ empty_record }
    ensures { MatchResult result (λ found. FindsIn
        (seen_by S.content S.faults S.overlong files.old files.new)
        hosts.now.table kept.new found (job_meant (Job.Races asked.now)) verified.now.program)
        (λ _. kept.new ≡ empty_record) }
{
    match run(alloc, asked, verified, files, hosts, kept) {
        Ok(()) => find_races(alloc, kept),
        Err(fault) => unread_input(fault),
    }
}

/// Makes a run on one native thread, and finds what led to its violations.
fn serve_explain<S: Files>(
    alloc: Global,
    asked: &ScheduledRun<'_>,
    verified: &Verified,
    files: &mut S,
    hosts: &Hosts,
    kept: &mut RunRecord,
) -> Result<Outcome, NoMemory>
    requires hosts { verified.now.hosts ≡ hosts.now.table }
    requires limits { AreLimits asked.now.settings.limits }
    requires empty { kept.old ≡ empty_record }
    ensures { MatchResult result (λ found. FindsIn
        (seen_by S.content S.faults S.overlong files.old files.new)
        hosts.now.table kept.new found (job_meant (Job.Explain asked.now)) verified.now.program)
        (λ _. kept.new ≡ empty_record) }
{
    match run(alloc, asked, verified, files, hosts, kept) {
        Ok(()) => find_causes(alloc, kept),
        Err(fault) => unread_input(fault),
    }
}

/// Serves a job on a verified program.
fn serve<S: Files>(
    alloc: Global,
    job: &Job<'_>,
    verified: &Verified,
    files: &mut S,
    hosts: &Hosts,
    kept: &mut RunRecord,
) -> Result<Outcome, NoMemory>
    requires hosts { verified.now.hosts ≡ hosts.now.table }
    requires alone { native_in (job_meant job.now) ≡ None }
    requires limits { HasLimits (job_meant job.now) }
    requires empty { kept.old ≡ empty_record }
    ensures { MatchResult result (λ found. FindsIn
        (seen_by S.content S.faults S.overlong files.old files.new)
        hosts.now.table kept.new found (job_meant job.now) verified.now.program)
        (λ _. kept.new ≡ empty_record) }
{
    match job {
        Job::Check { .. } => Ok(Outcome::Accepted {
            functions: verified.function_count(),
            instructions: verified.instruction_count(),
        }),
        Job::Instrument { .. } => Ok(Outcome::Instrumented {
            target: instrument(alloc, verified)?,
        }),
        Job::Replay(asked) => serve_replay(alloc, asked, verified, files, hosts, kept),
        Job::Races(asked) => serve_races(alloc, asked, verified, files, hosts, kept),
        Job::Recheck(asked) => serve_recheck(alloc, asked, verified, files, hosts),
        Job::Explain(asked) => serve_explain(alloc, asked, verified, files, hosts, kept),
        Job::Run(_) | Job::Load(_) | Job::Record(_) | Job::Hush(_) => unreachable!(),
    }
}

/// The program's file.
fn file_of<'w>(job: &Job<'w>) -> &'w str
    requires alone { native_in (job_meant job.now) ≡ None }
    ensures { origin_of (job_meant job.now) ≡ InFile result.now }
{
    match job {
        Job::Check { file } | Job::Instrument { file } => file,
        Job::Replay(run) | Job::Races(run) | Job::Explain(run) => run.file,
        Job::Recheck(check) => check.file,
        Job::Run(_) | Job::Load(_) | Job::Record(_) | Job::Hush(_) => unreachable!(),
    }
}

/// Does the work of a job, up to its text: the program and what is asked of it.
fn find<S: Files>(
    alloc: Global,
    job: &Job<'_>,
    files: &mut S,
    hosts: &Hosts,
    kept: &mut RunRecord,
) -> Result<Outcome, NoMemory>
    requires alone { native_in (job_meant job.now) ≡ None }
    requires limits { HasLimits (job_meant job.now) }
    requires empty { kept.old ≡ empty_record }
    ensures { MatchResult result
        (HasCause (seen_by S.content S.faults S.overlong files.old files.new) hosts.now.table (Some (job_meant job.now)) kept.new)
        (λ _. kept.new ≡ empty_record) }
{
    match load(alloc, file_of(job), files, hosts)? {
        Ok(verified) => serve(alloc, job, &verified, files, hosts, kept),
        Err(found) => Ok(found),
    }
}

/// Puts the text of what was found.
pub(crate) fn tell<K: Sink>(alloc: Global, found: &Outcome, out: &mut K, kept: &RunRecord) -> u8
    requires { CanBeTold found.now kept.now }
    ensures { IsTold (put_by K.taken K.faults out.old out.new) found.now kept.now result }
{
    let Ok(text) = text_for(alloc, found, kept) else {
        return NO_MEMORY;
    };
    let Ok(status) = status_for(alloc, found, kept) else {
        return NO_MEMORY;
    };
    put_text(out, text.as_slice(), status)
}

/// Does the work of a job that one native thread can serve, and puts its text.
pub(crate) fn answer_job<S: Files, K: Sink>(
    alloc: Global,
    job: &Job<'_>,
    files: &mut S,
    out: &mut K,
    hosts: &Hosts,
    kept: &mut RunRecord,
) -> u8
    requires alone { native_in (job_meant job.now) ≡ None }
    requires limits { HasLimits (job_meant job.now) }
    requires empty { kept.old ≡ empty_record }
    ensures { Answers
        (seen_by S.content S.faults S.overlong files.old files.new) hosts.now.table (put_by K.taken K.faults out.old out.new)
        (Some (job_meant job.now)) kept.new result }
{
    match find(alloc, job, files, hosts, kept) {
        Ok(found) => tell(alloc, &found, out, kept),
        Err(NoMemory) => NO_MEMORY,
    }
}

/// The answer where the words ask for nothing, whose text is the usage, or where memory ran out over them.
pub(crate) fn answer_fault<K: Sink>(
    alloc: Global,
    fault: WordsFault,
    out: &mut K,
    kept: &RunRecord,
) -> u8
    requires empty { kept.now ≡ empty_record }
    ensures { (files : FilesSeen) (hosts : HostTable) (asked : Option jobs.Job) → IsReadOf asked (Err fault)
        → Answers files hosts (put_by K.taken K.faults out.old out.new) asked kept.now result }
{
    match fault {
        WordsFault::Refused => tell(alloc, &Outcome::Usage, out, kept),
        WordsFault::NoMemory => NO_MEMORY,
    }
}

/// What the words ask for, where one native thread can serve it.
fn read_alone<'w>(alloc: Global, words: &'w [String]) -> Result<Job<'w>, WordsFault>
    ensures read { IsReadOf (on_one_thread (job_of (map string_bytes words.entry.now))) result }
    ensures alone { IfOk result (λ job. native_in (job_meant job) ≡ None) }
    ensures limits { IfOk result (λ job. HasLimits (job_meant job)) }
{
    let job = read_job(alloc, words)?;
    match job.native() {
        Some(_) => Err(WordsFault::Refused),
        None => Ok(job),
    }
}

/// Reads the words, does the work, and puts its text.
fn answer<S: Files, K: Sink>(
    alloc: Global,
    words: &[String],
    files: &mut S,
    out: &mut K,
    hosts: &Hosts,
    kept: &mut RunRecord,
) -> u8
    ensures { Answers
        (seen_by S.content S.faults S.overlong files.old files.new) hosts.now.table (put_by K.taken K.faults out.old out.new)
        (on_one_thread (job_of (map string_bytes words.now))) kept.new result }
{
    kept.clear();
    match read_alone(alloc, words) {
        Ok(job) => answer_job(alloc, &job, files, out, hosts, kept),
        Err(fault) => answer_fault(alloc, fault, out, kept),
    }
}

/// Serves the commands `check FILE`, which reads and verifies the program of the file and puts how many
/// functions and instructions it has, `instrument FILE`, which puts the text of its target code instead,
/// `solo FILE`, which runs it on one native thread and puts the report of that run, `replay FILE SCHEDULE`,
/// which first picks the threads of a schedule, `races FILE SCHEDULE`, which puts the first data race on each
/// allocation in that run instead, `recheck FILE RECORD`, which puts whether the record in a file is right for the program, and
/// `explain FILE SCHEDULE`, which puts each first violation in the run with the steps that
/// led to it. `solo`, `replay`, `races`, `recheck` and `explain` take `--input FILE`, `--steps N`, `--turns N` and
/// `--allocs N`. The program may call the functions of `hosts`.
///
/// First of all it empties `kept`; a run fills it, and `recheck` does not. It does its work in this order: the words, the
/// program's file, reading, verifying, the input's file, the run, or in its place the record's file and its check. Each file
/// may have up to 1,048,576 bytes, but that of a record up to 67,108,864. Then it puts
/// the whole text in one piece. The answer is the status:
///
/// | status | when | text |
/// |---|---|---|
/// | 0 | the program ran clean, or is accepted, or the record is right | the report, the races or the explanations, or `accepted: F functions, I instructions`, or the target code, or `record holds: steps N, threads T` |
/// | 1 | the run had a violation, and no end of a higher rank | the report, the races, or the explanations |
/// | 2 | the words are no command's, as `clap` reads them, or a value is out of its form or range | `usage:` with the commands, and `options of` with the options |
/// | 3 | the text is refused | `not read: FAULT at PLACE` |
/// | 4 | a rule is broken in the program | `not verified: RULE at PLACE` |
/// | 5 | a thread trapped, and none reached a limit or found no memory | the report, the races, or the explanations |
/// | 6 | a thread reached the limit of steps or of turns, and none found no memory | the report, the races, or the explanations |
/// | 7 | a read of a file failed, or the file is too long | `read fault: program`, `too long: program`, or the same with `input` or `record` |
/// | 8 | the sink failed | a prefix of the text that was to be put |
/// | 9 | out of memory | nothing, or the report, the races or the explanations of a run in which a thread found no memory |
/// | 10 | races were asked for, there is one, and the status of the run itself is 0 or 1 | the races |
/// | 11 | the record's file is no record's text, or a clause of what makes its record right is broken | `record refused: line L`, lines counted from 1, or `record refused: clause X`, X of a, b, c, d and f |
///
/// The races are a line for each, the earlier of its two steps first, then `races N` and `status S`. The explanations are
/// the line of each first violation and, with two blanks before each, lines on who made the node that it names and who last
/// changed that node's state there, or on who freed or made the allocation; then the threads' ends, the summary and the
/// status of the report.
///
/// This is the contract of [`bsan`](crate::bsan), for one native thread:
///
/// > For every accepted program and input, and however its threads interleave, each allocation's accesses, retags, protector ends and free form one history, ordered by stamps, that holds each thread's calls in program order and once; every reply and verdict is eager Tree Borrows' at that point; the printed reports are exactly the first violations; and the stamped steps merged are a run of the uninstrumented program.
///
/// It claims this sentence under every schedule, where a run is made: memory may run out first. After
/// a run `kept` is that of the replay of the program that was read, with the input that was read, by the schedule and
/// within the limits of the words, and it is a right record, its erasure included. After `solo` and `replay` the text
/// that is put is the report of `kept`, whose violation lines are the first violations. After `races` it has a line for
/// an allocation exactly where two steps on it race in `kept`. After `explain` it has the first violations, each with its
/// explanation by the allocation's log.
///
/// After `recheck` the answer is 0 exactly where the record's file is the text of a record that is right for the program, the
/// input, the functions of the host and the limits, and 11 exactly where it is not, where all files are read: whoever wrote it.
pub fn bsan_alone<S: Files, K: Sink>(
    alloc: Global,
    words: &[String],
    files: &mut S,
    out: &mut K,
    hosts: &Hosts,
    kept: &mut RunRecord,
) -> u8
    ensures { IsTopCall
        (seen_by S.content S.faults S.overlong files.old files.new)
        hosts.now.table
        (put_by K.taken K.faults out.old out.new)
        (on_one_thread (job_of (map string_bytes words.now)))
        kept.new
        result }
{
    answer(alloc, words, files, out, hosts, kept)
}
