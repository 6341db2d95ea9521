//! What the words ask for.
ghost use Rattle.std.specs.Prelude.{◌≡◌, ◌≤◌, map, string_bytes, Some, None, IfOk, IfSome, IsErrOf};
ghost use Rattle.std.specs.Option.{option_and_then, option_map};
ghost use Rattle.clap.specs.Words.{first_of, found_of, rows_of};
ghost use Rattle.command_words.specs.Jobs as jobs;
ghost use Rattle.command_words.specs.Numbers as numbers;
ghost use Rattle.command_words.specs.Meaning.{held_meant, job_meant, load_meant, native_meant, recheck_meant, run_meant, settings_meant};

use crate::WordsFault;
use crate::commands::{file_command, load_command, matched, run_command, word_command};
use crate::numbers::{number_in, schedule};
use bsan_ids::{Limits, ListOf, ThreadNo};
use clap::ArgMatches;
use std::alloc::Global;

/// The most steps of a run, where no option names a limit.
const DEFAULT_STEPS: u64 = 1_000_000;

/// The most turns of each of its threads.
const DEFAULT_TURNS: u64 = 10_000_000;

/// The most allocations.
const DEFAULT_ALLOCS: u32 = 65_536;

/// What the options of a run say.
#[derive(Clone, Copy)]
pub struct Settings<'w> {
    /// The file with the input, where one is named.
    pub input: Option<&'w str>,
    /// The limits of the run.
    pub limits: Limits,
}

impl<'w> Settings<'w> {
    ghost use Rattle.command_words.specs.Jobs.{default_settings};
    ghost use Rattle.command_words.specs.Meaning.{settings_meant};

    /// The settings where no option is there: no input, 1,000,000 steps, 10,000,000 turns and 65,536 allocations.
    pub fn defaults() -> Settings<'w>
        ensures { settings_meant result ≡ default_settings }
    {
        Settings {
            input: None,
            limits: Limits {
                steps: DEFAULT_STEPS,
                turns: DEFAULT_TURNS,
                allocs: DEFAULT_ALLOCS,
            },
        }
    }
}

/// A run on one native thread.
#[derive(Drop)]
pub struct ScheduledRun<'w> {
    /// The file with the program.
    pub file: &'w str,
    /// The threads to be picked first, in this order. The command `solo` asks for none.
    pub schedule: ListOf<ThreadNo>,
    /// What the options say.
    pub settings: Settings<'w>,
}

/// A run on native threads.
#[derive(Clone, Copy)]
pub struct NativeRun<'w> {
    /// The file with the program.
    pub file: &'w str,
    /// What the options say.
    pub settings: Settings<'w>,
}

/// A run on native threads of the program that a seed gives.
#[derive(Clone, Copy)]
pub struct LoadRun {
    /// The number from which the program is drawn.
    pub seed: u32,
    /// How many stores each of its workers makes, 1 to 10,000.
    pub size: u32,
}

/// A run on native threads of which rules hold back reports.
#[derive(Clone, Copy)]
pub struct HeldRun<'w> {
    /// The file with the program.
    pub file: &'w str,
    /// The file with the rules.
    pub rules: &'w str,
    /// What the options say.
    pub settings: Settings<'w>,
}

/// A check of a record of a run.
#[derive(Clone, Copy)]
pub struct RecordCheck<'w> {
    /// The file with the program.
    pub file: &'w str,
    /// The file with the record.
    pub record: &'w str,
    /// What the options say.
    pub settings: Settings<'w>,
}

/// What a command line asks for.
#[derive(Drop)]
pub enum Job<'w> {
    /// Read and verify the program in this file.
    Check { file: &'w str },
    /// Make the target code of the program in this file.
    Instrument { file: &'w str },
    /// Run a program on one native thread, and tell how the run went.
    Replay(ScheduledRun<'w>),
    /// Run a program on native threads, and tell how the run went.
    Run(NativeRun<'w>),
    /// Run a generated program on native threads, and tell how large the run was.
    Load(LoadRun),
    /// Run a program on one native thread, and tell the data races of the run.
    Races(ScheduledRun<'w>),
    /// Run a program on native threads, and write the record of the run.
    Record(NativeRun<'w>),
    /// Tell whether a record is right for a program.
    Recheck(RecordCheck<'w>),
    /// Run a program on native threads, and tell how the run went without the reports that rules hold back.
    Hush(HeldRun<'w>),
    /// Run a program on one native thread, and tell which steps led to the violations of the run.
    Explain(ScheduledRun<'w>),
}

/// A job for native threads.
#[derive(Clone, Copy)]
pub enum NativeJob<'w> {
    /// Tell how the run went.
    Run(NativeRun<'w>),
    /// Tell how large the run of a generated program was.
    Load(LoadRun),
    /// Write the record of the run.
    Record(NativeRun<'w>),
    /// Tell how the run went without the reports that rules hold back.
    Hush(HeldRun<'w>),
}

impl<'w> Job<'w> {
    ghost use Rattle.std.specs.Option.{option_map};
    ghost use Rattle.command_words.specs.Jobs as jobs;
    ghost use Rattle.command_words.specs.Meaning.{job_meant, native_job_meant};

    /// The job, where it is one for native threads.
    pub fn native(&self) -> Option<NativeJob<'w>>
        ensures { option_map native_job_meant result ≡ jobs.native_in (job_meant self.now) }
    {
        match self {
            Job::Run(run) => Some(NativeJob::Run(*run)),
            Job::Load(run) => Some(NativeJob::Load(*run)),
            Job::Record(run) => Some(NativeJob::Record(*run)),
            Job::Hush(run) => Some(NativeJob::Hush(*run)),
            Job::Check { .. } | Job::Instrument { .. } => None,
            Job::Replay(_) | Job::Races(_) | Job::Recheck(_) | Job::Explain(_) => None,
        }
    }
}

/// The words FILE and WORD of a command `NAME FILE WORD`, and what its options say.
#[derive(Clone, Copy)]
struct FileAndWord<'w> {
    file: &'w str,
    word: &'w str,
    settings: Settings<'w>,
}

/// The value of an argument, where it has one.
fn value<'w>(matches: &ArgMatches<'w>, id: &str) -> Option<&'w str>
    ensures { option_map (λ text. text.now) result ≡ first_of id.now (rows_of (found_of matches.now)) }
{
    matches.get_str(id)
}

/// The limit of an option, from 1 to the most, or its default where the option isn't there.
fn limit(matches: &ArgMatches<'_>, id: &str, most: u64, default: u64) -> Option<u64>
    requires least { 1 ≤ default }
    requires most { default ≤ most }
    ensures limit { result ≡ jobs.limit_of id.now most default (rows_of (found_of matches.now)) }
    ensures within { IfSome result (λ limit. (1 ≤ limit) × (limit ≤ most)) }
{
    match value(matches, id) {
        Some(text) => number_in(10, 1, most, text),
        None => Some(default),
    }
}

/// The limits of the options.
fn limits(matches: &ArgMatches<'_>) -> Option<Limits>
    ensures limits { result ≡ jobs.limits_of (rows_of (found_of matches.now)) }
{
    let steps = limit(matches, "steps", 4_000_000, DEFAULT_STEPS)?;
    let turns = limit(matches, "turns", 100_000_000, DEFAULT_TURNS)?;
    let allocs = limit(matches, "allocs", 65_536, u64::from(DEFAULT_ALLOCS))?;
    Some(Limits {
        steps,
        turns,
        allocs: allocs as u32,
    })
}

/// What the options say.
fn options<'w>(matches: &ArgMatches<'w>) -> Option<Settings<'w>>
    ensures { option_map settings_meant result ≡ jobs.settings_of (rows_of (found_of matches.now)) }
{
    let limits = limits(matches)?;
    Some(Settings {
        input: value(matches, "input"),
        limits,
    })
}

/// A run of the program in the word FILE, with what the options say.
fn native<'w>(matches: &ArgMatches<'w>) -> Option<NativeRun<'w>>
    ensures { option_map native_meant result ≡ jobs.native_of (rows_of (found_of matches.now)) }
{
    let file = value(matches, "FILE")?;
    let settings = options(matches)?;
    Some(NativeRun { file, settings })
}

/// The word FILE and another one, with what the options say.
fn file_and_word<'w>(matches: &ArgMatches<'w>, id: &str) -> Option<FileAndWord<'w>>
    ensures { option_map (λ asked. jobs.both asked.file.now asked.word.now (settings_meant asked.settings)) result
        ≡ jobs.both_of id.now (rows_of (found_of matches.now)) }
{
    let file = value(matches, "FILE")?;
    let word = value(matches, id)?;
    let settings = options(matches)?;
    Some(FileAndWord {
        file,
        word,
        settings,
    })
}

/// The number that an argument writes, of at most so many digits, where it is in this range.
fn number(matches: &ArgMatches<'_>, id: &str, digits: usize, least: u64, most: u64) -> Option<u64>
    ensures number { result ≡ option_and_then (numbers.number_in digits least most) (first_of id.now (rows_of (found_of matches.now))) }
    ensures within { IfSome result (λ number. (least ≤ number) × (number ≤ most)) }
{
    number_in(digits, least, most, value(matches, id)?)
}

/// A run of the program that the words SEED and SIZE give.
fn generated(matches: &ArgMatches<'_>) -> Option<LoadRun>
    ensures { option_map load_meant result ≡ jobs.load_of (rows_of (found_of matches.now)) }
{
    let seed = number(matches, "SEED", 10, 0, 4_294_967_295)?;
    let size = number(matches, "SIZE", 5, 1, 10_000)?;
    Some(LoadRun {
        seed: seed as u32,
        size: size as u32,
    })
}

/// The word FILE of the command `NAME FILE`.
fn read_file<'w>(alloc: Global, name: &'w str, words: &'w [String]) -> Result<&'w str, WordsFault>
    ensures file { IfOk result (λ file. jobs.file_by name.now (map string_bytes words.entry.now) ≡ Some file.now) }
    ensures refused { IsErrOf result WordsFault.Refused
        → jobs.file_by name.now (map string_bytes words.entry.now) ≡ None }
{
    let matches = matched(file_command(alloc, name)?, words)?;
    match value(&matches, "FILE") {
        Some(file) => Ok(file),
        None => Err(WordsFault::Refused),
    }
}

/// The run that the words of the command `NAME FILE`, with options, ask for.
fn read_native<'w>(
    alloc: Global,
    name: &'w str,
    words: &'w [String],
) -> Result<NativeRun<'w>, WordsFault>
    ensures run { IfOk result (λ run.
        jobs.native_by name.now (map string_bytes words.entry.now) ≡ Some (native_meant run)) }
    ensures refused { IsErrOf result WordsFault.Refused
        → jobs.native_by name.now (map string_bytes words.entry.now) ≡ None }
{
    let matches = matched(run_command(alloc, name)?, words)?;
    match native(&matches) {
        Some(run) => Ok(run),
        None => Err(WordsFault::Refused),
    }
}

/// The words of the command `NAME FILE WORD`, and what its options say.
fn read_both<'w>(
    alloc: Global,
    name: &'w str,
    id: &'w str,
    words: &'w [String],
) -> Result<FileAndWord<'w>, WordsFault>
    ensures both { IfOk result (λ asked. jobs.both_by name.now id.now (map string_bytes words.entry.now)
        ≡ Some (jobs.both asked.file.now asked.word.now (settings_meant asked.settings))) }
    ensures refused { IsErrOf result WordsFault.Refused
        → jobs.both_by name.now id.now (map string_bytes words.entry.now) ≡ None }
{
    let matches = matched(word_command(alloc, name, id)?, words)?;
    match file_and_word(&matches, id) {
        Some(asked) => Ok(asked),
        None => Err(WordsFault::Refused),
    }
}

/// The run that the words of the command `load` ask for.
fn read_load(alloc: Global, words: &[String]) -> Result<LoadRun, WordsFault>
    ensures run { IfOk result (λ run. jobs.load_by (map string_bytes words.entry.now) ≡ Some (load_meant run)) }
    ensures refused { IsErrOf result WordsFault.Refused → jobs.load_by (map string_bytes words.entry.now) ≡ None }
{
    let matches = matched(load_command(alloc)?, words)?;
    match generated(&matches) {
        Some(run) => Ok(run),
        None => Err(WordsFault::Refused),
    }
}

/// The run that the words of the command `solo` ask for.
fn read_solo<'w>(alloc: Global, words: &'w [String]) -> Result<ScheduledRun<'w>, WordsFault>
    ensures run { IfOk result (λ run. jobs.solo_by (map string_bytes words.entry.now) ≡ Some (run_meant run)) }
    ensures refused { IsErrOf result WordsFault.Refused → jobs.solo_by (map string_bytes words.entry.now) ≡ None }
{
    let NativeRun { file, settings } = read_native(alloc, "solo", words)?;
    Ok(ScheduledRun {
        file,
        schedule: ListOf::new(alloc),
        settings,
    })
}

/// The run that the words of the command `NAME FILE SCHEDULE` ask for.
fn read_scheduled<'w>(
    alloc: Global,
    name: &'w str,
    words: &'w [String],
) -> Result<ScheduledRun<'w>, WordsFault>
    ensures run { IfOk result (λ run.
        jobs.scheduled_by name.now (map string_bytes words.entry.now) ≡ Some (run_meant run)) }
    ensures refused { IsErrOf result WordsFault.Refused
        → jobs.scheduled_by name.now (map string_bytes words.entry.now) ≡ None }
{
    let asked = read_both(alloc, name, "SCHEDULE", words)?;
    Ok(ScheduledRun {
        file: asked.file,
        schedule: schedule(alloc, asked.word)?,
        settings: asked.settings,
    })
}

/// The check that the words of the command `recheck` ask for.
fn read_recheck<'w>(alloc: Global, words: &'w [String]) -> Result<RecordCheck<'w>, WordsFault>
    ensures check { IfOk result (λ check. jobs.recheck_by (map string_bytes words.entry.now) ≡ Some (recheck_meant check)) }
    ensures refused { IsErrOf result WordsFault.Refused → jobs.recheck_by (map string_bytes words.entry.now) ≡ None }
{
    let asked = read_both(alloc, "recheck", "RECORD", words)?;
    Ok(RecordCheck {
        file: asked.file,
        record: asked.word,
        settings: asked.settings,
    })
}

/// The run that the words of the command `hush` ask for.
fn read_hush<'w>(alloc: Global, words: &'w [String]) -> Result<HeldRun<'w>, WordsFault>
    ensures run { IfOk result (λ run. jobs.hush_by (map string_bytes words.entry.now) ≡ Some (held_meant run)) }
    ensures refused { IsErrOf result WordsFault.Refused → jobs.hush_by (map string_bytes words.entry.now) ≡ None }
{
    let asked = read_both(alloc, "hush", "RULES", words)?;
    Ok(HeldRun {
        file: asked.file,
        rules: asked.word,
        settings: asked.settings,
    })
}

/// What the words ask for, where they are a command's.
///
/// # Errors
///
/// - `Refused`: exactly where the words ask for nothing, unless memory runs out first.
/// - `NoMemory`: out of memory.
#[tactic(auto, unfolding(crate::specs::Jobs::job_of))]
pub fn read_job<'w>(alloc: Global, words: &'w [String]) -> Result<Job<'w>, WordsFault>
    ensures job { IfOk result (λ job.
        jobs.job_of (map string_bytes words.entry.now) ≡ Some (job_meant job)) }
    ensures refused { IsErrOf result WordsFault.Refused
        → jobs.job_of (map string_bytes words.entry.now) ≡ None }
{
    let Some(name) = words.first() else {
        return Err(WordsFault::Refused);
    };
    match name.as_str() {
        "check" => Ok(Job::Check {
            file: read_file(alloc, "check", words)?,
        }),
        "instrument" => Ok(Job::Instrument {
            file: read_file(alloc, "instrument", words)?,
        }),
        "solo" => Ok(Job::Replay(read_solo(alloc, words)?)),
        "replay" => Ok(Job::Replay(read_scheduled(alloc, "replay", words)?)),
        "run" => Ok(Job::Run(read_native(alloc, "run", words)?)),
        "load" => Ok(Job::Load(read_load(alloc, words)?)),
        "races" => Ok(Job::Races(read_scheduled(alloc, "races", words)?)),
        "record" => Ok(Job::Record(read_native(alloc, "record", words)?)),
        "recheck" => Ok(Job::Recheck(read_recheck(alloc, words)?)),
        "hush" => Ok(Job::Hush(read_hush(alloc, words)?)),
        "explain" => Ok(Job::Explain(read_scheduled(alloc, "explain", words)?)),
        _ => Err(WordsFault::Refused),
    }
}
