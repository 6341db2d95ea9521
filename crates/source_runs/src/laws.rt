//! What holds of all runs and of all accepted programs. The functions do nothing: each contract is a law.
ghost use Rattle.source_runs.specs.AcceptedHosts.{AcceptedProgramsAskTheTable};
ghost use Rattle.source_runs.specs.AcceptedJoins.{AcceptedProgramsJoin};
ghost use Rattle.source_runs.specs.Allocations.{AllocationLaw};
ghost use Rattle.source_runs.specs.ErasureLaw.{ErasureIsARun, RightRecordsErase};
ghost use Rattle.source_runs.specs.Histories.{HistoriesAreLegal};
ghost use Rattle.source_runs.specs.Invariant.{AcceptedProgramsKeepWords, WordsFitForMore};
ghost use Rattle.source_runs.specs.Laws.{LogsAreOneRun, PromisesAreOneRun, BeginningsAreRuns, LogsTellStates, ReplaysAreRight, WholeRunsLeaveRightRecords, ThreadsDiffer};
ghost use Rattle.source_runs.specs.Replays.{ReplaysByExample};
ghost use Rattle.source_runs.specs.Reportable.{RightRecordsAreReportable};
ghost use Rattle.source_runs.specs.Sibling.{IsErasedRun};
ghost use Rattle.source_runs.specs.TwoThreads.{IsMet, EachIsNeeded};
ghost use Rattle.source_runs.specs.Worlds.{RepliesAlwaysFit, ReplaysLeaveRightRecords};

/// Where no rule is broken, each thread joins only children that it has started.
pub fn accepted_programs_join()
    ensures { AcceptedProgramsJoin }
{}

/// Where no rule is broken, each thread asks host functions of the table alone.
pub fn accepted_programs_ask_the_table()
    ensures { AcceptedProgramsAskTheTable }
{}

/// Where no rule is broken, each register of each frame holds a word of its type, with a provenance only where it
/// is a pointer; a handle holds the number of a thread that is said to run its function; each child's arguments fit
/// its parameters; and what a thread returns fits its function's result. All that stays so where more threads are said to run
/// functions.
pub fn accepted_programs_keep_words()
    ensures words { AcceptedProgramsKeepWords }
    ensures more { WordsFitForMore }
{}

/// An allocation's bytes are below 256, so that what it answers is a word of the type that is asked for, and a copied
/// piece has as many bytes as were asked. No allocation answers that a limit on numbers was passed.
pub fn allocations_answer_words()
    ensures { AllocationLaw }
{}

/// In every run of an accepted program each thread is given a reply that fits what it asked; so a replay of it leaves a
/// right record.
pub fn replies_always_fit()
    ensures fits { RepliesAlwaysFit }
    ensures replays { ReplaysLeaveRightRecords }
{}

/// Separate logs are one run: the threads' logs, the allocations' histories and the order of
/// their stamps say all of it. A thread's last state is told by its log and its count of
/// instructions, and its first state by the Spawn entries that lead to it. A run that is broken off
/// is a run. A replay leaves a right record.
pub fn logs_are_one_run()
    ensures logs { LogsAreOneRun }
    ensures states { LogsTellStates }
    ensures promises { PromisesAreOneRun }
    ensures beginnings { BeginningsAreRuns }
    ensures replays { ReplaysAreRight }
{}

/// A whole record of two threads and two allocations keeps what is promised and is right. Five of
/// the promises are shown to be needed: a record that breaks one of them alone is no run.
pub fn two_threads_by_example()
    ensures met { IsMet }
    ensures needed { EachIsNeeded }
{}

/// A run without its retags and protector ends is a run of the plain program, whose threads end
/// alike. So a record that is right in all else is a right record. Shown of a run in which a
/// protector's end disables a sibling.
pub fn erasures_are_runs()
    ensures runs { ErasureIsARun }
    ensures records { RightRecordsErase }
    ensures example { IsErasedRun }
{}

/// Each allocation log of a right record is a legal history of its number.
pub fn histories_are_legal()
    ensures { HistoriesAreLegal }
{}

/// A right record is one of which a report can be made.
pub fn right_records_are_reportable()
    ensures { RightRecordsAreReportable }
{}

/// Worked replays, with their steps, the numbers that they draw and the ends of their threads: a load before and after a
/// write through a retagged pointer, by two schedules; a thread that ends with its last step, so that its joiner goes on in
/// its next pick; a step limit at a spawn, whose drawn number stays drawn; and the join of a child that ended early.
pub fn replays_by_example()
    ensures { ReplaysByExample }
{}

/// What a run's threads answer, its tree of logs, with all that was drawn and the closed logs of
/// allocations, makes a right record, once the logs are in the order of their numbers, which
/// differ.
pub fn whole_runs_are_right()
    ensures records { WholeRunsLeaveRightRecords }
    ensures differ { ThreadsDiffer }
{}
