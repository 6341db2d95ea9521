//! The command `record`: a run on native threads, whose record is written.
ghost use Rattle.std.specs.Prelude.{◌≡◌, MatchResult};
ghost use Rattle.command_words.specs.Jobs as jobs;
ghost use Rattle.command_words.specs.Meaning.{native_meant};
ghost use Rattle.core_model.specs.Running.{AreLimits};
ghost use Rattle.history.specs.Records.{empty_record};
ghost use Rattle.bsan.specs.Answer.{FindsIn};
ghost use Rattle.bsan.specs.Seen.{seen_by};

use crate::load::unread_input;
use crate::native::Native;
use crate::outcome::Outcome;
use bsan_ids::NoMemory;
use command_words::NativeRun;
use ir_rules::Verified;
use outside_io::{Files, Gate};
use run_record::RunRecord;
use std::sync::Wait;
use std::thread::Threads;

impl<'a, R: Threads + Wait + Sync, G: Gate + Sync> Native<'a, R, G> {
    /// Reads the input of a run, and makes it, so that its record can be written.
    pub(crate) fn serve_record<S: Files>(
        &self,
        asked: &NativeRun<'_>,
        verified: &Verified,
        files: &mut S,
        kept: &mut RunRecord,
    ) -> Result<Outcome, NoMemory>
        requires hosts { verified.now.hosts ≡ self.now.hosts.now.table }
        requires limits { AreLimits asked.now.settings.limits }
        requires empty { kept.old ≡ empty_record }
        ensures { MatchResult result (λ found. FindsIn
            (seen_by S.content S.faults S.overlong files.old files.new)
            self.now.hosts.now.table kept.new found (jobs.Record (native_meant asked.now)) verified.now.program)
            (λ _. kept.new ≡ empty_record) }
    {
        match self.run_with(&asked.settings, verified, files, kept) {
            Ok(()) => Ok(Outcome::Recorded),
            Err(fault) => unread_input(fault),
        }
    }
}
