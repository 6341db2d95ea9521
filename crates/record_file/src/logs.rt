//! Logs by their numbers, which rise.
ghost use Rattle.std.specs.Prelude.{◌≡◌, ◌≢◌, ◌↔◌, ◌<◌, IsTrue, IfSome, None, length};
ghost use Rattle.history.specs.declared.log.ThreadLog.{ThreadLog};
ghost use Rattle.runs.specs.Parts.{Has};
ghost use Rattle.runs.specs.Right.{NumbersRiseFrom};
ghost use Rattle.record_file.specs.Logs.{IsLogAt};

use bsan_ids::ThreadNo;
use history::ThreadLog;

/// Whether the numbers of the logs rise.
pub(crate) fn numbers_rise(logs: &[ThreadLog]) -> bool
    ensures { IsTrue result ↔ NumbersRiseFrom 0 logs.now }
{
    let mut least = 0;
    for log in logs {
        if u64::from(log.number.0) < least {
            return false;
        }
        least = u64::from(log.number.0) + 1;
    }
    true
}

/// The place of the log with this number.
pub(crate) fn log_of(logs: &[ThreadLog], number: ThreadNo) -> Option<usize>
    requires { NumbersRiseFrom 0 logs.now }
    ensures within { IfSome result (λ at. at < length logs.now) }
    ensures found { IfSome result (λ at. IsLogAt logs.now number at) }
    ensures missing { result ≡ None → (log : ThreadLog) → Has logs.now log → log.number ≢ number }
{
    let at = logs.partition_point(|log| log.number.0 < number.0);
    if at < logs.len() && logs[at].number == number {
        Some(at)
    } else {
        None
    }
}
