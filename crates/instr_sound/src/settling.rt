//! A thread's local turns, and the end that its own instructions bring.
ghost use Rattle.std.specs.Prelude.{◌≡◌, ◌≢◌, ◌≤◌, IfOk, IfErr};
ghost use Rattle.history.specs.declared.ask.Ask.TheVariants as ask;
ghost use Rattle.runs.specs.Machine.{SettlesWithin, MayGoOn};
ghost use Rattle.source_sem.specs.Source.{source, source_ask};
ghost use Rattle.instr_sound.specs.Settling.{IsHalt, machine_end};

use crate::thread::Thread;
use bsan_ids::NoMemory;
use history::{Ask, End, MachineEnd};

/// Makes the local turns until the thread asks for a step or ends, and answers what it asks.
///
/// # Errors
///
/// How the thread ends before that.
///
/// - `TurnLimit`: an instruction would begin, and `turns` were done.
/// - `NoMemory`: out of memory.
pub fn settle<T: Thread>(thread: &mut T, turns: u64) -> Result<Ask, End>
    requires { (T.state thread.old).count ≤ turns }
    ensures setting { T.setting thread.new ≡ T.setting thread.old }
    ensures turned { SettlesWithin (source (T.setting thread.old)) turns (T.state thread.old) (T.state thread.new) }
    ensures within { (T.state thread.new).count ≤ turns }
    ensures asks { IfOk result (λ a. a ≡ source_ask (T.setting thread.old) (T.state thread.new)) }
    ensures no_turn { IfOk result (λ a. a ≢ ask.Turn) }
    ensures may { IfOk result (λ a. MayGoOn (source (T.setting thread.old)) turns (T.state thread.new)) }
    ensures halts { IfErr result (λ why. IsHalt (T.setting thread.old) turns (T.state thread.new) why) }
{
    loop {
        if thread.begins() && thread.instructions() == turns {
            return Err(End::TurnLimit);
        }
        let ask = match thread.ask() {
            Ok(ask) => ask,
            Err(NoMemory) => return Err(End::NoMemory),
        };
        match ask {
            Ask::Turn => {
                if thread.prepare().is_err() {
                    return Err(End::NoMemory);
                }
                thread.turn();
            }
            step => return Ok(step),
        }
    }
}

/// The end that a thread's own instructions bring, as its log tells it.
pub fn end_by(end: MachineEnd) -> End
    ensures { result ≡ machine_end end }
{
    match end {
        MachineEnd::Returned { value, carried } => End::Returned { value, carried },
        MachineEnd::Trapped(trap) => End::Trapped(trap),
    }
}
