//! Machines go to other threads, and threads may share them.
use crate::pair::Pair;
use instr_sound::SoundMachine;
use source_machine::SourceMachine;
use thread_machine::Machine;

fn is_moved_and_shared<T: Send + Sync>(value: &T) -> bool {
    let _ = value;
    true
}

fn is_source_shared(machine: &SourceMachine<'_>) -> bool {
    is_moved_and_shared(machine)
}

fn is_sound_shared(machine: &SoundMachine<'_>) -> bool {
    is_moved_and_shared(machine)
}

fn is_target_shared(machine: &Machine<'_>) -> bool {
    is_moved_and_shared(machine)
}

/// Whether all machines of a thread are `Send` and `Sync`, which the compiler says.
pub fn is_shared(pair: &Pair<'_>) -> bool {
    is_source_shared(&pair.source)
        && is_sound_shared(&pair.sound)
        && is_target_shared(pair.sound.machine())
}
