//! Registers by name.
ghost use Rattle.std.specs.Prelude.{◌≡◌, ◌+◌, ◌≤◌, ◌<◌, [], OnOk, find, position, vec_len, vec_capacity};
ghost use Rattle.std.specs.Option.{option_copied};
ghost use Rattle.std.specs.Str.{bytes_eq};
ghost use Rattle.source_sem.specs.Env.{value_in, with_value};
ghost use Rattle.source_machine.specs.Registers.{env_of};

use bsan_ids::NoMemory;
use history::Arg;
use std::alloc::Global;
use std::marker::Model;

/// What a register holds that was never written.
pub const BLANK: Arg = Arg {
    value: 0,
    prov: None,
};

/// A register, and what it holds.
#[derive(Clone, Copy)]
pub struct Register<'p> {
    name: &'p [u8],
    value: Arg,
}

/// Registers by name, each once, in the order in which they were first written.
///
/// Contracts see `env`, the names with what they hold, and `room`, how many more names fit without memory.
#[derive(Drop)]
pub struct Registers<'p> {
    items: Vec<Register<'p>>,
}

impl<'p> Model for Registers<'p> {
    ghost use Rattle.std.specs.Prelude.{◌-◌, vec_len, vec_capacity};
    ghost use Rattle.source_machine.specs.Rooms.{RoomyEnv};

    ghost Value = { RoomyEnv };

    ghost use Rattle.source_machine.specs.Registers.{env_of};

    ghost view = { λ s. record { env = env_of s.items.items; room = vec_capacity s.items - vec_len s.items } };
}

/// The register of a name.
fn find_register<'a, 'p>(registers: &'a [Register<'p>], name: &[u8]) -> Option<&'a Register<'p>>
    ensures { option_copied result ≡ find (λ r. bytes_eq r.name.now name.now) registers.now }
{
    registers.iter().find(|register| register.name == name)
}

/// The place of the register of a name.
fn place_of(registers: &[Register], name: &[u8]) -> Option<usize>
    ensures { result ≡ position (λ r. bytes_eq r.name.now name.now) registers.now }
{
    registers.iter().position(|register| register.name == name)
}

/// What the register of a name holds.
#[tactic(auto, using(crate::proofs::Writes::value_steps))]
fn held(registers: &[Register], name: &[u8]) -> Arg
    ensures { result ≡ value_in (env_of registers.now) name.now }
{
    match find_register(registers, name) {
        Some(register) => register.value,
        None => BLANK,
    }
}

/// Writes a register, where there is room for one more.
#[tactic(auto, using(crate::proofs::Writes::write_steps))]
fn write<'p>(registers: &mut Vec<Register<'p>>, name: &'p [u8], value: Arg)
    requires { vec_len registers.old < vec_capacity registers.old }
    ensures env { env_of registers.new.items ≡ with_value name.now value (env_of registers.old.items) }
    ensures len { vec_len registers.new ≤ vec_len registers.old + 1 }
    ensures capacity { vec_capacity registers.new ≡ vec_capacity registers.old }
{
    match place_of(registers, name) {
        Some(place) => registers[place].value = value,
        None => registers.push_reserved(Register { name, value }),
    }
}

impl<'p> Registers<'p> {
    /// No register.
    pub fn new(alloc: Global) -> Registers<'p>
        ensures { result.env ≡ [] }
    {
        Registers {
            items: Vec::new(alloc),
        }
    }

    /// What the register of this name holds, and 0 without provenance where it was never written.
    pub fn get(&self, name: &[u8]) -> Arg
        ensures { result ≡ value_in self.now.env name.now }
    {
        held(&self.items, name)
    }

    /// Makes room for so many more names.
    ///
    /// # Errors
    ///
    /// `NoMemory`: out of memory. The registers stay as they were.
    pub fn reserve(&mut self, names: usize) -> Result<(), NoMemory>
        ensures ok { OnOk result (names ≤ self.new.room) }
        ensures room { self.old.room ≤ self.new.room }
        ensures env { self.new.env ≡ self.old.env }
    {
        self.items.reserve(names)?;
        Ok(())
    }

    /// Writes a register. It takes no memory: there has to be room for a name.
    pub fn set(&mut self, name: &'p [u8], value: Arg)
        requires { 1 ≤ self.old.room }
        ensures env { self.new.env ≡ with_value name.now value self.old.env }
        ensures room { self.old.room ≤ self.new.room + 1 }
    {
        write(&mut self.items, name, value);
    }
}
