//! Values that go into registers.
ghost use Rattle.std.specs.Prelude.{◌≡◌, ◌≤◌, length, slice_get, OnOk};
ghost use Rattle.std.specs.Option.{option_copied};
ghost use Rattle.source_sem.specs.Env as env;
ghost use Rattle.source_machine.specs.Binding.{handed_to};

use crate::items::item;
use crate::operands::{argument, at_type};
use crate::registers::{BLANK, Registers};
use bsan_ids::NoMemory;
use history::Arg;
use ir_ast::{Named, Param, TypedVal};
use std::alloc::Global;

/// Puts a value into a register, where there is one and a value for it.
pub fn put_some<'p>(registers: &mut Registers<'p>, dest: Option<&'p Named>, value: Option<Arg>)
    requires { 1 ≤ registers.old.room }
    ensures { registers.new.env ≡ env.put_some (option_copied dest.entry) value registers.old.env }
{
    match (dest, value) {
        (Some(register), Some(value)) => registers.set(register.name.as_slice(), value),
        _ => {}
    }
}

/// The value that is handed to a parameter, by its place.
fn handed(row: &[Arg], at: usize, param: &Param) -> Arg
    ensures { result ≡ handed_to param.now (slice_get row.now at) }
{
    match item(row, at) {
        Some(value) => at_type(param.ty, *value),
        None => BLANK,
    }
}

/// Gives the parameters their values, all at once, by their places.
#[tactic(auto, using(crate::proofs::Binding::bind_steps))]
pub fn bind<'p>(registers: &mut Registers<'p>, params: &'p [Param], row: &[Arg])
    requires { length params.now ≤ registers.old.room }
    ensures { registers.new.env ≡ env.bind params.now row.now registers.old.env }
{
    for (at, param) in params.iter().enumerate() {
        let value = handed(row, at, param);
        registers.set(param.reg.name.as_slice(), value);
    }
}

/// Puts the values of arguments into a list, in place of what is there.
///
/// # Errors
///
/// `NoMemory`: out of memory.
#[tactic(auto, using(crate::proofs::Binding::row_steps))]
pub fn fill(row: &mut Vec<Arg>, registers: &Registers, args: &[TypedVal]) -> Result<(), NoMemory>
    ensures { OnOk result (row.new.items ≡ env.args_of registers.now.env args.now) }
{
    row.clear();
    for arg in args {
        row.push(argument(registers, arg))?;
    }
    Ok(())
}
