//! The first thread of a program.
ghost use Rattle.std.specs.Prelude.{◌≡◌, ◌≤◌, [], IfOk, codes, length};
ghost use Rattle.instr_sound.specs.Sound.{begun};
ghost use Rattle.instrument.specs.Translation.{translation};
ghost use Rattle.ir_ast.specs.Numbers.{function_place};
ghost use Rattle.source_sem.specs.Starting.{main_of};

use bsan_ids::NoMemory;
use instr_sound::SoundMachine;
use ir_ast::Function;
use ir_rules::Verified;
use std::alloc::Global;
use target_code::Target;

/// The number of the first function of this name, and the number of functions where there is none.
#[tactic(auto, using(crate::proofs::Places::place_steps))]
fn function_number(functions: &[Function], name: &[u8]) -> u32
    requires { length functions.now ≤ 256 }
    ensures { result ≡ function_place functions.now name.now }
{
    for (at, function) in functions.iter().enumerate() {
        if function.name.name.as_slice() == name {
            return at as u32;
        }
    }
    functions.len() as u32
}

/// The number of `@main`, and the machine at its beginning. The target code is what `instrument` gives of the program.
///
/// # Errors
///
/// `NoMemory`: out of memory.
pub fn main_machine<'p>(
    alloc: Global,
    program: &'p Verified,
    target: &'p Target,
    input: &'p [u8],
) -> Result<(u32, SoundMachine<'p>), NoMemory>
    requires { target.now ≡ translation program.now.hosts.entries program.now.program }
    ensures number { IfOk result (λ main. main.0 ≡ main_of program.now.program) }
    ensures machine { IfOk result (λ main. main.1 ≡ begun program.now target.now input.now (main_of program.now.program) []) }
{
    let functions = program.program().functions.as_slice();
    let function = function_number(functions, b"main");
    let machine = SoundMachine::start(alloc, program, target, function, &[], input)?;
    Ok((function, machine))
}
