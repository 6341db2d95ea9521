//! The text of a program, its input and its host functions, as a thread sees them.
ghost use Rattle.std.specs.Prelude.{◌≡◌, ◌+◌, ◌^◌, ◌≤◌, ◌<◌, length, slice_get, find, IfOk};
ghost use Rattle.std.specs.List.{flat_map};
ghost use Rattle.std.specs.Option.{option_copied};
ghost use Rattle.std.specs.Str.{bytes_eq};
ghost use Rattle.ir_ast.specs.Attributes.{attr_of_call, attr_of_handle, block_definitions, definitions, spawned_attr};
ghost use Rattle.ir_ast.specs.Lines.{block_instructions, most_instructions};
ghost use Rattle.source_sem.specs.Starting.{setting_of};
ghost use Rattle.ir_ast.specs.Numbers as numbers;
ghost use Rattle.ir_ast.specs.Numbers.{block_place, function_place, host_names, number_of_block, number_of_function, place};
ghost use Rattle.source_sem.specs.Source.{handle_attr};
ghost use Rattle.source_machine.specs.Positions.{IsWithinLimit};
ghost use Rattle.source_machine.specs.Texts.{function_numbers, has_param, is_dest, program_end};

use crate::items::item;
use bsan_ids::{Copied, NoMemory};
use ir_ast::{Attr, Block, Function, HostEntry, Inst, Op, Param};
use ir_rules::Verified;
use std::alloc::Global;
use std::marker::Model;

/// A verified program with its input. It keeps the number of each function's first instruction.
///
/// Contracts see it as the setting of the source thread.
#[derive(Drop)]
pub struct Text<'p> {
    program: &'p Verified,
    input: &'p [u8],
    firsts: Vec<u32>,
}

impl<'p> Model for Text<'p> {
    ghost use Rattle.std.specs.Prelude.{◌≡◌};
    ghost use Rattle.source_sem.specs.Source.{Setting};
    ghost use Rattle.source_sem.specs.Starting.{setting_of};
    ghost use Rattle.source_machine.specs.Texts.{function_numbers};

    ghost Value = { Setting };

    ghost view = { λ t. setting_of t.program.now.program t.input.now t.program.now.hosts };

    ghost invariant = { λ t. t.firsts.items ≡ function_numbers 0 t.program.now.program.functions };
}

/// The number after that of a block's last instruction, its terminator.
fn block_end(first: u32, block: &Block) -> u32
    requires { first + block_instructions block.now ≤ most_instructions }
    ensures { result ≡ first + block_instructions block.now }
{
    first + block.insts.len() as u32 + 1
}

/// The number after that of the last instruction of these blocks.
#[tactic(auto, using(crate::proofs::Numbers::end_steps))]
fn blocks_end(first: u32, blocks: &[Block]) -> u32
    requires { numbers.blocks_end first blocks.now ≤ most_instructions }
    ensures { result ≡ numbers.blocks_end first blocks.now }
{
    let mut number = first;
    for block in blocks {
        number = block_end(number, block);
    }
    number
}

/// The number of each function's first instruction.
#[tactic(auto, using(crate::proofs::Numbers::end_steps))]
fn numbers(alloc: Global, functions: &[Function]) -> Result<Vec<u32>, NoMemory>
    requires { program_end 0 functions.now ≤ most_instructions }
    ensures { IfOk result (λ numbers. numbers.items ≡ function_numbers 0 functions.now) }
{
    let mut numbers = Vec::new(alloc);
    let mut number = 0u32;
    for function in functions {
        numbers.push(number)?;
        number = blocks_end(number, function.blocks.as_slice());
    }
    Ok(numbers)
}

/// Whether a block has this label.
fn has_label(block: &Block, label: &[u8]) -> bool
    ensures { result ≡ bytes_eq block.now.label.name label.now }
{
    block.label.name.as_slice() == label
}

/// The block of a label, if there is one, and the number of its first instruction. The first block has the number
/// `first`.
#[tactic(auto, using(crate::proofs::Numbers::block_steps))]
pub fn find_block<'p>(blocks: &'p [Block], first: u32, label: &[u8]) -> (Option<&'p Block>, u32)
    requires { numbers.blocks_end first blocks.now ≤ most_instructions }
    ensures block { option_copied result.0 ≡ slice_get blocks.now (block_place blocks.now label.now) }
    ensures number { result.1 ≡ number_of_block first blocks.now (block_place blocks.now label.now) }
    ensures stands { IsWithinLimit result.1 (option_copied result.0) }
{
    let mut number = first;
    for block in blocks {
        if has_label(block, label) {
            return (Some(block), number);
        }
        number = block_end(number, block);
    }
    (None, number)
}

/// The place of the first function of a name, and the number of functions where there is none.
#[tactic(auto, using(crate::proofs::Numbers::function_steps))]
fn place_of_function(functions: &[Function], name: &[u8]) -> u32
    requires { length functions.now ≤ 256 }
    ensures { result ≡ function_place functions.now name.now }
{
    for (at, function) in functions.iter().enumerate() {
        if function.name.name.as_slice() == name {
            return at as u32;
        }
    }
    functions.len() as u32
}

/// The place of the first host function of a name, and the number of host functions where there is none.
#[tactic(auto, using(crate::proofs::Numbers::host_steps))]
fn place_of_host(hosts: &[HostEntry], name: &[u8]) -> u32
    requires { length hosts.now < 2 ^ 32 }
    ensures { result ≡ place (host_names hosts.now) name.now }
{
    for (at, host) in hosts.iter().enumerate() {
        if host.name.as_slice() == name {
            return at as u32;
        }
    }
    hosts.len() as u32
}

/// Whether a parameter is the register of this name.
fn has_param(params: &[Param], name: &[u8]) -> bool
    ensures { result ≡ has_param params.now name.now }
{
    params.iter().any(|param| param.reg.name.as_slice() == name)
}

/// Whether an instruction gives a value to the register of this name.
fn defines(inst: &Inst, name: &[u8]) -> bool
    ensures { result ≡ is_dest inst.now.dest name.now }
{
    match &inst.dest {
        Some(dest) => dest.name.as_slice() == name,
        None => false,
    }
}

/// The first instruction that gives a value to the register of this name.
fn defining<'a>(insts: &'a [Inst], name: &[u8]) -> Option<&'a Inst>
    ensures { option_copied result ≡ find (λ i. is_dest i.dest name.now) insts.now }
{
    insts.iter().find(|inst| defines(inst, name))
}

/// The numbers are copied, and the program and the input are shared.
impl<'p> Copied for Text<'p> {
    fn copy(&self) -> Result<Text<'p>, NoMemory> {
        let alloc = *self.firsts.allocator();
        Ok(Text {
            program: self.program,
            input: self.input,
            firsts: Vec::from_slice(alloc, &self.firsts)?,
        })
    }
}

impl<'p> Text<'p> {
    /// The text of a program with an input.
    ///
    /// # Errors
    ///
    /// `NoMemory`: out of memory.
    pub fn new(alloc: Global, program: &'p Verified, input: &'p [u8]) -> Result<Text<'p>, NoMemory>
        ensures { IfOk result (λ text. text ≡ setting_of program.now.program input.now program.now.hosts) }
    {
        let functions = program.program().functions.as_slice();
        let firsts = numbers(alloc, functions)?;
        Ok(Text {
            program,
            input,
            firsts,
        })
    }

    /// The input.
    pub fn input(&self) -> &'p [u8]
        ensures { result.now ≡ self.now.input }
    {
        self.input
    }

    /// The version of the language in which the program is written.
    pub fn version(&self) -> u8
        ensures { result ≡ self.now.program.version }
    {
        self.program.program().version
    }

    /// The program's functions.
    fn functions(&self) -> &'p [Function]
        ensures value { result.now ≡ self.now.program.functions }
        ensures few { length result.now ≤ 256 }
        ensures within { program_end 0 result.now ≤ most_instructions }
    {
        self.program.program().functions.as_slice()
    }

    /// The function of a number, if there is one.
    pub fn function(&self, number: u32) -> Option<&'p Function>
        ensures { option_copied result ≡ slice_get self.now.program.functions number }
    {
        item(self.functions(), number as usize)
    }

    /// The number of the first instruction of a function, of this number.
    pub fn first(&self, number: u32, function: &Function) -> u32
        requires { slice_get self.now.program.functions number ≡ Some function.now }
        ensures value { result ≡ number_of_function 0 self.now.program.functions number }
        ensures within { numbers.blocks_end result function.now.blocks ≤ most_instructions }
    {
        match item(&self.firsts, number as usize) {
            Some(first) => *first,
            None => unreachable!(),
        }
    }

    /// The number of the function of a name.
    pub fn function_number(&self, name: &[u8]) -> u32
        ensures { result ≡ function_place self.now.program.functions name.now }
    {
        place_of_function(self.functions(), name)
    }

    /// The number of the host function of a name.
    pub fn host_number(&self, name: &[u8]) -> u32
        ensures { result ≡ place self.now.hosts name.now }
    {
        place_of_host(self.program.hosts().entries.as_slice(), name)
    }

    /// The attribute of the result of the function of a name.
    pub fn result_attr(&self, name: &[u8]) -> Option<Attr>
        ensures { result ≡ attr_of_call self.now.program.functions name.now }
    {
        match self.function(self.function_number(name)) {
            Some(function) => function.result.attr,
            None => None,
        }
    }

    /// The attribute of the result of the function that an operation spawns.
    fn spawned_attr(&self, op: &Op) -> Option<Attr>
        ensures { result ≡ spawned_attr self.now.program.functions op.now }
    {
        match op {
            Op::Spawn { function, .. } => self.result_attr(function.name.as_slice()),
            _ => None,
        }
    }

    /// The attribute of what a join through a handle gives, where these blocks define the handle.
    #[tactic(auto, using(crate::proofs::Handles::attr_steps))]
    fn attr_in_blocks(&self, blocks: &[Block], handle: &[u8]) -> Option<Attr>
        ensures { result ≡ attr_of_handle (flat_map (block_definitions self.now.program.functions) blocks.now) handle.now }
    {
        for block in blocks {
            if has_param(block.params.as_slice(), handle) {
                return None;
            }
            if let Some(inst) = defining(block.insts.as_slice(), handle) {
                return self.spawned_attr(&inst.op);
            }
        }
        None
    }

    /// The attribute of what a join through a handle gives, where this function defines the handle.
    #[tactic(auto, using(crate::proofs::Handles::param_steps))]
    fn attr_in_function(&self, function: &Function, handle: &[u8]) -> Option<Attr>
        ensures { result ≡ attr_of_handle (definitions self.now.program.functions function.now) handle.now }
    {
        if has_param(function.params.as_slice(), handle) {
            None
        } else {
            self.attr_in_blocks(function.blocks.as_slice(), handle)
        }
    }

    /// The attribute of what a join through a handle gives, in the function of this number.
    pub fn handle_attr(&self, function: u32, handle: &[u8]) -> Option<Attr>
        ensures { result ≡ handle_attr self.now.program.functions function handle.now }
    {
        match self.function(function) {
            Some(function) => self.attr_in_function(function, handle),
            None => None,
        }
    }
}
