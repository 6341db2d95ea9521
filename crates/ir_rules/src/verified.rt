//! A verified program.
ghost use Rattle.std.specs.Prelude.{◌≡◌, ◌≤◌, ◌<◌, ◌^◌, length};
ghost use Rattle.std.specs.List.{sum_by};
ghost use Rattle.ir_ast.specs.Lines.{block_instructions, most_instructions};
ghost use Rattle.ir_ast.specs.Programs.{IsProgram, KeepsLimits, function_instructions};
ghost use Rattle.ir_ast.proofs.Single.{program_prop};
ghost use Rattle.ir_rules.specs.Rules.{IsAccepted};

use ir_ast::{Block, Function, HostTable, Program};

/// A program in which no rule is broken, with the table of host functions for which that was found.
#[derive(Drop)]
pub struct Verified {
    program: Program,
    hosts: HostTable,
    functions: u32,
    instructions: u32,
    pub ghost is_program: { IsProgram program } by { program_prop program },
    pub ghost few_hosts: { length hosts.entries < 2 ^ 32 },
    pub ghost accepted: { IsAccepted program hosts },
    pub ghost function_number: { functions ≡ length program.functions },
    pub ghost instruction_number: { instructions ≡ sum_by function_instructions program.functions },
}

fn instructions_in(blocks: &[Block]) -> u32
    requires { sum_by block_instructions blocks.now ≤ most_instructions }
    ensures { result ≡ sum_by block_instructions blocks.now }
{
    let mut total = 0;
    for block in blocks {
        total += block.insts.len() as u32 + 1;
    }
    total
}

fn instruction_count(functions: &[Function]) -> u32
    requires { sum_by function_instructions functions.now ≤ most_instructions }
    ensures { result ≡ sum_by function_instructions functions.now }
{
    let mut total = 0;
    for function in functions {
        let blocks = function.blocks.as_slice();
        total += instructions_in(blocks);
    }
    total
}

fn program_instructions(program: &Program) -> u32
    requires { IsProgram program.now }
    ensures { result ≡ sum_by function_instructions program.now.functions }
{
    let functions = program.functions.as_slice();
    instruction_count(functions)
}

#[tactic(auto, using(crate::proofs::Limits::few_functions))]
fn function_count(program: &Program) -> u32
    requires { IsProgram program.now }
    ensures { result ≡ length program.now.functions }
{
    program.functions.len() as u32
}

impl Verified {
    /// A program in which no rule is broken for this table of host functions.
    pub fn new(program: Program, hosts: HostTable) -> Verified
        requires program { IsProgram program }
        requires few_hosts { length hosts.entries < 2 ^ 32 }
        requires accepted { IsAccepted program hosts }
        ensures program { result.program ≡ program }
        ensures hosts { result.hosts ≡ hosts }
    {
        let functions = function_count(&program);
        let instructions = program_instructions(&program);
        Verified {
            program,
            hosts,
            functions,
            instructions,
        }
    }

    /// The program.
    pub fn program(&self) -> &Program
        ensures value { result.now ≡ self.now.program }
        ensures is_program { IsProgram result.now }
        ensures limits { KeepsLimits result.now }
        ensures accepted { IsAccepted result.now self.now.hosts }
    {
        &self.program
    }

    /// A copy of the table with which the program was verified.
    pub fn hosts(&self) -> &HostTable
        ensures value { result.now ≡ self.now.hosts }
        ensures few { length result.now.entries < 2 ^ 32 }
    {
        &self.hosts
    }

    /// How many instructions the program has, terminators among them.
    pub fn instruction_count(&self) -> u32
        ensures { result ≡ sum_by function_instructions self.now.program.functions }
    {
        self.instructions
    }

    /// How many functions the program has.
    pub fn function_count(&self) -> u32
        ensures { result ≡ length self.now.program.functions }
    {
        self.functions
    }
}
