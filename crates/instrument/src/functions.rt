//! The code of blocks, functions and programs.
ghost use Rattle.std.specs.Prelude.{◌≡◌, ◌++◌, ◌∷◌, [], ◌+◌, ◌<◌, ◌^◌, ℕ, List, length, OnOk, IfOk};
ghost use Rattle.ir_ast.specs.Tokens.{Each};
ghost use Rattle.ir_ast.specs.declared.program.Jump.{Jump};
ghost use Rattle.target_code.specs.declared.line.Line.TheVariants as line;
ghost use Rattle.instrument.specs.Translation as translation;
ghost use Rattle.ir_ast.specs.Lines.{block_instructions};
ghost use Rattle.ir_ast.specs.Numbers.{blocks_end};
ghost use Rattle.ir_ast.specs.Attributes.{guard_of};
ghost use Rattle.instrument.specs.Translation.{jump_lines, body_lines, block_lines, blocks_lines, entry_retag, entry_retags, entry_lines, function_code, functions_code};
ghost use Rattle.instrument.specs.Names.{Numbered, OpNumbered, BlockNumbered, FunctionNumbered, IsNumbered, program_end};
ghost use Rattle.instrument.specs.Lines.{Adds};

use crate::arguments::{Source, put_params};
use crate::by_name::ByName;
use crate::operations::{put_inst, put_jump};
use crate::scope::{Functions, Scope};
use bsan_ids::{Copied, ListOf, NoMemory};
use ir_ast::{Attr, Block, Function, HostEntry, HostTable, Inst, Param, Program};
use perm_table::{Guard, RetagKind};
use std::alloc::Global;
use target_code::{Line, Target, TargetFunction};

/// What protects a parameter while its function runs.
fn guard_of(kind: RetagKind) -> Guard
    ensures { result ≡ guard_of kind }
{
    match kind {
        RetagKind::Boxed | RetagKind::ShrCell => Guard::Weak,
        RetagKind::Mut | RetagKind::Cell | RetagKind::Shr => Guard::Strong,
    }
}

/// The retag of a parameter in this slot, if it has an attribute.
fn put_entry_retag(code: &mut ListOf<Line>, slot: u32, attr: Option<Attr>) -> Result<(), NoMemory>
    ensures { OnOk result (Adds code.old code.new (entry_retag slot attr)) }
{
    match attr {
        Some(Attr { kind, size }) => code.push(Line::Retag {
            shadow: slot,
            kind,
            guard: guard_of(kind),
            ptr: slot,
            ptr_shadow: slot,
            size,
        }),
        None => Ok(()),
    }
}

fn put_entry_retags(
    code: &mut ListOf<Line>,
    scope: &Scope,
    params: &[Param],
) -> Result<(), NoMemory>
    ensures { OnOk result (Adds code.old code.new (entry_retags scope.now params.now)) }
{
    for param in params {
        put_entry_retag(code, scope.slot(&param.reg), param.attr)?;
    }
    Ok(())
}

/// The lines with which a call begins.
fn entry_code(alloc: Global, scope: &Scope, params: &[Param]) -> Result<ListOf<Line>, NoMemory>
    requires { Numbered params.now }
    ensures { IfOk result (λ code. code ≡ entry_lines scope.now params.now) }
{
    let mut code = ListOf::new(alloc);
    code.push(Line::PushFrame)?;
    put_params(&mut code, scope, Source::Frame, params)?;
    put_entry_retags(&mut code, scope, params)?;
    Ok(code)
}

/// The instructions of a block, of which the first, with this number, has begun; and the beginning of
/// its terminator.
#[tactic(auto, using(crate::proofs::Ends::end_steps))]
fn put_insts(
    alloc: Global,
    code: &mut ListOf<Line>,
    scope: &Scope,
    first: u32,
    insts: &[Inst],
) -> Result<(), NoMemory>
    requires ops { Each (λ i. OpNumbered i.op) insts.now }
    requires end { first + length insts.now < 2 ^ 32 }
    ensures { OnOk result ((jump : Jump) → code.new ++ jump_lines scope.now jump ≡ code.old ++ body_lines scope.now first insts.now jump) }
{
    let mut number = first;
    for inst in insts {
        number += 1;
        put_inst(alloc, code, scope, inst, number)?;
    }
    Ok(())
}

/// The lines of a block whose first instruction has this number.
fn block_code(
    alloc: Global,
    scope: &Scope,
    first: u32,
    block: &Block,
) -> Result<ListOf<Line>, NoMemory>
    requires numbered { BlockNumbered block.now }
    requires blocks { Each BlockNumbered scope.now.blocks }
    requires end { first + block_instructions block.now < 2 ^ 32 }
    ensures { IfOk result (λ code. code ≡ block_lines scope.now first block.now) }
{
    let mut code = ListOf::new(alloc);
    code.push(Line::Turn { number: first })?;
    put_insts(alloc, &mut code, scope, first, block.insts.as_slice())?;
    put_jump(&mut code, scope, &block.term.jump)?;
    Ok(code)
}

/// The number after that of a block's terminator.
fn after(number: u32, block: &Block) -> u32
    requires { number + block_instructions block.now < 2 ^ 32 }
    ensures { result ≡ number + block_instructions block.now }
{
    number + block.insts.len() as u32 + 1
}

/// The code of blocks whose first instruction has this number.
#[tactic(auto, using(crate::proofs::Ends::end_steps))]
fn blocks_code(
    alloc: Global,
    scope: &Scope,
    first: u32,
    blocks: &[Block],
) -> Result<ListOf<ListOf<Line>>, NoMemory>
    requires numbered { Each BlockNumbered blocks.now }
    requires goals { Each BlockNumbered scope.now.blocks }
    requires end { blocks_end first blocks.now < 2 ^ 32 }
    ensures { IfOk result (λ code. code ≡ blocks_lines scope.now first blocks.now) }
{
    let mut code = ListOf::new(alloc);
    let mut number = first;
    for block in blocks {
        code.push(block_code(alloc, scope, number, block)?)?;
        number = after(number, block);
    }
    Ok(code)
}

/// The number after the last instruction of blocks whose first instruction has this number.
#[tactic(auto, using(crate::proofs::Ends::end_steps))]
fn end_of(first: u32, blocks: &[Block]) -> u32
    requires { blocks_end first blocks.now < 2 ^ 32 }
    ensures { result ≡ blocks_end first blocks.now }
{
    let mut number = first;
    for block in blocks {
        number = after(number, block);
    }
    number
}

/// The code of a function whose first instruction has this number.
fn function_code(
    alloc: Global,
    functions: &Functions,
    hosts: &[HostEntry],
    first: u32,
    function: &Function,
) -> Result<TargetFunction, NoMemory>
    requires numbered { FunctionNumbered functions.now function.now }
    requires few_hosts { Numbered hosts.now }
    requires end { blocks_end first function.now.blocks < 2 ^ 32 }
    ensures { IfOk result (λ code. code ≡ function_code functions.now hosts.now first function.now) }
{
    let scope = Scope::new(alloc, functions, hosts, function)?;
    Ok(TargetFunction {
        name: function.name.name.copy()?,
        slots: scope.size(),
        entry: entry_code(alloc, &scope, function.params.as_slice())?,
        blocks: blocks_code(alloc, &scope, first, function.blocks.as_slice())?,
    })
}

/// The target code of a program whose calls of the host are of this table.
///
/// # Errors
///
/// `NoMemory`: out of memory.
#[tactic(auto, using(crate::proofs::Ends::end_steps))]
pub fn translate(alloc: Global, program: &Program, hosts: &HostTable) -> Result<Target, NoMemory>
    requires { IsNumbered hosts.now.entries program.now }
    ensures { IfOk result (λ target. target ≡ translation.translation hosts.now.entries program.now) }
{
    let functions = ByName::new(alloc, program.functions.as_slice())?;
    let mut code = ListOf::new(alloc);
    let mut number = 0u32;
    for function in program.functions.as_slice() {
        code.push(function_code(
            alloc,
            &functions,
            hosts.entries.as_slice(),
            number,
            function,
        )?)?;
        number = end_of(number, function.blocks.as_slice());
    }
    Ok(Target {
        version: program.version,
        functions: code,
    })
}
