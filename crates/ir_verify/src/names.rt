//! The names in a program, and what stands for them.
ghost use Rattle.std.specs.Prelude.{◌≡◌, IfOk, map};
ghost use Rattle.std.specs.Option.{option_copied};
ghost use Rattle.ir_rules.specs.Walk.{Finds, held_in};
ghost use Rattle.ir_rules.specs.Rules.{function_named, host_named};
ghost use Rattle.ir_rules.specs.Checks.{joined};

use bsan_ids::ListOf;
use ir_ast::{Block, Function, HostEntry, Named};
use ir_rules::{Held, look_up};
use std::alloc::{AllocError, Global};
use std::collections::BTreeMap;

/// The names of the functions.
pub fn function_names<'a>(
    alloc: Global,
    functions: &'a [Function],
) -> Result<Vec<&'a Named>, AllocError>
    ensures { IfOk result (λ v. map (λ r. r.now) v.items ≡ map (λ f. f.name) functions.now) }
{
    let mut names = Vec::new(alloc);
    for function in functions {
        names.push(&function.name)?;
    }
    Ok(names)
}

/// The labels of the blocks.
pub fn label_names<'a>(alloc: Global, blocks: &'a [Block]) -> Result<Vec<&'a Named>, AllocError>
    ensures { IfOk result (λ v. map (λ r. r.now) v.items ≡ map (λ b. b.label) blocks.now) }
{
    let mut labels = Vec::new(alloc);
    for block in blocks {
        labels.push(&block.label)?;
    }
    Ok(labels)
}

/// The functions and hosts, and for each name the first that has it.
#[derive(Drop)]
pub struct Table<'a> {
    pub functions: &'a ListOf<Function>,
    pub function_places: BTreeMap<&'a [u8], usize>,
    pub hosts: &'a ListOf<HostEntry>,
    pub host_places: BTreeMap<&'a [u8], usize>,
    pub ghost finds_functions: { Finds (λ f. f.name.name) functions.now function_places },
    pub ghost finds_hosts: { Finds (λ h. h.name) hosts.now host_places },
}

/// The first function of the name.
pub fn function_named<'a>(table: &Table<'a>, name: &[u8]) -> Option<&'a Function>
    ensures { option_copied result ≡ function_named table.now.functions.now name.now }
{
    match table.function_places.get(name) {
        Some(place) => table.functions.get(*place),
        None => None,
    }
}

/// The first host of the name.
pub fn host_named<'a>(table: &Table<'a>, name: &[u8]) -> Option<&'a HostEntry>
    ensures { option_copied result ≡ host_named table.now.hosts.now name.now }
{
    match table.host_places.get(name) {
        Some(place) => table.hosts.get(*place),
        None => None,
    }
}

/// The function that the thread of a register's handle runs.
pub fn joined<'a>(
    table: &Table<'a>,
    registers: &BTreeMap<&'a [u8], Held<'a>>,
    register: &[u8],
) -> Option<&'a Function>
    ensures { option_copied result ≡ joined table.now.functions.now (held_in registers.now register.now) }
{
    match look_up(registers, register) {
        Some(Held::Handle(function)) => function_named(table, function),
        Some(Held::Value(_)) | None => None,
    }
}
