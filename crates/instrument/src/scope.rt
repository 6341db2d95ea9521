//! What the lines of a function are made of: names and what they stand for.
ghost use Rattle.std.specs.Prelude.{◌≡◌, ◌<◌, ◌^◌, ◌++◌, ◌∷◌, [], length, slice_get, OnOk, IfOk};
ghost use Rattle.std.specs.List.{flat_map};
ghost use Rattle.ir_ast.specs.Tokens.{Each};
ghost use Rattle.instrument.specs.Translation as translation;
ghost use Rattle.ir_ast.specs.Numbers.{place, function_names, labels, host_names};
ghost use Rattle.ir_ast.specs.Attributes.{attr_of_call, definition, spawned_attr, params_definitions, inst_definitions, block_definitions, definitions, registers};
ghost use Rattle.instrument.specs.Translation.{params_at, attr_of_join, scope_of};
ghost use Rattle.instrument.specs.Names.{IsOnce, Numbered};
ghost use Rattle.instrument.specs.Sets.{Defines};

use crate::by_name::ByName;
use crate::names::{place, set_of};
use bsan_ids::NoMemory;
use indexmap::IndexSet;
use ir_ast::{Attr, Block, Function, HostEntry, Inst, Named, Op, Param};
use std::alloc::Global;
use std::marker::Model;

/// The functions of a program.
pub type Functions<'p> = ByName<'p, Function>;

/// The attribute of the result of the function of this name.
fn result_attr(functions: &Functions, name: &Named) -> Option<Attr>
    ensures { result ≡ attr_of_call functions.now name.now.name }
{
    match functions.get(functions.number(name)) {
        Some(function) => function.result.attr,
        None => None,
    }
}

/// Registers in the order of their definitions, and the attributes of what joins through them give.
#[derive(Drop)]
pub struct Definitions<'p> {
    names: Vec<&'p [u8]>,
    attrs: Vec<Option<Attr>>,
}

impl<'p> Definitions<'p> {
    fn new(alloc: Global) -> Definitions<'p>
        ensures names { result.names.items ≡ [] }
        ensures attrs { result.attrs.items ≡ [] }
    {
        Definitions {
            names: Vec::new(alloc),
            attrs: Vec::new(alloc),
        }
    }

    fn define(&mut self, register: &'p Named, attr: Option<Attr>) -> Result<(), NoMemory>
        ensures { OnOk result (Defines self.old self.new (definition register.now attr ∷ [])) }
    {
        self.names.push(register.name.as_slice())?;
        self.attrs.push(attr)?;
        Ok(())
    }

    #[tactic(auto, using(crate::proofs::Defining::defines_steps))]
    fn define_params(&mut self, params: &'p [Param]) -> Result<(), NoMemory>
        ensures { OnOk result (Defines self.old self.new (params_definitions params.now)) }
    {
        for param in params {
            self.define(&param.reg, None)?;
        }
        Ok(())
    }

    #[tactic(auto, using(crate::proofs::Defining::defines_steps))]
    fn define_inst(&mut self, functions: &Functions, inst: &'p Inst) -> Result<(), NoMemory>
        ensures { OnOk result (Defines self.old self.new (inst_definitions functions.now inst.now)) }
    {
        match &inst.dest {
            Some(register) => self.define(register, spawned_attr(functions, &inst.op)),
            None => Ok(()),
        }
    }

    #[tactic(auto, using(crate::proofs::Defining::defines_steps))]
    fn define_insts(&mut self, functions: &Functions, insts: &'p [Inst]) -> Result<(), NoMemory>
        ensures { OnOk result (Defines self.old self.new (flat_map (inst_definitions functions.now) insts.now)) }
    {
        for inst in insts {
            self.define_inst(functions, inst)?;
        }
        Ok(())
    }

    #[tactic(auto, using(crate::proofs::Defining::defines_steps))]
    fn define_blocks(&mut self, functions: &Functions, blocks: &'p [Block]) -> Result<(), NoMemory>
        ensures { OnOk result (Defines self.old self.new (flat_map (block_definitions functions.now) blocks.now)) }
    {
        for block in blocks {
            self.define_params(block.params.as_slice())?;
            self.define_insts(functions, block.insts.as_slice())?;
        }
        Ok(())
    }
}

/// The attribute of what a spawned function gives back.
fn spawned_attr(functions: &Functions, op: &Op) -> Option<Attr>
    ensures { result ≡ spawned_attr functions.now op.now }
{
    match op {
        Op::Spawn { function, .. } => result_attr(functions, function),
        _ => None,
    }
}

/// What the lines of a function are made of.
#[derive(Drop)]
pub struct Scope<'p> {
    functions: &'p Functions<'p>,
    hosts: &'p [HostEntry],
    registers: IndexSet<&'p [u8]>,
    attrs: Vec<Option<Attr>>,
    blocks: ByName<'p, Block>,
}

impl<'p> Model for Scope<'p> {
    ghost use Rattle.std.specs.Prelude.{◌<◌, ◌^◌, length};
    ghost use Rattle.instrument.specs.Translation.{Scope};
    ghost use Rattle.instrument.specs.Sets.{names_in};

    ghost Value = { Scope };

    ghost view = { λ s. record { functions = s.functions.now; hosts = s.hosts.now; registers = names_in s.registers.keys; attrs = s.attrs.items; blocks = s.blocks } };

    ghost invariant = { λ s. (length s.registers.keys < 2 ^ 32) × (length s.hosts.now < 2 ^ 32) };
}

impl<'p> Scope<'p> {
    #[tactic(auto, using(crate::proofs::Sets::short))]
    pub fn new(
        alloc: Global,
        functions: &'p Functions<'p>,
        hosts: &'p [HostEntry],
        function: &'p Function,
    ) -> Result<Scope<'p>, NoMemory>
        requires registers_once { IsOnce (registers (definitions functions.now function.now)) }
        requires few_registers { Numbered (definitions functions.now function.now) }
        requires labels_once { IsOnce (labels function.now.blocks) }
        requires few_blocks { Numbered function.now.blocks }
        requires few_hosts { Numbered hosts.now }
        ensures { IfOk result (λ scope. scope ≡ scope_of functions.now hosts.now function.now) }
    {
        let mut defined = Definitions::new(alloc);
        defined.define_params(function.params.as_slice())?;
        defined.define_blocks(functions, function.blocks.as_slice())?;
        let Definitions { names, attrs } = defined;
        Ok(Scope {
            functions,
            hosts,
            registers: set_of(alloc, names.as_slice())?,
            attrs,
            blocks: ByName::new(alloc, function.blocks.as_slice())?,
        })
    }

    /// How many registers the function has.
    pub fn size(&self) -> u32
        ensures { result ≡ length self.now.registers }
    {
        self.registers.len() as u32
    }

    /// The slot of a register.
    pub fn slot(&self, register: &Named) -> u32
        ensures { result ≡ translation.slot self.now register.now }
    {
        place(&self.registers, register.name.as_slice())
    }

    /// The number of the function of this name.
    pub fn function_number(&self, name: &Named) -> u32
        ensures { result ≡ translation.function_number self.now name.now }
    {
        self.functions.number(name)
    }

    /// The attribute of the result of the function of this name.
    pub fn call_attr(&self, name: &Named) -> Option<Attr>
        ensures { result ≡ attr_of_call self.now.functions name.now.name }
    {
        result_attr(self.functions, name)
    }

    /// The number of the block of this label.
    pub fn block_number(&self, label: &Named) -> u32
        ensures { result ≡ translation.block_number self.now label.now }
    {
        self.blocks.number(label)
    }

    /// The parameters of the block of this number.
    pub fn params(&self, block: u32) -> &'p [Param]
        ensures { result.now ≡ params_at (slice_get self.now.blocks block) }
    {
        match self.blocks.get(block) {
            Some(block) => block.params.as_slice(),
            None => &[],
        }
    }

    /// The attribute of what a join through a handle gives.
    pub fn join_attr(&self, handle: &Named) -> Option<Attr>
        ensures { result ≡ attr_of_join self.now handle.now }
    {
        match self.attrs.get(self.slot(handle) as usize) {
            Some(attr) => *attr,
            None => None,
        }
    }

    /// The number of a function of the host.
    pub fn host_number(&self, host: &Named) -> u32
        ensures { result ≡ translation.host_number self.now host.now }
    {
        host_place(self.hosts, host.name.as_slice())
    }
}

/// The place of the first entry of this name, and the number of entries where there is none.
#[tactic(auto, using(crate::proofs::Sets::host_steps))]
fn host_place(hosts: &[HostEntry], name: &[u8]) -> u32
    requires { Numbered hosts.now }
    ensures { result ≡ place (host_names hosts.now) name.now }
{
    for (at, host) in hosts.iter().enumerate() {
        if host.name.as_slice() == name {
            return at as u32;
        }
    }
    hosts.len() as u32
}
