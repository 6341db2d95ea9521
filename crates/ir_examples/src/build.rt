//! Programs that are written down part by part, with all places 0.
use bsan_ids::{ListOf, Name, NoMemory};
use ir_ast::{
    Attr, BinaryOp, Block, Cond, Function, Goal, Inst, Jump, Named, Op, Param, Place, Program,
    ResultTy, Term, Ty, TypedVal, Val, Width,
};
use perm_table::RetagKind;
use std::alloc::Global;
use std::mem;

const WORD: Ty = Ty::Int(Width::W64);

/// An operand that isn't built yet.
#[derive(Clone, Copy)]
pub enum Operand<'a> {
    Reg(&'a str),
    Num(u64),
}

/// The functions so far, and the blocks and instructions of the one that isn't finished.
#[derive(Drop)]
pub struct Builder {
    alloc: Global,
    functions: ListOf<Function>,
    blocks: ListOf<Block>,
    insts: ListOf<Inst>,
}

impl Builder {
    pub fn new(alloc: Global) -> Builder {
        Builder {
            alloc,
            functions: ListOf::new(alloc),
            blocks: ListOf::new(alloc),
            insts: ListOf::new(alloc),
        }
    }

    pub fn program(self) -> Program {
        let Builder { functions, .. } = self;
        Program {
            version: 1,
            functions,
            end: 0,
        }
    }

    fn named(&self, text: &str) -> Result<Named, NoMemory> {
        let name = Name::from_slice(self.alloc, text.as_bytes())?;
        Ok(Named { name, at: 0 })
    }

    fn val(&self, operand: Operand<'_>) -> Result<Val, NoMemory> {
        match operand {
            Operand::Reg(name) => Ok(Val::Reg(self.named(name)?)),
            Operand::Num(number) => Ok(Val::Num(number)),
        }
    }

    fn words(&self, operands: &[Operand<'_>]) -> Result<ListOf<TypedVal>, NoMemory> {
        let mut vals = ListOf::new(self.alloc);
        for operand in operands {
            let val = self.val(*operand)?;
            vals.push(TypedVal { ty: WORD, val })?;
        }
        Ok(vals)
    }

    fn params(&self, registers: &[&str]) -> Result<ListOf<Param>, NoMemory> {
        let mut params = ListOf::new(self.alloc);
        for register in registers {
            let reg = self.named(register)?;
            let attr = None;
            params.push(Param {
                ty: WORD,
                attr,
                reg,
            })?;
        }
        Ok(params)
    }

    fn goal(&self, label: &str, args: &[Operand<'_>]) -> Result<Goal, NoMemory> {
        let label = self.named(label)?;
        let args = self.words(args)?;
        Ok(Goal { label, args })
    }

    fn run(&mut self, dest: Option<Named>, op: Op) -> Result<(), NoMemory> {
        self.insts.push(Inst { dest, at: 0, op })
    }

    pub fn malloc(&mut self, dest: &str, size: u64) -> Result<(), NoMemory> {
        let dest = self.named(dest)?;
        let size = Val::Num(size);
        let place = Place::Heap;
        self.run(Some(dest), Op::Make { place, size })
    }

    pub fn gep(&mut self, dest: &str, ptr: &str, add: Operand<'_>) -> Result<(), NoMemory> {
        let dest = self.named(dest)?;
        let ptr = self.named(ptr)?;
        let add = self.val(add)?;
        self.run(Some(dest), Op::Gep { ptr, add })
    }

    pub fn load(&mut self, dest: &str, ptr: &str) -> Result<(), NoMemory> {
        let dest = self.named(dest)?;
        let ptr = self.named(ptr)?;
        self.run(Some(dest), Op::Load { ty: WORD, ptr })
    }

    pub fn store(&mut self, val: Operand<'_>, ptr: &str) -> Result<(), NoMemory> {
        let val = self.val(val)?;
        let ptr = self.named(ptr)?;
        self.run(None, Op::Store { ty: WORD, val, ptr })
    }

    pub fn add(&mut self, dest: &str, a: &str, b: Operand<'_>) -> Result<(), NoMemory> {
        let dest = self.named(dest)?;
        let a = Val::Reg(self.named(a)?);
        let b = self.val(b)?;
        let op = BinaryOp::Add;
        let width = Width::W64;
        self.run(Some(dest), Op::Binary { op, width, a, b })
    }

    /// Whether the register `j` is below the bound, in the register `c`.
    pub fn compare(&mut self, bound: u64) -> Result<(), NoMemory> {
        let dest = self.named("c")?;
        let a = Val::Reg(self.named("j")?);
        let b = Val::Num(bound);
        let cond = Cond::Ult;
        self.run(
            Some(dest),
            Op::Compare {
                cond,
                ty: WORD,
                a,
                b,
            },
        )
    }

    pub fn spawn(&mut self, dest: &str, function: &str, ptr: &str) -> Result<(), NoMemory> {
        let dest = self.named(dest)?;
        let function = self.named(function)?;
        let val = Val::Reg(self.named(ptr)?);
        let mut args = ListOf::new(self.alloc);
        args.push(TypedVal { ty: Ty::Ptr, val })?;
        self.run(Some(dest), Op::Spawn { function, args })
    }

    fn join(&mut self, dest: &str, handle: &str) -> Result<(), NoMemory> {
        let dest = self.named(dest)?;
        let handle = self.named(handle)?;
        let result = Some(WORD);
        let ty_at = 0;
        self.run(
            Some(dest),
            Op::Join {
                result,
                ty_at,
                handle,
            },
        )
    }

    fn print(&mut self, register: &str) -> Result<(), NoMemory> {
        let val = Val::Reg(self.named(register)?);
        let width = Width::W64;
        self.run(None, Op::Print { width, val })
    }

    fn free(&mut self, ptr: &str) -> Result<(), NoMemory> {
        let ptr = self.named(ptr)?;
        self.run(None, Op::Free { ptr })
    }

    /// Joins four threads, prints the sum of their results from the register `total`, frees `x` and
    /// returns 0.
    pub fn finish(&mut self, label: &str, total: &str) -> Result<(), NoMemory> {
        for (dest, handle) in [("r0", "h0"), ("r1", "h1"), ("r2", "h2"), ("r3", "h3")] {
            self.join(dest, handle)?;
        }
        for (dest, a, b) in [("a", "r0", "r1"), ("b", "a", "r2"), (total, "b", "r3")] {
            self.add(dest, a, Operand::Reg(b))?;
        }
        self.print(total)?;
        self.free("x")?;
        self.ret(label, &[], Operand::Num(0))
    }

    /// Ends a block that goes on elsewhere.
    pub fn br(&mut self, label: &str, to: &str, args: &[Operand<'_>]) -> Result<(), NoMemory> {
        let goal = self.goal(to, args)?;
        self.end(label, &[], Jump::Br(goal))
    }

    /// Ends a block that goes on at either goal, by the register `c`.
    pub fn branch(
        &mut self,
        label: &str,
        params: &[&str],
        yes: (&str, &[Operand<'_>]),
        no: (&str, &[Operand<'_>]),
    ) -> Result<(), NoMemory> {
        let cond = Val::Reg(self.named("c")?);
        let yes = self.goal(yes.0, yes.1)?;
        let no = self.goal(no.0, no.1)?;
        self.end(label, params, Jump::CondBr { cond, yes, no })
    }

    /// Ends a block that returns an i64.
    pub fn ret(&mut self, label: &str, params: &[&str], val: Operand<'_>) -> Result<(), NoMemory> {
        let val = self.val(val)?;
        let val = Some(TypedVal { ty: WORD, val });
        self.end(label, params, Jump::Ret { val, ty_at: 0 })
    }

    fn end(&mut self, label: &str, params: &[&str], jump: Jump) -> Result<(), NoMemory> {
        let term = Term { at: 0, jump };
        let label = self.named(label)?;
        let params = self.params(params)?;
        let insts = mem::replace(&mut self.insts, ListOf::new(self.alloc));
        self.blocks.push(Block {
            label,
            params,
            insts,
            term,
        })
    }

    fn function(&mut self, name: &str, params: ListOf<Param>) -> Result<(), NoMemory> {
        let name = self.named(name)?;
        let blocks = mem::replace(&mut self.blocks, ListOf::new(self.alloc));
        let ty = Some(WORD);
        let result = ResultTy { ty, attr: None };
        self.functions.push(Function {
            name,
            params,
            result,
            blocks,
        })
    }

    /// Ends the function `main`.
    pub fn main(&mut self) -> Result<(), NoMemory> {
        self.function("main", ListOf::new(self.alloc))
    }

    /// Ends a function of a pointer that is retagged mutably on 32 bytes.
    pub fn worker(&mut self, name: &str, ptr: &str) -> Result<(), NoMemory> {
        let kind = RetagKind::Mut;
        let attr = Some(Attr { kind, size: 32 });
        let reg = self.named(ptr)?;
        let ty = Ty::Ptr;
        let mut params = ListOf::new(self.alloc);
        params.push(Param { ty, attr, reg })?;
        self.function(name, params)
    }
}
