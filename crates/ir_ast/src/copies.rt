//! Programs and tables of hosts once more, with memory of their own.
use crate::hosts::{HostEntry, HostTable};
use crate::program::{
    Block, Function, Goal, Inst, Jump, Named, Op, Param, Program, Term, TypedVal, Val,
};
use bsan_ids::{Copied, NoMemory};

impl Copied for Named {
    fn copy(&self) -> Result<Named, NoMemory> {
        Ok(Named {
            name: self.name.copy()?,
            at: self.at,
        })
    }
}

impl Copied for Param {
    fn copy(&self) -> Result<Param, NoMemory> {
        Ok(Param {
            ty: self.ty,
            attr: self.attr,
            reg: self.reg.copy()?,
        })
    }
}

impl Copied for Val {
    fn copy(&self) -> Result<Val, NoMemory> {
        Ok(match self {
            Val::Reg(register) => Val::Reg(register.copy()?),
            Val::Num(number) => Val::Num(*number),
        })
    }
}

impl Copied for TypedVal {
    fn copy(&self) -> Result<TypedVal, NoMemory> {
        Ok(TypedVal {
            ty: self.ty,
            val: self.val.copy()?,
        })
    }
}

impl Copied for Goal {
    fn copy(&self) -> Result<Goal, NoMemory> {
        Ok(Goal {
            label: self.label.copy()?,
            args: self.args.copy()?,
        })
    }
}

impl Copied for Op {
    fn copy(&self) -> Result<Op, NoMemory> {
        Ok(match self {
            Op::Const { width, value } => Op::Const {
                width: *width,
                value: *value,
            },
            Op::Null => Op::Null,
            Op::Make { place, size } => Op::Make {
                place: *place,
                size: size.copy()?,
            },
            Op::Gep { ptr, add } => Op::Gep {
                ptr: ptr.copy()?,
                add: add.copy()?,
            },
            Op::Load { ty, ptr } => Op::Load {
                ty: *ty,
                ptr: ptr.copy()?,
            },
            Op::Store { ty, val, ptr } => Op::Store {
                ty: *ty,
                val: val.copy()?,
                ptr: ptr.copy()?,
            },
            Op::Retag { kind, ptr, size } => Op::Retag {
                kind: *kind,
                ptr: ptr.copy()?,
                size: *size,
            },
            Op::Binary { op, width, a, b } => Op::Binary {
                op: *op,
                width: *width,
                a: a.copy()?,
                b: b.copy()?,
            },
            Op::Compare { cond, ty, a, b } => Op::Compare {
                cond: *cond,
                ty: *ty,
                a: a.copy()?,
                b: b.copy()?,
            },
            Op::Select { ty, cond, a, b } => Op::Select {
                ty: *ty,
                cond: cond.copy()?,
                a: a.copy()?,
                b: b.copy()?,
            },
            Op::Cast {
                op,
                from,
                to,
                val,
                to_at,
            } => Op::Cast {
                op: *op,
                from: *from,
                to: *to,
                val: val.copy()?,
                to_at: *to_at,
            },
            Op::PtrToInt { ptr } => Op::PtrToInt { ptr: ptr.copy()? },
            Op::Input { index } => Op::Input {
                index: index.copy()?,
            },
            Op::Modify {
                op,
                width,
                ptr,
                val,
            } => Op::Modify {
                op: *op,
                width: *width,
                ptr: ptr.copy()?,
                val: val.copy()?,
            },
            Op::CmpXchg {
                width,
                ptr,
                expected,
                val,
            } => Op::CmpXchg {
                width: *width,
                ptr: ptr.copy()?,
                expected: expected.copy()?,
                val: val.copy()?,
            },
            Op::Copy { to, from, len } => Op::Copy {
                to: to.copy()?,
                from: from.copy()?,
                len: len.copy()?,
            },
            Op::Free { ptr } => Op::Free { ptr: ptr.copy()? },
            Op::Print { width, val } => Op::Print {
                width: *width,
                val: val.copy()?,
            },
            Op::Call {
                result,
                function,
                args,
            } => Op::Call {
                result: *result,
                function: function.copy()?,
                args: args.copy()?,
            },
            Op::Host { result, host, args } => Op::Host {
                result: *result,
                host: host.copy()?,
                args: args.copy()?,
            },
            Op::Spawn { function, args } => Op::Spawn {
                function: function.copy()?,
                args: args.copy()?,
            },
            Op::Join {
                result,
                ty_at,
                handle,
            } => Op::Join {
                result: *result,
                ty_at: *ty_at,
                handle: handle.copy()?,
            },
        })
    }
}

impl Copied for Inst {
    fn copy(&self) -> Result<Inst, NoMemory> {
        Ok(Inst {
            dest: self.dest.copy()?,
            at: self.at,
            op: self.op.copy()?,
        })
    }
}

impl Copied for Jump {
    fn copy(&self) -> Result<Jump, NoMemory> {
        Ok(match self {
            Jump::Br(goal) => Jump::Br(goal.copy()?),
            Jump::CondBr { cond, yes, no } => Jump::CondBr {
                cond: cond.copy()?,
                yes: yes.copy()?,
                no: no.copy()?,
            },
            Jump::Ret { val, ty_at } => Jump::Ret {
                val: val.copy()?,
                ty_at: *ty_at,
            },
            Jump::Unreachable => Jump::Unreachable,
        })
    }
}

impl Copied for Term {
    fn copy(&self) -> Result<Term, NoMemory> {
        Ok(Term {
            at: self.at,
            jump: self.jump.copy()?,
        })
    }
}

impl Copied for Block {
    fn copy(&self) -> Result<Block, NoMemory> {
        Ok(Block {
            label: self.label.copy()?,
            params: self.params.copy()?,
            insts: self.insts.copy()?,
            term: self.term.copy()?,
        })
    }
}

impl Copied for Function {
    fn copy(&self) -> Result<Function, NoMemory> {
        Ok(Function {
            name: self.name.copy()?,
            params: self.params.copy()?,
            result: self.result,
            blocks: self.blocks.copy()?,
        })
    }
}

impl Copied for Program {
    fn copy(&self) -> Result<Program, NoMemory> {
        Ok(Program {
            version: self.version,
            functions: self.functions.copy()?,
            end: self.end,
        })
    }
}

impl Copied for HostEntry {
    fn copy(&self) -> Result<HostEntry, NoMemory> {
        Ok(HostEntry {
            name: self.name.copy()?,
            arity: self.arity,
            rule: self.rule,
        })
    }
}

impl Copied for HostTable {
    fn copy(&self) -> Result<HostTable, NoMemory> {
        Ok(HostTable {
            entries: self.entries.copy()?,
        })
    }
}
