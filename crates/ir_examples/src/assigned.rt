use bsan_ids::{ListOf, Name, NoMemory};
use ir_assigned::unassigned;
use ir_ast::{
    Block, Function, Goal, Inst, Jump, Named, Op, Program, ResultTy, Term, Ty, TypedVal, Val, Width,
};
use std::alloc::Global;
use std::test::Fail;

fn named(alloc: Global, text: &str, at: u32) -> Result<Named, NoMemory> {
    let name = Name::from_slice(alloc, text.as_bytes())?;
    Ok(Named { name, at })
}

fn goal(alloc: Global, label: &str) -> Result<Goal, NoMemory> {
    let label = named(alloc, label, 0)?;
    Ok(Goal {
        label,
        args: ListOf::new(alloc),
    })
}

fn block(alloc: Global, label: &str, insts: ListOf<Inst>, jump: Jump) -> Result<Block, NoMemory> {
    let label = named(alloc, label, 0)?;
    let params = ListOf::new(alloc);
    let term = Term { at: 0, jump };
    Ok(Block {
        label,
        params,
        insts,
        term,
    })
}

fn definition(alloc: Global) -> Result<ListOf<Inst>, NoMemory> {
    let dest = Some(named(alloc, "x", 5)?);
    let op = Op::Const {
        width: Width::W64,
        value: 1,
    };
    let mut insts = ListOf::new(alloc);
    insts.push(Inst { dest, at: 5, op })?;
    Ok(insts)
}

/// The block `entry` goes to `yes` or to the given one, `yes` defines the register and goes to
/// `end`, and `end` returns the register at place 9.
fn blocks(alloc: Global, other: &str) -> Result<ListOf<Block>, NoMemory> {
    let mut blocks = ListOf::new(alloc);
    let branch = Jump::CondBr {
        cond: Val::Num(1),
        yes: goal(alloc, "yes")?,
        no: goal(alloc, other)?,
    };
    blocks.push(block(alloc, "entry", ListOf::new(alloc), branch)?)?;
    let jump = Jump::Br(goal(alloc, "end")?);
    blocks.push(block(alloc, "yes", definition(alloc)?, jump)?)?;
    let val = Val::Reg(named(alloc, "x", 9)?);
    let ty = Ty::Int(Width::W64);
    let ret = Jump::Ret {
        val: Some(TypedVal { ty, val }),
        ty_at: 0,
    };
    blocks.push(block(alloc, "end", ListOf::new(alloc), ret)?)?;
    Ok(blocks)
}

fn first_place(alloc: Global, other: &str) -> Result<Option<u32>, NoMemory> {
    let mut functions = ListOf::new(alloc);
    functions.push(Function {
        name: named(alloc, "main", 0)?,
        params: ListOf::new(alloc),
        result: ResultTy {
            ty: Some(Ty::Int(Width::W64)),
            attr: None,
        },
        blocks: blocks(alloc, other)?,
    })?;
    let program = Program {
        version: 1,
        functions,
        end: 0,
    };
    let fault = unassigned(alloc, &program)?;
    Ok(fault.map(|fault| fault.at))
}

#[test]
fn one_branch_defines_the_register(rt: HostRuntime) -> Result<(), Fail> {
    let Ok(past) = first_place(rt.alloc(), "end") else {
        return Err(Fail::new("a branch past the definition"));
    };
    assert_eq!(rt; past, Some(9));
    let Ok(through) = first_place(rt.alloc(), "yes") else {
        return Err(Fail::new("both branches to the definition"));
    };
    assert_eq!(rt; through, None);
    Ok(())
}
