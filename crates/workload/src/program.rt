//! The generated program.
ghost use Rattle.std.specs.Prelude.{◌≡◌, ◌≤◌, ◌<◌, ◌^◌, ◌++◌, ◌∷◌, [], map, IfOk, OnOk};
ghost use Rattle.workload.specs.Draws as draws;
ghost use Rattle.workload.specs.Made as made;

use crate::insts::{
    WORD, named, push_add, push_alone, push_gep, push_into, push_join, push_load, push_spawn, reg,
};
use bsan_ids::{ListOf, NoMemory};
use ir_ast::{
    Attr, Block, Function, Inst, Jump, Op, Param, Place, Program, ResultTy, Term, Ty, TypedVal,
    Val, Width,
};
use perm_table::RetagKind;
use std::alloc::Global;

/// Draws a number, below 32,768, from the state, which is below 2^32.
fn draw(state: &mut u64) -> u64
    requires { state.old < 2 ^ 32 }
    ensures drawn { result ≡ draws.drawn (draws.next_state state.old) }
    ensures state { state.new ≡ draws.next_state state.old }
    ensures small { state.new < 2 ^ 31 }
{
    *state = (*state * 1_103_515_245 + 12_345) % 2_147_483_648;
    *state / 65_536
}

/// The pointer of a worker that a drawn number stores through.
fn pointer(drawn: u64) -> &'static str
    ensures { result.now ≡ made.pointer drawn }
{
    match drawn % 4 {
        0 => "p0",
        1 => "p1",
        2 => "p2",
        _ => "p3",
    }
}

fn push_store(alloc: Global, insts: &mut ListOf<Inst>, drawn: u64) -> Result<(), NoMemory>
    ensures { OnOk result (insts.new ≡ insts.old ++ made.store drawn ∷ []) }
{
    let ptr = named(alloc, pointer(drawn))?;
    let val = Val::Num(drawn / 4);
    push_alone(insts, Op::Store { ty: WORD, val, ptr })
}

/// Appends a store for each of so many draws.
fn push_stores(
    alloc: Global,
    insts: &mut ListOf<Inst>,
    size: u32,
    state: &mut u64,
) -> Result<(), NoMemory>
    requires { state.old < 2 ^ 32 }
    ensures insts { OnOk result (insts.new ≡ insts.old ++ map made.store (draws.draws size state.old)) }
    ensures state { OnOk result (state.new ≡ draws.after size state.old) }
    ensures small { OnOk result (state.new < 2 ^ 32) }
{
    for _ in 0..size {
        push_store(alloc, insts, draw(state))?;
    }
    Ok(())
}

fn push_word_pointers(alloc: Global, insts: &mut ListOf<Inst>) -> Result<(), NoMemory>
    ensures { OnOk result (insts.new ≡ insts.old ++ made.word_pointers) }
{
    push_gep(alloc, insts, "p1", "p0", 8)?;
    push_gep(alloc, insts, "p2", "p0", 16)?;
    push_gep(alloc, insts, "p3", "p0", 24)
}

fn push_totals(alloc: Global, insts: &mut ListOf<Inst>) -> Result<(), NoMemory>
    ensures { OnOk result (insts.new ≡ insts.old ++ made.totals) }
{
    push_load(alloc, insts, "v0", "p0")?;
    push_load(alloc, insts, "v1", "p1")?;
    push_load(alloc, insts, "v2", "p2")?;
    push_load(alloc, insts, "v3", "p3")?;
    push_add(alloc, insts, "s1", "v0", "v1")?;
    push_add(alloc, insts, "s2", "s1", "v2")?;
    push_add(alloc, insts, "s3", "s2", "v3")?;
    Ok(())
}

/// A function of one block, which returns a word.
fn function(
    alloc: Global,
    name: &str,
    params: ListOf<Param>,
    insts: ListOf<Inst>,
    val: Val,
) -> Result<Function, NoMemory>
    ensures { IfOk result (λ f. f ≡ made.function name.now params insts val) }
{
    let name = named(alloc, name)?;
    let label = named(alloc, "entry")?;
    let val = Some(TypedVal { ty: WORD, val });
    let jump = Jump::Ret { val, ty_at: 0 };
    let mut blocks = ListOf::new(alloc);
    blocks.push(Block {
        label,
        params: ListOf::new(alloc),
        insts,
        term: Term { at: 0, jump },
    })?;
    Ok(Function {
        name,
        params,
        result: ResultTy {
            ty: Some(WORD),
            attr: None,
        },
        blocks,
    })
}

fn worker_params(alloc: Global) -> Result<ListOf<Param>, NoMemory>
    ensures { IfOk result (λ params. params ≡ made.worker_param ∷ []) }
{
    let attr = Some(Attr {
        kind: RetagKind::Mut,
        size: 32,
    });
    let reg = named(alloc, "p0")?;
    let mut params = ListOf::new(alloc);
    params.push(Param {
        ty: Ty::Ptr,
        attr,
        reg,
    })?;
    Ok(params)
}

/// A worker, with so many draws from the state.
fn worker(alloc: Global, name: &str, size: u32, state: &mut u64) -> Result<Function, NoMemory>
    requires { state.old < 2 ^ 32 }
    ensures worker { IfOk result (λ f. f ≡ made.worker name.now (draws.draws size state.old)) }
    ensures state { OnOk result (state.new ≡ draws.after size state.old) }
    ensures small { OnOk result (state.new < 2 ^ 32) }
{
    let mut insts = ListOf::new(alloc);
    push_word_pointers(alloc, &mut insts)?;
    push_stores(alloc, &mut insts, size, state)?;
    push_totals(alloc, &mut insts)?;
    function(alloc, name, worker_params(alloc)?, insts, reg(alloc, "s3")?)
}

fn push_quarters(alloc: Global, insts: &mut ListOf<Inst>) -> Result<(), NoMemory>
    ensures { OnOk result (insts.new ≡ insts.old ++ made.quarters) }
{
    let place = Place::Heap;
    let size = Val::Num(128);
    push_into(alloc, insts, "x", Op::Make { place, size })?;
    push_gep(alloc, insts, "x1", "x", 32)?;
    push_gep(alloc, insts, "x2", "x", 64)?;
    push_gep(alloc, insts, "x3", "x", 96)
}

fn push_spawns(alloc: Global, insts: &mut ListOf<Inst>) -> Result<(), NoMemory>
    ensures { OnOk result (insts.new ≡ insts.old ++ made.spawns) }
{
    push_spawn(alloc, insts, "h0", "w0", "x")?;
    push_spawn(alloc, insts, "h1", "w1", "x1")?;
    push_spawn(alloc, insts, "h2", "w2", "x2")?;
    push_spawn(alloc, insts, "h3", "w3", "x3")?;
    Ok(())
}

fn push_joins(alloc: Global, insts: &mut ListOf<Inst>) -> Result<(), NoMemory>
    ensures { OnOk result (insts.new ≡ insts.old ++ made.joins) }
{
    push_join(alloc, insts, "r0", "h0")?;
    push_join(alloc, insts, "r1", "h1")?;
    push_join(alloc, insts, "r2", "h2")?;
    push_join(alloc, insts, "r3", "h3")
}

fn push_sums(alloc: Global, insts: &mut ListOf<Inst>) -> Result<(), NoMemory>
    ensures { OnOk result (insts.new ≡ insts.old ++ made.sums) }
{
    push_add(alloc, insts, "a", "r0", "r1")?;
    push_add(alloc, insts, "b", "a", "r2")?;
    push_add(alloc, insts, "c", "b", "r3")?;
    let val = reg(alloc, "c")?;
    let width = Width::W64;
    push_alone(insts, Op::Print { width, val })?;
    let ptr = named(alloc, "x")?;
    push_alone(insts, Op::Free { ptr })
}

/// Main, which lends each worker a quarter of an allocation and prints the sum of their results.
fn main(alloc: Global) -> Result<Function, NoMemory>
    ensures { IfOk result (λ f. f ≡ made.main) }
{
    let mut insts = ListOf::new(alloc);
    push_quarters(alloc, &mut insts)?;
    push_spawns(alloc, &mut insts)?;
    push_joins(alloc, &mut insts)?;
    push_sums(alloc, &mut insts)?;
    function(alloc, "main", ListOf::new(alloc), insts, Val::Num(0))
}

/// The program that the number `seed` gives, whose four workers each make `size` stores, 1 to
/// 10,000. The verifier accepts it.
///
/// # Errors
///
/// `NoMemory`: out of memory.
pub fn make(alloc: Global, seed: u32, size: u32) -> Result<Program, NoMemory>
    requires some { 1 ≤ size }
    requires few { size ≤ 10000 }
    ensures { IfOk result (λ program. program ≡ made.made seed size) }
{
    let mut state = u64::from(seed);
    let mut functions = ListOf::new(alloc);
    functions.push(worker(alloc, "w0", size, &mut state)?)?;
    functions.push(worker(alloc, "w1", size, &mut state)?)?;
    functions.push(worker(alloc, "w2", size, &mut state)?)?;
    functions.push(worker(alloc, "w3", size, &mut state)?)?;
    functions.push(main(alloc)?)?;
    Ok(Program {
        version: 1,
        functions,
        end: 0,
    })
}
