//! Operations, after the words that they begin with.
ghost use Rattle.std.specs.Prelude.{◌≡◌};
ghost use Rattle.ir_ast.specs.declared.types.Ty.TheVariants.{Int};
ghost use Rattle.ir_ast.specs.declared.types.Width.TheVariants.{W64};
ghost use Rattle.ir_reader.specs.View.{IsRead};
ghost use Rattle.phrase.specs.Reading.{one};
ghost use Rattle.ir_reader.specs.Keys.{definers, plains, jumps};
ghost use Rattle.ir_reader.specs.Tables.{types};
ghost use Rattle.ir_reader.specs.Wants.{want_among, want_placed};
ghost use Rattle.ir_reader.specs.Ops.{next_register_at, next_value_at, two_at, next_two_at, callee_at, result_at, placed_result_at, const_at, make_at, gep_at, load_at, store_at, next_size_at, retag_at, binary_at, compare_at, select_at, to_at, cast_at, ptr_to_int_at, input_at, modify_at, cmp_xchg_at, copy_at, free_at, print_at, call_at, host_at, spawn_at, join_at, tail_at, defined_at};

use crate::keywords::Keyword;
use crate::leaves::{among, amount, global, kind, local, placed, size, val, word};
use crate::marks::take_mark;
use crate::stop::{Read, Stop};
use crate::values::args;
use bsan_ids::ListOf;
use ir_ast::{BinaryOp, CastOp, Cond, Mark, ModifyOp, Named, Op, Place, Ty, TypedVal, Val, Width};
use ir_text::Token;
use std::alloc::Global;

#[tactic(auto, unfolding(crate::specs::Ops::next_register_at))]
fn next_local<'a>(alloc: Global, text: &[u8], tokens: &'a [Token]) -> Read<'a, Named>
    ensures { IsRead next_register_at text.now tokens.now result }
{
    let rest = take_mark(Mark::Comma, tokens)?;
    local(alloc, text, rest)
}

#[tactic(auto, unfolding(crate::specs::Ops::next_value_at))]
fn next_val<'a>(alloc: Global, ty: Ty, text: &[u8], tokens: &'a [Token]) -> Read<'a, Val>
    ensures { IsRead (next_value_at ty) text.now tokens.now result }
{
    let rest = take_mark(Mark::Comma, tokens)?;
    val(alloc, ty, text, rest)
}

#[tactic(auto, unfolding(crate::specs::Ops::next_size_at))]
fn next_size<'a>(text: &[u8], tokens: &'a [Token]) -> Read<'a, u32>
    ensures { IsRead next_size_at text.now tokens.now result }
{
    let rest = take_mark(Mark::Comma, tokens)?;
    size(text, rest)
}

/// Two values of a type.
#[tactic(auto, unfolding(crate::specs::Ops::two_at))]
fn two<'a>(alloc: Global, ty: Ty, text: &[u8], tokens: &'a [Token]) -> Read<'a, (Val, Val)>
    ensures { IsRead (two_at ty) text.now tokens.now result }
{
    let (first, rest) = val(alloc, ty, text, tokens)?;
    let (second, rest) = next_val(alloc, ty, text, rest)?;
    Ok(((first, second), rest))
}

#[tactic(auto, unfolding(crate::specs::Ops::next_two_at))]
fn next_two<'a>(alloc: Global, ty: Ty, text: &[u8], tokens: &'a [Token]) -> Read<'a, (Val, Val)>
    ensures { IsRead (next_two_at ty) text.now tokens.now result }
{
    let rest = take_mark(Mark::Comma, tokens)?;
    two(alloc, ty, text, rest)
}

/// What is called, and its arguments.
#[tactic(auto, unfolding(crate::specs::Ops::callee_at))]
fn callee<'a>(
    alloc: Global,
    text: &[u8],
    tokens: &'a [Token],
) -> Read<'a, (Named, ListOf<TypedVal>)>
    ensures { IsRead callee_at text.now tokens.now result }
{
    let (name, rest) = global(alloc, text, tokens)?;
    let (args, rest) = args(alloc, text, rest)?;
    Ok(((name, args), rest))
}

/// The type of a result, which may be `void` where it is not to be typed.
#[tactic(auto, unfolding(crate::specs::Ops::result_at))]
fn result_type<'a>(typed: bool, text: &[u8], tokens: &'a [Token]) -> Read<'a, Option<Ty>>
    ensures { IsRead (result_at typed) text.now tokens.now result }
{
    if typed {
        let (ty, rest) = among::<Ty>(text, tokens)?;
        Ok((Some(ty), rest))
    } else {
        among::<Option<Ty>>(text, tokens)
    }
}

#[tactic(auto, unfolding(crate::specs::Ops::placed_result_at))]
fn placed_result_type<'a>(
    typed: bool,
    text: &[u8],
    tokens: &'a [Token],
) -> Read<'a, (Option<Ty>, u32)>
    ensures { IsRead (placed_result_at typed) text.now tokens.now result }
{
    if typed {
        let ((ty, at), rest) = placed::<Ty>(text, tokens)?;
        Ok(((Some(ty), at), rest))
    } else {
        placed::<Option<Ty>>(text, tokens)
    }
}

#[tactic(auto, unfolding(crate::specs::Ops::const_at))]
fn constant<'a>(text: &[u8], tokens: &'a [Token]) -> Read<'a, Op>
    ensures { IsRead const_at text.now tokens.now result }
{
    let (width, rest) = among::<Width>(text, tokens)?;
    let (value, rest) = amount(width, text, rest)?;
    Ok((Op::Const { width, value }, rest))
}

#[tactic(auto, unfolding(crate::specs::Ops::make_at))]
fn make<'a>(alloc: Global, place: Place, text: &[u8], tokens: &'a [Token]) -> Read<'a, Op>
    ensures { IsRead (make_at place) text.now tokens.now result }
{
    let (size, rest) = val(alloc, Ty::Int(Width::W64), text, tokens)?;
    Ok((Op::Make { place, size }, rest))
}

#[tactic(auto, unfolding(crate::specs::Ops::gep_at))]
fn gep<'a>(alloc: Global, text: &[u8], tokens: &'a [Token]) -> Read<'a, Op>
    ensures { IsRead gep_at text.now tokens.now result }
{
    let (ptr, rest) = local(alloc, text, tokens)?;
    let (add, rest) = next_val(alloc, Ty::Int(Width::W64), text, rest)?;
    Ok((Op::Gep { ptr, add }, rest))
}

#[tactic(auto, unfolding(crate::specs::Ops::load_at))]
fn load<'a>(alloc: Global, text: &[u8], tokens: &'a [Token]) -> Read<'a, Op>
    ensures { IsRead load_at text.now tokens.now result }
{
    let (ty, rest) = among::<Ty>(text, tokens)?;
    let (ptr, rest) = next_local(alloc, text, rest)?;
    Ok((Op::Load { ty, ptr }, rest))
}

#[tactic(auto, unfolding(crate::specs::Ops::store_at))]
fn store<'a>(alloc: Global, text: &[u8], tokens: &'a [Token]) -> Read<'a, Op>
    ensures { IsRead store_at text.now tokens.now result }
{
    let (ty, rest) = among::<Ty>(text, tokens)?;
    let (val, rest) = val(alloc, ty, text, rest)?;
    let (ptr, rest) = next_local(alloc, text, rest)?;
    Ok((Op::Store { ty, val, ptr }, rest))
}

#[tactic(auto, unfolding(crate::specs::Ops::retag_at))]
fn retag<'a>(alloc: Global, version: u8, text: &[u8], tokens: &'a [Token]) -> Read<'a, Op>
    ensures { IsRead (retag_at version) text.now tokens.now result }
{
    let (kind, rest) = kind(version, text, tokens)?;
    let (ptr, rest) = local(alloc, text, rest)?;
    let (size, rest) = next_size(text, rest)?;
    Ok((Op::Retag { kind, ptr, size }, rest))
}

#[tactic(auto, unfolding(crate::specs::Ops::binary_at))]
fn binary<'a>(alloc: Global, op: BinaryOp, text: &[u8], tokens: &'a [Token]) -> Read<'a, Op>
    ensures { IsRead (binary_at op) text.now tokens.now result }
{
    let (width, rest) = among::<Width>(text, tokens)?;
    let ((a, b), rest) = two(alloc, Ty::Int(width), text, rest)?;
    Ok((Op::Binary { op, width, a, b }, rest))
}

#[tactic(auto, unfolding(crate::specs::Ops::compare_at))]
fn compare<'a>(alloc: Global, text: &[u8], tokens: &'a [Token]) -> Read<'a, Op>
    ensures { IsRead compare_at text.now tokens.now result }
{
    let (cond, rest) = among::<Cond>(text, tokens)?;
    let (ty, rest) = among::<Ty>(text, rest)?;
    let ((a, b), rest) = two(alloc, ty, text, rest)?;
    Ok((Op::Compare { cond, ty, a, b }, rest))
}

#[tactic(auto, unfolding(crate::specs::Ops::select_at))]
fn select<'a>(alloc: Global, text: &[u8], tokens: &'a [Token]) -> Read<'a, Op>
    ensures { IsRead select_at text.now tokens.now result }
{
    let (ty, rest) = among::<Ty>(text, tokens)?;
    let (cond, rest) = val(alloc, Ty::Int(Width::W8), text, rest)?;
    let ((a, b), rest) = next_two(alloc, ty, text, rest)?;
    Ok((Op::Select { ty, cond, a, b }, rest))
}

/// `to` and a width.
#[tactic(auto, unfolding(crate::specs::Ops::to_at))]
fn to<'a>(text: &[u8], tokens: &'a [Token]) -> Read<'a, (Width, u32)>
    ensures { IsRead to_at text.now tokens.now result }
{
    let rest = word(b"to".as_slice(), text, tokens)?;
    placed::<Width>(text, rest)
}

#[tactic(auto, unfolding(crate::specs::Ops::cast_at))]
fn cast<'a>(alloc: Global, op: CastOp, text: &[u8], tokens: &'a [Token]) -> Read<'a, Op>
    ensures { IsRead (cast_at op) text.now tokens.now result }
{
    let (from, rest) = among::<Width>(text, tokens)?;
    let (val, rest) = val(alloc, Ty::Int(from), text, rest)?;
    let ((to, to_at), rest) = to(text, rest)?;
    Ok((
        Op::Cast {
            op,
            from,
            to,
            val,
            to_at,
        },
        rest,
    ))
}

#[tactic(auto, unfolding(crate::specs::Ops::ptr_to_int_at))]
fn ptr_to_int<'a>(alloc: Global, text: &[u8], tokens: &'a [Token]) -> Read<'a, Op>
    ensures { IsRead ptr_to_int_at text.now tokens.now result }
{
    let (ptr, rest) = local(alloc, text, tokens)?;
    Ok((Op::PtrToInt { ptr }, rest))
}

#[tactic(auto, unfolding(crate::specs::Ops::input_at))]
fn input<'a>(alloc: Global, text: &[u8], tokens: &'a [Token]) -> Read<'a, Op>
    ensures { IsRead input_at text.now tokens.now result }
{
    let (index, rest) = val(alloc, Ty::Int(Width::W64), text, tokens)?;
    Ok((Op::Input { index }, rest))
}

#[tactic(auto, unfolding(crate::specs::Ops::modify_at))]
fn modify<'a>(alloc: Global, text: &[u8], tokens: &'a [Token]) -> Read<'a, Op>
    ensures { IsRead modify_at text.now tokens.now result }
{
    let (op, rest) = among::<ModifyOp>(text, tokens)?;
    let (width, rest) = among::<Width>(text, rest)?;
    let (ptr, rest) = local(alloc, text, rest)?;
    let (val, rest) = next_val(alloc, Ty::Int(width), text, rest)?;
    Ok((
        Op::Modify {
            op,
            width,
            ptr,
            val,
        },
        rest,
    ))
}

#[tactic(auto, unfolding(crate::specs::Ops::cmp_xchg_at))]
fn cmp_xchg<'a>(alloc: Global, text: &[u8], tokens: &'a [Token]) -> Read<'a, Op>
    ensures { IsRead cmp_xchg_at text.now tokens.now result }
{
    let (width, rest) = among::<Width>(text, tokens)?;
    let (ptr, rest) = local(alloc, text, rest)?;
    let ((expected, val), rest) = next_two(alloc, Ty::Int(width), text, rest)?;
    Ok((
        Op::CmpXchg {
            width,
            ptr,
            expected,
            val,
        },
        rest,
    ))
}

#[tactic(auto, unfolding(crate::specs::Ops::copy_at))]
fn copy<'a>(alloc: Global, text: &[u8], tokens: &'a [Token]) -> Read<'a, Op>
    ensures { IsRead copy_at text.now tokens.now result }
{
    let (to, rest) = local(alloc, text, tokens)?;
    let (from, rest) = next_local(alloc, text, rest)?;
    let (len, rest) = next_val(alloc, Ty::Int(Width::W64), text, rest)?;
    Ok((Op::Copy { to, from, len }, rest))
}

#[tactic(auto, unfolding(crate::specs::Ops::free_at))]
fn free<'a>(alloc: Global, text: &[u8], tokens: &'a [Token]) -> Read<'a, Op>
    ensures { IsRead free_at text.now tokens.now result }
{
    let (ptr, rest) = local(alloc, text, tokens)?;
    Ok((Op::Free { ptr }, rest))
}

#[tactic(auto, unfolding(crate::specs::Ops::print_at))]
fn print<'a>(alloc: Global, text: &[u8], tokens: &'a [Token]) -> Read<'a, Op>
    ensures { IsRead print_at text.now tokens.now result }
{
    let (width, rest) = among::<Width>(text, tokens)?;
    let (val, rest) = val(alloc, Ty::Int(width), text, rest)?;
    Ok((Op::Print { width, val }, rest))
}

#[tactic(auto, unfolding(crate::specs::Ops::call_at))]
fn call<'a>(alloc: Global, typed: bool, text: &[u8], tokens: &'a [Token]) -> Read<'a, Op>
    ensures { IsRead (call_at typed) text.now tokens.now result }
{
    let (result, rest) = result_type(typed, text, tokens)?;
    let ((function, args), rest) = callee(alloc, text, rest)?;
    Ok((
        Op::Call {
            result,
            function,
            args,
        },
        rest,
    ))
}

#[tactic(auto, unfolding(crate::specs::Ops::host_at))]
fn host<'a>(alloc: Global, text: &[u8], tokens: &'a [Token]) -> Read<'a, Op>
    ensures { IsRead host_at text.now tokens.now result }
{
    let (result, rest) = among::<Ty>(text, tokens)?;
    let ((host, args), rest) = callee(alloc, text, rest)?;
    Ok((Op::Host { result, host, args }, rest))
}

#[tactic(auto, unfolding(crate::specs::Ops::spawn_at))]
fn spawn<'a>(alloc: Global, text: &[u8], tokens: &'a [Token]) -> Read<'a, Op>
    ensures { IsRead spawn_at text.now tokens.now result }
{
    let ((function, args), rest) = callee(alloc, text, tokens)?;
    Ok((Op::Spawn { function, args }, rest))
}

#[tactic(auto, unfolding(crate::specs::Ops::join_at))]
fn join<'a>(alloc: Global, typed: bool, text: &[u8], tokens: &'a [Token]) -> Read<'a, Op>
    ensures { IsRead (join_at typed) text.now tokens.now result }
{
    let ((result, ty_at), rest) = placed_result_type(typed, text, tokens)?;
    let (handle, rest) = local(alloc, text, rest)?;
    Ok((
        Op::Join {
            result,
            ty_at,
            handle,
        },
        rest,
    ))
}

/// The rest of an operation. The result of a call or a join has a type where it is to be typed.
pub fn tail<'a>(
    alloc: Global,
    version: u8,
    typed: bool,
    keyword: Keyword,
    text: &[u8],
    tokens: &'a [Token],
) -> Read<'a, Op>
    ensures { IsRead (tail_at version typed keyword) text.now tokens.now result }
{
    match keyword {
        Keyword::Const => constant(text, tokens),
        Keyword::Null => Ok((Op::Null, tokens)),
        Keyword::Make(place) => make(alloc, place, text, tokens),
        Keyword::Gep => gep(alloc, text, tokens),
        Keyword::Load => load(alloc, text, tokens),
        Keyword::Store => store(alloc, text, tokens),
        Keyword::Retag => retag(alloc, version, text, tokens),
        Keyword::Binary(op) => binary(alloc, op, text, tokens),
        Keyword::Compare => compare(alloc, text, tokens),
        Keyword::Select => select(alloc, text, tokens),
        Keyword::Cast(op) => cast(alloc, op, text, tokens),
        Keyword::PtrToInt => ptr_to_int(alloc, text, tokens),
        Keyword::Input => input(alloc, text, tokens),
        Keyword::Modify => modify(alloc, text, tokens),
        Keyword::CmpXchg => cmp_xchg(alloc, text, tokens),
        Keyword::Copy => copy(alloc, text, tokens),
        Keyword::Free => free(alloc, text, tokens),
        Keyword::Print => print(alloc, text, tokens),
        Keyword::Call => call(alloc, typed, text, tokens),
        Keyword::Host => host(alloc, text, tokens),
        Keyword::Spawn => spawn(alloc, text, tokens),
        Keyword::Join => join(alloc, typed, text, tokens),
    }
}

/// An operation after a register and `=`.
#[tactic(auto, unfolding(crate::specs::Ops::defined_at))]
pub fn defined<'a>(alloc: Global, version: u8, text: &[u8], tokens: &'a [Token]) -> Read<'a, Op>
    ensures { IsRead (defined_at version) text.now tokens.now result }
{
    let (keyword, rest) = among::<Keyword>(text, tokens)?;
    tail(alloc, version, true, keyword, text, rest)
}
