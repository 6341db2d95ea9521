//! Whether types agree.
ghost use Rattle.std.specs.Prelude.{◌≡◌};
ghost use Rattle.ir_ast.specs.Words.{bits};
ghost use Rattle.ir_rules.specs.Checks.{all_host_types, is_conversion, is_host_type, same_result, takes};
ghost use Rattle.ir_rules.specs.Walk.{same_ty};

use ir_ast::{CastOp, Param, Ty, TypedVal, Width};

fn same_ty(a: Ty, b: Ty) -> bool
    ensures { result ≡ same_ty a b }
{
    a == b
}

/// Whether two results agree. Without a type a result is `void`.
pub fn same_result(a: Option<Ty>, b: Option<Ty>) -> bool
    ensures { result ≡ same_result a b }
{
    a == b
}

/// Whether the arguments have the parameters' number and types.
pub fn takes(params: &[Param], args: &[TypedVal]) -> bool
    ensures { result ≡ takes params.now args.now }
{
    if params.len() != args.len() {
        return false;
    }
    for (place, param) in params.iter().enumerate() {
        if !same_ty(param.ty, args[place].ty) {
            return false;
        }
    }
    true
}

pub fn is_host_type(ty: Ty) -> bool
    ensures { result ≡ is_host_type ty }
{
    match ty {
        Ty::Int(Width::W64) | Ty::Ptr => true,
        Ty::Int(Width::W8 | Width::W16 | Width::W32) => false,
    }
}

/// Whether each argument can be handed to a host.
pub fn all_host_types(args: &[TypedVal]) -> bool
    ensures { result ≡ all_host_types args.now }
{
    for arg in args {
        if !is_host_type(arg.ty) {
            return false;
        }
    }
    true
}

fn bits(width: Width) -> u32
    ensures { result ≡ bits width }
{
    8 * width.bytes()
}

/// Whether a cast goes to a wider type, or for `trunc` to a narrower one.
pub fn is_conversion(op: CastOp, from: Width, to: Width) -> bool
    ensures { result ≡ is_conversion op from to }
{
    match op {
        CastOp::Zext | CastOp::Sext => bits(from) < bits(to),
        CastOp::Trunc => bits(to) < bits(from),
    }
}
