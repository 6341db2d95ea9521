//! Calls, spawns, hosts, joins and casts.
ghost use Rattle.std.specs.Prelude.{◌≡◌};
ghost use Rattle.std.specs.Option.{option_copied};
ghost use Rattle.ir_rules.specs.Walk.{held_in};
ghost use Rattle.ir_rules.specs.Checks.{call_fits, host_fits, join_fault, name_fault, op_fault, spawn_fits, unless};

use crate::names::{Table, function_named, host_named, joined};
use crate::types::{all_host_types, is_conversion, is_host_type, same_result, takes};
use ir_ast::{Function, HostEntry, Named, Op, Ty, TypedVal};
use ir_rules::{Fault, Held, Rule};
use std::collections::BTreeMap;

/// The fault, unless the test holds.
pub fn unless(holds: bool, rule: Rule, at: u32) -> Option<Fault>
    ensures { result ≡ unless holds (record { at = at; rule = rule }) }
{
    if holds {
        None
    } else {
        Some(Fault { at, rule })
    }
}

fn call_fault(
    found: Option<&Function>,
    args: &[TypedVal],
    given: Option<Ty>,
    name: &Named,
) -> Option<Fault>
    ensures { result ≡ name_fault (call_fits args.now given) (option_copied found.entry) name.now }
{
    match found {
        Some(function) => {
            let fits = takes(function.params.as_slice(), args)
                && same_result(function.result.ty, given);
            unless(fits, Rule::BadCall, name.at)
        }
        None => unless(false, Rule::Unknown, name.at),
    }
}

fn spawn_fault(found: Option<&Function>, args: &[TypedVal], name: &Named) -> Option<Fault>
    ensures { result ≡ name_fault (spawn_fits args.now) (option_copied found.entry) name.now }
{
    match found {
        Some(function) => {
            let fits = takes(function.params.as_slice(), args);
            unless(fits, Rule::BadCall, name.at)
        }
        None => unless(false, Rule::Unknown, name.at),
    }
}

fn host_fault(
    found: Option<&HostEntry>,
    args: &[TypedVal],
    given: Ty,
    name: &Named,
) -> Option<Fault>
    ensures { result ≡ name_fault (host_fits args.now given) (option_copied found.entry) name.now }
{
    match found {
        Some(host) => {
            let fits = host.arity as usize == args.len()
                && (all_host_types(args) && is_host_type(given));
            unless(fits, Rule::BadCall, name.at)
        }
        None => unless(false, Rule::Unknown, name.at),
    }
}

fn join_fault(function: Option<&Function>, given: Option<Ty>, at: u32) -> Option<Fault>
    ensures { result ≡ join_fault (option_copied function.entry) given at }
{
    match function {
        Some(function) => unless(same_result(function.result.ty, given), Rule::BadCall, at),
        None => None,
    }
}

/// The broken rule of an operation, if there is one.
pub fn op_fault<'a>(
    table: &Table<'a>,
    registers: &BTreeMap<&'a [u8], Held<'a>>,
    op: &Op,
) -> Option<Fault>
    ensures { result ≡ op_fault table.now.functions.now table.now.hosts.now (held_in registers.now) op.now }
{
    match op {
        Op::Call {
            result,
            function,
            args,
        } => {
            let found = function_named(table, function.name.as_slice());
            call_fault(found, args.as_slice(), *result, function)
        }
        Op::Spawn { function, args } => {
            let found = function_named(table, function.name.as_slice());
            spawn_fault(found, args.as_slice(), function)
        }
        Op::Host { result, host, args } => {
            let found = host_named(table, host.name.as_slice());
            host_fault(found, args.as_slice(), *result, host)
        }
        Op::Join {
            result,
            ty_at,
            handle,
        } => {
            let found = joined(table, registers, handle.name.as_slice());
            join_fault(found, *result, *ty_at)
        }
        Op::Cast {
            op,
            from,
            to,
            to_at,
            ..
        } => unless(is_conversion(*op, *from, *to), Rule::TypeClash, *to_at),
        _ => None,
    }
}
