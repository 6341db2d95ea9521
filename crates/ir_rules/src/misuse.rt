//! Uses of registers that do not fit what the registers hold.
ghost use Rattle.std.specs.Prelude.{◌≡◌, ℕ, List};
ghost use Rattle.std.specs.Option.{option_map};
ghost use Rattle.ir_rules.specs.Seen.{seen, event_of, holds_of};
ghost use Rattle.ir_rules.specs.Least.{IsLeast};
ghost use Rattle.ir_rules.specs.Rules.{held};
ghost use Rattle.ir_rules.specs.Walk.{held_in, use_rule, event_fault, WrongUse};

use crate::events::{Held, Occurrence, Role};
use crate::rule::{Fault, Rule, Wanted, lesser_fault};
use crate::tables::look_up;
use std::collections::BTreeMap;

fn use_rule<'a>(held: Option<Held<'a>>, wanted: Wanted) -> Option<Rule>
    ensures { result ≡ use_rule (option_map holds_of held.entry) wanted }
{
    match (held, wanted) {
        (None, _) => Some(Rule::Unknown),
        (Some(Held::Value(ty)), Wanted::AValue(wanted)) => {
            if ty == wanted {
                None
            } else {
                Some(Rule::TypeClash)
            }
        }
        (Some(Held::Handle(_)), Wanted::AHandle) => None,
        (Some(Held::Handle(_)), Wanted::AValue(_)) | (Some(Held::Value(_)), Wanted::AHandle) => {
            Some(Rule::HandleUse)
        }
    }
}

fn event_fault<'a>(event: &Occurrence<'a>, table: &BTreeMap<&'a [u8], Held<'a>>) -> Option<Fault>
    ensures { result ≡ event_fault (held_in table.now) (event_of event.now) }
{
    match event.role {
        Role::Defines(_) => None,
        Role::Uses(wanted) => {
            let held = look_up(table, event.register.name.as_slice());
            match use_rule(held, wanted) {
                Some(rule) => Some(Fault {
                    at: event.register.at,
                    rule,
                }),
                None => None,
            }
        }
    }
}

/// The first use that doesn't fit.
pub fn wrong_uses<'a>(
    events: &[Occurrence<'a>],
    table: &BTreeMap<&'a [u8], Held<'a>>,
) -> Option<Fault>
    requires { (q : List ℕ) → held_in table.now q ≡ held (seen events.now) q }
    ensures { IsLeast (WrongUse (seen events.now)) result }
{
    let mut first = None;
    for event in events {
        first = lesser_fault(first, event_fault(event, table));
    }
    first
}
