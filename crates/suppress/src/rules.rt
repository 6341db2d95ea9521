//! Rules, and what they hold.
ghost use Rattle.std.specs.Prelude.{◌≡◌};
ghost use Rattle.suppress.specs.Rules as held;

use crate::case::{Case, Cause};
use bsan_ids::{Copied, ListOf, NoMemory};

/// A rule holds the cases with its cause, or with any where it has none, whose site is from `first`
/// to `last`.
#[derive(Clone, Copy)]
pub struct Rule {
    pub cause: Option<Cause>,
    pub first: u32,
    pub last: u32,
}

/// A list of rules. It holds a case where one of them does.
#[derive(Drop)]
pub struct Rules {
    pub list: ListOf<Rule>,
}

/// It takes no memory.
impl Copied for Rule {
    fn copy(&self) -> Result<Rule, NoMemory> {
        Ok(*self)
    }
}

impl Copied for Rules {
    fn copy(&self) -> Result<Rules, NoMemory> {
        Ok(Rules {
            list: self.list.copy()?,
        })
    }
}

fn is_cause(cause: Option<Cause>, other: Cause) -> bool
    ensures { result ≡ held.is_cause cause other }
{
    match (cause, other) {
        (None, _)
        | (Some(Cause::Denied), Cause::Denied)
        | (Some(Cause::StrongFree), Cause::StrongFree)
        | (Some(Cause::Stranger), Cause::Stranger)
        | (Some(Cause::Freed), Cause::Freed)
        | (Some(Cause::OutOfRange), Cause::OutOfRange) => true,
        _ => false,
    }
}

fn rule_holds(rule: &Rule, case: Case) -> bool
    ensures { result ≡ held.rule_holds rule.now case }
{
    is_cause(rule.cause, case.cause) && rule.first <= case.site && case.site <= rule.last
}

/// Whether one of the rules holds the case.
pub fn holds(rules: &Rules, case: Case) -> bool
    ensures { result ≡ held.holds rules.now case }
{
    rules
        .list
        .as_slice()
        .iter()
        .any(|rule| rule_holds(rule, case))
}
