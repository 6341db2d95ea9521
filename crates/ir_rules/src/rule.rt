//! The rules, a broken rule with its place, and which of two broken rules comes first.
ghost use Rattle.std.specs.Prelude.{◌≡◌, Some};
ghost use Rattle.ir_rules.specs.Least.{lesser, name_of, rank};

use ir_ast::Ty;
use std::fmt;

/// A rule of the verifier, in the order in which broken rules at one place come.
#[derive(Clone, Copy, Debug, PartialEq, Eq)]
pub enum Rule {
    /// A register, function or host that is nowhere defined.
    Unknown,
    /// The second definition of a register, label or function.
    Twice,
    /// A register, result or cast of another type than its place wants.
    TypeClash,
    /// A register that may be used before it is defined.
    Unassigned,
    /// A jump to no block, to the first block, or with other arguments than its parameters.
    BadTarget,
    /// A call that doesn't fit the function or host, or a join that doesn't fit the thread's function.
    BadCall,
    /// A handle where a value is wanted, or a value where a handle is.
    HandleUse,
    /// No `@main` without parameters and with the result `i64`.
    NoMain,
}

/// What is wanted where a register stands: a value of this type, or a handle.
#[derive(Clone, Copy)]
pub enum Wanted {
    AValue(Ty),
    AHandle,
}

/// A broken rule and its place: the offset of a token's first byte.
#[derive(Clone, Copy)]
pub struct Fault {
    pub at: u32,
    pub rule: Rule,
}

impl Rule {
    /// The rule's number in the order in which broken rules at one place come.
    pub fn rank(self) -> u32
        ensures { result ≡ rank self }
    {
        match self {
            Rule::Unknown => 0,
            Rule::Twice => 1,
            Rule::TypeClash => 2,
            Rule::Unassigned => 3,
            Rule::BadTarget => 4,
            Rule::BadCall => 5,
            Rule::HandleUse => 6,
            Rule::NoMain => 7,
        }
    }

    /// The rule's name.
    pub fn name(self) -> &'static str
        ensures { result.now ≡ name_of self }
    {
        match self {
            Rule::Unknown => "Unknown",
            Rule::Twice => "Twice",
            Rule::TypeClash => "TypeClash",
            Rule::Unassigned => "Unassigned",
            Rule::BadTarget => "BadTarget",
            Rule::BadCall => "BadCall",
            Rule::HandleUse => "HandleUse",
            Rule::NoMain => "NoMain",
        }
    }
}

impl fmt::Display for Rule {
    ghost output = { λ rule. Some (name_of rule) };

    fn fmt<W: fmt::Write>(&self, f: &mut fmt::Formatter<W>) -> fmt::Result {
        f.write_str(self.name())
    }
}

/// The first of the faults: that of the lesser place, and at one place that of the lesser rank.
pub fn lesser_fault(a: Option<Fault>, b: Option<Fault>) -> Option<Fault>
    ensures { result ≡ lesser a b }
{
    match (a, b) {
        (Some(x), Some(y)) => {
            if y.at < x.at || (y.at == x.at && y.rule.rank() < x.rule.rank()) {
                b
            } else {
                a
            }
        }
        (Some(_), None) => a,
        (None, _) => b,
    }
}
