//! A line of a rules file.
ghost use Rattle.std.specs.Prelude.{◌≡◌, ◌≤◌, ◌<◌, ◌++◌, List, ℕ, IfSome, IfNone, Option, option_map, length};
ghost use Rattle.std.specs.List.{sum_by};
ghost use Rattle.ir_ast.specs.Lines.{most_instructions};
ghost use Rattle.ir_ast.specs.Programs.{function_instructions};
ghost use Rattle.ir_ast.specs.Tokens.{Each};
ghost use Rattle.suppress.specs.Lines.{cause_word, NamesRule, Reads};
ghost use Rattle.suppress.specs.declared.case.Cause.{Cause};

use crate::case::Cause;
use crate::place::{Sites, after, sites_at};
use crate::rules::Rule;
use ir_ast::Function;

/// What a line is.
#[derive(Clone, Copy)]
pub enum Reading {
    /// No rule: it is empty, or a comment.
    Blank,
    Rule(Rule),
    /// A rule that names a function which is not there.
    NoFunction,
    /// It has none of the forms.
    Bad,
}

/// The cause with whose word a text begins, `None` for any, and what stands behind the word.
fn cause_at(text: &[u8]) -> Option<(Option<Cause>, &[u8])>
    ensures some { IfSome result (λ found. text.entry.now ≡ cause_word found.0 ++ found.1.now) }
    ensures none { IfNone result ((cause : Option Cause) (rest : List ℕ) → text.entry.now ≡ cause_word cause ++ rest → ⊥) }
{
    if let Some(rest) = after(text, b"any".as_slice()) {
        return Some((None, rest));
    }
    if let Some(rest) = after(text, b"denied".as_slice()) {
        return Some((Some(Cause::Denied), rest));
    }
    if let Some(rest) = after(text, b"strongfree".as_slice()) {
        return Some((Some(Cause::StrongFree), rest));
    }
    if let Some(rest) = after(text, b"stranger".as_slice()) {
        return Some((Some(Cause::Stranger), rest));
    }
    if let Some(rest) = after(text, b"freed".as_slice()) {
        return Some((Some(Cause::Freed), rest));
    }
    let rest = after(text, b"outofrange".as_slice())?;
    Some((Some(Cause::OutOfRange), rest))
}

/// The rule of a cause and of what its place names, if that is there.
fn rule_on(cause: Option<Cause>, sites: Option<Sites>) -> Option<Rule>
    ensures { result ≡ option_map (λ s. record { cause = cause; first = s.first; last = s.last }) sites }
{
    match sites {
        Some(sites) => Some(Rule {
            cause,
            first: sites.first,
            last: sites.last,
        }),
        None => None,
    }
}

/// The rule that a line is: `None` where it is none, and within it `None` where it names a function that is not there.
fn rule_at(functions: &[Function], line: &[u8]) -> Option<Option<Rule>>
    requires some_blocks { Each (λ f. 0 < length f.blocks) functions.now }
    requires within { sum_by function_instructions functions.now ≤ most_instructions }
    ensures { NamesRule functions.now line.now result }
{
    let text = after(line, b"hold ".as_slice())?;
    let (cause, place) = cause_at(text)?;
    let sites = sites_at(functions, place)?;
    Some(rule_on(cause, sites))
}

/// What a line is, in a program of these functions.
pub fn read_line(functions: &[Function], line: &[u8]) -> Reading
    requires some_blocks { Each (λ f. 0 < length f.blocks) functions.now }
    requires within { sum_by function_instructions functions.now ≤ most_instructions }
    ensures { Reads functions.now line.now result }
{
    if line.is_empty() || line[0] == b';' {
        return Reading::Blank;
    }
    match rule_at(functions, line) {
        None => Reading::Bad,
        Some(None) => Reading::NoFunction,
        Some(Some(rule)) => Reading::Rule(rule),
    }
}
