//! One sentence of help for each way to break a rule.
ghost use Rattle.std.specs.Prelude.{◌≡◌};
ghost use Rattle.std.specs.Option.{option_copied};
ghost use Rattle.notes.specs.Help as help;

use crate::cures::{byte_help, unexpected_help};
use crate::made::used_prov;
use bsan_ids::Prov;
use eager_tree::Violation;
use history::{Request, Verdict};
use ir_reader::ReadFault;
use ir_rules::Rule;
use perm_table::{Perm, RetagKind};

/// Where a node was disabled by a write, by how it was made.
fn written_help(kind: Option<RetagKind>) -> &'static str
    ensures { result.now ≡ help.written_help kind }
{
    match kind {
        Some(RetagKind::Shr) => {
            "a write through another pointer ended this shared reference; read before that write, or borrow again after it"
        }
        Some(RetagKind::Boxed) => {
            "a write through another pointer ended what the box may do; go through the box alone, or through a raw pointer in its place"
        }
        _ => {
            "a write through another pointer ended this mutable reference; use it before that write, or borrow again after it"
        }
    }
}

/// Where a node is disabled, by how it was made, and by what disabled it.
fn disabled_help(kind: Option<RetagKind>, change: Option<&Request>) -> &'static str
    ensures { result.now ≡ help.disabled_help kind (option_copied change.entry) }
{
    match change {
        Some(Request::EndProtector { .. }) => {
            "a function wrote through the reference that it was given, and its return counts as that write again, which ended this pointer; use it before that return, or borrow again after it"
        }
        _ => written_help(kind),
    }
}

/// Where a node may only be read that was made to write, by what took that from it.
fn read_help(change: Option<&Request>) -> &'static str
    ensures { result.now ≡ help.read_help (option_copied change.entry) }
{
    match change {
        Some(Request::Retag { .. }) => {
            "another borrow of these bytes was made since, which reads them and may rely on them; write before that borrow, or borrow again for the write"
        }
        Some(Request::EndProtector { .. }) => {
            "a function read through the reference that it was given, and its return counts as that read again; write before that return, or borrow again for the write"
        }
        _ => {
            "another pointer has read these bytes since, and may rely on them; write before that read, or borrow again for the write"
        }
    }
}

/// Where a node may only be read, by how it was made, and by what gave it that state.
fn frozen_help(kind: Option<RetagKind>, change: Option<&Request>) -> &'static str
    ensures { result.now ≡ help.frozen_help kind (option_copied change.entry) }
{
    match kind {
        Some(RetagKind::Shr) => {
            "nothing is written through a shared reference; take a mutable one, or a reference to a cell"
        }
        _ => read_help(change),
    }
}

/// Where another pointer has read what a protected node may write, by what read it.
fn conflicted_help(change: Option<&Request>) -> &'static str
    ensures { result.now ≡ help.conflicted_help (option_copied change.entry) }
{
    match change {
        Some(Request::Retag { .. }) => {
            "another borrow of these bytes, which reads them, was made while the function runs that was given this reference; borrow from this reference until it returns"
        }
        _ => {
            "another pointer has read these bytes while the function runs that was given this reference; read them through this reference alone until it returns"
        }
    }
}

/// Where a node's own state denies an access through it, by how the node was made, and by what gave it this state.
fn local_help(perm: Perm, kind: Option<RetagKind>, change: Option<&Request>) -> &'static str
    ensures { result.now ≡ help.local_help perm kind (option_copied change.entry) }
{
    match perm {
        Perm::Frozen => frozen_help(kind, change),
        Perm::Conflicted => conflicted_help(change),
        _ => disabled_help(kind, change),
    }
}

/// Where a protected node denies an access through another pointer, by how the node was made.
fn protected_help(kind: Option<RetagKind>) -> &'static str
    ensures { result.now ≡ help.protected_help kind }
{
    match kind {
        Some(RetagKind::Shr) => {
            "until the function returns that was given this shared reference, no other pointer may write its bytes"
        }
        _ => {
            "until the function returns that was given this reference, no other pointer may write its bytes, nor read what was written through it"
        }
    }
}

/// Of a pointer with which no node of the allocation is named, by what it may use.
fn stranger_help(prov: Option<Prov>) -> &'static str
    ensures { result.now ≡ help.stranger_help prov }
{
    match prov {
        None => {
            "the pointer may use no allocation: it comes from null or from the host, or bytes of it were overwritten in memory; keep the pointer that the allocation gave, and store, load and copy it whole"
        }
        Some(_) => {
            "the pointer may use another allocation, and was moved out of it; derive one from a pointer to this allocation"
        }
    }
}

/// The help for a verdict, by what was asked, how the node was made that denies it, and what gave that its state.
pub fn verdict_help(
    verdict: &Verdict,
    asked: &Request,
    kind: Option<RetagKind>,
    change: Option<&Request>,
) -> &'static str
    ensures { result.now ≡ help.verdict_help verdict.now asked.now kind (option_copied change.entry) }
{
    match verdict {
        Verdict::Violated(
            Violation::Denied {
                perm,
                local: true,
                ..
            },
        ) => local_help(*perm, kind, change),
        Verdict::Violated(Violation::Denied { local: false, .. }) => protected_help(kind),
        Verdict::Violated(Violation::StrongFree { .. }) => {
            "until the function returns that was given this reference, the allocation may not be freed; free it later, or hand it over as a box"
        }
        Verdict::Violated(Violation::Stranger) => stranger_help(used_prov(asked)),
        Verdict::Violated(Violation::Freed) => {
            "the allocation was freed before; borrow before the free"
        }
        Verdict::Violated(Violation::OutOfRange) => {
            "a borrow ends with its allocation at the latest; borrow fewer bytes"
        }
        Verdict::Clean | Verdict::Closed => "this step keeps the rules",
    }
}

/// The help for a refusal of this text.
pub fn fault_help(text: &[u8], fault: ReadFault) -> &'static str
    ensures { result.now ≡ help.fault_help text.now fault }
{
    match fault {
        ReadFault::TooLarge { .. } => {
            "the text is too long, or it has a function, an instruction or a register too many; make the program smaller"
        }
        ReadFault::BadByte { at } => byte_help(text, at),
        ReadFault::IntToPtr { .. } => {
            "no pointer is made from an integer, since it could use no allocation; keep the pointer itself, store and load it as `ptr`, and move it by `gep`"
        }
        ReadFault::Unexpected { at } => unexpected_help(text, at as usize),
        ReadFault::NumberTooLarge { .. } => "the number is too large for its type, or for a size",
        ReadFault::NoMemory => "out of memory",
    }
}

/// The help for a broken rule.
pub fn rule_help(rule: Rule) -> &'static str
    ensures { result.now ≡ help.rule_help rule }
{
    match rule {
        Rule::Unknown =>
            "nothing of this name is defined: no register of the function, no function, no function of the host",
        Rule::Twice =>
            "this name is defined before; each register, label and function is defined once",
        Rule::TypeClash => "another type is wanted here",
        Rule::Unassigned =>
            "some path to this place doesn't define the register; define it on each, or make it a parameter of the block",
        Rule::BadTarget =>
            "a jump goes to another block of its function than the first, with a value for each of the block's parameters",
        Rule::BadCall =>
            "the arguments and the result have to be those of the function that is called, or of the thread that is joined",
        Rule::HandleUse => "the handle of a thread can only be joined, and only a handle can",
        Rule::NoMain =>
            "a program has a function `@main` without parameters, with the result `i64`",
    }
}
