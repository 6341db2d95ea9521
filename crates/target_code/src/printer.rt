//! The text of target code.
ghost use Rattle.std.specs.Prelude.{◌≡◌, ◌++◌, codes, map, IfOk, OnOk};
ghost use Rattle.std.specs.List.{flat_map};
ghost use Rattle.std.specs.Fmt.{decimal};
ghost use Rattle.target_code.specs.Families.{family};
ghost use Rattle.target_code.specs.declared.family.Family.TheVariants.{Flow, Check, Access, Value, Computation, Call};
ghost use Rattle.target_code.specs.Words.{slot_text, shadow_slot_text, word_text};
ghost use Rattle.target_code.specs.Texts.{next, spaced, with_newline, header_text, block_text, blocks_text, function_text, functions_text, target_text};
ghost use Rattle.target_code.specs.declared.line.Line.TheVariants as line;
ghost use Rattle.target_code.specs.declared.words.Word.TheVariants as word;

use crate::family::Family;
use crate::line::{Line, Operand, Shadow, Target, TargetFunction};
use crate::words::{Keyword, Word, guard_word, keyword_text, place_word};
use bsan_ids::{ListOf, NoMemory};
use ir_ast::{binary_word, cast_word, cond_word, kind_word, modify_word, type_word, width_word};
use itoa::Buffer;
use std::alloc::Global;

fn put_text(text: &mut Vec<u8>, word: &str) -> Result<(), NoMemory>
    ensures { OnOk result (text.new.items ≡ text.old.items ++ word.now) }
{
    text.extend_from_slice(word.as_bytes())?;
    Ok(())
}

fn put_number(text: &mut Vec<u8>, number: u64) -> Result<(), NoMemory>
    ensures { OnOk result (text.new.items ≡ text.old.items ++ decimal number) }
{
    let mut buffer = Buffer::new();
    text.extend_from_slice(buffer.format(number).as_bytes())?;
    Ok(())
}

fn put_slot(text: &mut Vec<u8>, slot: u32) -> Result<(), NoMemory>
    ensures { OnOk result (text.new.items ≡ text.old.items ++ slot_text slot) }
{
    text.extend_from_slice(b"s")?;
    put_number(text, u64::from(slot))
}

fn put_shadow_slot(text: &mut Vec<u8>, slot: u32) -> Result<(), NoMemory>
    ensures { OnOk result (text.new.items ≡ text.old.items ++ shadow_slot_text slot) }
{
    text.extend_from_slice(b"h")?;
    put_number(text, u64::from(slot))
}

fn put_word(text: &mut Vec<u8>, word: Word) -> Result<(), NoMemory>
    ensures { OnOk result (text.new.items ≡ text.old.items ++ word_text word) }
{
    match word {
        Word::Keyword(word) => put_text(text, keyword_text(word)),
        Word::Type(word) => put_text(text, type_word(word)),
        Word::Width(word) => put_text(text, width_word(word)),
        Word::Kind(word) => put_text(text, kind_word(word)),
        Word::Guard(word) => put_text(text, guard_word(word)),
        Word::Place(word) => put_text(text, place_word(word)),
        Word::Binary(word) => put_text(text, binary_word(word)),
        Word::Cond(word) => put_text(text, cond_word(word)),
        Word::Cast(word) => put_text(text, cast_word(word)),
        Word::Modify(word) => put_text(text, modify_word(word)),
        Word::Slot(slot) | Word::Operand(Operand::Slot(slot)) => put_slot(text, slot),
        Word::ShadowSlot(slot) | Word::Shadow(Shadow::Slot(slot)) => put_shadow_slot(text, slot),
        Word::Number(number) => put_number(text, u64::from(number)),
        Word::Operand(Operand::Number(number)) => put_number(text, number),
        Word::Shadow(Shadow::Nothing) => put_text(text, "none"),
    }
}

/// A space, and then the word.
fn put_next(text: &mut Vec<u8>, word: Word) -> Result<(), NoMemory>
    ensures { OnOk result (text.new.items ≡ text.old.items ++ next word) }
{
    text.extend_from_slice(b" ")?;
    put_word(text, word)
}

fn put_more(text: &mut Vec<u8>, words: &[Word]) -> Result<(), NoMemory>
    ensures { OnOk result (text.new.items ≡ text.old.items ++ flat_map next words.now) }
{
    for word in words {
        put_next(text, *word)?;
    }
    Ok(())
}

/// These words, with spaces between them, and the line's end.
#[tactic(auto, unfolding(crate::specs::Texts::spaced))]
fn put_words(text: &mut Vec<u8>, words: &[Word]) -> Result<(), NoMemory>
    ensures { OnOk result (text.new.items ≡ text.old.items ++ (spaced words.now ++ codes "\n")) }
{
    match words {
        [] => put_text(text, "\n"),
        [first, rest @ ..] => {
            put_word(text, *first)?;
            put_more(text, rest)?;
            put_text(text, "\n")
        }
    }
}

fn put_operands(text: &mut Vec<u8>, operands: &[Operand]) -> Result<(), NoMemory>
    ensures { OnOk result (text.new.items ≡ text.old.items ++ flat_map next (map word.Operand operands.now)) }
{
    for operand in operands {
        put_next(text, Word::Operand(*operand))?;
    }
    Ok(())
}

/// The line of a host's function, with its end.
#[tactic(auto, unfolding(crate::specs::Texts::spaced))]
fn put_host(text: &mut Vec<u8>, slot: u32, host: u32, args: &[Operand]) -> Result<(), NoMemory>
    ensures { OnOk result (text.new.items ≡ text.old.items ++ with_newline (line.Host slot host args.now)) }
{
    put_slot(text, slot)?;
    put_text(text, " = host ")?;
    put_number(text, u64::from(host))?;
    put_operands(text, args)?;
    put_text(text, "\n")
}

/// A word of a line: a keyword, or a field as a word of its kind.
macro_rules! word {
    ($keyword:ident) => { Word::Keyword(Keyword::$keyword) };
    (Constant $field:ident) => { Word::Operand(Operand::Number(*$field)) };
    ($kind:ident $field:ident) => { Word::$kind(*$field) };
}

/// A line with its end, by the words of each form in its family.
macro_rules! put_form {
    ($text:expr, $line:expr;
     $($variant:ident $({ $($name:ident),* })? => $($kind:ident $(($field:ident))?),+;)*) => {
        match $line {
            $(Line::$variant $({ $($name),* })? => put_words($text, &[$(word!($kind $($field)?)),+]),)*
            _ => unreachable!(),
        }
    };
}

/// A line of a frame, or of the way through the blocks.
fn put_flow(text: &mut Vec<u8>, line: &Line) -> Result<(), NoMemory>
    requires { family line.now ≡ Flow }
    ensures { OnOk result (text.new.items ≡ text.old.items ++ with_newline line.now) }
{
    put_form! {
        text, line;
        Turn { number } => Turn, Number(number);
        PushFrame => PushFrame;
        Param { slot, index } => Slot(slot), Equals, Param, Number(index);
        ShadowParam { shadow, index } => ShadowSlot(shadow), Equals, ShadowParam, Number(index);
        Branch { cond } => Branch, Operand(cond);
        Jump { block } => Jump, Number(block);
        Result { value } => Result, Equals, Operand(value);
        ShadowResult { from } => ShadowResult, Equals, Shadow(from);
        PopFrame => PopFrame;
        Return => Return;
        Unreachable => Unreachable;
    }
}

/// The check of an access.
fn put_check(text: &mut Vec<u8>, line: &Line) -> Result<(), NoMemory>
    requires { family line.now ≡ Check }
    ensures { OnOk result (text.new.items ≡ text.old.items ++ with_newline line.now) }
{
    put_form! {
        text, line;
        CheckRead { ptr, ptr_shadow, bytes } =>
            Check, Read, Slot(ptr), ShadowSlot(ptr_shadow), Number(bytes);
        CheckWrite { ptr, ptr_shadow, bytes } =>
            Check, Write, Slot(ptr), ShadowSlot(ptr_shadow), Number(bytes);
        CheckCopy { to, to_shadow, from, from_shadow, len } =>
            Check, Copy, Slot(to), ShadowSlot(to_shadow), Slot(from), ShadowSlot(from_shadow), Operand(len);
        CheckFree { ptr, ptr_shadow } => Check, Free, Slot(ptr), ShadowSlot(ptr_shadow);
    }
}

/// A line of a load, store, copy or free.
fn put_access(text: &mut Vec<u8>, line: &Line) -> Result<(), NoMemory>
    requires { family line.now ≡ Access }
    ensures { OnOk result (text.new.items ≡ text.old.items ++ with_newline line.now) }
{
    put_form! {
        text, line;
        Load { slot, ty, ptr } => Slot(slot), Equals, Load, Type(ty), Slot(ptr);
        Loaded { shadow } => ShadowSlot(shadow), Equals, Loaded;
        Stored { from } => Stored, Equals, Shadow(from);
        Store { ty, value, ptr } => Store, Type(ty), Operand(value), Slot(ptr);
        Modify { slot, op, width, ptr, value } =>
            Slot(slot), Equals, Rmw, Modify(op), Width(width), Slot(ptr), Operand(value);
        CmpXchg { slot, width, ptr, expected, value } =>
            Slot(slot), Equals, CmpXchg, Width(width), Slot(ptr), Operand(expected), Operand(value);
        Copy { to, from, len } => MemCpy, Slot(to), Slot(from), Operand(len);
        Free { ptr } => Free, Slot(ptr);
    }
}

/// A line that gives a value or a provenance, or prints a value.
fn put_value(text: &mut Vec<u8>, line: &Line) -> Result<(), NoMemory>
    requires { family line.now ≡ Value }
    ensures { OnOk result (text.new.items ≡ text.old.items ++ with_newline line.now) }
{
    put_form! {
        text, line;
        Const { slot, ty, value } => Slot(slot), Equals, Const, Type(ty), Constant(value);
        Move { slot, from } => Slot(slot), Equals, Slot(from);
        ShadowMove { shadow, from } => ShadowSlot(shadow), Equals, Shadow(from);
        Make { slot, shadow, place, size } =>
            Slot(slot), ShadowSlot(shadow), Equals, Make, Place(place), Operand(size);
        Gep { slot, ptr, add } => Slot(slot), Equals, Gep, Slot(ptr), Operand(add);
        Retag { shadow, kind, guard, ptr, ptr_shadow, size } =>
            ShadowSlot(shadow), Equals, Retag, Kind(kind), Guard(guard), Slot(ptr),
            ShadowSlot(ptr_shadow), Number(size);
        Input { slot, index } => Slot(slot), Equals, Input, Operand(index);
        Print { width, value } => Print, Width(width), Operand(value);
    }
}

/// A line that computes a value, or chooses one.
fn put_computation(text: &mut Vec<u8>, line: &Line) -> Result<(), NoMemory>
    requires { family line.now ≡ Computation }
    ensures { OnOk result (text.new.items ≡ text.old.items ++ with_newline line.now) }
{
    put_form! {
        text, line;
        Binary { slot, op, width, a, b } =>
            Slot(slot), Equals, Binary(op), Width(width), Operand(a), Operand(b);
        Compare { slot, cond, ty, a, b } =>
            Slot(slot), Equals, Icmp, Cond(cond), Type(ty), Operand(a), Operand(b);
        Select { slot, ty, cond, a, b } =>
            Slot(slot), Equals, Select, Type(ty), Operand(cond), Operand(a), Operand(b);
        ShadowSelect { shadow, cond, a, b } =>
            ShadowSlot(shadow), Equals, Select, Operand(cond), Shadow(a), Shadow(b);
        Cast { slot, op, from, value, to } =>
            Slot(slot), Equals, Cast(op), Width(from), Operand(value), Width(to);
        PtrToInt { slot, ptr } => Slot(slot), Equals, PtrToInt, Slot(ptr);
    }
}

/// A line of arguments, calls, threads and their results.
fn put_call(text: &mut Vec<u8>, line: &Line) -> Result<(), NoMemory>
    requires { family line.now ≡ Call }
    ensures { OnOk result (text.new.items ≡ text.old.items ++ with_newline line.now) }
{
    match line {
        Line::Host { slot, host, args } => put_host(text, *slot, *host, args.as_slice()),
        _ => put_form! {
            text, line;
            Arg { index, value } => Arg, Number(index), Equals, Operand(value);
            ShadowArg { index, from } => ShadowArg, Number(index), Equals, Shadow(from);
            TakeArg { slot, index } => Slot(slot), Equals, Arg, Number(index);
            TakeShadowArg { shadow, index } => ShadowSlot(shadow), Equals, ShadowArg, Number(index);
            Call { function } => Call, Number(function);
            CallResult { slot } => Slot(slot), Equals, Result;
            ShadowCallResult { shadow } => ShadowSlot(shadow), Equals, ShadowResult;
            RetagResult { kind, size } => Retag, Kind(kind), Free, Result, ShadowResult, Number(size);
            Spawn { slot, function } => Slot(slot), Equals, Spawn, Number(function);
            Join { handle } => Join, Slot(handle);
        },
    }
}

/// A line, with its end.
fn put_line(text: &mut Vec<u8>, line: &Line) -> Result<(), NoMemory>
    ensures { OnOk result (text.new.items ≡ text.old.items ++ with_newline line.now) }
{
    match line.family() {
        Family::Flow => put_flow(text, line),
        Family::Check => put_check(text, line),
        Family::Access => put_access(text, line),
        Family::Value => put_value(text, line),
        Family::Computation => put_computation(text, line),
        Family::Call => put_call(text, line),
    }
}

/// Adds lines, each with its newline.
fn put_lines(text: &mut Vec<u8>, lines: &[Line]) -> Result<(), NoMemory>
    ensures { OnOk result (text.new.items ≡ text.old.items ++ flat_map with_newline lines.now) }
{
    for line in lines {
        put_line(text, line)?;
    }
    Ok(())
}

fn put_block(text: &mut Vec<u8>, number: usize, lines: &[Line]) -> Result<(), NoMemory>
    ensures { OnOk result (text.new.items ≡ text.old.items ++ block_text number lines.now) }
{
    let alloc = *text.allocator();
    let head = format!(in alloc; "block {number}\n")?;
    text.extend_from_slice(head.as_bytes())?;
    put_lines(text, lines)
}

fn put_blocks(text: &mut Vec<u8>, blocks: &[ListOf<Line>]) -> Result<(), NoMemory>
    ensures { OnOk result (text.new.items ≡ text.old.items ++ blocks_text 0 blocks.now) }
{
    for (number, block) in blocks.iter().enumerate() {
        put_block(text, number, block.as_slice())?;
    }
    Ok(())
}

fn put_header(text: &mut Vec<u8>, number: usize, function: &TargetFunction) -> Result<(), NoMemory>
    ensures { OnOk result (text.new.items ≡ text.old.items ++ header_text number function.now) }
{
    let alloc = *text.allocator();
    let head = format!(in alloc; "func {number} @")?;
    text.extend_from_slice(head.as_bytes())?;
    text.extend_from_slice(function.name.as_slice())?;
    let slots = function.slots;
    let tail = format!(in alloc; " slots {slots}\n")?;
    text.extend_from_slice(tail.as_bytes())?;
    Ok(())
}

fn put_function(
    text: &mut Vec<u8>,
    number: usize,
    function: &TargetFunction,
) -> Result<(), NoMemory>
    ensures { OnOk result (text.new.items ≡ text.old.items ++ function_text number function.now) }
{
    put_header(text, number, function)?;
    put_lines(text, function.entry.as_slice())?;
    put_blocks(text, function.blocks.as_slice())
}

fn put_functions(text: &mut Vec<u8>, functions: &[TargetFunction]) -> Result<(), NoMemory>
    ensures { OnOk result (text.new.items ≡ text.old.items ++ functions_text 0 functions.now) }
{
    for (number, function) in functions.iter().enumerate() {
        put_function(text, number, function)?;
    }
    Ok(())
}

/// The text of target code.
///
/// # Errors
///
/// `NoMemory`: out of memory.
pub fn text(alloc: Global, target: &Target) -> Result<Vec<u8>, NoMemory>
    ensures { IfOk result (λ text. text.items ≡ target_text target.now) }
{
    let mut text = Vec::from_slice(alloc, b"target ")?;
    put_number(&mut text, u64::from(target.version))?;
    put_text(&mut text, "\n")?;
    put_functions(&mut text, target.functions.as_slice())?;
    Ok(text)
}
