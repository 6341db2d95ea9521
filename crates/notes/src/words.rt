//! Notes on words that ask for nothing.
ghost use Rattle.std.specs.Prelude.{◌≡◌, ◌++◌, IfOk, OnOk, find, map, string_bytes};
ghost use Rattle.std.specs.Option.{option_copied, option_map};
ghost use Rattle.excerpt.specs.Shown as shown;
ghost use Rattle.notes.specs.Words as lines;

use crate::cures::{before, first_of};
use crate::source::{Source, push_heading, push_help};
use bsan_ids::NoMemory;
use excerpt::shown_text;
use std::alloc::Global;

/// How the commands are written that take no options.
fn text_form(name: &[u8]) -> Option<&'static str>
    ensures { option_map (λ form. form.now) result ≡ lines.text_form name.now }
{
    if name == b"check".as_slice() {
        Some("`check FILE`, without options")
    } else if name == b"instrument".as_slice() {
        Some("`instrument FILE`, without options")
    } else if name == b"load".as_slice() {
        Some("`load SEED SIZE`, without options; SEED is 0 to 4294967295, and SIZE 1 to 10000")
    } else {
        None
    }
}

/// How those are written that run a program.
fn run_form(name: &[u8]) -> Option<&'static str>
    ensures { option_map (λ form. form.now) result ≡ lines.run_form name.now }
{
    if name == b"solo".as_slice() {
        Some(
            "`solo FILE`, with any of the options --input FILE, --steps N (1 to 4000000), --turns N (1 to 100000000) and --allocs N (1 to 65536), each once",
        )
    } else if name == b"replay".as_slice() {
        Some(
            "`replay FILE SCHEDULE`, with any of the options --input FILE, --steps N (1 to 4000000), --turns N (1 to 100000000) and --allocs N (1 to 65536), each once; SCHEDULE is numbers of threads, 0 to 1023, with commas between them, as 0,1,0",
        )
    } else if name == b"run".as_slice() {
        Some(
            "`run FILE`, with any of the options --input FILE, --steps N (1 to 4000000), --turns N (1 to 100000000) and --allocs N (1 to 65536), each once",
        )
    } else if name == b"races".as_slice() {
        Some(
            "`races FILE SCHEDULE`, with any of the options --input FILE, --steps N (1 to 4000000), --turns N (1 to 100000000) and --allocs N (1 to 65536), each once; SCHEDULE is numbers of threads, 0 to 1023, with commas between them, as 0,1,0",
        )
    } else if name == b"record".as_slice() {
        Some(
            "`record FILE`, with any of the options --input FILE, --steps N (1 to 4000000), --turns N (1 to 100000000) and --allocs N (1 to 65536), each once",
        )
    } else {
        None
    }
}

/// How the others are written.
fn other_form(name: &[u8]) -> Option<&'static str>
    ensures { option_map (λ form. form.now) result ≡ lines.other_form name.now }
{
    if name == b"recheck".as_slice() {
        Some(
            "`recheck FILE RECORD`, with any of the options --input FILE, --steps N (1 to 4000000), --turns N (1 to 100000000) and --allocs N (1 to 65536), each once",
        )
    } else if name == b"hush".as_slice() {
        Some(
            "`hush FILE RULES`, with any of the options --input FILE, --steps N (1 to 4000000), --turns N (1 to 100000000) and --allocs N (1 to 65536), each once",
        )
    } else if name == b"explain".as_slice() {
        Some(
            "`explain FILE SCHEDULE`, with any of the options --input FILE, --steps N (1 to 4000000), --turns N (1 to 100000000) and --allocs N (1 to 65536), each once; SCHEDULE is numbers of threads, 0 to 1023, with commas between them, as 0,1,0",
        )
    } else {
        None
    }
}

/// How the command of this name is written, if there is one.
fn form_of(name: &[u8]) -> Option<&'static str>
    ensures { option_map (λ form. form.now) result ≡ lines.form_of name.now }
{
    first_of(text_form(name), first_of(run_form(name), other_form(name)))
}

fn begins(start: &[u8], word: &[u8]) -> bool
    ensures { result ≡ lines.begins start.now word.now }
{
    before(word, start.len()) == start
}

fn is_option(word: &[u8]) -> bool
    ensures { result ≡ lines.is_option word.now }
{
    begins(b"--input".as_slice(), word)
        || begins(b"--steps".as_slice(), word)
        || begins(b"--turns".as_slice(), word)
        || begins(b"--allocs".as_slice(), word)
}

fn takes_options(name: &[u8]) -> bool
    ensures { result ≡ lines.takes_options name.now }
{
    text_form(name).is_none()
}

/// Whether a word is written as an option, and the command has none of that name.
fn is_unknown(options: bool, word: &[u8]) -> bool
    ensures { result ≡ lines.is_unknown options word.now }
{
    begins(b"-".as_slice(), word) && !(options && is_option(word))
}

fn is_unknown_string(options: bool, word: &String) -> bool
    ensures { result ≡ lines.is_unknown options (string_bytes word.now) }
{
    is_unknown(options, word.as_bytes())
}

fn unknown_string(options: bool, words: &[String]) -> Option<&String>
    ensures { option_copied result ≡ find (λ word. lines.is_unknown options (string_bytes word)) words.now }
{
    words.iter().find(|word| is_unknown_string(options, word))
}

/// The first word that is written as an option, and of whose name the command has none.
fn unknown_among(options: bool, words: &[String]) -> Option<&String>
    ensures { option_map (λ word. string_bytes word.now) result ≡ find (lines.is_unknown options) (map string_bytes words.now) }
{
    unknown_string(options, words)
}

/// A text, and a word as it is shown.
fn worded(alloc: Global, start: &str, word: &[u8]) -> Result<Vec<u8>, NoMemory>
    ensures { IfOk result (λ line. line.items ≡ start.now ++ shown.shown_text word.now) }
{
    let mut line = Vec::from_slice(alloc, start.as_bytes())?;
    line.extend_from_slice(&shown_text(alloc, word)?)?;
    Ok(line)
}

fn option_line(alloc: Global, name: &[u8], word: Option<&String>) -> Result<Vec<u8>, NoMemory>
    ensures { IfOk result (λ line. line.items ≡ lines.option_line name.now (option_map (λ w. string_bytes w.now) word.entry)) }
{
    match word {
        Some(word) => worded(alloc, "no option: ", word.as_bytes()),
        None => worded(alloc, "not so: ", name),
    }
}

fn named_line(
    alloc: Global,
    name: &[u8],
    rest: &[String],
    form: Option<&'static str>,
) -> Result<Vec<u8>, NoMemory>
    ensures { IfOk result (λ line. line.items ≡ lines.named_line name.now (map string_bytes rest.now) (option_map (λ form. form.now) form.entry)) }
{
    match form {
        Some(_) => option_line(alloc, name, unknown_among(takes_options(name), rest)),
        None => worded(alloc, "no command: ", name),
    }
}

fn words_line(alloc: Global, words: &[String]) -> Result<Vec<u8>, NoMemory>
    ensures { IfOk result (λ line. line.items ≡ lines.words_line (map string_bytes words.now)) }
{
    match words.split_first() {
        Some((name, rest)) => { named_line(alloc, name.as_bytes(), rest, form_of(name.as_bytes())) }
        None => Ok(Vec::from_slice(alloc, b"no command".as_slice())?),
    }
}

fn form_help(form: Option<&'static str>) -> &'static str
    ensures { result.now ≡ lines.form_help (option_map (λ form. form.now) form.entry) }
{
    match form {
        Some(form) => form,
        None =>
            "the first word is a command: check, instrument, solo, replay, run, load, races, record, recheck, hush or explain",
    }
}

fn words_help(words: &[String]) -> &'static str
    ensures { result.now ≡ lines.words_help (map string_bytes words.now) }
{
    match words.first() {
        Some(name) => form_help(form_of(name.as_bytes())),
        None => form_help(None),
    }
}

/// The note on words that ask for nothing: which word is no command or no option, and how the command is written.
///
/// # Errors
///
/// `NoMemory`: out of memory.
pub fn words_note(alloc: Global, words: &[String], colours: bool) -> Result<Vec<u8>, NoMemory>
    ensures { IfOk result (λ note. note.items ≡ lines.words_note colours (map string_bytes words.now)) }
{
    let source = Source {
        name: "",
        text: &[],
        colours,
    };
    let mut note = Vec::new(alloc);
    push_heading(&source, &words_line(alloc, words)?, &mut note)?;
    push_help(&source, words_help(words), &mut note)?;
    Ok(note)
}
