//! A line as it is shown to a person.
ghost use Rattle.std.specs.Prelude.{◌≡◌, ◌<◌, ◌++◌, IfOk, OnOk, string_bytes};
ghost use Rattle.excerpt.specs.Lines.{line_at};
ghost use Rattle.excerpt.specs.Meaning.{line_meant};
ghost use Rattle.excerpt.specs.Shown as shown;

use crate::lines::{before_in_line, from_in_line, line_number};
use bsan_ids::NoMemory;
use std::alloc::Global;

/// The most bytes of a line that an excerpt shows.
pub const MOST_SHOWN: usize = 100;

/// The line of an offset: its number, and what of it stands before the offset and from it on.
#[derive(Clone, Copy)]
struct Line<'a> {
    number: usize,
    before: &'a [u8],
    from: &'a [u8],
}

fn find_line(text: &[u8], at: usize) -> Line<'_>
    ensures { line_meant result ≡ line_at text.entry.now at }
{
    Line {
        number: line_number(text, at),
        before: before_in_line(text, at),
        from: from_in_line(text, at),
    }
}

fn line_len(line: &Line<'_>) -> usize
    ensures { result ≡ shown.line_length (line_meant line.now) }
{
    line.before.len() + line.from.len()
}

fn skipped(line: &Line<'_>) -> usize
    ensures { result ≡ shown.skipped (line_meant line.now) }
{
    let before_middle = line.before.len().saturating_sub(MOST_SHOWN / 2);
    before_middle.min(line_len(line).saturating_sub(MOST_SHOWN))
}

fn shown_byte(b: u8) -> u8
    ensures { result ≡ shown.shown_byte b }
{
    match b {
        b'\t' | b'\r' => b' ',
        b' '..=b'~' => b,
        _ => b'?',
    }
}

fn shown_part(alloc: Global, line: &Line<'_>) -> Result<Vec<u8>, NoMemory>
    ensures { IfOk result (λ part. part.items ≡ shown.shown_part (line_meant line.now)) }
{
    let bytes = line.before.iter().chain(line.from.iter());
    Ok(
        bytes
            .skip(skipped(line))
            .take(MOST_SHOWN)
            .map(|b| shown_byte(*b))
            .collect(alloc)?,
    )
}

fn blanks(alloc: Global, n: usize) -> Result<Vec<u8>, NoMemory>
    ensures { IfOk result (λ text. text.items ≡ shown.blanks n) }
{
    Ok(vec![in alloc; b' '; n]?)
}

fn margin(alloc: Global, line: &Line<'_>) -> Result<Vec<u8>, NoMemory>
    ensures { IfOk result (λ text. text.items ≡ shown.margin (line_meant line.now)) }
{
    let number = line.number;
    let digits = format!(in alloc; "{number}")?;
    blanks(alloc, digits.len())
}

/// A text as it is shown to a person: a tab or a carriage return as a blank, a byte that isn't printable ASCII as `?`.
///
/// # Errors
///
/// `NoMemory`: out of memory.
pub fn shown_text(alloc: Global, text: &[u8]) -> Result<Vec<u8>, NoMemory>
    ensures { IfOk result (λ as_shown. as_shown.items ≡ shown.shown_text text.now) }
{
    Ok(text.iter().map(|b| shown_byte(*b)).collect(alloc)?)
}

fn push_place(
    alloc: Global,
    name: &str,
    line: &Line<'_>,
    rows: &mut Vec<u8>,
) -> Result<(), NoMemory>
    ensures { OnOk result (rows.new.items ≡ rows.old.items ++ shown.place_row name.now (line_meant line.now)) }
{
    let number = line.number;
    let column = line.before.len() + 1;
    let place = format!(in alloc; ":{number}:{column}\n")?;
    rows.extend_from_slice(&margin(alloc, line)?)?;
    rows.extend_from_slice(b"--> ")?;
    rows.extend_from_slice(&shown_text(alloc, name.as_bytes())?)?;
    rows.extend_from_slice(place.as_bytes())?;
    Ok(())
}

fn push_empty(alloc: Global, line: &Line<'_>, rows: &mut Vec<u8>) -> Result<(), NoMemory>
    ensures { OnOk result (rows.new.items ≡ rows.old.items ++ shown.empty_row (line_meant line.now)) }
{
    rows.extend_from_slice(&margin(alloc, line)?)?;
    rows.extend_from_slice(b" |\n")?;
    Ok(())
}

fn push_line(alloc: Global, line: &Line<'_>, rows: &mut Vec<u8>) -> Result<(), NoMemory>
    ensures { OnOk result (rows.new.items ≡ rows.old.items ++ shown.line_row (line_meant line.now)) }
{
    let number = line.number;
    let start = format!(in alloc; "{number} | ")?;
    rows.extend_from_slice(start.as_bytes())?;
    rows.extend_from_slice(&shown_part(alloc, line)?)?;
    rows.push(b'\n')?;
    Ok(())
}

fn push_mark(alloc: Global, line: &Line<'_>, rows: &mut Vec<u8>) -> Result<(), NoMemory>
    ensures { OnOk result (rows.new.items ≡ rows.old.items ++ shown.mark_row (line_meant line.now)) }
{
    let indent = line.before.len() - skipped(line);
    rows.extend_from_slice(&margin(alloc, line)?)?;
    rows.extend_from_slice(b" | ")?;
    rows.extend_from_slice(&blanks(alloc, indent)?)?;
    rows.extend_from_slice(b"^\n")?;
    Ok(())
}

fn cut_note(alloc: Global, line: &Line<'_>) -> Result<String, NoMemory>
    requires { shown.most_shown < shown.line_length (line_meant line.now) }
    ensures { IfOk result (λ note. string_bytes note ≡ shown.cut_note (line_meant line.now)) }
{
    let len = line_len(line);
    let skipped = skipped(line);
    let first = skipped + 1;
    let last = skipped + MOST_SHOWN;
    Ok(format!(in alloc; " = the line has {len} bytes; columns {first} to {last} are shown\n")?)
}

fn push_cut(alloc: Global, line: &Line<'_>, rows: &mut Vec<u8>) -> Result<(), NoMemory>
    ensures { OnOk result (rows.new.items ≡ rows.old.items ++ shown.cut_row (line_meant line.now)) }
{
    if line_len(line) > MOST_SHOWN {
        rows.extend_from_slice(&margin(alloc, line)?)?;
        rows.extend_from_slice(cut_note(alloc, line)?.as_bytes())?;
    }
    Ok(())
}

/// The excerpt of an offset in a text that has this name: the name with the line's and the column's number, the line, and
/// a mark under the byte at the offset.
///
/// Each byte takes one column: a tab or a carriage return is shown as a blank, a byte that isn't printable ASCII as `?`, in the
/// name too. Of a line that is longer than `MOST_SHOWN` so many bytes are shown, with those at the offset among them, and a further row says
/// how long it is and which columns they are.
///
/// # Errors
///
/// `NoMemory`: out of memory.
pub fn excerpt(alloc: Global, name: &str, text: &[u8], at: usize) -> Result<Vec<u8>, NoMemory>
    ensures { IfOk result (λ rows. rows.items ≡ shown.excerpt name.now text.now at) }
{
    let line = find_line(text, at);
    let mut rows = Vec::new(alloc);
    push_place(alloc, name, &line, &mut rows)?;
    push_empty(alloc, &line, &mut rows)?;
    push_line(alloc, &line, &mut rows)?;
    push_mark(alloc, &line, &mut rows)?;
    push_cut(alloc, &line, &mut rows)?;
    Ok(rows)
}
