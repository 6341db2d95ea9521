//! The line and the column of an offset in a text.
ghost use Rattle.std.specs.Prelude.{◌≡◌, ◌≤◌, not, length, take, drop};
ghost use Rattle.std.specs.List.{prefix_len, suffix_len};
ghost use Rattle.excerpt.specs.Lines as lines;
ghost use Rattle.excerpt.specs.Lines.{is_newline};

const NEWLINE: u8 = b'\n';

fn before(text: &[u8], at: usize) -> &[u8]
    ensures { result.now ≡ take at text.now }
{
    &text[..at.min(text.len())]
}

fn after(text: &[u8], at: usize) -> &[u8]
    ensures { result.now ≡ drop at text.now }
{
    &text[at.min(text.len())..]
}

// How many bytes stand after the last newline.
fn last_line_len(text: &[u8]) -> usize
    ensures value { result ≡ suffix_len (λ b. not (is_newline b)) text.now }
    ensures within { result ≤ length text.now }
{
    text.iter().rev().take_while(|b| **b != NEWLINE).count()
}

// How many bytes stand before the first newline.
fn first_line_len(text: &[u8]) -> usize
    ensures value { result ≡ prefix_len (λ b. not (is_newline b)) text.now }
    ensures within { result ≤ length text.now }
{
    text.iter().take_while(|b| **b != NEWLINE).count()
}

/// The number of the line in which an offset stands. A newline stands in the line that it ends.
pub fn line_number(text: &[u8], at: usize) -> usize
    ensures { result ≡ lines.line_number text.now at }
{
    before(text, at).iter().filter(|b| **b == NEWLINE).count() + 1
}

/// What stands of an offset's line before the offset.
pub fn before_in_line(text: &[u8], at: usize) -> &[u8]
    ensures { result.now ≡ lines.before_in_line text.now at }
{
    let text = before(text, at);
    &text[text.len() - last_line_len(text)..]
}

/// What stands of an offset's line from the offset on, without its newline.
pub fn from_in_line(text: &[u8], at: usize) -> &[u8]
    ensures { result.now ≡ lines.from_in_line text.now at }
{
    let text = after(text, at);
    &text[..first_line_len(text)]
}

/// The column of an offset, in bytes. A newline's is one more than the bytes of its line.
pub fn column_number(text: &[u8], at: usize) -> usize
    ensures { result ≡ lines.column_number text.now at }
{
    before_in_line(text, at).len() + 1
}
