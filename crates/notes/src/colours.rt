//! Words in a colour.
ghost use Rattle.std.specs.Prelude.{◌≡◌, ◌++◌, OnOk};
ghost use Rattle.notes.specs.Colours as colours;

use bsan_ids::NoMemory;

/// A colour, in which a terminal shows words in bold.
#[derive(Clone, Copy, Debug, PartialEq, Eq)]
pub enum Colour {
    Red,
    Green,
    Cyan,
}

fn start_code(colour: Colour) -> &'static str
    ensures { result.now ≡ colours.start_code colour }
{
    match colour {
        Colour::Red => "\x1b[1;31m",
        Colour::Green => "\x1b[1;32m",
        Colour::Cyan => "\x1b[1;36m",
    }
}

/// Adds words, in the colour where colours are wanted.
pub fn push_painted(
    wanted: bool,
    colour: Colour,
    words: &[u8],
    notes: &mut Vec<u8>,
) -> Result<(), NoMemory>
    ensures { OnOk result (notes.new.items ≡ notes.old.items ++ colours.painted wanted colour words.now) }
{
    if !wanted {
        notes.extend_from_slice(words)?;
        return Ok(());
    }
    notes.extend_from_slice(start_code(colour).as_bytes())?;
    notes.extend_from_slice(words)?;
    notes.extend_from_slice(b"\x1b[0m")?;
    Ok(())
}
