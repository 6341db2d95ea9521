//! The place that a rule names: an instruction by its number, a function by its name, or everything.
ghost use Rattle.std.specs.Prelude.{◌≡◌, ◌≤◌, ◌<◌, ◌++◌, List, ℕ, true, false, IfSome, IfNone, length};
ghost use Rattle.std.specs.List.{sum_by, list_all};
ghost use Rattle.std.specs.Str.Parse.{digits_value};
ghost use Rattle.bsan_ids.specs.Names.{is_digit, is_name};
ghost use Rattle.ir_ast.specs.Lines.{block_instructions, most_instructions};
ghost use Rattle.ir_ast.specs.Programs.{function_instructions};
ghost use Rattle.ir_ast.specs.Tokens.{Each};
ghost use Rattle.ir_ast.specs.Writable.{IsName};
ghost use Rattle.suppress.specs.Lines.{IsSite, NamesSites};
ghost use Rattle.suppress.specs.Lines as lines;

use ir_ast::{Block, Function};

/// Instructions by their numbers, from the first to the last.
#[derive(Clone, Copy)]
pub struct Sites {
    pub first: u32,
    pub last: u32,
}

/// What stands behind a word, where a text begins with it.
pub fn after<'a>(text: &'a [u8], word: &[u8]) -> Option<&'a [u8]>
    ensures some { IfSome result (λ rest. text.entry.now ≡ word.now ++ rest.now) }
    ensures none { IfNone result ((rest : List ℕ) → text.entry.now ≡ word.now ++ rest → ⊥) }
{
    text.strip_prefix(word)
}

fn is_digit(byte: u8) -> bool
    ensures { result ≡ is_digit byte }
{
    byte.is_ascii_digit()
}

fn is_name_byte(byte: u8) -> bool
    ensures { result ≡ is_name byte }
{
    matches!(byte, b'a'..=b'z' | b'A'..=b'Z' | b'_' | b'0'..=b'9' | b'.')
}

fn are_digits(text: &[u8]) -> bool
    ensures { result ≡ list_all is_digit text.now }
{
    text.iter().all(|byte| is_digit(*byte))
}

fn are_name_bytes(text: &[u8]) -> bool
    ensures { result ≡ list_all is_name text.now }
{
    text.iter().all(|byte| is_name_byte(*byte))
}

/// The number that these digits write, at most five.
fn number(digits: &[u8]) -> u32
    requires digits { list_all is_digit digits.now ≡ true }
    requires few { length digits.now ≤ 5 }
    ensures { result ≡ digits_value 10 digits.now }
{
    let mut number = 0u32;
    for digit in digits {
        number = number * 10 + u32::from(*digit - b'0');
    }
    number
}

/// The number of an instruction, of one to five digits and at most 65,535.
fn site(digits: &[u8]) -> Option<u32>
    ensures some { IfSome result (λ site. IsSite digits.now × (site ≡ digits_value 10 digits.now)) }
    ensures none { IfNone result (IsSite digits.now → ⊥) }
{
    if digits.is_empty() || digits.len() > 5 || !are_digits(digits) {
        return None;
    }
    let site = number(digits);
    if site <= 65_535 { Some(site) } else { None }
}

/// Whether it is a name: one or more letters, digits, `_` and `.`.
fn is_name(name: &[u8]) -> bool
    ensures yes { result ≡ true → IsName name.now }
    ensures no { result ≡ false → IsName name.now → ⊥ }
{
    !name.is_empty() && are_name_bytes(name)
}

/// How many instructions a function has, terminators among them.
fn instructions_of(blocks: &[Block]) -> u32
    requires { sum_by block_instructions blocks.now ≤ most_instructions }
    ensures { result ≡ sum_by block_instructions blocks.now }
{
    let mut total = 0;
    for block in blocks {
        total += block.insts.len() as u32 + 1;
    }
    total
}

/// The instructions of the function of this name, if there is one.
fn function_sites(functions: &[Function], name: &[u8]) -> Option<Sites>
    requires some_blocks { Each (λ f. 0 < length f.blocks) functions.now }
    requires within { sum_by function_instructions functions.now ≤ most_instructions }
    ensures { result ≡ lines.function_sites functions.now name.now }
{
    let mut first = 0u32;
    for function in functions {
        let count = instructions_of(function.blocks.as_slice());
        if function.name.name.as_slice() == name {
            return Some(Sites {
                first,
                last: first + count - 1,
            });
        }
        first += count;
    }
    None
}

/// The instructions that the text behind a rule's cause names: `None` where it names no place, and within it `None`
/// where it names a function that is not there.
pub fn sites_at(functions: &[Function], text: &[u8]) -> Option<Option<Sites>>
    requires some_blocks { Each (λ f. 0 < length f.blocks) functions.now }
    requires within { sum_by function_instructions functions.now ≤ most_instructions }
    ensures { NamesSites functions.now text.now result }
{
    if text.is_empty() {
        return Some(Some(Sites {
            first: 0,
            last: u32::MAX,
        }));
    }
    match after(text, b" at ".as_slice()) {
        Some(digits) => {
            let site = site(digits)?;
            Some(Some(Sites {
                first: site,
                last: site,
            }))
        }
        None => match after(text, b" in @".as_slice()) {
            Some(name) => {
                if is_name(name) {
                    Some(function_sites(functions, name))
                } else {
                    None
                }
            }
            None => None,
        },
    }
}
