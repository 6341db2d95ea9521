//! Help for what no program has at a place of its text.
ghost use Rattle.std.specs.Prelude.{◌≡◌, ◌≤◌, length, slice_get, take, drop};
ghost use Rattle.std.specs.List.{prefix_len, suffix_len};
ghost use Rattle.std.specs.Option.{option_map};
ghost use Rattle.bsan_ids.specs.Names.{is_digit, is_name};
ghost use Rattle.ir_text.specs.Bytes.{is_blank};
ghost use Rattle.notes.specs.Cures as cures;

fn first_len(bytes: &[u8]) -> usize
    ensures value { result ≡ prefix_len is_name bytes.now }
    ensures within { result ≤ length bytes.now }
{
    bytes.iter().take_while(|byte| is_name(**byte)).count()
}

fn last_len(bytes: &[u8]) -> usize
    ensures value { result ≡ suffix_len is_name bytes.now }
    ensures within { result ≤ length bytes.now }
{
    bytes
        .iter()
        .rev()
        .take_while(|byte| is_name(**byte))
        .count()
}

fn blanks_len(bytes: &[u8]) -> usize
    ensures value { result ≡ suffix_len is_blank bytes.now }
    ensures within { result ≤ length bytes.now }
{
    bytes
        .iter()
        .rev()
        .take_while(|byte| is_blank(**byte))
        .count()
}

fn is_name(byte: u8) -> bool
    ensures { result ≡ is_name byte }
{
    matches!(byte, b'a'..=b'z' | b'A'..=b'Z' | b'_' | b'0'..=b'9' | b'.')
}

fn is_blank(byte: u8) -> bool
    ensures { result ≡ is_blank byte }
{
    matches!(byte, b' ' | b'\t' | b'\r' | b'\n')
}

fn is_byte(byte: u8, there: Option<u8>) -> bool
    ensures { result ≡ cures.is_byte byte there }
{
    match there {
        Some(other) => other == byte,
        None => false,
    }
}

fn is_digit_there(there: Option<u8>) -> bool
    ensures { result ≡ cures.is_digit_there there }
{
    match there {
        Some(byte) => byte.is_ascii_digit(),
        None => false,
    }
}

/// The bytes before a place; all, where the place is behind them.
pub fn before(text: &[u8], at: usize) -> &[u8]
    ensures { result.now ≡ take at text.now }
{
    &text[..at.min(text.len())]
}

fn after(text: &[u8], at: usize) -> &[u8]
    ensures { result.now ≡ drop at text.now }
{
    &text[at.min(text.len())..]
}

fn without_blanks(bytes: &[u8]) -> &[u8]
    ensures { result.now ≡ cures.without_blanks bytes.now }
{
    &bytes[..bytes.len() - blanks_len(bytes)]
}

fn word_at(text: &[u8], at: usize) -> &[u8]
    ensures { result.now ≡ cures.word_at text.now at }
{
    let rest = after(text, at);
    &rest[..first_len(rest)]
}

fn last_word(bytes: &[u8]) -> &[u8]
    ensures { result.now ≡ cures.last_word bytes.now }
{
    &bytes[bytes.len() - last_len(bytes)..]
}

fn word_before(text: &[u8], at: usize) -> &[u8]
    ensures { result.now ≡ cures.word_before text.now at }
{
    last_word(without_blanks(before(text, at)))
}

fn mark_before(text: &[u8], at: usize) -> Option<u8>
    ensures { result ≡ cures.mark_before text.now at }
{
    let front = without_blanks(before(text, at));
    front.get(front.len().saturating_sub(1)).copied()
}

/// The help where an operand is of a form that no program has, by the word there and the one before it.
fn operand_help(word: &[u8], before: &[u8]) -> Option<&'static str>
    ensures { option_map (λ help. help.now) result ≡ cures.operand_help word.now before.now }
{
    if word == b"null".as_slice() {
        Some(
            "`null` is an operation and no operand; write `%n = null` in a line before, and `%n` here",
        )
    } else if word == b"inttoptr".as_slice() {
        Some(
            "no pointer is made from an integer, since it could use no allocation; keep the pointer itself, store and load it as `ptr`, and move it by `gep`",
        )
    } else if word == b"shrcell".as_slice()
        && (before == b"retag".as_slice() || before == b"ptr".as_slice())
    {
        Some("`shrcell` is a word of `bir 2`; begin the text with `bir 2` in place of `bir 1`")
    } else if before == b"0".as_slice() && is_byte(b'x', word.first().copied()) {
        Some("numbers are written in decimal digits, as 16 for 0x10")
    } else if before == b"print".as_slice() && word == b"ptr".as_slice() {
        Some(
            "only integers are printed; take the pointer's address: `%n = ptrtoint %p`, and then `print i64 %n`",
        )
    } else {
        None
    }
}

/// The help where a type is wanted, by the word before.
fn typed_help(before: &[u8]) -> Option<&'static str>
    ensures { option_map (λ help. help.now) result ≡ cures.typed_help before.now }
{
    if before == b"call".as_slice() {
        Some(
            "after `call` stands the type of the result, or `void`: `%r = call i64 @f(ptr %p)`, `call void @f(ptr %p)`",
        )
    } else if before == b"ret".as_slice() {
        Some(
            "after `ret` stands the type of the result, or `void`: `ret i64 %v`, `ret ptr %p`, `ret void`",
        )
    } else if before == b"print".as_slice() {
        Some("after `print` stands the type of an integer: `print i64 %v`")
    } else if before == b"load".as_slice() || before == b"store".as_slice() {
        Some(
            "a type stands here, `i8`, `i16`, `i32`, `i64` or `ptr`: `%v = load i64, %p`, `store i64 V, %p`",
        )
    } else {
        None
    }
}

/// The help behind the name of an operation on two integers.
fn sum_help(before: &[u8]) -> Option<&'static str>
    ensures { option_map (λ help. help.now) result ≡ cures.sum_help before.now }
{
    if before == b"add".as_slice() || before == b"sub".as_slice() || before == b"mul".as_slice() {
        Some(
            "an operation on integers has the type of integers behind its name, as `%c = add i64 %a, %b`; a pointer is moved by `gep`: `%q = gep %p, N` counts N bytes",
        )
    } else if before == b"udiv".as_slice()
        || before == b"sdiv".as_slice()
        || before == b"urem".as_slice()
        || before == b"srem".as_slice()
    {
        Some(
            "an operation on integers has the type of integers behind its name, as `%c = add i64 %a, %b`; a pointer is moved by `gep`: `%q = gep %p, N` counts N bytes",
        )
    } else if before == b"and".as_slice()
        || before == b"or".as_slice()
        || before == b"xor".as_slice()
    {
        Some(
            "an operation on integers has the type of integers behind its name, as `%c = add i64 %a, %b`; a pointer is moved by `gep`: `%q = gep %p, N` counts N bytes",
        )
    } else if before == b"shl".as_slice()
        || before == b"lshr".as_slice()
        || before == b"ashr".as_slice()
    {
        Some(
            "an operation on integers has the type of integers behind its name, as `%c = add i64 %a, %b`; a pointer is moved by `gep`: `%q = gep %p, N` counts N bytes",
        )
    } else {
        None
    }
}

/// The help where something else than a type is wanted, by the word before.
fn plain_help(before: &[u8]) -> Option<&'static str>
    ensures { option_map (λ help. help.now) result ≡ cures.plain_help before.now }
{
    if before == b"gep".as_slice()
        || before == b"free".as_slice()
        || before == b"ptrtoint".as_slice()
        || before == b"memcpy".as_slice()
    {
        Some(
            "a register with a pointer stands here: `%q = gep %p, 8`, `free %p`, `%n = ptrtoint %p`, `memcpy %d, %s, 8`",
        )
    } else if before == b"retag".as_slice() {
        Some(
            "a kind of borrow stands here: `mut`, `cell`, `shr`, `box`, or in a text of `bir 2` `shrcell`; so `%q = retag mut %p, 8`",
        )
    } else if before == b"icmp".as_slice() {
        Some("after `icmp` stand a condition and a type: `%c = icmp eq i64 %a, %b`")
    } else if before == b"br".as_slice() || before == b"condbr".as_slice() {
        Some(
            "a block's label stands here: `br again`, `br again(i64 %i)`, and behind the condition of a `condbr` `condbr %c, yes, no`",
        )
    } else if before == b"spawn".as_slice() {
        Some("a function's name stands here: `%h = spawn @f(ptr %p)`")
    } else {
        None
    }
}

/// The help where the type `ptr` stands before a pointer that is loaded from or stored through.
fn bare_help(word: &[u8], mark: Option<u8>) -> Option<&'static str>
    ensures { option_map (λ help. help.now) result ≡ cures.bare_help word.now mark }
{
    if word == b"ptr".as_slice() && is_byte(b',', mark) {
        Some(
            "a register with a pointer stands here without a type: `load i64, %p`, `store i64 V, %p`",
        )
    } else {
        None
    }
}

fn other_help(text: &[u8], at: usize) -> &'static str
    ensures { result.now ≡ cures.other_help text.now at }
{
    if text.len() <= at {
        "the text ends before the program does; each function ends with `}`, and each block with `br`, `condbr`, `ret` or `unreachable`"
    } else {
        "no program goes on like this; the token here, or the one before it, is of the wrong kind or missing"
    }
}

/// The first of two that is there.
pub fn first_of(first: Option<&'static str>, second: Option<&'static str>) -> Option<&'static str>
    ensures { option_map (λ help. help.now) result ≡ cures.first_of (option_map (λ help. help.now) first.entry) (option_map (λ help. help.now) second.entry) }
{
    match first {
        Some(help) => Some(help),
        None => second,
    }
}

/// The help by the words alone.
fn worded_help(word: &[u8], before: &[u8], mark: Option<u8>) -> Option<&'static str>
    ensures { option_map (λ help. help.now) result ≡ cures.worded_help word.now before.now mark }
{
    let others = first_of(sum_help(before), plain_help(before));
    let typed = first_of(typed_help(before), others);
    first_of(
        operand_help(word, before),
        first_of(bare_help(word, mark), typed),
    )
}

/// The help for the token at a place with which no program goes on, or for the text's end.
pub fn unexpected_help(text: &[u8], at: usize) -> &'static str
    ensures { result.now ≡ cures.unexpected_help text.now at }
{
    match worded_help(
        word_at(text, at),
        word_before(text, at),
        mark_before(text, at),
    ) {
        Some(help) => help,
        None => other_help(text, at),
    }
}

fn byte_at(text: &[u8], at: usize) -> Option<u8>
    ensures { result ≡ slice_get text.now at }
{
    text.get(at).copied()
}

/// The help for a byte that begins no token.
pub fn byte_help(text: &[u8], at: u32) -> &'static str
    ensures { result.now ≡ cures.byte_help text.now at }
{
    let at = at as usize;
    let byte = byte_at(text, at);
    if is_byte(b'-', byte) && is_digit_there(byte_at(text, at + 1)) {
        "a number has no sign; write its two's complement, which is 2^64 - N for -N as an i64: 18446744073709551608 for -8, 4294967288 as an i32, 65528 as an i16, 248 as an i8"
    } else if is_byte(b'/', byte) || is_byte(b'#', byte) {
        "a comment begins with `;`"
    } else {
        "no token begins with this byte; only a comment may hold it"
    }
}
