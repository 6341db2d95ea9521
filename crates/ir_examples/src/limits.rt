//! Programs as large as may be, and with one more.
use bsan_ids::NoMemory;
use ir_reader::{ReadFault, read};
use std::alloc::Global;
use std::test::Fail;

/// `count` times a line between two texts.
fn text_of(
    alloc: Global,
    front: &str,
    line: &str,
    count: usize,
    back: &str,
) -> Result<Vec<u8>, NoMemory> {
    let mut text = Vec::new(alloc);
    text.extend_from_slice(front.as_bytes())?;
    for _ in 0..count {
        text.extend_from_slice(line.as_bytes())?;
    }
    text.extend_from_slice(back.as_bytes())?;
    Ok(text)
}

const OPEN: &str = "bir 1\nfunc @f() -> void {\nb:\n";

const CLOSE: &str = "ret void\n}\n";

/// The text before the lines, a line, the text after them, the most lines, and the place of the first token past the
/// limit, or of the first byte where the text is too long.
const LIMITS: [(&str, &str, &str, usize, u32); 4] = [
    // 256 functions, of 32 bytes each
    (
        "bir 1\n",
        "func @f() -> void {b: ret void}\n",
        "",
        256,
        6 + 256 * 32,
    ),
    // 65,536 instructions, the last a terminator, the others of 8 bytes
    (OPEN, "free %p\n", CLOSE, 65_535, 29 + 65_536 * 8),
    // 1,024 registers of instructions of 10 bytes
    (OPEN, "%a = null\n", CLOSE, 1_024, 29 + 1_024 * 10),
    // 1,048,576 bytes
    (
        "bir 1\nfunc @f() -> void {b: ret void}\n",
        "\n",
        "",
        1_048_538,
        1_048_576,
    ),
];

#[test]
fn reads_up_to_the_limits(rt: HostRuntime) -> Result<(), Fail> {
    for (front, line, back, most, at) in LIMITS {
        let text = text_of(rt.alloc(), front, line, most, back)?;
        assert!(rt; read(rt.alloc(), &text).is_ok());
        let text = text_of(rt.alloc(), front, line, most + 1, back)?;
        assert_eq!(rt;
            read(rt.alloc(), &text).err(),
            Some(ReadFault::TooLarge { at })
        );
    }
    Ok(())
}
