use crate::TokenKind::{Attribute, Comdat, Global, Local, Mark, Meta, Number, Quoted, Word};
use crate::{TextFault, TokenKind, tokens};
use std::test::Fail;

/// The tokens of these kinds, starts and lengths.
const CUTS: [(&str, &[(TokenKind, u32, u32)]); 11] = [
    ("", &[]),
    (" \t\r\n; no newline after \"^\\", &[]),
    (
        "define i64 @f(ptr %0) #1 {\n",
        &[
            (Word, 0, 6),
            (Word, 7, 3),
            (Global, 11, 2),
            (Mark(b'('), 13, 1),
            (Word, 14, 3),
            (Local, 18, 2),
            (Mark(b')'), 20, 1),
            (Attribute, 22, 2),
            (Mark(b'{'), 25, 1),
        ],
    ),
    ("bb1.i-2$:", &[(Word, 0, 8), (Mark(b':'), 8, 1)]),
    (
        "-12 2.500000e+00 0xK00 u0x1F",
        &[
            (Number, 0, 3),
            (Number, 4, 12),
            (Number, 17, 5),
            (Word, 23, 5),
        ],
    ),
    (
        "%\"a;\n<b>\"=@\"\"*$\"c\"$d",
        &[
            (Local, 0, 9),
            (Mark(b'='), 9, 1),
            (Global, 10, 3),
            (Mark(b'*'), 13, 1),
            (Comdat, 14, 4),
            (Comdat, 18, 2),
        ],
    ),
    ("c\"a\\22\\00\"", &[(Word, 0, 1), (Quoted, 1, 9)]),
    (
        "!{!3, !\"x\", !DILocation(",
        &[
            (Meta, 0, 1),
            (Mark(b'{'), 1, 1),
            (Meta, 2, 2),
            (Mark(b','), 4, 1),
            (Meta, 6, 1),
            (Quoted, 7, 3),
            (Mark(b','), 10, 1),
            (Meta, 12, 11),
            (Mark(b'('), 23, 1),
        ],
    ),
    ("#dbg_value", &[(Attribute, 0, 10)]),
    (
        "...)[]<>}|",
        &[
            (Word, 0, 3),
            (Mark(b')'), 3, 1),
            (Mark(b'['), 4, 1),
            (Mark(b']'), 5, 1),
            (Mark(b'<'), 6, 1),
            (Mark(b'>'), 7, 1),
            (Mark(b'}'), 8, 1),
            (Mark(b'|'), 9, 1),
        ],
    ),
    ("a;b\r;c\nd", &[(Word, 0, 1), (Word, 7, 1)]),
];

/// The places of first bad bytes.
const BAD: [(&str, u32); 9] = [
    ("^0", 0),
    ("ab %", 3),
    ("%%a", 0),
    ("x @\n", 2),
    ("$ a", 0),
    ("# 1", 0),
    ("a ;^\n \"b", 6),
    ("@\"b", 0),
    ("\u{e9}", 0),
];

#[test]
fn cuts_worked_texts(rt: HostRuntime) -> Result<(), Fail> {
    for (text, cuts) in CUTS {
        let found = tokens(rt.alloc(), text.as_bytes())?;
        assert_eq!(rt; found.len(), cuts.len(), "in {text}");
        for (token, (kind, start, len)) in found.iter().zip(cuts) {
            assert_eq!(rt; token.kind, *kind, "in {text}");
            assert_eq!(rt;
                (token.span.start, token.span.len),
                (*start, *len),
                "in {text}"
            );
        }
    }
    Ok(())
}

#[test]
fn refuses_bad_bytes(rt: HostRuntime) {
    for (text, at) in BAD {
        assert_eq!(rt;
            tokens(rt.alloc(), text.as_bytes()).err(),
            Some(TextFault::BadByte { at }),
            "in {text}"
        );
    }
}
