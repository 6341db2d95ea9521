use ir_text::TokenKind::{
    Arrow, CloseBrace, CloseRound, Colon, Comma, Equals, Global as Name, Local, Number, OpenBrace,
    OpenRound, Word,
};
use ir_text::{LexFault, TokenKind, tokens};
use std::test::Fail;

/// The tokens of these kinds, starts and lengths.
const CUTS: [(&str, &[(TokenKind, u32, u32)]); 9] = [
    ("", &[]),
    (" \t\r\n", &[]),
    ("; no newline after $%@-", &[]),
    (
        "bir 1 ; a comment\nfunc",
        &[(Word, 0, 3), (Number, 4, 1), (Word, 18, 4)],
    ),
    (
        "(){},:=->",
        &[
            (OpenRound, 0, 1),
            (CloseRound, 1, 1),
            (OpenBrace, 2, 1),
            (CloseBrace, 3, 1),
            (Comma, 4, 1),
            (Colon, 5, 1),
            (Equals, 6, 1),
            (Arrow, 7, 2),
        ],
    ),
    ("%a.1_Z@_.9", &[(Local, 0, 6), (Name, 6, 4)]),
    ("007x.y8", &[(Number, 0, 3), (Word, 3, 4)]),
    (
        "_0%1->%2",
        &[(Word, 0, 2), (Local, 2, 2), (Arrow, 4, 2), (Local, 6, 2)],
    ),
    ("a;b\r;c\nd", &[(Word, 0, 1), (Word, 7, 1)]),
];

/// The places of first bad bytes.
const BAD: [(&str, u32); 9] = [
    ("$", 0),
    ("ab %", 3),
    ("%%a", 0),
    ("x @\n", 2),
    ("- >", 0),
    ("a-b", 1),
    ("a ;$\n .", 6),
    ("1 \"", 2),
    ("\u{e9}", 0),
];

#[test]
fn cuts_worked_texts(rt: HostRuntime) -> Result<(), Fail> {
    for (text, cuts) in CUTS {
        let found = tokens(rt.alloc(), text.as_bytes())?;
        assert_eq!(rt; found.len(), cuts.len(), "in {text}");
        for (token, (kind, start, len)) in found.iter().zip(cuts) {
            assert_eq!(rt; token.kind, *kind, "in {text}");
            assert_eq!(rt;
                (token.span.start, token.span.len),
                (*start, *len),
                "in {text}"
            );
        }
    }
    for (text, at) in BAD {
        assert_eq!(rt;
            tokens(rt.alloc(), text.as_bytes()).err(),
            Some(LexFault::BadByte { at }),
            "in {text}"
        );
    }
    Ok(())
}
