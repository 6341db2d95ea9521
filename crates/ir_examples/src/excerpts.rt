use bsan_ids::{ListOf, Name, NoMemory};
use excerpt::{MOST_SHOWN, column_number, excerpt, instruction_places, line_number};
use ir_ast::{Block, Function, Inst, Jump, Named, Op, Program, ResultTy, Term};
use std::alloc::Global;
use std::test::Fail;

const TABS: &[u8] = b"\tx\t\ty";

const CARRIAGE_RETURNS: &[u8] = b"a\r\n\r\nb\r\n";

const BROKEN_UTF8: &[u8] = b"\xff\xc3\xa9\n\xc3x";

const LINES: &[u8] = b"ab\ncd\n";

/// A text, an offset, and the line and the column of it.
const PLACES: [(&[u8], usize, usize, usize); 20] = [
    (b"", 0, 1, 1),
    (b"", 5, 1, 1),
    (LINES, 0, 1, 1),
    (LINES, 2, 1, 3),
    (LINES, 3, 2, 1),
    (LINES, 4, 2, 2),
    (LINES, 5, 2, 3),
    (LINES, 6, 3, 1),
    (LINES, 60, 3, 1),
    (b"\n", 0, 1, 1),
    (b"\n\n", 1, 2, 1),
    (TABS, 1, 1, 2),
    (TABS, 4, 1, 5),
    (CARRIAGE_RETURNS, 1, 1, 2),
    (CARRIAGE_RETURNS, 2, 1, 3),
    (CARRIAGE_RETURNS, 3, 2, 1),
    (CARRIAGE_RETURNS, 5, 3, 1),
    (BROKEN_UTF8, 2, 1, 3),
    (BROKEN_UTF8, 3, 1, 4),
    (BROKEN_UTF8, 5, 2, 2),
];

#[test]
fn lines_and_columns(rt: HostRuntime) {
    for (text, at, line, column) in PLACES {
        assert_eq!(rt; line_number(text, at), line, "line of {at} in {text:?}");
        assert_eq!(rt;
            column_number(text, at),
            column,
            "column of {at} in {text:?}"
        );
    }
}

/// A text, an offset, and what follows the name in its excerpt.
const EXCERPTS: [(&[u8], usize, &str); 7] = [
    (b"", 0, ":1:1\n  |\n1 | \n  | ^\n"),
    (LINES, 1, ":1:2\n  |\n1 | ab\n  |  ^\n"),
    (LINES, 2, ":1:3\n  |\n1 | ab\n  |   ^\n"),
    (LINES, 6, ":3:1\n  |\n3 | \n  | ^\n"),
    (TABS, 4, ":1:5\n  |\n1 |  x  y\n  |     ^\n"),
    (CARRIAGE_RETURNS, 0, ":1:1\n  |\n1 | a \n  | ^\n"),
    (BROKEN_UTF8, 0, ":1:1\n  |\n1 | ???\n  | ^\n"),
];

#[test]
fn excerpts(rt: HostRuntime) -> Result<(), Fail> {
    let alloc = rt.alloc();
    for (text, at, rest) in EXCERPTS {
        let wanted = format!(in alloc; " --> p.bir{rest}")?;
        let rows = excerpt(alloc, "p.bir", text, at)?;
        assert_eq!(rt; rows.as_slice(), wanted.as_bytes(), "{at} in {text:?}");
    }
    Ok(())
}

/// An offset in a line of a mebibyte, what follows the name, how many bytes that are shown stand before the mark, and
/// which columns are shown.
const CUTS: [(usize, &str, usize, &str); 5] = [
    (0, ":1:1\n", 0, "1 to 100"),
    (50, ":1:51\n", 50, "1 to 100"),
    (524_288, ":1:524289\n", 50, "524239 to 524338"),
    (1_048_575, ":1:1048576\n", 99, "1048477 to 1048576"),
    (1_048_577, ":1:1048577\n", 100, "1048477 to 1048576"),
];

#[test]
fn cut_lines(rt: HostRuntime) -> Result<(), Fail> {
    let alloc = rt.alloc();
    let text = vec![in alloc; b'x'; 1_048_576]?;
    let shown = vec![in alloc; b'x'; MOST_SHOWN]?;
    for (at, place, indent, columns) in CUTS {
        let mut wanted = Vec::new(alloc);
        wanted.extend_from_slice(b" --> p")?;
        wanted.extend_from_slice(place.as_bytes())?;
        wanted.extend_from_slice(b"  |\n1 | ")?;
        wanted.extend_from_slice(&shown)?;
        wanted.extend_from_slice(b"\n  | ")?;
        wanted.extend_from_slice(&vec![in alloc; b' '; indent]?)?;
        wanted.extend_from_slice(b"^\n  = the line has 1048576 bytes; columns ")?;
        wanted.extend_from_slice(columns.as_bytes())?;
        wanted.extend_from_slice(b" are shown\n")?;
        let rows = excerpt(alloc, "p", &text, at)?;
        assert_eq!(rt; rows.as_slice(), wanted.as_slice(), "at {at}");
    }
    Ok(())
}

fn named(alloc: Global) -> Named {
    Named {
        name: Name::new(alloc),
        at: 0,
    }
}

/// A block whose instructions begin at these places, the last of which is its terminator's.
fn block(alloc: Global, places: &[u32], last: u32) -> Result<Block, NoMemory> {
    let mut insts = ListOf::new(alloc);
    for at in places {
        insts.push(Inst {
            dest: None,
            at: *at,
            op: Op::Null,
        })?;
    }
    Ok(Block {
        label: named(alloc),
        params: ListOf::new(alloc),
        insts,
        term: Term {
            at: last,
            jump: Jump::Unreachable,
        },
    })
}

fn function(alloc: Global, blocks: Vec<Block>) -> Function {
    Function {
        name: named(alloc),
        params: ListOf::new(alloc),
        result: ResultTy {
            ty: None,
            attr: None,
        },
        blocks: ListOf::from_vec(blocks),
    }
}

#[test]
fn places_of_instructions(rt: HostRuntime) -> Result<(), Fail> {
    let alloc = rt.alloc();
    let first = vec![in alloc; block(alloc, &[40, 52], 60)?, block(alloc, &[], 71)?]?;
    let second = vec![in alloc; block(alloc, &[98], 104)?]?;
    let program = Program {
        version: 1,
        functions: ListOf::from_vec(vec![in alloc;
            function(alloc, first),
            function(alloc, second),
        ]?),
        end: 130,
    };
    let places = instruction_places(alloc, &program)?;
    assert_eq!(rt; places.as_slice(), [40, 52, 60, 71, 98, 104].as_slice());
    Ok(())
}
