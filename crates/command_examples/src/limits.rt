//! What comes of the command where reads fail, files are too long, the output has no room, and the steps, the native threads
//! and the words are limited.
use crate::calls::{CUT, Given, HALVES_REPORT, REPORT, SMALLEST, TWO_HALVES, UNREAD, USAGE, call};
use outside_io::NoGate;
use std::test::Fail;

/// Adds the first two bytes of the input.
const SUMS: &str =
    "bir 1 func @main() -> i64 { e: %a = input 0 %b = input 1 %c = add i64 %a, %b print i64 %c ret i64 0 }";

const SUMMED: &str =
    "thread 0 prints 321\nthread 0 returned 0\nsteps 1, allocations 0, threads 1, violations 0\nstatus 0\n";

/// The program and the size to which blanks fill it, the reads that fail, the size of the input, and what comes.
const FILES: [(&str, usize, &[u64], usize, u8, &str); 7] = [
    (SUMS, 0, &[1], 1, 7, "read fault: program\n"),
    (SUMS, 0, &[2], 1, 7, "read fault: input\n"),
    (SUMS, 0, &[3], 1, 0, SUMMED),
    (SUMS, 0, &[], 1_048_577, 7, "too long: input\n"),
    (CUT, 0, &[2], 1, 3, UNREAD),
    (SUMS, 1_048_577, &[], 1, 7, "too long: program\n"),
    (SUMS, 1_048_577, &[1], 1, 7, "read fault: program\n"),
];

#[test]
fn answers_files(rt: HostRuntime) -> Result<(), Fail> {
    let alloc = rt.alloc();
    for (program, size, failing, length, status, text) in FILES {
        let mut filled = String::from_str(alloc, program)?;
        for _ in filled.len()..size {
            filled.push_str(" ")?;
        }
        let mut input = String::from_str(alloc, "A")?;
        for _ in input.len()..length {
            input.push_str(" ")?;
        }
        let given = Given {
            input: input.as_str(),
            failing,
            ..Given::of(filled.as_str())
        };
        let answer = call(Some(&rt), alloc, "solo p --input q", &given, &NoGate)?;
        assert_eq!(rt; answer.status, status, "{text}");
        assert_eq!(rt; answer.text.as_slice(), text.as_bytes(), "{text}");
    }
    Ok(())
}

/// Words, the program, the reads that fail, the status and the text that comes.
const READS: [(&str, &str, &[u64], u8, &str); 9] = [
    ("hush p r --input q", SUMS, &[1], 7, "read fault: program\n"),
    ("hush p r --input q", SUMS, &[2], 7, "read fault: rules\n"),
    ("hush p r --input q", SUMS, &[3], 7, "read fault: input\n"),
    ("hush p r --input q", CUT, &[2], 3, UNREAD),
    ("record p --input q", SUMS, &[2], 7, "read fault: input\n"),
    ("record p --input q", CUT, &[2], 3, UNREAD),
    (
        "recheck p r --input q",
        SUMS,
        &[2],
        7,
        "read fault: input\n",
    ),
    (
        "recheck p r --input q",
        SUMS,
        &[3],
        7,
        "read fault: record\n",
    ),
    ("recheck p r", SUMS, &[2], 7, "read fault: record\n"),
];

#[test]
fn answers_reads_that_fail(rt: HostRuntime) -> Result<(), Fail> {
    let alloc = rt.alloc();
    for (line, program, failing, status, text) in READS {
        let given = Given {
            failing,
            ..Given::of(program)
        };
        let answer = call(Some(&rt), alloc, line, &given, &NoGate)?;
        assert_eq!(rt; answer.text.as_slice(), text.as_bytes(), "{line}");
        assert_eq!(rt; answer.status, status, "{line}");
        assert!(rt; answer.record.threads.is_empty(), "{line}");
    }
    Ok(())
}

#[test]
fn puts_what_there_is_room_for(rt: HostRuntime) -> Result<(), Fail> {
    let alloc = rt.alloc();
    for room in 0..78 {
        let given = Given {
            room: Some(room as u64),
            ..Given::of(SMALLEST)
        };
        for line in ["solo p", "explain p 0"] {
            let answer = call(Some(&rt), alloc, line, &given, &NoGate)?;
            assert_eq!(rt; answer.status, if room < 77 { 8 } else { 0 });
            assert_eq!(rt; answer.text.len(), room);
            assert!(rt; REPORT.as_bytes().starts_with(answer.text.as_slice()));
            assert_eq!(rt; answer.record.threads.len(), 1);
        }
    }
    Ok(())
}

/// The threads and the instructions of the steps of the two halves, where no schedule is asked for.
const STEPS: [(u32, u32); 10] = [
    (0, 3),
    (0, 5),
    (0, 6),
    (0, 7),
    (1, 0),
    (1, 1),
    (0, 8),
    (0, 9),
    (0, 12),
    (0, 13),
];

#[test]
fn step_limits_leave_the_first_steps(rt: HostRuntime) -> Result<(), Fail> {
    let alloc = rt.alloc();
    let given = Given::of(TWO_HALVES);
    for limit in 1..11 {
        let line = format!(in alloc; "solo p --steps {limit}")?;
        let answer = call(Some(&rt), alloc, line.as_str(), &given, &NoGate)?;
        let mut steps = 0_u64;
        for log in answer.record.threads.as_slice() {
            for entry in log.entries.as_slice() {
                steps = steps.saturating_add(1);
                let place = usize::try_from(entry.stamp.0.saturating_sub(1)).unwrap_or(usize::MAX);
                assert_eq!(rt; STEPS.get(place).copied(), Some((log.number.0, entry.site)));
            }
        }
        assert_eq!(rt; steps, limit);
        let text = match limit {
            9 =>
                "thread 0 prints 13\nthread 0 reached the step limit with stamp 10\nthread 1 returned 5\n\
                steps 9, allocations 1, threads 2, violations 0\nstatus 6\n",
            10 => HALVES_REPORT,
            _ => continue,
        };
        assert_eq!(rt; answer.text.as_slice(), text.as_bytes());
    }
    Ok(())
}

#[test]
fn one_native_thread_serves_all_but_runs(rt: HostRuntime) -> Result<(), Fail> {
    let alloc = rt.alloc();
    let alone: Option<&HostRuntime> = None;
    for (line, status, want) in [
        ("run p", 2, USAGE),
        ("load 1 1", 2, USAGE),
        ("record p", 2, USAGE),
        ("hush p r", 2, USAGE),
        ("recheck p r", 11, "record refused: line 1\n"),
        ("solo p", 0, HALVES_REPORT),
    ] {
        let answer = call(alone, alloc, line, &Given::of(TWO_HALVES), &NoGate)?;
        assert_eq!(rt; answer.status, status, "{line}");
        assert_eq!(rt; answer.text.as_slice(), want.as_bytes(), "{line}");
    }
    Ok(())
}

/// The words are longer than a system hands to a program.
#[test]
fn a_schedule_has_at_most_65536_numbers(rt: HostRuntime) -> Result<(), Fail> {
    let alloc = rt.alloc();
    let mut line = String::from_str(alloc, "replay p 0000")?;
    for _ in 1..65_536 {
        line.push_str(",0009")?;
    }
    let given = Given::of(SMALLEST);
    for (status, want) in [(0, REPORT), (2, USAGE)] {
        let answer = call(Some(&rt), alloc, line.as_str(), &given, &NoGate)?;
        assert_eq!(rt; answer.status, status);
        assert_eq!(rt; answer.text.as_slice(), want.as_bytes());
        line.push_str(",0")?;
    }
    Ok(())
}
