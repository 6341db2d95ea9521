use bsan_ids::Name;
use outside_io::{FileFault, Files, MemFiles, MemSink, PutFault, RealFiles, RealSink, Sink};
use std::fs;
use std::test::Fail;
use std::time::Clock;

#[test]
fn reads_files_in_memory(rt: HostRuntime) -> Result<(), Fail> {
    let alloc = rt.alloc();
    let mut held = Vec::new(alloc);
    for (name, content) in [("a", "first"), ("b", ""), ("a", "second")] {
        let name = Name::from_slice(alloc, name.as_bytes())?;
        let content = Vec::from_slice(alloc, content.as_bytes())?;
        held.push((name, content))?;
    }
    let mut files = MemFiles::new(alloc, held, vec![in alloc; 6]?);
    let mut into = vec![in alloc; 1, 2, 3]?;
    let calls = [
        ("a", 5, Ok(()), "first"),
        ("a", 4, Err(FileFault::TooLong), ""),
        ("b", 0, Ok(()), ""),
        ("c", 5, Err(FileFault::Failed), ""),
        ("a", 6, Ok(()), "first"),
        ("a", 6, Err(FileFault::Failed), ""),
        ("a", 6, Ok(()), "first"),
    ];
    for (name, limit, answer, content) in calls {
        let read = files.read_file(name, limit, &mut into);
        assert_eq!(rt; read, answer, "{name} within {limit}");
        assert_eq!(rt;
            into.as_slice(),
            content.as_bytes(),
            "{name} within {limit}"
        );
    }
    Ok(())
}

#[test]
fn takes_pieces_in_memory(rt: HostRuntime) -> Result<(), Fail> {
    let puts = [
        (None, "abcd", Ok(())),
        (Some(4), "abcd", Ok(())),
        (Some(3), "abc", Err(PutFault::Failed)),
        (Some(1), "a", Err(PutFault::Failed)),
    ];
    for (room, taken, answer) in puts {
        let mut sink = MemSink::new(rt.alloc(), room);
        let first = sink.put(b"a");
        assert_eq!(rt; first, Ok(()));
        let second = sink.put(b"bcd");
        assert_eq!(rt; second, answer);
        assert_eq!(rt; sink.taken(), taken.as_bytes());
    }
    Ok(())
}

#[test]
fn reads_the_files_of_the_system(rt: HostRuntime) -> Result<(), Fail> {
    let alloc = rt.alloc();
    let time = rt.since_1970()?;
    let name = format!(in alloc; "/tmp/outside_io-{}", time.as_nanos())?;
    // Longer than one read.
    let content = vec![in alloc; b'x'; 10_000]?;
    fs::write(&rt, name.as_str(), content.as_slice())?;
    let mut files = RealFiles::new(&rt);
    let mut into = vec![in alloc; 1, 2, 3]?;
    let whole = files.read_file(name.as_str(), 10_000, &mut into);
    assert_eq!(rt; whole, Ok(()));
    assert_eq!(rt; into.as_slice(), content.as_slice());
    let long = files.read_file(name.as_str(), 9_999, &mut into);
    assert_eq!(rt; long, Err(FileFault::TooLong));
    assert!(rt; into.is_empty());
    fs::remove_file(&rt, name.as_str())?;
    let missing = files.read_file(name.as_str(), 10_000, &mut into);
    assert_eq!(rt; missing, Err(FileFault::Failed));
    Ok(())
}

#[test]
fn writes_to_an_output(rt: HostRuntime) {
    let mut room = [0; 4];
    let mut sink = RealSink::new(&mut room[..]);
    let whole = sink.put(b"abc");
    assert_eq!(rt; whole, Ok(()));
    let cut = sink.put(b"de");
    assert_eq!(rt; cut, Err(PutFault::Failed));
    assert_eq!(rt; room, *b"abcd");
}
