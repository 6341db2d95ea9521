use bsan_ids::{Copied, Span};
use range_map::RangeMap;
use std::test::Fail;

/// Asks that a value may be used by several threads and may move to another one.
fn ask_shared<T: Send + Sync>(_: &T) {}

#[test]
fn splits_and_merges_65536_bytes(rt: HostRuntime) -> Result<(), Fail> {
    let mut map = RangeMap::new(rt.alloc(), 65_536, 0_u8)?;
    map.reserve(4)?;
    map.split_at(65_528);
    map.split_at(1);
    assert_eq!(rt; map.run_end(0), 1);
    assert_eq!(rt; map.run_end(1), 65_528);
    map.put(0, 3);
    map.set_run(
        Span {
            start: 65_532,
            len: 4,
        },
        7,
    );
    map.merge();
    let end = map.run_end(65_532);
    assert_eq!(rt; end, 65_536);
    assert_eq!(rt; map.run_end(1), 65_532);
    assert_eq!(rt; map.run_end(0), 1);
    assert_eq!(rt; map.get(65_532), 7);
    assert_eq!(rt; map.get(65_531), 0);
    assert_eq!(rt; map.get(0), 3);
    ask_shared(&map);
    Ok(())
}

#[test]
fn copies_are_equal(rt: HostRuntime) -> Result<(), Fail> {
    let mut map = RangeMap::new(rt.alloc(), 2, 0_u8)?;
    map.reserve(1)?;
    map.split_at(1);
    map.put(1, 9);
    let copy = map.copy()?;
    assert_eq!(rt; copy.run_end(0), 1);
    assert_eq!(rt; copy.get(1), 9);
    Ok(())
}
