use crate::{AllocNo, Copied, ListOf, Name, NoMemory, address, parts};
use std::test::Fail;

fn longer_by(list: &Name, item: u8) -> Result<Name, NoMemory> {
    let mut longer = list.copy()?;
    longer.push(item)?;
    Ok(longer)
}

/// Asks that a value may be used by several threads and may move to another one.
fn ask_shared<T: Send + Sync>(_: &T) {}

#[test]
fn lists_find_memory(rt: HostRuntime) -> Result<(), Fail> {
    let alloc = rt.alloc();
    let Ok(pair) = ListOf::from_slice(alloc, &[7, 8]) else {
        return Err(Fail::new("from_slice"));
    };
    let Ok(list) = longer_by(&pair, 9) else {
        return Err(Fail::new("copy and push"));
    };
    assert_eq!(rt; list.as_slice(), [7, 8, 9].as_slice());
    let Ok(zeros) = ListOf::repeated(alloc, 0, 3) else {
        return Err(Fail::new("repeated"));
    };
    assert_eq!(rt; zeros.as_slice(), [0, 0, 0].as_slice());
    Ok(())
}

#[test]
fn options_are_copied(rt: HostRuntime) -> Result<(), Fail> {
    let Ok(copy) = Some(5u8).copy() else {
        return Err(Fail::new("copy"));
    };
    assert_eq!(rt; copy, Some(5));
    Ok(())
}

#[test]
fn threads_share_names(rt: HostRuntime) {
    let name: Name = ListOf::new(rt.alloc());
    ask_shared(&name);
}

#[test]
fn addresses_split(rt: HostRuntime) -> Result<(), Fail> {
    let third = address(AllocNo(3), 5);
    assert_eq!(rt; third, 12_884_901_893);
    assert_eq!(rt; parts(third), (AllocNo(3), 5));
    Ok(())
}
