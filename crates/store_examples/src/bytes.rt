use bsan_ids::Copied;
use byte_mem::ByteMem;
use history::Trap;
use ir_ast::{Place, Width};
use std::test::Fail;

/// Asks that a value may be used by several threads and may move to another one.
fn ask_shared<T: Send + Sync>(_: &T) {}

#[test]
fn stores_least_byte_first_and_traps(rt: HostRuntime) -> Result<(), Fail> {
    let mut memory = ByteMem::new(rt.alloc(), 8, Place::Stack)?;
    assert_eq!(rt; memory.load(0, Width::W64), Ok(0));
    assert_eq!(rt; memory.store(2, Width::W32, 0x1_0403_0201), Ok(()));
    assert_eq!(rt; memory.byte(2), Ok(1));
    assert_eq!(rt; memory.byte(5), Ok(4));
    assert_eq!(rt; memory.byte(6), Ok(0));
    assert_eq!(rt; memory.set_byte(7, 0xFF), Ok(()));
    assert_eq!(rt; memory.load(4, Width::W32), Ok(0xFF00_0403));
    assert_eq!(rt; memory.load(1, Width::W64), Err(Trap::OutOfBounds));
    assert_eq!(rt; memory.store(7, Width::W16, 0), Err(Trap::OutOfBounds));
    assert_eq!(rt; memory.byte(8), Err(Trap::OutOfBounds));
    assert_eq!(rt; memory.set_byte(u32::MAX, 1), Err(Trap::OutOfBounds));
    assert_eq!(rt; memory.load(6, Width::W16), Ok(0xFF00));
    assert_eq!(rt; memory.free(0, false), Err(Trap::BadFree));
    assert_eq!(rt; memory.free(0, true), Ok(()));
    assert_eq!(rt; memory.free(0, true), Err(Trap::Freed));
    assert_eq!(rt; memory.load(9, Width::W8), Err(Trap::Freed));
    assert_eq!(rt; memory.byte(0), Err(Trap::Freed));
    let mut memory = ByteMem::new(rt.alloc(), 1, Place::Heap)?;
    assert_eq!(rt; memory.free(1, false), Err(Trap::BadFree));
    assert_eq!(rt; memory.free(0, false), Ok(()));
    let copy = memory.copy()?;
    assert_eq!(rt; copy.byte(0), Err(Trap::Freed));
    ask_shared(&copy);
    Ok(())
}
