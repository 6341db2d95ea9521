use bsan_ids::{Copied, ListOf, ThreadNo};
use run_record::{End, ThreadLog, ThreadTree};
use std::alloc::Global;
use std::test::Fail;

fn leaf(alloc: Global, number: u32) -> ThreadTree {
    let log = ThreadLog {
        number: ThreadNo(number),
        parent: None,
        entry_function: 0,
        entries: ListOf::new(alloc),
        instructions: 0,
        last: 0,
        end: End::NoMemory,
    };
    ThreadTree::new(log, Vec::new(alloc))
}

fn is_moved_and_shared<T: Send + Sync>(value: &T) -> bool {
    let _ = value;
    true
}

#[test]
fn trees_are_moved_and_shared(rt: HostRuntime) -> Result<(), Fail> {
    assert!(rt; is_moved_and_shared(&leaf(rt.alloc(), 3)));
    Ok(())
}

#[test]
fn a_copy_has_the_logs_of_all_threads(rt: HostRuntime) -> Result<(), Fail> {
    let mut tree = leaf(rt.alloc(), 0);
    tree.children.push(leaf(rt.alloc(), 1))?;
    let mut logs = Vec::new(rt.alloc());
    tree.copy()?.into_logs(&mut logs)?;
    assert_eq!(rt; logs.len(), 2);
    assert_eq!(rt; logs.last().map(|log| log.number), Some(ThreadNo(1)));
    Ok(())
}
