ghost use Rattle.std.specs.Prelude.{◌≡◌, IfOk};

use bsan_ids::{AllocNo, Copied, Stamp, ThreadNo};
use history::{
    Entry, Piece, PieceBuffer, Plain, Reply, Request, RunRecord, Verdict, merge_by_stamp, of_thread,
};
use std::alloc::Global;
use std::test::Fail;

fn copied_in(alloc: Global, stamp: u64, thread: u32) -> Result<Entry, Fail>
    ensures { IfOk result (λ entry. entry.stamp.0 ≡ stamp) }
{
    let mut piece = Piece::new(alloc);
    piece.push(7, None)?;
    Ok(Entry {
        thread: ThreadNo(thread),
        stamp: Stamp(stamp),
        site: 0,
        alloc: Some(AllocNo(1)),
        request: Request::CopyIn {
            at: 0,
            piece,
            prov: None,
        },
        reply: Reply {
            plain: Plain::Done,
            carried: None,
            verdict: Verdict::Clean,
        },
    })
}

#[test]
fn a_thread_has_its_entries_in_order(rt: HostRuntime) -> Result<(), Fail> {
    let mut entries = Vec::new(rt.alloc());
    for (stamp, thread) in [(4, 0), (5, 1), (6, 1), (7, 0)] {
        entries.push(copied_in(rt.alloc(), stamp, thread)?)?;
    }
    let part = of_thread(rt.alloc(), &entries, ThreadNo(1))?;
    assert_eq!(rt; part.len(), 2);
    assert_eq!(rt; part.first().map(|entry| entry.stamp), Some(Stamp(5)));
    assert_eq!(rt; part.last().map(|entry| entry.stamp), Some(Stamp(6)));
    Ok(())
}

#[test]
#[tactic(auto, using(history::proofs::Distinct::can_merge_two))]
fn entries_merge_by_stamp(rt: HostRuntime) -> Result<(), Fail> {
    let mut entries = Vec::new(rt.alloc());
    entries.push(copied_in(rt.alloc(), 6, 0)?)?;
    let mut more = Vec::new(rt.alloc());
    more.push(copied_in(rt.alloc(), 4, 1)?)?;
    merge_by_stamp(&mut entries, &more)?;
    assert_eq!(rt; entries.len(), 2);
    assert_eq!(rt; entries.first().map(|entry| entry.stamp), Some(Stamp(4)));
    assert_eq!(rt; entries.last().map(|entry| entry.stamp), Some(Stamp(6)));
    Ok(())
}

fn is_moved_and_shared<T: Send + Sync>(value: &T) -> bool {
    let _ = value;
    true
}

#[test]
fn what_threads_hand_over_is_moved_and_shared(rt: HostRuntime) -> Result<(), Fail> {
    let entry = copied_in(rt.alloc(), 4, 0)?;
    assert!(rt; is_moved_and_shared(&entry));
    assert!(rt; is_moved_and_shared(&entry.request));
    assert!(rt; is_moved_and_shared(&RunRecord::new(rt.alloc())));
    Ok(())
}

#[test]
fn entries_are_compared(rt: HostRuntime) -> Result<(), Fail> {
    let entry = copied_in(rt.alloc(), 4, 0)?;
    assert!(rt; entry.equals(&entry.copy()?));
    assert!(rt; !entry.equals(&copied_in(rt.alloc(), 5, 0)?));
    Ok(())
}

#[test]
fn a_buffer_becomes_a_piece(rt: HostRuntime) -> Result<(), Fail> {
    let mut piece = Piece::new(rt.alloc());
    piece.push(7, None)?;
    piece.push(8, None)?;
    let mut buffer = PieceBuffer::new(rt.alloc())?;
    buffer.assign(&piece);
    assert!(rt; buffer.to_piece()?.equals(&piece));
    Ok(())
}
