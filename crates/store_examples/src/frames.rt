use bsan_ids::{AllocNo, Copied, Prov, Tag};
use protectors::Frames;
use std::test::Fail;

fn prov(tag: u64) -> Prov {
    Prov {
        alloc: AllocNo(1),
        tag: Tag(tag),
    }
}

/// Asks that a value may be used by several threads and may move to another one.
fn ask_shared<T: Send + Sync>(_: &T) {}

#[test]
fn keeps_each_frames_protectors(rt: HostRuntime) -> Result<(), Fail> {
    let mut frames = Frames::new(rt.alloc());
    frames.reserve_frame()?;
    frames.push_frame();
    frames.reserve()?;
    frames.push(prov(2));
    frames.reserve_frame()?;
    frames.push_frame();
    assert_eq!(rt; frames.top(), [].as_slice());
    frames.reserve()?;
    frames.push(prov(5));
    frames.reserve()?;
    frames.push(prov(3));
    assert_eq!(rt; frames.top(), [prov(5), prov(3)].as_slice());
    let copy = frames.copy()?;
    frames.pop_frame();
    assert_eq!(rt; frames.top(), [prov(2)].as_slice());
    assert_eq!(rt; copy.top(), [prov(5), prov(3)].as_slice());
    ask_shared(&copy);
    Ok(())
}
