use bsan_ids::{AllocNo, Copied, Frag, Prov, Span, Tag};
use shadow_mem::ShadowMem;
use std::test::Fail;

fn prov(alloc: u32, tag: u64) -> Prov {
    Prov {
        alloc: AllocNo(alloc),
        tag: Tag(tag),
    }
}

/// Asks that a value may be used by several threads and may move to another one.
fn ask_shared<T: Send + Sync>(_: &T) {}

#[test]
fn stores_overwrites_and_copies_pointers(rt: HostRuntime) -> Result<(), Fail> {
    let (first, second) = (prov(1, 5), prov(2, 9));
    let mut shadow = ShadowMem::new(rt.alloc(), 24)?;
    shadow.reserve(6)?;
    shadow.store_ptr(0, Some(first));
    shadow.store_ptr(8, Some(second));
    shadow.store_ptr(16, Some(second));
    assert_eq!(rt; shadow.load_ptr(0), Some(first));
    assert_eq!(rt; shadow.load_ptr(4), None);
    // over the last half of one pointer and the first half of the next
    for place in 0..8 {
        shadow.reserve(2)?;
        let frag = shadow.frag(place);
        shadow.set_frag(12 + place, frag);
    }
    assert_eq!(rt; shadow.load_ptr(12), Some(first));
    assert_eq!(rt; shadow.load_ptr(8), None);
    assert_eq!(rt; shadow.load_ptr(16), None);
    let rest = Frag {
        prov: second,
        index: 4,
    };
    assert_eq!(rt; shadow.frag(20), Some(rest));
    shadow.reserve(2)?;
    shadow.clear(Span { start: 19, len: 1 });
    assert_eq!(rt; shadow.load_ptr(12), None);
    assert_eq!(rt; shadow.load_ptr(0), Some(first));
    let copy = shadow.copy()?;
    assert_eq!(rt; copy.load_ptr(0), Some(first));
    ask_shared(&copy);
    Ok(())
}
