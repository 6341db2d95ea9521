//! A violation with its causes.
use bsan_ids::{Copied, NoMemory};
use history::Entry;

/// The first violation on an allocation, and the earlier steps on it that led to it.
///
/// Where the violation names a node of the allocation's tree and a byte, `maker` is the step that made
/// the node, and `changer` the last one that changed the node's state at the byte: the maker where none
/// did since. Where the allocation was freed, `changer` freed it. Where the violation is out of its range,
/// `maker` made it. Else there is neither.
#[derive(Drop)]
pub struct Explained {
    pub violation: Entry,
    pub maker: Option<Entry>,
    pub changer: Option<Entry>,
}

impl Copied for Explained {
    fn copy(&self) -> Result<Explained, NoMemory> {
        Ok(Explained {
            violation: self.violation.copy()?,
            maker: self.maker.copy()?,
            changer: self.changer.copy()?,
        })
    }
}
