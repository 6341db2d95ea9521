//! The provenances of one frame, and how many more fit without memory.
ghost use Rattle.std.specs.Prelude.{◌≡◌, [], ◌∷◌, ◌++◌, ◌+◌, ◌≤◌, ◌<◌, length, IsOk, OnOk, OnErr};
ghost use Rattle.std.specs.List.{remove};

use bsan_ids::{Copied, NoMemory, Prov, copy_vec};
use std::alloc::Global;
use std::marker::Model;

/// The protectors of one frame, in the order in which they were made.
///
/// Contracts see `list`, and `spare`: how many more fit without memory.
#[derive(Drop)]
pub struct Frame {
    provs: Vec<Prov>,
}

impl Model for Frame {
    ghost use Rattle.std.specs.Prelude.{◌-◌, vec_len, vec_capacity};
    ghost use Rattle.protectors.specs.Lists.{RoomyList};

    ghost Value = { RoomyList };

    ghost view = { λ f. record { list = f.provs.items; spare = vec_capacity f.provs - vec_len f.provs } };
}

impl Frame {
    /// No protectors. It takes no memory.
    pub fn new(alloc: Global) -> Frame
        ensures { result.list ≡ [] }
    {
        Frame {
            provs: Vec::new(alloc),
        }
    }

    /// The protectors.
    pub fn provs(&self) -> &[Prov]
        ensures { result.now ≡ self.now.list }
    {
        self.provs.as_slice()
    }

    /// Makes room for one more protector, where there is none yet.
    ///
    /// # Errors
    ///
    /// `NoMemory`: out of memory, where there was no room. The frame is as before.
    pub fn reserve(&mut self) -> Result<(), NoMemory>
        ensures ok { OnOk result (1 ≤ self.new.spare) }
        ensures succeeds { 1 ≤ self.old.spare → IsOk result }
        ensures list { self.new.list ≡ self.old.list }
        ensures err { OnErr result (self.new ≡ self.old) }
    {
        self.provs.reserve(1)?;
        Ok(())
    }

    /// Appends a protector, where there is room for one.
    pub fn push(&mut self, prov: Prov)
        requires { 1 ≤ self.old.spare }
        ensures list { self.new.list ≡ self.old.list ++ prov ∷ [] }
        ensures spare { self.old.spare ≤ self.new.spare + 1 }
    {
        self.provs.push_reserved(prov);
    }

    /// Takes out the protector that was made first, of which there has to be one.
    pub fn take_first(&mut self)
        requires { 0 < length self.old.list }
        ensures { self.new.list ≡ remove self.old.list 0 }
    {
        self.provs.remove(0);
    }
}

impl Copied for Frame {
    fn copy(&self) -> Result<Frame, NoMemory> {
        Ok(Frame {
            provs: copy_vec(&self.provs)?,
        })
    }
}
