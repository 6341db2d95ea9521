//! The frames of a thread as a stack.
ghost use Rattle.std.specs.Prelude.{◌≡◌, [], ◌∷◌, ◌++◌, ◌+◌, ◌≤◌, ◌<◌, length, IsOk, OnOk, OnErr};
ghost use Rattle.protectors.specs.Lists.{top_of, below_top};

use crate::frame::Frame;
use bsan_ids::{Copied, NoMemory, Prov, copy_vec};
use std::alloc::Global;
use std::marker::Model;

/// The protectors that each frame of a thread made, the newest frame last, and in each frame in the
/// order in which they were made.
///
/// Contracts see `lists`, a list for each frame, and two counts of what fits without memory: `spare`
/// more provenances in the last list, and `spare_frames` more lists.
#[derive(Drop)]
pub struct Frames {
    frames: Vec<Frame>,
}

impl Model for Frames {
    ghost use Rattle.std.specs.Prelude.{◌-◌, map, vec_len, vec_capacity};
    ghost use Rattle.protectors.specs.Lists.{RoomyLists, top_spare};

    ghost Value = { RoomyLists };

    ghost view = { λ s. record { lists = map (λ f. f.list) s.frames.items; spare = top_spare s.frames.items; spare_frames = vec_capacity s.frames - vec_len s.frames } };
}

impl Frames {
    /// No frames.
    pub fn new(alloc: Global) -> Frames
        ensures { result.lists ≡ [] }
    {
        Frames {
            frames: Vec::new(alloc),
        }
    }

    /// Makes room for one more frame, where there is none yet.
    ///
    /// # Errors
    ///
    /// `NoMemory`: out of memory, where there was no room. The frames and both counts are as before.
    pub fn reserve_frame(&mut self) -> Result<(), NoMemory>
        ensures ok { OnOk result (1 ≤ self.new.spare_frames) }
        ensures succeeds { 1 ≤ self.old.spare_frames → IsOk result }
        ensures lists { self.new.lists ≡ self.old.lists }
        ensures spare { self.new.spare ≡ self.old.spare }
        ensures err { OnErr result (self.new ≡ self.old) }
    {
        self.frames.reserve(1)?;
        Ok(())
    }

    /// Adds a frame with no protectors. It takes no memory: there has to be room for a frame.
    pub fn push_frame(&mut self)
        requires { 1 ≤ self.old.spare_frames }
        ensures lists { self.new.lists ≡ self.old.lists ++ [] ∷ [] }
        ensures spare_frames { self.old.spare_frames ≤ self.new.spare_frames + 1 }
    {
        let frame = Frame::new(*self.frames.allocator());
        self.frames.push_reserved(frame);
    }

    /// Makes room for one more protector in the newest frame, where there is none yet. There has to
    /// be a frame.
    ///
    /// # Errors
    ///
    /// `NoMemory`: out of memory, where there was no room. The frames and both counts are as before.
    pub fn reserve(&mut self) -> Result<(), NoMemory>
        requires { 0 < length self.old.lists }
        ensures ok { OnOk result (1 ≤ self.new.spare) }
        ensures succeeds { 1 ≤ self.old.spare → IsOk result }
        ensures lists { self.new.lists ≡ self.old.lists }
        ensures spare_frames { self.new.spare_frames ≡ self.old.spare_frames }
        ensures err { OnErr result (self.new ≡ self.old) }
    {
        let top = self.frames.len() - 1;
        self.frames[top].reserve()
    }

    /// Appends a protector to the newest frame. It takes no memory: there has to be a frame, with
    /// room for one more.
    pub fn push(&mut self, prov: Prov)
        requires some { 0 < length self.old.lists }
        requires room { 1 ≤ self.old.spare }
        ensures lists { self.new.lists ≡ below_top self.old.lists ++ (top_of self.old.lists ++ prov ∷ []) ∷ [] }
        ensures spare { self.old.spare ≤ self.new.spare + 1 }
        ensures spare_frames { self.new.spare_frames ≡ self.old.spare_frames }
    {
        let top = self.frames.len() - 1;
        self.frames[top].push(prov);
    }

    /// The protectors of the newest frame, of which there has to be one.
    pub fn top(&self) -> &[Prov]
        requires { 0 < length self.now.lists }
        ensures { result.now ≡ top_of self.now.lists }
    {
        self.frames[self.frames.len() - 1].provs()
    }

    /// Drops the newest frame, of which there has to be one.
    pub fn pop_frame(&mut self)
        requires { 0 < length self.old.lists }
        ensures { self.new.lists ≡ below_top self.old.lists }
    {
        self.frames.pop();
    }
}

impl Copied for Frames {
    fn copy(&self) -> Result<Frames, NoMemory> {
        Ok(Frames {
            frames: copy_vec(&self.frames)?,
        })
    }
}
