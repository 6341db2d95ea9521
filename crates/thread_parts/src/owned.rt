//! What a frame must give up at its return.
ghost use Rattle.std.specs.Prelude.{◌≡◌, ◌<◌, ◌≤◌, ◌++◌, [], ◌∷◌, None, OnOk, IfSome, IfNone, length};
ghost use Rattle.std.specs.List.{remove};
ghost use Rattle.bsan_ids.specs.Lists.{without};
ghost use Rattle.thread_parts.specs.Owned.{nothing_owned, protect, release_ask, released, with_stack};
ghost use Rattle.thread_parts.specs.Rooms.{HasRoom, has_none, made_of};

use bsan_ids::{AllocNo, NoMemory, Prov, ThreadNo};
use history::{Ask, Plain, Request};
use protectors::Frame;
use smallvec::SmallVec;
use std::alloc::Global;
use std::marker::Model;

/// How many children, and how many allocations of the stack, take no memory of their own.
const INLINE: usize = 2;

/// An allocation of the stack, with the provenance of its pointer.
#[derive(Clone, Copy)]
pub struct StackAllocation {
    pub number: AllocNo,
    pub prov: Option<Prov>,
}

/// What stands in an unused place of a short list.
impl Default for StackAllocation {
    fn default() -> StackAllocation {
        StackAllocation {
            number: AllocNo(0),
            prov: None,
        }
    }
}

/// Children in the order in which they were started, protectors in the order in which they were made, and allocations
/// of the stack, the newest last. Contracts see the newest first, and how many more of each fit without memory.
#[derive(Drop)]
pub struct Owned {
    children: SmallVec<u32, INLINE>,
    protectors: Frame,
    stack: SmallVec<StackAllocation, INLINE>,
}

impl Model for Owned {
    ghost use Rattle.std.specs.Prelude.{map, reverse, ◌-◌, length};
    ghost use Rattle.thread_parts.specs.Rooms.{RoomyOwned, made_of};

    ghost Value = { RoomyOwned };

    ghost view = { λ o. record { owned = record { children = o.children.items; protectors = o.protectors.list; stack = map made_of (reverse o.stack.items) }; children = o.children.capacity - length o.children.items; protectors = o.protectors.spare; stack = o.stack.capacity - length o.stack.items } };
}

/// The first place of a number in a list.
#[tactic(auto, using(crate::proofs::Owning::found_first, crate::proofs::Owning::found_none))]
fn place_of(list: &[u32], number: u32) -> Option<usize>
    ensures some { IfSome result (λ at. (at < length list.now) × (without number list.now ≡ remove list.now at)) }
    ensures none { IfNone result (without number list.now ≡ list.now) }
{
    for at in 0..list.len() {
        if list[at] == number {
            return Some(at);
        }
    }
    None
}

impl Owned {
    /// Nothing.
    pub fn new(alloc: Global) -> Owned
        ensures { result.owned ≡ nothing_owned }
    {
        Owned {
            children: SmallVec::new(alloc),
            protectors: Frame::new(alloc),
            stack: SmallVec::new(alloc),
        }
    }

    /// Whether there is nothing to give up.
    #[tactic(auto, using(crate::proofs::Owning::none_left, crate::proofs::Owning::child_left, crate::proofs::Owning::protector_left, crate::proofs::Owning::stack_left))]
    pub fn is_empty(&self) -> bool
        ensures { result ≡ has_none (release_ask self.now.owned) }
    {
        self.children.is_empty() && self.protectors.provs().is_empty() && self.stack.is_empty()
    }

    /// What is to be given up first: a child is joined, a protector ended, or an allocation freed.
    #[tactic(auto, using(crate::proofs::Owning::stack_last, crate::proofs::Owning::stack_none))]
    pub fn first(&self) -> Option<Ask>
        ensures { result ≡ release_ask self.now.owned }
    {
        if let Some(child) = self.children.as_slice().first() {
            return Some(Ask::Join {
                child: ThreadNo(*child),
            });
        }
        if let Some(protector) = self.protectors.provs().first() {
            return Some(Ask::At {
                alloc: protector.alloc,
                request: Request::EndProtector { tag: protector.tag },
            });
        }
        match self.stack.as_slice().last() {
            Some(made) => Some(Ask::At {
                alloc: made.number,
                request: Request::Free {
                    at: 0,
                    stack: true,
                    prov: made.prov,
                },
            }),
            None => None,
        }
    }
}

impl Owned {
    /// Makes room for one more of each.
    ///
    /// # Errors
    ///
    /// `NoMemory`: out of memory. What is owned stays as it was.
    pub fn reserve(&mut self) -> Result<(), NoMemory>
        ensures owned { self.new.owned ≡ self.old.owned }
        ensures room { OnOk result (HasRoom self.new) }
    {
        self.children.reserve(1)?;
        self.protectors.reserve()?;
        self.stack.reserve(1)?;
        Ok(())
    }

    /// Makes room for a child.
    ///
    /// # Errors
    ///
    /// `NoMemory`: out of memory.
    pub fn reserve_child(&mut self) -> Result<(), NoMemory>
        ensures owned { self.new.owned ≡ self.old.owned }
        ensures room { OnOk result (1 ≤ self.new.children) }
    {
        Ok(self.children.reserve(1)?)
    }

    /// Makes room for a protector.
    ///
    /// # Errors
    ///
    /// `NoMemory`: out of memory.
    pub fn reserve_protector(&mut self) -> Result<(), NoMemory>
        ensures owned { self.new.owned ≡ self.old.owned }
        ensures room { OnOk result (1 ≤ self.new.protectors) }
    {
        self.protectors.reserve()
    }

    /// Makes room for an allocation of the stack.
    ///
    /// # Errors
    ///
    /// `NoMemory`: out of memory.
    pub fn reserve_stack(&mut self) -> Result<(), NoMemory>
        ensures owned { self.new.owned ≡ self.old.owned }
        ensures room { OnOk result (1 ≤ self.new.stack) }
    {
        Ok(self.stack.reserve(1)?)
    }

    /// Keeps a child that was started, where there is room.
    pub fn push_child(&mut self, child: u32)
        requires { 1 ≤ self.old.children }
        ensures { self.new.owned ≡ record self.old.owned { children = self.old.owned.children ++ child ∷ [] } }
    {
        self.children.push_reserved(child);
    }

    /// Keeps the protector of a retag with this reply, where the retag added a node and there is room.
    pub fn protect(&mut self, plain: &Plain, carried: Option<Prov>)
        requires { 1 ≤ self.old.protectors }
        ensures { self.new.owned ≡ protect plain.now carried self.old.owned }
    {
        if let (Plain::Retagged { added: true }, Some(prov)) = (plain, carried) {
            self.protectors.push(prov);
        }
    }

    /// Keeps an allocation of the stack, where there is room.
    #[tactic(auto, using(crate::proofs::Owning::stack_pushed))]
    pub fn push_stack(&mut self, made: StackAllocation)
        requires { 1 ≤ self.old.stack }
        ensures { self.new.owned ≡ record self.old.owned { stack = made_of made ∷ self.old.owned.stack } }
    {
        self.stack.push_reserved(made);
    }

    /// Takes a child out, at its first place.
    pub fn remove_child(&mut self, child: u32)
        ensures { self.new.owned ≡ record self.old.owned { children = without child self.old.owned.children } }
    {
        if let Some(place) = place_of(self.children.as_slice(), child) {
            self.children.remove(place);
        }
    }

    /// Gives up what is to be given up first.
    #[tactic(auto, using(crate::proofs::Owning::stack_popped))]
    pub fn release(&mut self)
        ensures { self.new.owned ≡ released self.old.owned }
    {
        if !self.children.is_empty() {
            self.children.remove(0);
        } else if !self.protectors.provs().is_empty() {
            self.protectors.take_first();
        } else {
            self.stack.pop();
        }
    }
}
