//! The object of one allocation, in memory of its own.
ghost use Rattle.std.specs.Prelude.{◌≡◌, IsTrue, None, OnErr, OnOk, Some};
ghost use Rattle.std.specs.Option.{option_map};
ghost use Rattle.history.specs.Histories.{fits};
ghost use Rattle.history.specs.Objects.{answer, unmade};
ghost use Rattle.lazy_tree.specs.Eager.{eager_of};
ghost use Rattle.alloc_state.specs.Prepared.{AreBelow, is_made_in, unasked};
ghost use Rattle.alloc_state.specs.Repeats.{IsPrepareCounted, IsRunCounted};

use crate::object_state::{ObjectState, Ran};
use bsan_ids::{AllocNo, NoMemory, Stamp};
use history::Request;
use lazy_tree::LazyTree;
use std::alloc::Global;
use std::marker::Model;

/// The object of one allocation, in memory of its own, which is taken when a request is first prepared: so
/// a table of many numbers is small, and an allocation's state is moved at little cost.
#[derive(Drop)]
pub struct BoxedState {
    number: AllocNo,
    state: Option<Box<ObjectState>>,
}

impl Model for BoxedState {
    ghost use Rattle.std.specs.Option.{option_map};
    ghost use Rattle.alloc_state.specs.Prepared.{Prepared, prepared_in};

    ghost Value = { Prepared };

    ghost view = { λ s. prepared_in s.number.0 (option_map (λ b. b.value) s.state) };
}

impl BoxedState {
    /// A number that was never made. It takes no memory.
    pub fn new(number: AllocNo) -> BoxedState
        ensures { result ≡ unasked number.0 }
    {
        BoxedState {
            number,
            state: None,
        }
    }

    /// Whether the allocation is made.
    pub fn is_made(&self) -> bool
        ensures { result ≡ is_made_in self.now.object }
    {
        match &self.state {
            Some(state) => state.is_made(),
            None => false,
        }
    }

    /// The tree, where the allocation is made.
    pub fn tree(&self) -> Option<&LazyTree>
        ensures tree { option_map (λ t. t.now) result ≡ self.now.tree }
        ensures eager { option_map eager_of self.now.tree ≡ option_map (λ m. m.tree) self.now.object.made }
    {
        match &self.state {
            Some(state) => state.tree(),
            None => None,
        }
    }

    /// Takes all memory that `run` needs for this request.
    ///
    /// # Errors
    ///
    /// `NoMemory`: out of memory. The object and a request that is ready stay.
    pub fn prepare(&mut self, alloc: Global, request: &Request) -> Result<(), NoMemory>
        requires { IsTrue (fits request.now) }
        ensures ok { OnOk result (self.new.ready ≡ Some request.now) }
        ensures err { OnErr result (self.new.ready ≡ self.old.ready) }
        ensures object { self.new.object ≡ self.old.object }
        ensures stands { option_map eager_of self.old.tree ≡ option_map (λ m. m.tree) self.old.object.made }
        ensures counted { IsPrepareCounted self.old.object.number self.old.object.made self.old.tree self.new.tree request.now }
    {
        match &mut self.state {
            Some(state) => state.prepare(alloc, request),
            None => {
                let mut state = Box::new(alloc, ObjectState::new(self.number))?;
                let prepared = state.prepare(alloc, request);
                self.state = Some(state);
                prepared
            }
        }
    }

    /// Answers the request that is ready. It takes no memory.
    pub fn run(&mut self, alloc: Global, request: &Request, stamp: Stamp) -> Ran
        requires ready { self.old.ready ≡ Some request.now }
        requires newest { AreBelow stamp.0 self.old.object }
        requires fitting { IsTrue (fits request.now) }
        ensures request { result.request ≡ request.now }
        ensures reply { result.reply ≡ (answer self.old.object request.now stamp).reply }
        ensures again { result.again ≡ result.reply }
        ensures object { self.new.object ≡ (answer self.old.object request.now stamp).object }
        ensures ready { self.new.ready ≡ None }
        ensures stands { option_map eager_of self.old.tree ≡ option_map (λ m. m.tree) self.old.object.made }
        ensures counted { IsRunCounted self.old.object.number self.old.object.made self.old.tree self.new.tree request.now result.reply.verdict }
    {
        match &mut self.state {
            Some(state) => state.run(alloc, request, stamp),
            None => unreachable!(),
        }
    }
}
