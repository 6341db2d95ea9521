//! The log of one allocation.
ghost use Rattle.std.specs.Prelude.{◌≡◌, ◌∷◌, ◌++◌, [], ◌<◌, ◌≤◌, All, IsTrue, OnOk, OnErr, Some, None, true, false};
ghost use Rattle.std.specs.Option.{option_map};
ghost use Rattle.history.specs.Objects.{answer, unmade};
ghost use Rattle.lazy_tree.specs.Eager.{eager_of};
ghost use Rattle.history.specs.Histories.{HasBytes, replay, fits, is_make, IsHistory};
ghost use Rattle.alloc_state.specs.Log.{has_make};
ghost use Rattle.alloc_state.specs.Repeats.{IsStillAfter, HasCutsBy, IsWithinRepeat, visits_of};

use crate::boxed_state::BoxedState;
use bsan_ids::{AllocNo, ListOf, NoMemory, Stamp, ThreadNo};
use history::{Entry, Logged, Request};
use lazy_tree::LazyTree;
use std::alloc::Global;
use std::marker::Model;

/// The entries of one allocation, what it is after them, and the memory for the request that was
/// prepared.
///
/// The entries are a legal history: their stamps rise, they name this allocation, it is made once at
/// most, and each reply is the answer of the allocation after the entries before it. Before it is made
/// its number can be asked already; all but a Make are then answered as for a number never made.
#[derive(Drop)]
pub struct AllocState {
    number: AllocNo,
    entries: Vec<Entry>,
    state: BoxedState,
}

impl Model for AllocState {
    ghost use Rattle.alloc_state.specs.Log.{Log, IsKept};

    ghost Value = { Log };

    ghost use Rattle.alloc_state.specs.Repeats.{visits_of};

    ghost view = { λ l. record { number = l.number; entries = l.entries.items; ready = l.state.ready; visits = visits_of l.state.tree } };

    ghost invariant = { λ l. IsKept l.number.0 l.entries l.state };
}

impl Logged for AllocState {
    ghost number = { λ s. s.number.0 };

    ghost entries = { λ s. s.entries };
}

impl AllocState {
    /// A number that was never made, without entries. It takes no memory.
    pub fn unmade(alloc: Global, number: AllocNo) -> AllocState
        ensures { result ≡ record { number = number; entries = []; ready = None; visits = 0 } }
    {
        AllocState {
            number,
            entries: Vec::new(alloc),
            state: BoxedState::new(number),
        }
    }

    /// Takes all memory that `commit` needs for this request, for the copy that it answers too. The
    /// counter of the tree may rise: for a repeat of the last access, where that was neither refused nor
    /// denied, by at most the ring of its node times the pieces of its span.
    ///
    /// # Errors
    ///
    /// `NoMemory`: out of memory. The entries and a request that was prepared before stay.
    // inlined, since it is little beside the call of the object
    #[inline(always)]
    pub fn prepare(&mut self, request: &Request) -> Result<(), NoMemory>
        requires { IsTrue (fits request.now) }
        ensures ok { OnOk result (self.new ≡ record self.old { ready = Some request.now; visits = self.new.visits }) }
        ensures err { OnErr result (self.new ≡ record self.old { visits = self.new.visits }) }
        ensures rises { self.old.visits ≤ self.new.visits }
        ensures repeat { IsWithinRepeat (replay (unmade self.old.number.0) self.old.entries) self.old.entries request.now self.old.visits self.new.visits }
    {
        self.entries.reserve(1)?;
        let alloc = *self.entries.allocator();
        self.state.prepare(alloc, request)
    }

    /// Appends the entry of a step with the allocation's reply, and answers a copy of the entry.
    ///
    /// The request is the one that was prepared last, the stamp above those of all entries, and a Make
    /// comes only where there is none among them. It takes no memory. A repeat of the last access, where
    /// that was neither refused nor denied, raises the counter of the tree by at most the ring of its node
    /// times the pieces of its span.
    // inlined, since a call moves the request and the entry once more
    #[inline(always)]
    pub fn commit(&mut self, thread: ThreadNo, stamp: Stamp, site: u32, request: Request) -> Entry
        requires ready { self.old.ready ≡ Some request }
        requires later { All (λ e. e.stamp.0 < stamp.0) self.old.entries }
        requires fitting { IsTrue (fits request) }
        requires bytes { HasBytes request }
        requires once { is_make request ≡ true → has_make self.old.entries ≡ false }
        ensures entry { result ≡ record { thread = thread; stamp = stamp; site = site; alloc = Some self.old.number; request = request; reply = (answer (replay (unmade self.old.number.0) self.old.entries) request stamp).reply } }
        ensures history { IsHistory self.new.number.0 self.new.entries }
        ensures bytes { All (λ e. HasBytes e.request) self.new.entries }
        ensures appended { self.new ≡ record { number = self.old.number; entries = self.old.entries ++ result ∷ []; ready = None; visits = self.new.visits } }
        ensures rises { self.old.visits ≤ self.new.visits }
        ensures repeat { IsWithinRepeat (replay (unmade self.old.number.0) self.old.entries) self.old.entries request self.old.visits self.new.visits }
    {
        let number = self.number;
        let alloc = *self.entries.allocator();
        let ran = self.state.run(alloc, &request, stamp);
        self.entries.push_reserved(Entry {
            thread,
            stamp,
            site,
            alloc: Some(number),
            request,
            reply: ran.reply,
        });
        Entry {
            thread,
            stamp,
            site,
            alloc: Some(number),
            request: ran.request,
            reply: ran.again,
        }
    }

    /// The entries, oldest first: a legal history.
    pub fn entries(&self) -> &[Entry]
        ensures value { result.now ≡ self.now.entries }
        ensures history { IsHistory self.now.number.0 result.now }
    {
        &self.entries
    }

    /// Whether the allocation is made, as it is where one of the entries is a Make.
    pub fn is_made(&self) -> bool
        ensures { result ≡ has_make self.now.entries }
    {
        self.state.is_made()
    }

    /// The tree, which stands for that of the entries' replay, and `None` where the allocation isn't made.
    /// An access that was the last entry, and was neither refused nor denied, changes nothing of it when it
    /// is repeated. Its cuts are the first and end offsets of the entries' accesses and retags.
    pub fn tree(&self) -> Option<&LazyTree>
        ensures tree { option_map (λ t. eager_of t.now) result ≡ option_map (λ m. m.tree) (replay (unmade self.now.number.0) self.now.entries).made }
        ensures still { IsStillAfter self.now.entries (option_map (λ t. t.now) result) }
        ensures cuts { HasCutsBy self.now.entries (option_map (λ t. t.now) result) }
        ensures visits { visits_of (option_map (λ t. t.now) result) ≡ self.now.visits }
    {
        self.state.tree()
    }

    /// The allocation's number.
    pub fn number(&self) -> AllocNo
        ensures { result ≡ self.now.number }
    {
        self.number
    }

    /// The entries, oldest first: a legal history. The rest is given up.
    pub fn into_entries(self) -> ListOf<Entry>
        ensures value { result ≡ self.entries }
        ensures history { IsHistory self.number.0 result }
    {
        ListOf::from_vec(self.entries)
    }
}
