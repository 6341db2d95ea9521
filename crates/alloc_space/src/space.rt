//! How a space begins and ends, and how its desks are split and joined.
ghost use Rattle.std.specs.Prelude.{◌≡◌, ℕ, suc, ◌+◌, ◌≤◌, [], Some, None, Contains, IfOk, slice_get, vec_len};
ghost use Rattle.turn_lock.specs.Rule.{newcomer};
ghost use Rattle.turn_lock.specs.Steps.{parted, child_of, joins};
ghost use Rattle.turn_lock.specs.Closing.{AreCounts, AreBlank, IsWhole};
ghost use Rattle.alloc_state.specs.Log.{Log};
ghost use Rattle.alloc_space.specs.Spaces.{AreCountable};

use alloc_state::AllocState;
use bsan_ids::{AllocNo, Counters, Limits, NoMemory, ThreadNo};
use std::alloc::Global;
use std::marker::Model;
use turn_lock::Turns;

/// A thread's desk: what it makes its steps with.
pub type Desk = turn_lock::Desk<AllocState>;

/// An allocation state for each number from 1 to the limit, each under a turn; the clock; and the
/// counts of allocation and thread numbers. A contract sees which table it is, and the limits.
pub struct Space {
    pub(crate) turns: Turns<AllocState>,
    pub(crate) limits: Limits,
    pub(crate) alloc: Global,
}

impl Model for Space {
    ghost use Rattle.alloc_space.specs.Spaces.{SpaceView, IsSpace};

    ghost Value = { SpaceView };

    ghost view = { λ s. record { table = s.turns; limits = s.limits } };

    ghost invariant = { λ s. IsSpace (record { table = s.turns; limits = s.limits }) };
}

impl Drop for Space {
    fn drop(self) {
        let Self {
            turns,
            limits: _,
            alloc: _,
        } = self;
        drop(turns);
    }
}

// A state for each number from 1 to `count`, none of them made.
fn unmade_states(alloc: Global, count: u32) -> Result<Vec<AllocState>, NoMemory>
    ensures many { IfOk result (λ all. vec_len all ≡ count) }
    ensures blank { IfOk result (λ all. AreBlank (λ (s : Log). s.number.0) (λ (s : Log). s.entries) all.items) }
{
    let mut all = Vec::with_capacity(alloc, count as usize)?;
    for k in 0..count {
        all.push(AllocState::unmade(alloc, AllocNo(k + 1)))?;
    }
    Ok(all)
}

impl Space {
    /// A space with a state for each number from 1 to the limit, none of them made, and its first
    /// desk, which has the name 0 and nothing else.
    pub fn new(alloc: Global, limits: &Limits) -> Result<(Space, Desk), NoMemory>
        requires { AreCountable limits.now }
        ensures limits { IfOk result (λ r. r.0.limits ≡ limits.now) }
        ensures desk { IfOk result (λ r. r.1 ≡ record { table = r.0.table; view = newcomer 0 0 [] }) }
    {
        let states = unmade_states(alloc, limits.allocs)?;
        let (turns, desk) = Turns::new(alloc, states)?;
        Ok((
            Space {
                turns,
                limits: *limits,
                alloc,
            },
            desk,
        ))
    }

    /// The limits with which it was made.
    pub fn limits(&self) -> &Limits
        ensures value { result.now ≡ self.now.limits }
        ensures countable { AreCountable result.now }
    {
        &self.limits
    }

    /// Splits a desk from this one, for a thread number that this one drew itself and has not been
    /// split for. The new desk has that number as its name; it has seen what its maker has seen, and
    /// is told of the calls that its maker made or was told of.
    pub fn split(&self, desk: &mut Desk, name: ThreadNo) -> Desk
        requires own { desk.old.table ≡ self.now.table }
        requires idle { desk.old.view.turn ≡ None }
        requires drawn { Contains desk.old.view.threads.own name.0 × (name.0 ≤ 1023) }
        requires unused { (¬ (Contains desk.old.view.outs name.0)) × (¬ (Contains desk.old.view.joined name.0)) }
        ensures parent { desk.new ≡ record { table = desk.old.table; view = parted desk.old.view name.0 } }
        ensures child { result ≡ record { table = desk.old.table; view = child_of desk.old.view name.0 } }
    {
        self.turns.split(desk, name)
    }

    /// Joins a desk back into the one from which it was split: its numbers, its calls and what it
    /// has seen are then this desk's too. Neither desk holds a turn, and nothing is out on the child.
    pub fn join(&self, desk: &mut Desk, child: Desk)
        requires own { (desk.old.table ≡ self.now.table) × (child.table ≡ self.now.table) }
        requires idle { (desk.old.view.turn ≡ None) × (child.view.turn ≡ None) }
        requires out { Contains desk.old.view.outs child.view.name }
        requires alone { child.view.outs ≡ [] }
        ensures { desk.new ≡ record { table = desk.old.table; view = joins desk.old.view child.view } }
    {
        self.turns.join(desk, child);
    }

    /// Ends the space. The desk that closes it is the first one, which holds no turn and has nothing
    /// out. The answer is how many numbers of each kind were drawn, of which each is one of the
    /// desk's, once, and the states: the k-th has the number k, and its entries rise by stamp and are
    /// exactly the desk's calls on k, each once. Out of memory all is given up.
    pub fn finish(self, desk: Desk) -> Result<(Counters, Vec<AllocState>), NoMemory>
        requires own { desk.table ≡ self.table }
        requires root { (desk.view.name ≡ 0) × (desk.view.turn ≡ None) × (desk.view.outs ≡ []) }
        ensures counts { IfOk result (λ r. AreCounts desk.view r.0.stamps r.0.allocs r.0.threads) }
        ensures numbers { IfOk result (λ r. vec_len r.1 ≡ self.limits.allocs) }
        ensures states { IfOk result (λ r. (k : ℕ) (x : Log) → slice_get r.1.items k ≡ Some x → IsWhole (λ (s : Log). s.number.0) (λ (s : Log). s.entries) desk.view (suc k) x) }
    {
        let Space {
            turns,
            limits: _,
            alloc,
        } = self;
        turns.close(alloc, desk)
    }
}
