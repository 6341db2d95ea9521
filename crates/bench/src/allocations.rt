//! Steps on an allocation with many reborrows.
ghost use Rattle.std.specs.Prelude.{◌≡◌, ◌≤◌, ◌<◌, All, IsTrue, false, true};
ghost use Rattle.history.specs.Histories.{HasBytes, fits, is_make};
ghost use Rattle.ir_ast.specs.Sizes.{most_size};
ghost use Rattle.alloc_state.specs.Log.{has_make};

use alloc_state::AllocState;
use bsan_ids::{AllocNo, NoMemory, Prov, Stamp, Tag, ThreadNo};
use history::Request;
use ir_ast::{Place, Ty, Width};
use perm_table::{Guard, RetagKind};
use std::alloc::Global;

const NUMBER: AllocNo = AllocNo(1);

const WORD: Ty = Ty::Int(Width::W64);

/// An allocation that is asked one step after another, and the stamp of the next step.
#[derive(Drop)]
pub struct Asked {
    state: AllocState,
    next: u64,
    ghost older: { All (λ e. e.stamp.0 < next) state.entries },
}

/// A provenance through which allocation 1 is used.
fn through(tag: u64) -> Option<Prov> {
    Some(Prov {
        alloc: NUMBER,
        tag: Tag(tag),
    })
}

impl Asked {
    /// An allocation of `size` bytes. Its Make has the stamp 1.
    ///
    /// # Errors
    ///
    /// `NoMemory`: out of memory.
    pub fn new(alloc: Global, size: u32) -> Result<Asked, NoMemory>
        requires some { 1 ≤ size }
        requires bound { size ≤ most_size }
    {
        let mut asked = Asked {
            state: AllocState::unmade(alloc, NUMBER),
            next: 1,
        };
        let make = Request::Make {
            size,
            place: Place::Heap,
        };
        asked.ask(make)?;
        Ok(asked)
    }

    // Asks the next step, and answers its stamp.
    fn ask(&mut self, request: Request) -> Result<u64, NoMemory>
        requires fitting { IsTrue (fits request) }
        requires bytes { HasBytes request }
        requires once { is_make request ≡ true → has_make self.old.state.entries ≡ false }
    {
        let stamp = self.next;
        let Some(next) = stamp.checked_add(1) else {
            return Err(NoMemory);
        };
        self.state.prepare(&request)?;
        let _ = self.state.commit(ThreadNo(0), Stamp(stamp), 0, request);
        self.next = next;
        Ok(stamp)
    }

    /// Reborrows the first eight bytes through a node, and answers the new node.
    ///
    /// # Errors
    ///
    /// `NoMemory`: out of memory.
    pub fn reborrow(&mut self, parent: u64) -> Result<u64, NoMemory> {
        self.ask(Request::Retag {
            at: 0,
            len: 8,
            kind: RetagKind::Mut,
            guard: Guard::Free,
            prov: through(parent),
        })
    }

    /// Writes the first eight bytes through a node.
    ///
    /// # Errors
    ///
    /// `NoMemory`: out of memory.
    pub fn write(&mut self, tag: u64) -> Result<u64, NoMemory> {
        self.ask(Request::Store {
            at: 0,
            ty: WORD,
            value: tag,
            carried: None,
            prov: through(tag),
        })
    }

    /// Reads the first eight bytes through a node.
    ///
    /// # Errors
    ///
    /// `NoMemory`: out of memory.
    pub fn read(&mut self, tag: u64) -> Result<u64, NoMemory> {
        self.ask(Request::Load {
            at: 0,
            ty: WORD,
            prov: through(tag),
        })
    }

    /// The counter of the allocation's tree.
    pub fn visits(&self) -> u64 {
        match self.state.tree() {
            Some(tree) => tree.visits(),
            None => 0,
        }
    }
}

/// Writes `steps` times through the last of `depth` nodes, each a reborrow of the one before.
///
/// # Errors
///
/// `NoMemory`: out of memory.
pub fn chain(alloc: Global, depth: u32, steps: u32) -> Result<Asked, NoMemory> {
    let mut asked = Asked::new(alloc, 8)?;
    let mut last = 1;
    for _node in 0..depth {
        last = asked.reborrow(last)?;
    }
    for _step in 0..steps {
        asked.write(last)?;
    }
    Ok(asked)
}

/// Reads `steps` times through the first of `count` children of the root.
///
/// # Errors
///
/// `NoMemory`: out of memory.
pub fn siblings(alloc: Global, count: u32, steps: u32) -> Result<Asked, NoMemory> {
    let mut asked = Asked::new(alloc, 8)?;
    for _node in 0..count {
        asked.reborrow(1)?;
    }
    for _step in 0..steps {
        asked.read(2)?;
    }
    Ok(asked)
}

/// Writes `steps` times through the root of an allocation of `size` bytes.
///
/// # Errors
///
/// `NoMemory`: out of memory.
pub fn plain(alloc: Global, size: u32, steps: u32) -> Result<Asked, NoMemory>
    requires some { 1 ≤ size }
    requires bound { size ≤ most_size }
{
    let mut asked = Asked::new(alloc, size)?;
    for _step in 0..steps {
        asked.write(1)?;
    }
    Ok(asked)
}
