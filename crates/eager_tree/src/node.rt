//! The nodes of a tree, and what one access makes of a node.
ghost use Rattle.std.specs.Prelude.{◌≡◌, Some};

use crate::violation::Violation;
use bsan_ids::{Copied, ListOf, NoMemory, Tag};
use perm_table::{Guard, Kind, Outcome, Perm, step};

/// What a node may do with one byte, and whether an access was local to it there.
#[derive(Clone, Copy, Debug, PartialEq, Eq)]
pub struct Cell {
    pub perm: Perm,
    pub accessed: bool,
}

/// It takes no memory.
impl Copied for Cell {
    fn copy(&self) -> Result<Cell, NoMemory> {
        Ok(*self)
    }
}

/// A node: its tag, the tag of its parent, its guard, and a cell for each byte of the allocation.
/// The root alone has no parent.
#[derive(Drop)]
pub struct Node {
    pub tag: Tag,
    pub parent: Option<Tag>,
    pub guard: Guard,
    pub cells: ListOf<Cell>,
}

impl Node {
    ghost use Rattle.eager_tree.specs.Visit.{denial as denial_of_node, next_node, only_at};
    ghost use Rattle.eager_tree.specs.Steps.{strong_at, freed_guard};

    /// A child of the node `parent`.
    pub fn child(parent: Tag, tag: Tag, guard: Guard, cells: ListOf<Cell>) -> Node
        ensures { result ≡ record { tag = tag; parent = Some parent; guard = guard; cells = cells } }
    {
        Node {
            tag,
            parent: Some(parent),
            guard,
            cells,
        }
    }

    /// The denial of an access of this kind at `offset`, if the node denies it.
    pub fn denial(&self, local: bool, kind: Kind, offset: u32) -> Option<Violation>
        ensures { result ≡ denial_of_node self.now local kind offset }
    {
        let cell = self.cells.get(offset as usize)?;
        match step(cell.perm, cell.accessed, self.guard, local, kind) {
            Outcome::Next { .. } => None,
            Outcome::Denied => Some(Violation::Denied {
                offset,
                node: self.tag,
                perm: cell.perm,
                local,
            }),
        }
    }

    /// Does an access of this kind at `offset`. A denied one changes nothing.
    pub fn apply(&mut self, local: bool, kind: Kind, offset: u32)
        ensures { self.new ≡ next_node (only_at offset kind) local self.old }
    {
        let Some(cell) = self.cells.get(offset as usize) else {
            return;
        };
        if let Outcome::Next { perm, accessed } = step(
            cell.perm,
            cell.accessed,
            self.guard,
            local,
            kind,
        ) {
            self.cells.set(offset as usize, Cell { perm, accessed });
        }
    }

    /// What this node has against a free: a strong guard, where it has accessed `offset`.
    pub fn strong(&self, offset: u32) -> Option<Violation>
        ensures { result ≡ strong_at offset self.now }
    {
        let cell = self.cells.get(offset as usize)?;
        if self.guard == Guard::Strong && cell.accessed {
            Some(Violation::StrongFree {
                offset,
                node: self.tag,
                perm: cell.perm,
            })
        } else {
            None
        }
    }

    /// Takes the guard from the node, if it has this tag.
    pub fn release(&mut self, tag: Tag)
        ensures { self.new ≡ freed_guard tag self.old }
    {
        if self.tag == tag {
            self.guard = Guard::Free;
        }
    }
}

impl Copied for Node {
    fn copy(&self) -> Result<Node, NoMemory> {
        Ok(Node {
            tag: self.tag,
            parent: self.parent,
            guard: self.guard,
            cells: self.cells.copy()?,
        })
    }
}
