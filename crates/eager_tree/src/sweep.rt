//! One visit of a tree's nodes and bytes: what it would deny, and what it leaves.
ghost use Rattle.std.specs.Prelude.{◌≡◌, ◌<◌, ◌==◌, length, ◌↔◌, IsTrue, All, map, IfOk, None, Some};
ghost use Rattle.eager_tree.specs.Tree.{links, has_tag, parent_in, is_on_path};
ghost use Rattle.eager_tree.specs.Visit.{first_in, first_below, denial, next_nodes, denial_by, only_at};
ghost use Rattle.eager_tree.specs.Steps.{implicit_kind, cell_at, is_within, new_cells, freed_guard, strong_at};
ghost use Rattle.eager_tree.specs.Sweeps.{kinds_of, reaches_of, denial_in, visited};

use crate::node::{Cell, Node};
use crate::violation::Violation;
use bsan_ids::{ListOf, NoMemory, Span, Tag};
use perm_table::{Kind, Perm};
use std::alloc::Global;

/// What a visit does at each byte, and which nodes it reaches.
#[derive(Clone, Copy)]
pub enum Sweep {
    Access { span: Span, kind: Kind },
    EndProtector,
}

/// Whether a node has this tag.
pub fn holds_tag(nodes: &[Node], tag: Tag) -> bool
    ensures { result ≡ has_tag (links nodes.now) tag }
{
    for node in nodes {
        if node.tag == tag {
            return true;
        }
    }
    false
}

/// Whether each node's tag is less than this one.
pub fn are_older(nodes: &[Node], tag: Tag) -> bool
    ensures { IsTrue result ↔ All (λ n. n.tag.0 < tag.0) nodes.now }
{
    nodes.iter().all(|node| node.tag.0 < tag.0)
}

/// The parent of the node with this tag.
pub fn parent_of(nodes: &[Node], tag: Tag) -> Option<Tag>
    ensures { result ≡ parent_in (links nodes.now) tag }
{
    for node in nodes {
        if node.tag == tag {
            return node.parent;
        }
    }
    None
}

/// Whether `above` is `tag` or an ancestor of it.
pub fn on_path(nodes: &[Node], tag: Tag, above: Tag) -> bool
    ensures { result ≡ is_on_path (links nodes.now) tag above }
{
    let mut at = tag;
    for _ in 0..nodes.len() {
        if at == above {
            return true;
        }
        match parent_of(nodes, at) {
            Some(parent) => at = parent,
            None => return false,
        }
    }
    at == above
}

/// The state at one byte of the node with this tag.
fn find_cell(nodes: &[Node], tag: Tag, offset: u32) -> Option<Cell>
    ensures { result ≡ cell_at nodes.now tag offset }
{
    for node in nodes {
        if node.tag == tag {
            return node.cells.get(offset as usize).copied();
        }
    }
    None
}

/// The access that the end of a protector makes at a byte of its node.
fn at_end(cell: Cell) -> Option<Kind>
    ensures { result ≡ implicit_kind cell }
{
    match cell.perm {
        _ if !cell.accessed => None,
        Perm::Unique => Some(Kind::Write),
        Perm::Disabled | Perm::Cell => None,
        Perm::Reserved | Perm::Conflicted | Perm::CellReserved | Perm::Frozen => Some(Kind::Read),
    }
}

/// Whether a byte lies in the span.
fn is_inside(span: Span, offset: u32) -> bool
    ensures { result ≡ is_within span offset }
{
    span.start <= offset && offset - span.start < span.len
}

/// The cells of a new node.
pub fn cells_of(alloc: Global, perm: Perm, span: Span, size: u32) -> Result<ListOf<Cell>, NoMemory>
    ensures { IfOk result (λ cells. cells ≡ new_cells perm span 0 size) }
{
    let cell = Cell {
        perm,
        accessed: false,
    };
    let mut cells = ListOf::repeated(alloc, cell, size)?;
    fill(&mut cells, perm, span, size);
    Ok(cells)
}

/// Makes the cells those of a new node.
pub fn fill(cells: &mut ListOf<Cell>, perm: Perm, span: Span, size: u32)
    requires { length cells.old ≡ size }
    ensures { cells.new ≡ new_cells perm span 0 size }
{
    for offset in 0..size {
        let accessed = is_inside(span, offset);
        cells.set(offset as usize, Cell { perm, accessed });
    }
}

/// Takes the guard from the node with this tag.
pub fn free_guard(nodes: &mut [Node], tag: Tag)
    ensures { nodes.new ≡ map (freed_guard tag) nodes.old }
{
    for i in 0..nodes.len() {
        let node = &mut nodes[i];
        node.release(tag);
    }
}

/// The first node with a strong guard and this byte accessed.
fn strong_node(nodes: &[Node], offset: u32) -> Option<Violation>
    ensures { result ≡ first_in (strong_at offset) nodes.now }
{
    for node in nodes {
        if let Some(violation) = node.strong(offset) {
            return Some(violation);
        }
    }
    None
}

/// The first byte that a strongly guarded node has accessed.
pub fn strongly_held(nodes: &[Node], size: u32) -> Option<Violation>
    ensures { result ≡ first_below (λ offset. first_in (strong_at offset) nodes.now) size }
{
    for offset in 0..size {
        if let Some(violation) = strong_node(nodes, offset) {
            return Some(violation);
        }
    }
    None
}

impl Sweep {
    /// What the visit does at a byte, if anything.
    fn kind_at(self, nodes: &[Node], tag: Tag, offset: u32) -> Option<Kind>
        ensures { result ≡ kinds_of self nodes.now tag offset }
    {
        match self {
            Sweep::Access { span, kind } => { is_inside(span, offset).then_some(kind) }
            Sweep::EndProtector => at_end(find_cell(nodes, tag, offset)?),
        }
    }

    /// Whether the visit reaches the node `other`.
    fn reaches(self, nodes: &[Node], tag: Tag, other: Tag) -> bool
        ensures { result ≡ reaches_of self (links nodes.now) tag other }
    {
        match self {
            Sweep::Access { .. } => true,
            Sweep::EndProtector => tag == other || !on_path(nodes, other, tag),
        }
    }

    /// The first denial at a byte, along the tags.
    fn denial_for_kind(self, nodes: &[Node], tag: Tag, offset: u32, kind: Kind) -> Option<Violation>
        ensures { result ≡ first_in (denial_by (reaches_of self (links nodes.now) tag) (links nodes.now) tag kind offset) nodes.now }
    {
        for node in nodes {
            if self.reaches(nodes, tag, node.tag) {
                let local = on_path(nodes, tag, node.tag);
                if let Some(violation) = node.denial(local, kind, offset) {
                    return Some(violation);
                }
            }
        }
        None
    }

    /// The first denial of the visit, by offset and then by tag.
    pub fn denial(self, nodes: &[Node], tag: Tag, size: u32) -> Option<Violation>
        ensures { result ≡ denial_in self tag size nodes.now }
    {
        for offset in 0..size {
            if let Some(kind) = self.kind_at(nodes, tag, offset) {
                if let Some(violation) = self.denial_for_kind(nodes, tag, offset, kind) {
                    return Some(violation);
                }
            }
        }
        None
    }

    /// Does the visit at one byte.
    fn apply_at(self, nodes: &mut [Node], tag: Tag, offset: u32, kind: Kind)
        ensures { nodes.new ≡ next_nodes (only_at offset kind) (reaches_of self (links nodes.old) tag) (links nodes.old) tag nodes.old }
    {
        for i in 0..nodes.len() {
            let other = nodes[i].tag;
            if self.reaches(nodes, tag, other) {
                let local = on_path(nodes, tag, other);
                let node = &mut nodes[i];
                node.apply(local, kind, offset);
            }
        }
    }

    /// Does the visit.
    pub fn apply(self, nodes: &mut [Node], tag: Tag, size: u32)
        requires { All (λ n. length n.cells ≡ size) nodes.old }
        ensures { nodes.new ≡ visited self tag nodes.old }
    {
        for offset in 0..size {
            if let Some(kind) = self.kind_at(nodes, tag, offset) {
                self.apply_at(nodes, tag, offset, kind);
            }
        }
    }
}
