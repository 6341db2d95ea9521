//! The tree of one allocation, and its steps.
ghost use Rattle.std.specs.Prelude.{◌≡◌, ◌+◌, ◌≤◌, ◌<◌, ◌↔◌, All, IsTrue, IfOk, IsOk, OnOk, OnErr, length, [], ◌∷◌, ◌++◌, vec_len, vec_capacity};
ghost use Rattle.eager_tree.specs.Sweeps.{denial_in, visited};
ghost use Rattle.eager_tree.specs.Visit.{visit_unless as done_unless};
ghost use Rattle.std.specs.Option.{option_or};
ghost use Rattle.eager_tree.specs.Tree.{new_tree, is_node, with_root};
ghost use Rattle.eager_tree.specs.Steps.{access as access_of, retag as retag_of, end_protector as end_of, free_all as free_of, strong_free};

use crate::node::{Cell, Node};
use crate::sweep::{Sweep, are_older, cells_of, fill, free_guard, holds_tag, strongly_held};
use crate::violation::Violation;
use bsan_ids::{Copied, ListOf, NoMemory, Span, Tag, copy_vec};
use perm_table::{Guard, Kind, Perm, RetagKind, start};
use std::alloc::Global;
use std::marker::Model;

/// A tree of tags with a cell for each node and byte, and the room that it has for a further node.
///
/// Tags rise along the nodes, and each node but the root has its parent before it. A step that the
/// tree denies leaves the tree as it was; the violation names the least offset with a denial, then
/// the least tag there, with that node's state before the step.
#[derive(Drop)]
pub struct EagerTree {
    size: u32,
    nodes: Vec<Node>,
    /// The cells of a node to come, for which `nodes` has room too.
    ready: Option<ListOf<Cell>>,
}

impl Model for EagerTree {
    ghost use Rattle.eager_tree.specs.Roomy.{Roomy, IsKept, spare_of};

    ghost Value = { Roomy };

    ghost view = { λ t. record { tree = record { size = t.size; nodes = t.nodes.items }; spare = spare_of t.ready } };

    ghost invariant = { λ t. IsKept t.size t.nodes t.ready };
}

/// Does the visit through the node `parent` and appends a node, for which there is room.
fn add_child(nodes: &mut Vec<Node>, sweep: Sweep, size: u32, parent: Tag, child: Node)
    requires sized { All (λ n. length n.cells ≡ size) nodes.old.items }
    requires room { vec_len nodes.old < vec_capacity nodes.old }
    ensures items { nodes.new.items ≡ visited sweep parent nodes.old.items ++ child ∷ [] }
    ensures len { vec_len nodes.new ≡ vec_len nodes.old + 1 }
    ensures capacity { vec_capacity nodes.new ≡ vec_capacity nodes.old }
{
    sweep.apply(nodes, parent, size);
    nodes.push_reserved(child);
}

impl EagerTree {
    /// The tree of an allocation of `size` bytes, at least one, with a root that may do all.
    pub fn new(alloc: Global, root: Tag, size: u32) -> Result<EagerTree, NoMemory>
        requires { 1 ≤ size }
        ensures { IfOk result (λ t. t ≡ record { tree = new_tree size root; spare = 0 }) }
    {
        let cell = Cell {
            perm: Perm::Unique,
            accessed: true,
        };
        let node = Node {
            tag: root,
            parent: None,
            guard: Guard::Free,
            cells: ListOf::repeated(alloc, cell, size)?,
        };
        let mut nodes = Vec::with_capacity(alloc, 1)?;
        nodes.push_reserved(node);
        Ok(EagerTree {
            size,
            nodes,
            ready: None,
        })
    }

    /// Whether a node has this tag.
    pub fn has(&self, tag: Tag) -> bool
        ensures { result ≡ is_node self.now.tree tag }
    {
        holds_tag(&self.nodes, tag)
    }

    /// How many bytes the allocation has.
    pub fn size(&self) -> u32
        ensures { result ≡ self.now.tree.size }
    {
        self.size
    }

    /// Whether a tag is greater than each tag of the tree, as that of a new node must be.
    pub fn is_newer(&self, tag: Tag) -> bool
        ensures { IsTrue result ↔ All (λ n. n.tag.0 < tag.0) self.now.tree.nodes }
    {
        are_older(&self.nodes, tag)
    }

    /// An access through a node, on at least one byte of the allocation.
    pub fn access(&mut self, tag: Tag, span: Span, kind: Kind) -> Option<Violation>
        requires node { IsTrue (is_node self.old.tree tag) }
        requires some { 1 ≤ span.len }
        requires within { span.start + span.len ≤ self.old.tree.size }
        ensures answer { (result, self.new.tree) ≡ access_of self.old.tree tag span kind }
        ensures spare { self.new.spare ≡ self.old.spare }
        ensures size { self.new.tree.size ≡ self.old.tree.size }
    {
        let sweep = Sweep::Access { span, kind };
        let denial = sweep.denial(&self.nodes, tag, self.size);
        self.visit_unless(denial, sweep, tag)
    }

    /// Reads the span through `parent` and, where that is not denied, adds a child of it. The child
    /// begins with one state on all bytes, and counts the bytes of the span alone as accessed.
    ///
    /// The span is at least one byte of the allocation, and the tag greater than each of the tree.
    ///
    /// # Errors
    ///
    /// `NoMemory`: out of memory. The tree stays as it was.
    pub fn retag(
        &mut self,
        parent: Tag,
        span: Span,
        kind: RetagKind,
        guard: Guard,
        tag: Tag,
    ) -> Result<Option<Violation>, NoMemory>
        requires node { IsTrue (is_node self.old.tree parent) }
        requires some { 1 ≤ span.len }
        requires within { span.start + span.len ≤ self.old.tree.size }
        requires newest { All (λ n. n.tag.0 < tag.0) self.old.tree.nodes }
        ensures ok { IfOk result (λ answer. (answer, self.new.tree) ≡ retag_of self.old.tree parent span kind guard tag) }
        ensures err { OnErr result (self.new ≡ self.old) }
        ensures spare { self.new.spare ≡ self.old.spare }
        ensures size { self.new.tree.size ≡ self.old.tree.size }
    {
        let sweep = Sweep::Access {
            span,
            kind: Kind::Read,
        };
        if let Some(violation) = sweep.denial(&self.nodes, parent, self.size) {
            return Ok(Some(violation));
        }
        let alloc = *self.nodes.allocator();
        let cells = cells_of(alloc, start(kind, guard), span, self.size)?;
        // one for the child, and one so that the room which `reserve_node` made stays
        self.nodes.reserve(2)?;
        let child = Node::child(parent, tag, guard, cells);
        add_child(&mut self.nodes, sweep, self.size, parent, child);
        Ok(None)
    }

    /// Ends the protector of a node. Each byte that the node has accessed is read through it, or
    /// written where the node is Unique there, at all nodes but its strict descendants; a byte where
    /// it is Disabled is left alone. Where none of this is denied the node's guard is Free after it.
    pub fn end_protector(&mut self, tag: Tag) -> Option<Violation>
        requires node { IsTrue (is_node self.old.tree tag) }
        ensures answer { (result, self.new.tree) ≡ end_of self.old.tree tag }
        ensures spare { self.new.spare ≡ self.old.spare }
        ensures size { self.new.tree.size ≡ self.old.tree.size }
    {
        let denial = Sweep::EndProtector.denial(&self.nodes, tag, self.size);
        if denial.is_none() {
            Sweep::EndProtector.apply(&mut self.nodes, tag, self.size);
            free_guard(&mut self.nodes, tag);
        }
        denial
    }

    /// Frees the allocation through a node: a write on all bytes. Where that is not denied, it is a
    /// violation still if a node with a strong guard has accessed a byte.
    pub fn free_all(&mut self, tag: Tag) -> Option<Violation>
        requires node { IsTrue (is_node self.old.tree tag) }
        ensures answer { (result, self.new.tree) ≡ free_of self.old.tree tag }
        ensures spare { self.new.spare ≡ self.old.spare }
        ensures size { self.new.tree.size ≡ self.old.tree.size }
    {
        let span = Span {
            start: 0,
            len: self.size,
        };
        let sweep = Sweep::Access {
            span,
            kind: Kind::Write,
        };
        let denial = self.denial_of_free(sweep, tag);
        self.visit_unless(denial, sweep, tag)
    }

    /// What forbids a free: a denial of its write, or else a strongly guarded node's accessed byte.
    fn denial_of_free(&self, write: Sweep, tag: Tag) -> Option<Violation>
        ensures { result ≡ option_or (denial_in write tag self.now.tree.size self.now.tree.nodes) (strong_free self.now.tree) }
    {
        match write.denial(&self.nodes, tag, self.size) {
            None => strongly_held(&self.nodes, self.size),
            denial => denial,
        }
    }

    /// Does the visit through a node, unless there is a denial, and answers the denial.
    fn visit_unless(
        &mut self,
        denial: Option<Violation>,
        sweep: Sweep,
        tag: Tag,
    ) -> Option<Violation>
        ensures answer { (result, self.new.tree) ≡ done_unless denial (visited sweep tag self.old.tree.nodes) self.old.tree }
        ensures spare { self.new.spare ≡ self.old.spare }
        ensures size { self.new.tree.size ≡ self.old.tree.size }
    {
        if denial.is_none() {
            sweep.apply(&mut self.nodes, tag, self.size);
        }
        denial
    }

    /// Gives the root, where it is the only node, another tag.
    pub fn set_root(&mut self, root: Tag)
        requires alone { length self.old.tree.nodes ≡ 1 }
        ensures { self.new ≡ record self.old { tree = with_root root self.old.tree } }
    {
        self.nodes[0].tag = root;
    }

    /// Makes room for one node, so that `retag_reserved` takes no memory, where there is none yet.
    ///
    /// # Errors
    ///
    /// `NoMemory`: out of memory, where there was no room. The tree stays as it was.
    pub fn reserve_node(&mut self) -> Result<(), NoMemory>
        ensures ok { OnOk result (1 ≤ self.new.spare) }
        ensures succeeds { 1 ≤ self.old.spare → IsOk result }
        ensures tree { self.new.tree ≡ self.old.tree }
        ensures spare { self.old.spare ≤ self.new.spare }
    {
        if self.ready.is_some() {
            return Ok(());
        }
        let alloc = *self.nodes.allocator();
        let cell = Cell {
            perm: Perm::Reserved,
            accessed: false,
        };
        let cells = ListOf::repeated(alloc, cell, self.size)?;
        self.nodes.reserve(1)?;
        self.ready = Some(cells);
        Ok(())
    }

    /// A retag, as `retag`, that uses the room which was made for a node.
    pub fn retag_reserved(
        &mut self,
        parent: Tag,
        span: Span,
        kind: RetagKind,
        guard: Guard,
        tag: Tag,
    ) -> Option<Violation>
        requires node { IsTrue (is_node self.old.tree parent) }
        requires some { 1 ≤ span.len }
        requires within { span.start + span.len ≤ self.old.tree.size }
        requires newest { All (λ n. n.tag.0 < tag.0) self.old.tree.nodes }
        requires room { 1 ≤ self.old.spare }
        ensures answer { (result, self.new.tree) ≡ retag_of self.old.tree parent span kind guard tag }
        ensures spare { self.old.spare ≤ self.new.spare + 1 }
        ensures size { self.new.tree.size ≡ self.old.tree.size }
    {
        let sweep = Sweep::Access {
            span,
            kind: Kind::Read,
        };
        if let Some(violation) = sweep.denial(&self.nodes, parent, self.size) {
            return Some(violation);
        }
        let Some(mut cells) = self.ready.take() else {
            unreachable!()
        };
        fill(&mut cells, start(kind, guard), span, self.size);
        let child = Node::child(parent, tag, guard, cells);
        add_child(&mut self.nodes, sweep, self.size, parent, child);
        None
    }
}

impl Copied for EagerTree {
    fn copy(&self) -> Result<EagerTree, NoMemory> {
        Ok(EagerTree {
            size: self.size,
            nodes: copy_vec(&self.nodes)?,
            ready: self.ready.copy()?,
        })
    }
}
