//! The tree and its node calls, by which a crate above reads and changes it.
ghost use Rattle.std.specs.Prelude.{◌≡◌, ◌↔◌, ℕ, ◌+◌, ◌<◌, ◌≤◌, length, [], None, OnOk, OnErr, IfSome, MatchOption, IsTrue, IsFalse, vec_capacity, vec_len, nat_lt, MatchBool, ◌++◌, ◌∷◌};
ghost use Rattle.std.specs.List.{Contains};
ghost use Rattle.range_map.specs.Ranges.{IsRanges, has_start, with_start};
ghost use Rattle.eager_tree.specs.Tree.{is_node};
ghost use Rattle.lazy_tree.specs.Skip.{node_at, slot_at, run_after, with_runs, put_in, with_free, with_child, counted, MayPut, MayAdd, IsRootAlone, IsReady, IsSound, IsClear};
ghost use Rattle.lazy_tree.specs.Settled.{IsSettled};
ghost use Rattle.lazy_tree.specs.Eager.{eager_of, state_in};

use crate::slot::{Level, Slot};
use bsan_ids::{NoMemory, Span, Tag};
use perm_table::{Guard, Kind, Perm};
use range_map::RangeMap;
use std::alloc::Global;
use std::marker::Model;

/// A node of the tree. Other nodes are named by their place in the list.
#[derive(Drop)]
struct Node {
    tag: Tag,
    parent: Option<usize>,
    /// The node that a walk meets next.
    next: Option<usize>,
    /// The node that a walk meets next once it leaves the nodes below this one out.
    after: Option<usize>,
    guard: Guard,
    runs: RangeMap<Slot>,
}

/// How many accesses a tree has room to keep in mind: those of four threads that each go over four
/// spans, whatever their order.
const MOST_SETTLED: usize = 16;

/// An access through a node on a span.
#[derive(Clone, Copy, Drop)]
struct Settled {
    tag: Tag,
    span: Span,
    kind: Kind,
}

impl Settled {
    /// Whether it is this access.
    fn is(self, tag: Tag, span: Span, kind: Kind) -> bool
        ensures { IsTrue result ↔ (self ≡ record { tag = tag; span = span; kind = kind }) }
    {
        self.tag == tag && self.span == span && self.kind == kind
    }
}

/// The tree of tags of an allocation, which stands for an eager tree.
///
/// No node is stored before the first retag. Tags rise along the nodes. The counter rises by one with
/// each call that reads or changes a state, a flag or a level, up to its greatest value.
#[derive(Drop)]
pub struct LazyTree {
    root: Tag,
    size: u32,
    nodes: Vec<Node>,
    /// The runs of a node to come, for which `nodes` has room too.
    ready: Option<RangeMap<Slot>>,
    /// The room of a walk, kept from one to the next.
    path: Vec<bool>,
    opened: Vec<usize>,
    /// Accesses that change nothing, until a node changes.
    settled: Vec<Settled>,
    visits: u64,
}

/// Room for a walk: a mark for each node, and a list of nodes.
#[derive(Drop)]
pub struct Scratch {
    pub path: Vec<bool>,
    pub opened: Vec<usize>,
}

impl Model for LazyTree {
    ghost use Rattle.lazy_tree.specs.Shape.{Shape, shape_of};

    ghost Value = { Shape };

    ghost use Rattle.lazy_tree.specs.Settled.{IsKept};

    ghost view = { shape_of };

    ghost invariant = { λ t. IsKept t.root t.size t.nodes.items t.ready t.path.items t.settled.items };
}

impl LazyTree {
    /// The tree of an allocation of `size` bytes, at least one. It takes no memory.
    pub fn new(alloc: Global, root: Tag, size: u32) -> LazyTree
        requires { 1 ≤ size }
        ensures root { result.root ≡ root }
        ensures size { result.size ≡ size }
        ensures nodes { result.nodes ≡ [] }
        ensures visits { result.visits ≡ 0 }
    {
        LazyTree {
            root,
            size,
            nodes: Vec::new(alloc),
            ready: None,
            path: Vec::new(alloc),
            opened: Vec::new(alloc),
            settled: Vec::new(alloc),
            visits: 0,
        }
    }

    /// The counter: how many runs of nodes were read or changed.
    pub fn visits(&self) -> u64
        ensures { result ≡ self.now.visits }
    {
        self.visits
    }

    /// How many bytes the allocation has.
    pub fn size(&self) -> u32
        ensures { result ≡ self.now.size }
    {
        self.size
    }

    /// How many nodes are stored: none before the first retag.
    pub fn len(&self) -> usize
        ensures { result ≡ length self.now.nodes }
    {
        self.nodes.len()
    }

    /// What holds of every lazy tree, for the caller's proof. Nothing is done.
    pub fn soundness(&self)
        ensures some { 1 ≤ self.now.size }
        ensures sound { IsSound self.now.size self.now.nodes }
    {
        let _ = &self.root;
    }

    /// What holds of the runs of a node, for the caller's proof. Nothing is done.
    pub fn soundness_of(&self, node: usize)
        requires { node < length self.now.nodes }
        ensures { IsRanges (node_at self.now.nodes node).runs }
    {
        let read = &self.nodes[node];
        read.runs.soundness();
    }

    /// The tag of a node.
    pub fn tag(&self, node: usize) -> Tag
        requires { node < length self.now.nodes }
        ensures { result ≡ (node_at self.now.nodes node).tag }
    {
        self.nodes[node].tag
    }

    /// The guard of a node.
    pub fn guard(&self, node: usize) -> Guard
        requires { node < length self.now.nodes }
        ensures { result ≡ (node_at self.now.nodes node).guard }
    {
        self.nodes[node].guard
    }

    /// The parent of a node, which comes before it in the list. The root has none.
    pub fn parent(&self, node: usize) -> Option<usize>
        requires { node < length self.now.nodes }
        ensures { result ≡ (node_at self.now.nodes node).parent }
    {
        self.nodes[node].parent
    }

    /// The node that a walk meets after this one: a child, if it has one.
    pub fn next(&self, node: usize) -> Option<usize>
        requires { node < length self.now.nodes }
        ensures { result ≡ (node_at self.now.nodes node).next }
    {
        self.nodes[node].next
    }

    /// The node that a walk meets after this one and all nodes below it.
    pub fn after(&self, node: usize) -> Option<usize>
        requires { node < length self.now.nodes }
        ensures { result ≡ (node_at self.now.nodes node).after }
    {
        self.nodes[node].after
    }

    /// Where the run of a node that has byte `at` ends; all bytes of the run have one slot.
    pub fn run_end(&self, node: usize, at: u32) -> u32
        requires node { node < length self.now.nodes }
        requires within { at < self.now.size }
        ensures next { result ≡ run_after self.now.nodes node at }
        ensures after { at < result }
        ensures within { result ≤ self.now.size }
        ensures uniform { (b : ℕ) → at ≤ b → b < result → slot_at self.now.nodes node b ≡ slot_at self.now.nodes node at }
    {
        let read = &self.nodes[node];
        read.runs.run_end(at)
    }

    /// The slot of a node at a byte, and of the run that has it.
    pub fn read_slot(&mut self, node: usize, at: u32) -> Slot
        requires node { node < length self.old.nodes }
        requires within { at < self.old.size }
        ensures slot { result ≡ slot_at self.old.nodes node at }
        ensures tree { self.new ≡ counted self.old }
        ensures rises { self.old.visits ≤ self.new.visits }
        ensures by_one { self.new.visits ≤ self.old.visits + 1 }
    {
        self.visits = self.visits.saturating_add(1);
        self.nodes[node].runs.get(at)
    }

    /// Gives the run of a node that begins at `at` one slot.
    pub fn put(&mut self, node: usize, at: u32, slot: Slot)
        requires node { node < length self.old.nodes }
        requires within { at < self.old.size }
        requires begins { IsTrue (has_start at (node_at self.old.nodes node).runs.starts) }

        // levels say no more than they may
        requires skip { MayPut self.old.nodes node at (run_after self.old.nodes node at) slot }
        ensures tree { self.new ≡ record (counted self.old) { nodes = put_in self.old.nodes node at slot } }
        ensures rises { self.old.visits ≤ self.new.visits }
        ensures by_one { self.new.visits ≤ self.old.visits + 1 }
    {
        self.visits = self.visits.saturating_add(1);
        self.settled.clear();
        let changed = &mut self.nodes[node];
        changed.runs.put(at, slot);
    }

    /// Lets a run of a node begin at `at`. It takes room for one run at most.
    pub fn split(&mut self, node: usize, at: u32)
        requires node { node < length self.old.nodes }
        requires within { at < self.old.size }
        requires room { 1 ≤ (node_at self.old.nodes node).runs.spare }
        ensures tree { self.new ≡ record self.old { nodes = with_runs self.old.nodes node (node_at self.new.nodes node).runs } }
        ensures bytes { (node_at self.new.nodes node).runs.bytes ≡ (node_at self.old.nodes node).runs.bytes }
        ensures starts { (node_at self.new.nodes node).runs.starts ≡ with_start at (node_at self.old.nodes node).runs.starts }
        ensures spare { (node_at self.old.nodes node).runs.spare ≤ (node_at self.new.nodes node).runs.spare + 1 }
    {
        self.settled.clear();
        let changed = &mut self.nodes[node];
        changed.runs.split_at(at);
    }

    /// Joins neighbouring runs of a node that have one slot.
    pub fn join(&mut self, node: usize)
        requires node { node < length self.old.nodes }
        ensures tree { self.new ≡ record self.old { nodes = with_runs self.old.nodes node (node_at self.new.nodes node).runs } }
        ensures bytes { (node_at self.new.nodes node).runs.bytes ≡ (node_at self.old.nodes node).runs.bytes }
        ensures fewer { (s : ℕ) → IsTrue (has_start s (node_at self.new.nodes node).runs.starts) → IsTrue (has_start s (node_at self.old.nodes node).runs.starts) }
        ensures spare { (node_at self.old.nodes node).runs.spare ≤ (node_at self.new.nodes node).runs.spare }
    {
        self.settled.clear();
        let changed = &mut self.nodes[node];
        changed.runs.merge();
    }

    /// Makes room for `runs` more runs of a node.
    ///
    /// # Errors
    ///
    /// `NoMemory`: out of memory. Nothing has changed.
    pub fn reserve_runs(&mut self, node: usize, runs: u32) -> Result<(), NoMemory>
        requires node { node < length self.old.nodes }
        ensures room { OnOk result (runs ≤ (node_at self.new.nodes node).runs.spare) }
        ensures tree { self.new ≡ record self.old { nodes = with_runs self.old.nodes node (node_at self.new.nodes node).runs } }
        ensures bytes { (node_at self.new.nodes node).runs.bytes ≡ (node_at self.old.nodes node).runs.bytes }
        ensures starts { (node_at self.new.nodes node).runs.starts ≡ (node_at self.old.nodes node).runs.starts }
        ensures spare { (node_at self.old.nodes node).runs.spare ≤ (node_at self.new.nodes node).runs.spare }
    {
        if self.nodes[node].runs.has_room(runs) {
            return Ok(());
        }
        self.settled.clear();
        let changed = &mut self.nodes[node];
        changed.runs.reserve(runs)
    }

    /// Takes the guard from a node.
    pub fn set_free(&mut self, node: usize)
        requires node { node < length self.old.nodes }
        ensures tree { self.new ≡ record self.old { nodes = with_free self.old.nodes node } }
    {
        self.settled.clear();
        self.nodes[node].guard = Guard::Free;
    }

    /// Keeps in mind, until a node changes, that an access changes nothing and that the nodes of its
    /// path have room for two more runs.
    pub fn settle(&mut self, tag: Tag, span: Span, kind: Kind)
        requires { IsSettled self.old tag span kind }
        ensures { self.new ≡ self.old }
    {
        keep(&mut self.settled, Settled { tag, span, kind });
    }

    /// Whether an access is known to change nothing, which the counter counts as one run that is read.
    /// Those that were settled are, if no node has changed since and there was room to keep them.
    pub fn is_settled(&mut self, tag: Tag, span: Span, kind: Kind) -> bool
        ensures settled { IsTrue result → IsSettled self.old tag span kind }
        ensures tree { self.new ≡ record self.old { visits = self.new.visits } }
        ensures told { IsTrue result → self.new ≡ counted self.old }
        ensures untold { IsFalse result → self.new ≡ self.old }
        ensures rises { self.old.visits ≤ self.new.visits }
        ensures by_one { self.new.visits ≤ self.old.visits + 1 }
    {
        let known = is_among(&self.settled, tag, span, kind);
        if known {
            self.visits = self.visits.saturating_add(1);
        }
        known
    }

    /// Lends the room of a walk, to be given back by `return_scratch`. No mark is set.
    pub fn take_scratch(&mut self) -> Scratch
        ensures marks { length result.path.items ≡ self.old.marks }
        ensures clear { IsClear result.path.items }
        ensures opened { result.opened.items ≡ [] }
        ensures room { vec_capacity result.opened ≡ self.old.list_room }
        ensures tree { self.new ≡ record self.old { marks = self.new.marks; list_room = self.new.list_room } }
    {
        let alloc = *self.nodes.allocator();
        let path = std::mem::replace(&mut self.path, Vec::new(alloc));
        let mut opened = std::mem::replace(&mut self.opened, Vec::new(alloc));
        opened.clear();
        Scratch { path, opened }
    }

    /// Takes the room of a walk back. No mark is set.
    pub fn return_scratch(&mut self, scratch: Scratch)
        requires clear { IsClear scratch.path.items }
        ensures tree { self.new ≡ record self.old { marks = length scratch.path.items; list_room = vec_capacity scratch.opened } }
    {
        let Scratch { path, opened } = scratch;
        self.path = path;
        self.opened = opened;
    }

    /// The node with a tag, by its place in the list.
    pub fn find(&self, tag: Tag) -> Option<usize>
        ensures some { IfSome result (λ i. (i < length self.now.nodes) × ((node_at self.now.nodes i).tag ≡ tag)) }
        ensures none { result ≡ None → (i : ℕ) → i < length self.now.nodes → (node_at self.now.nodes i).tag.0 ≡ tag.0 → ⊥ }
    {
        let at = first_from(&self.nodes, tag);
        if at < self.nodes.len() && self.nodes[at].tag.0 == tag.0 {
            Some(at)
        } else {
            None
        }
    }

    /// Whether a node has this tag.
    pub fn has(&self, tag: Tag) -> bool
        ensures { result ≡ is_node (eager_of self.now) tag }
    {
        if self.nodes.is_empty() {
            self.root == tag
        } else {
            self.find(tag).is_some()
        }
    }

    /// State and flag of a node at a byte, where the tag is a node and the byte lies inside.
    pub fn state(&mut self, tag: Tag, at: u32) -> Option<(Perm, bool)>
        ensures state { result ≡ state_in (eager_of self.old) tag at }
        ensures tree { self.new ≡ counted self.old }
        ensures rises { self.old.visits ≤ self.new.visits }
    {
        self.visits = self.visits.saturating_add(1);
        if at >= self.size || !self.has(tag) {
            return None;
        }
        match self.find(tag) {
            Some(node) => {
                let slot = self.nodes[node].runs.get(at);
                Some((slot.perm, slot.accessed))
            }
            None => Some((Perm::Unique, true)),
        }
    }

    /// Makes room for a walk over the nodes, and for the accesses through them that are kept in mind.
    ///
    /// # Errors
    ///
    /// `NoMemory`: out of memory. The tree is as before.
    pub fn reserve_walk(&mut self) -> Result<(), NoMemory>
        ensures marks { OnOk result (self.new.marks ≡ length self.old.nodes) }
        ensures list { OnOk result (length self.old.nodes ≤ self.new.list_room) }
        ensures err { OnErr result (self.new.marks ≡ self.old.marks) }
        ensures grows { self.old.list_room ≤ self.new.list_room }
        ensures tree { self.new ≡ record self.old { marks = self.new.marks; list_room = self.new.list_room } }
    {
        let count = self.nodes.len();
        if count > 0 && self.settled.capacity() == 0 {
            self.settled.reserve(MOST_SETTLED)?;
        }
        self.opened.clear();
        self.opened.reserve(count)?;
        self.path.resize(count, false)?;
        Ok(())
    }

    /// Stores the root, where no node is stored yet, with room for a walk over it and for two more runs
    /// of it. The tree stands for the same eager tree.
    ///
    /// # Errors
    ///
    /// `NoMemory`: out of memory. No node is stored.
    pub fn store_root(&mut self) -> Result<(), NoMemory>
        requires { self.old.nodes ≡ [] }
        ensures ok { OnOk result (IsRootAlone self.old.root self.old.size self.new.nodes) }
        ensures room { OnOk result (2 ≤ (node_at self.new.nodes 0).runs.spare) }
        ensures marks { OnOk result (self.new.marks ≡ 1) }
        ensures list { OnOk result (1 ≤ self.new.list_room) }
        ensures err { OnErr result (self.new.nodes ≡ self.old.nodes) }
        ensures err_marks { OnErr result (self.new.marks ≡ self.old.marks) }
        ensures grows { self.old.list_room ≤ self.new.list_room }
        ensures tree { self.new ≡ record self.old { nodes = self.new.nodes; spare = self.new.spare; marks = self.new.marks; list_room = self.new.list_room } }
    {
        let alloc = *self.nodes.allocator();
        let slot = Slot {
            perm: Perm::Unique,
            accessed: true,
            level: Level::Nothing,
        };
        let mut runs = RangeMap::new(alloc, self.size, slot)?;
        runs.reserve(2)?;
        self.nodes.reserve(1)?;
        self.opened.reserve(1)?;
        self.path.resize(1, false)?;
        self.settled.clear();
        self.nodes.push_reserved(Node {
            tag: self.root,
            parent: None,
            next: None,
            after: None,
            guard: Guard::Free,
            runs,
        });
        Ok(())
    }

    /// Makes room for a new child: the runs that it will have, one slot on a span and another elsewhere.
    ///
    /// # Errors
    ///
    /// `NoMemory`: out of memory. The nodes are as before, and so are the runs of a child that were made
    /// before.
    pub fn make_child(&mut self, fresh: Slot, touched: Slot, span: Span) -> Result<(), NoMemory>
        requires some { 1 ≤ span.len }
        requires within { span.start + span.len ≤ self.old.size }
        ensures ready { OnOk result (IsReady self.old.size fresh touched span self.new.ready) }
        ensures spare { OnOk result (1 ≤ self.new.spare) }
        ensures err { OnErr result (self.new.ready ≡ self.old.ready) }
        ensures grows { self.old.spare ≤ self.new.spare }
        ensures tree { self.new ≡ record self.old { spare = self.new.spare; ready = self.new.ready } }
    {
        let alloc = *self.nodes.allocator();
        let mut runs = RangeMap::new(alloc, self.size, fresh)?;
        runs.reserve(4)?;
        runs.set_run(span, touched);
        self.nodes.reserve(1)?;
        self.ready = Some(runs);
        Ok(())
    }

    /// Adds a child of a node, with the runs that were made for it. It takes no memory.
    pub fn add(&mut self, parent: usize, tag: Tag, guard: Guard)
        requires parent { parent < length self.old.nodes }
        requires newest { (i : ℕ) → i < length self.old.nodes → (node_at self.old.nodes i).tag.0 < tag.0 }
        requires spare { 1 ≤ self.old.spare }
        requires may { MatchOption self.old.ready ⊥ (MayAdd self.old.size self.old.nodes parent guard) }
        ensures nodes { IfSome self.old.ready (λ runs. self.new.nodes ≡ with_child self.old.nodes parent tag guard runs) }
        ensures tree { self.new ≡ record self.old { nodes = self.new.nodes; ready = None; spare = self.new.spare } }
    {
        let Some(runs) = self.ready.take() else {
            unreachable!()
        };
        self.settled.clear();
        let count = self.nodes.len();
        let next = self.nodes[parent].next;
        self.nodes[parent].next = Some(count);
        self.nodes.push_reserved(Node {
            tag,
            parent: Some(parent),
            next,
            after: next,
            guard,
            runs,
        });
    }
}

/// Whether this access is one of those.
fn is_among(known: &[Settled], tag: Tag, span: Span, kind: Kind) -> bool
    ensures { IsTrue result → Contains known.now (record { tag = tag; span = span; kind = kind }) }
{
    known.iter().any(|settled| settled.is(tag, span, kind))
}

/// Keeps one more of these accesses. Where there is no room for it, all of them are forgotten, so that
/// those of the steps to come find room.
fn keep(known: &mut Vec<Settled>, settled: Settled)
    ensures { MatchBool (nat_lt (vec_len known.old) (vec_capacity known.old)) (known.new.items ≡ known.old.items ++ settled ∷ []) (known.new.items ≡ []) }
{
    if known.len() < known.capacity() {
        known.push_reserved(settled);
    } else {
        known.clear();
    }
}

/// How many nodes have a lesser tag.
fn first_from(nodes: &[Node], tag: Tag) -> usize
    requires { (i : ℕ) → (j : ℕ) → i < j → j < length nodes.now → (node_at nodes.now i).tag.0 < (node_at nodes.now j).tag.0 }
    ensures bound { result ≤ length nodes.now }
    ensures below { (i : ℕ) → i < result → (node_at nodes.now i).tag.0 < tag.0 }
    ensures above { (i : ℕ) → result ≤ i → i < length nodes.now → tag.0 ≤ (node_at nodes.now i).tag.0 }
{
    nodes.partition_point(|node| node.tag.0 < tag.0)
}
