//! The stored tree and its node calls, by which a crate above reads and changes it.
ghost use Rattle.std.specs.Prelude.{◌≡◌, ℕ, suc, ◌+◌, ◌-◌, ◌*◌, ◌<◌, ◌≤◌, ◌^◌, ◌++◌, ◌∷◌, min, length, [], Some, None, MatchBool, MatchOption, IfSome, IfOk, OnOk, OnErr, IsFalse, IsTrue, ◌==◌, not, replicate, vec_capacity, slice_index_or};
ghost use Rattle.std.specs.List.{filter};
ghost use Rattle.perm_table.specs.declared.Kind.{Kind as Access};
ghost use Rattle.range_map.specs.Ranges.{overwrite, starts_after_set, next_start};
ghost use Rattle.dated_tree.specs.Shape.{node_at, no_node, slot_at, new_shape, with_runs, with_ends, with_parent, counted};
ghost use Rattle.dated_tree.specs.Guards.{without_guard};
ghost use Rattle.dated_tree.specs.Adding.{IsAdded, IsReadyToAdd, touched, with_guarded, with_node};
ghost use Rattle.dated_tree.specs.Dates.{last as last_of, seen_below};
ghost use Rattle.dated_tree.specs.Eager.{tag_at};
ghost use Rattle.dated_tree.specs.Stored.{IsStored, date_for, written};
ghost use Rattle.perm_table.specs.declared.Kind.TheVariants.{Write};

use crate::node::{Dates, Node, Slot};
use bsan_ids::{ListOf, NoMemory, Span, Tag};
use perm_table::{Guard, Kind, Perm};
use range_map::RangeMap;
use std::alloc::Global;
use std::marker::Model;
use std::mem;

/// The tree of tags of an allocation, which stands for an eager tree.
///
/// A place names a node: 0 the root, which isn't stored, and from 1 on the stored ones, by rising
/// tags. The counter rises by one with each call that reads or changes a run, up to its greatest
/// value.
#[derive(Drop)]
pub struct DatedTree {
    root: Tag,
    size: u32,
    nodes: Vec<Node>,
    /// The places of the guarded nodes, rising.
    guarded: Vec<usize>,
    /// The dates of the last access and of the last write of each byte. They are two maps, since a
    /// read of a long span makes the first one a single run there.
    accesses: RangeMap<u64>,
    writes: RangeMap<u64>,
    /// The date now: that of the accesses through `actor`, and no earlier than any other.
    clock: u64,
    /// The tag of the accesses at the date now, until a node is added or a protector ends.
    actor: Option<Tag>,
    visits: u64,
    /// The runs of a node to come, for which `nodes` and `guarded` have room too.
    made: Option<RangeMap<Slot>>,
    /// Room for the dates that a node notes.
    notes: Vec<u64>,
}

impl Model for DatedTree {
    ghost use Rattle.dated_tree.specs.Shape.{Shape};
    ghost use Rattle.dated_tree.specs.Stored.{shape_of, IsStored};

    ghost Value = { Shape };

    ghost view = { shape_of };

    ghost invariant = { λ t. IsStored (shape_of t) };
}

impl DatedTree {
    /// The tree of an allocation of `size` bytes, at least one. It takes no memory.
    pub fn new(alloc: Global, root: Tag, size: u32) -> DatedTree
        requires { 1 ≤ size }
        ensures nodes { result.nodes ≡ [] }
        ensures root { result.root ≡ root }
        ensures size { result.size ≡ size }
        ensures guarded { result.guarded ≡ [] }
        ensures accesses { result.accesses.bytes ≡ (new_shape root size).accesses.bytes }
        ensures writes { result.writes.bytes ≡ (new_shape root size).writes.bytes }
        ensures clock { result.clock ≡ 0 }
        ensures visits { result.visits ≡ 0 }
    {
        DatedTree {
            root,
            size,
            nodes: Vec::new(alloc),
            guarded: Vec::new(alloc),
            accesses: RangeMap::uniform(alloc, size, 0),
            writes: RangeMap::uniform(alloc, size, 0),
            clock: 0,
            actor: None,
            visits: 0,
            made: None,
            notes: Vec::new(alloc),
        }
    }

    /// The counter: how many runs were read or changed.
    pub fn visits(&self) -> u64
        ensures { result ≡ self.now.visits }
    {
        self.visits
    }

    /// The date now: that of the last step.
    pub fn clock(&self) -> u64
        ensures { result ≡ self.now.clock }
    {
        self.clock
    }

    /// How many bytes the allocation has.
    pub fn size(&self) -> u32
        ensures { result ≡ self.now.size }
    {
        self.size
    }

    /// The last place: how many nodes are stored.
    pub fn len(&self) -> usize
        ensures { result ≡ length self.now.nodes }
    {
        self.nodes.len()
    }

    /// The place of the node with a tag, if there is one.
    pub fn find(&self, tag: Tag) -> Option<usize>
        ensures some { IfSome result (λ place. (place ≤ length self.now.nodes) × (tag_at self.now place ≡ tag)) }
        ensures none { result ≡ None → (place : ℕ) → place ≤ length self.now.nodes → tag_at self.now place ≡ tag → ⊥ }
    {
        if self.root.0 == tag.0 {
            return Some(0);
        }
        let at = first_from(&self.nodes, tag);
        if at < self.nodes.len() && self.nodes[at].tag.0 == tag.0 {
            Some(at + 1)
        } else {
            None
        }
    }

    /// Whether a node was added below a stored one.
    pub fn has_child(&self, place: usize) -> bool
        requires some { 1 ≤ place }
        requires stored { place ≤ length self.now.nodes }
        ensures flag { result ≡ (node_at self.now.nodes place).has_child }
        ensures childless { IsFalse result → (other : ℕ) → 1 ≤ other → other ≤ length self.now.nodes → (node_at self.now.nodes other).parent ≡ place → ⊥ }
    {
        self.nodes[place - 1].has_child
    }

    /// What holds of every stored tree, for the caller's proof. Nothing is done.
    pub fn soundness(&self)
        ensures { IsStored self.now }
    {
        let _ = &self.root;
    }

    /// The places of the guarded nodes, rising.
    pub fn guarded(&self) -> &[usize]
        ensures { result.now ≡ self.now.guarded }
    {
        self.guarded.as_slice()
    }

    /// The guard of a stored node.
    pub fn guard(&self, place: usize) -> Guard
        requires some { 1 ≤ place }
        requires stored { place ≤ length self.now.nodes }
        ensures { result ≡ (node_at self.now.nodes place).guard }
    {
        self.nodes[place - 1].guard
    }

    /// The place of a stored node's parent, which is before its own.
    pub fn parent(&self, place: usize) -> usize
        requires some { 1 ≤ place }
        requires stored { place ≤ length self.now.nodes }
        ensures parent { result ≡ (node_at self.now.nodes place).parent }
        ensures before { result < place }
    {
        self.nodes[place - 1].parent
    }

    /// The dates of the ends that a stored node has noted.
    pub fn ends(&self, place: usize) -> &[u64]
        requires some { 1 ≤ place }
        requires stored { place ≤ length self.now.nodes }
        ensures { result.now ≡ (node_at self.now.nodes place).ends }
    {
        self.nodes[place - 1].ends.as_slice()
    }

    /// The slot of a stored node at a byte, and of the run that has it.
    pub fn read_slot(&mut self, place: usize, at: u32) -> Slot
        requires some { 1 ≤ place }
        requires stored { place ≤ length self.old.nodes }
        requires within { at < self.old.size }
        ensures slot { result ≡ slot_at self.old.nodes place at }
        ensures tree { self.new ≡ counted self.old }
    {
        self.visits = self.visits.saturating_add(1);
        self.nodes[place - 1].runs.get(at)
    }

    /// Where the run of a stored node that has byte `at` ends; all bytes of the run have one slot.
    pub fn run_end(&self, place: usize, at: u32) -> u32
        requires some { 1 ≤ place }
        requires stored { place ≤ length self.now.nodes }
        requires within { at < self.now.size }
        ensures next { result ≡ next_start self.now.size at (node_at self.now.nodes place).runs.starts }
        ensures after { at < result }
        ensures within { result ≤ self.now.size }
        ensures uniform { (b : ℕ) → at ≤ b → b < result → slot_at self.now.nodes place b ≡ slot_at self.now.nodes place at }
    {
        let read = &self.nodes[place - 1];
        read.runs.run_end(at)
    }

    /// The tag of the node at a place.
    pub fn tag(&self, place: usize) -> Tag
        requires { place ≤ length self.now.nodes }
        ensures { result ≡ tag_at self.now place }
    {
        if place == 0 {
            self.root
        } else {
            self.nodes[place - 1].tag
        }
    }

    /// Where the runs of the dates that have byte `at` end; all bytes up to there have the same dates.
    pub fn dates_end(&self, at: u32) -> u32
        requires within { at < self.now.size }
        ensures next { result ≡ min (next_start self.now.size at self.now.accesses.starts) (next_start self.now.size at self.now.writes.starts) }
        ensures after { at < result }
        ensures within { result ≤ self.now.size }
        ensures uniform { (b : ℕ) → at ≤ b → b < result → last_of self.now b ≡ last_of self.now at }
    {
        let accesses = self.accesses.run_end(at);
        let writes = self.writes.run_end(at);
        accesses.min(writes)
    }

    /// Gives the bytes of a span of a stored node one slot. It takes room for two runs at most.
    pub fn put(&mut self, place: usize, span: Span, slot: Slot)
        requires some { 1 ≤ place }
        requires stored { place ≤ length self.old.nodes }
        requires bytes { 1 ≤ span.len }
        requires within { span.start + span.len ≤ self.old.size }
        requires room { 2 ≤ (node_at self.old.nodes place).runs.spare }
        ensures tree { self.new ≡ record (counted self.old) { nodes = with_runs self.old.nodes place (node_at self.new.nodes place).runs } }
        ensures bytes { (node_at self.new.nodes place).runs.bytes ≡ overwrite span.start (span.start + span.len) slot (node_at self.old.nodes place).runs.bytes }
        ensures starts { (node_at self.new.nodes place).runs.starts ≡ starts_after_set self.old.size span.start (span.start + span.len) (node_at self.old.nodes place).runs.starts }
        ensures spare { (node_at self.old.nodes place).runs.spare ≤ (node_at self.new.nodes place).runs.spare + 2 }
    {
        self.visits = self.visits.saturating_add(1);
        let changed = &mut self.nodes[place - 1];
        changed.runs.set_run(span, slot);
    }

    /// The dates of the last access and the last write of a byte.
    pub fn last(&mut self, at: u32) -> Dates
        requires { at < self.old.size }
        ensures dates { result ≡ last_of self.old at }
        ensures tree { self.new ≡ counted self.old }
    {
        self.visits = self.visits.saturating_add(1);
        Dates {
            access: self.accesses.get(at),
            write: self.writes.get(at),
        }
    }

    /// Begins an access through a tag: the date now is that of the accesses through it.
    pub fn begin(&mut self, tag: Tag)
        requires { self.old.clock < 2 ^ 64 - 1 }
        ensures { self.new ≡ record self.old { clock = date_for self.old tag; actor = Some tag } }
    {
        let acts = match self.actor {
            Some(actor) => actor == tag,
            None => false,
        };
        if !acts {
            self.clock += 1;
            self.actor = Some(tag);
        }
    }

    /// Gives the bytes of a span the date now, for an access of the kind. It takes room for two runs at
    /// most in each map that it changes.
    pub fn date(&mut self, span: Span, kind: Kind)
        requires bytes { 1 ≤ span.len }
        requires within { span.start + span.len ≤ self.old.size }
        requires accesses { 2 ≤ self.old.accesses.spare }
        requires writes { kind ≡ Write → 2 ≤ self.old.writes.spare }
        ensures tree { self.new ≡ record (counted self.old) { accesses = self.new.accesses; writes = self.new.writes } }
        ensures read { self.new.accesses.bytes ≡ overwrite span.start (span.start + span.len) self.old.clock self.old.accesses.bytes }
        ensures written { self.new.writes.bytes ≡ written kind span.start (span.start + span.len) self.old.clock self.old.writes.bytes }
        ensures accesses { self.old.accesses.spare ≤ self.new.accesses.spare + 2 }
        ensures writes { self.old.writes.spare ≤ self.new.writes.spare + 2 }
    {
        self.visits = self.visits.saturating_add(1);
        let now = self.clock;
        self.accesses.set_run(span, now);
        if kind == Kind::Write {
            self.writes.set_run(span, now);
        }
    }

    /// Begins a step that is no access through a tag: the date now is a new one.
    pub fn tick(&mut self)
        requires { self.old.clock < 2 ^ 64 - 1 }
        ensures { self.new ≡ record self.old { clock = self.old.clock + 1; actor = None } }
    {
        self.clock += 1;
        self.actor = None;
    }

    /// Notes the date now at a stored node. There is room for all dates that it notes.
    pub fn note(&mut self, place: usize)
        requires some { 1 ≤ place }
        requires stored { place ≤ length self.old.nodes }
        requires room { length (node_at self.old.nodes place).ends < self.old.room.notes }
        ensures { self.new ≡ record self.old { nodes = with_ends self.old.nodes place ((node_at self.old.nodes place).ends ++ self.old.clock ∷ []); room = record self.old.room { notes = 0 } } }
    {
        let none = Vec::new(*self.nodes.allocator());
        let mut notes = mem::replace(&mut self.notes, none);
        let noted = &mut self.nodes[place - 1];
        copy_into(noted.ends.as_slice(), &mut notes);
        notes.push_reserved(self.clock);
        noted.ends = ListOf::from_vec(notes);
    }

    /// Takes the guard from a stored node.
    pub fn release(&mut self, place: usize)
        requires some { 1 ≤ place }
        requires stored { place ≤ length self.old.nodes }
        ensures { self.new ≡ record (without_guard self.old place) { room = self.new.room } }
    {
        self.nodes[place - 1].guard = Guard::Free;
        take_out(&mut self.guarded, place);
        self.actor = None;
    }

    /// Adds a node as the last one, below the node at a place, with a tag that is greater than all. Its
    /// bytes have one slot, and those of the span are accessed. All room was made ready.
    #[tactic(auto, using(crate::proofs::StoredLemmas::added_last))]
    pub fn add(&mut self, parent: usize, tag: Tag, guard: Guard, fresh: Slot, span: Span)
        requires parent { parent ≤ length self.old.nodes }
        requires newest { (tag_at self.old (length self.old.nodes)).0 < tag.0 }
        requires bytes { 1 ≤ span.len }
        requires within { span.start + span.len ≤ self.old.size }
        requires room { IsReadyToAdd self.old.room }
        ensures added { IsAdded self.old.size parent tag guard fresh span (node_at self.new.nodes (suc (length self.old.nodes))) }
        ensures tree { self.new ≡ record (with_node self.old (node_at self.new.nodes (suc (length self.old.nodes)))) { room = self.new.room } }
    {
        let runs = self.runs_for(fresh, span);
        let ends = ListOf::new(*self.nodes.allocator());
        self.mark_parent(parent);
        self.push_node(Node {
            tag,
            parent,
            has_child: false,
            guard,
            ends,
            runs,
        });
        self.list_last(guard);
        self.forget_actor();
    }

    // Keeps in mind that the node at a place has a child.
    fn mark_parent(&mut self, place: usize)
        requires { place ≤ length self.old.nodes }
        ensures { self.new ≡ record self.old { nodes = with_parent self.old.nodes place } }
    {
        if place > 0 {
            self.nodes[place - 1].has_child = true;
        }
    }

    // Appends a node whose parent, if it is stored, is known to have a child.
    fn push_node(&mut self, node: Node)
        requires parent { node.parent ≤ length self.old.nodes }
        requires known { 1 ≤ node.parent → IsTrue (node_at self.old.nodes node.parent).has_child }
        requires newest { (tag_at self.old (length self.old.nodes)).0 < node.tag.0 }
        requires sized { length node.runs.bytes ≡ self.old.size }
        requires room { 1 ≤ self.old.room.nodes }
        ensures { self.new ≡ record self.old { nodes = self.old.nodes ++ node ∷ []; room = record self.old.room { nodes = self.new.room.nodes } } }
    {
        self.nodes.push_reserved(node);
    }

    // Lists the last node among the guarded ones, where it has a guard.
    fn list_last(&mut self, guard: Guard)
        requires some { 1 ≤ length self.old.nodes }
        requires room { 1 ≤ self.old.room.guards }
        ensures { self.new ≡ record self.old { guarded = with_guarded guard (length self.old.nodes) self.old.guarded; room = record self.old.room { guards = self.new.room.guards } } }
    {
        match guard {
            Guard::Free => {}
            Guard::Weak | Guard::Strong => self.guarded.push_reserved(self.nodes.len()),
        }
    }

    // Later accesses are later than the date now.
    fn forget_actor(&mut self)
        ensures { self.new ≡ record self.old { actor = None } }
    {
        self.actor = None;
    }

    // The runs of a new node: one run, without memory, where the span is the whole allocation; else those
    // that were made ready.
    fn runs_for(&mut self, fresh: Slot, span: Span) -> RangeMap<Slot>
        requires bytes { 1 ≤ span.len }
        requires within { span.start + span.len ≤ self.old.size }
        requires made { MatchOption self.old.room.runs ⊥ (λ runs. 4 ≤ runs.spare) }
        ensures bytes { result.bytes ≡ overwrite span.start (span.start + span.len) (touched fresh) (replicate self.old.size fresh) }
        ensures tree { self.new ≡ record self.old { room = record self.old.room { runs = self.new.room.runs } } }
    {
        let whole = Span {
            start: 0,
            len: self.size,
        };
        let touched = Slot {
            accessed: true,
            ..fresh
        };
        if span == whole {
            return RangeMap::uniform(*self.nodes.allocator(), self.size, touched);
        }
        let Some(mut runs) = self.made.take() else {
            unreachable!()
        };
        runs.set_run(whole, fresh);
        runs.set_run(span, touched);
        runs
    }

    /// Makes room for so many more runs of a stored node.
    ///
    /// # Errors
    ///
    /// `NoMemory`: out of memory. The tree is as before.
    pub fn reserve_runs(&mut self, place: usize, runs: u32) -> Result<(), NoMemory>
        requires some { 1 ≤ place }
        requires stored { place ≤ length self.old.nodes }
        ensures ok { OnOk result (runs ≤ (node_at self.new.nodes place).runs.spare) }
        ensures err { OnErr result ((node_at self.new.nodes place).runs ≡ (node_at self.old.nodes place).runs) }
        ensures tree { self.new ≡ record self.old { nodes = with_runs self.old.nodes place (node_at self.new.nodes place).runs } }
        ensures bytes { (node_at self.new.nodes place).runs.bytes ≡ (node_at self.old.nodes place).runs.bytes }
        ensures starts { (node_at self.new.nodes place).runs.starts ≡ (node_at self.old.nodes place).runs.starts }
        ensures spare { (node_at self.old.nodes place).runs.spare ≤ (node_at self.new.nodes place).runs.spare }
    {
        let changed = &mut self.nodes[place - 1];
        changed.runs.reserve(runs)
    }

    /// Makes room for so many more runs of the dates.
    ///
    /// # Errors
    ///
    /// `NoMemory`: out of memory. All dates are as before, and no room is lost.
    pub fn reserve_dates(&mut self, runs: u32) -> Result<(), NoMemory>
        ensures ok { OnOk result ((runs ≤ self.new.accesses.spare) × (runs ≤ self.new.writes.spare)) }
        ensures tree { self.new ≡ record self.old { accesses = record self.old.accesses { spare = self.new.accesses.spare }; writes = record self.old.writes { spare = self.new.writes.spare } } }
        ensures accesses { self.old.accesses.spare ≤ self.new.accesses.spare }
        ensures writes { self.old.writes.spare ≤ self.new.writes.spare }
    {
        self.accesses.reserve(runs)?;
        self.writes.reserve(runs)
    }

    /// Makes all ready that a new node takes.
    ///
    /// # Errors
    ///
    /// `NoMemory`: out of memory. No room is lost.
    pub fn reserve_node(&mut self) -> Result<(), NoMemory>
        ensures ok { OnOk result (IsReadyToAdd self.new.room) }
        ensures kept { IsReadyToAdd self.old.room → IsReadyToAdd self.new.room }
        ensures tree { self.new ≡ record self.old { room = record self.new.room { notes = self.old.room.notes } } }
    {
        self.reserve_lists()?;
        self.make_runs()
    }

    // Makes room for one more node, and for its place among the guarded ones.
    fn reserve_lists(&mut self) -> Result<(), NoMemory>
        ensures ok { OnOk result ((1 ≤ self.new.room.nodes) × (1 ≤ self.new.room.guards)) }
        ensures nodes { self.old.room.nodes ≤ self.new.room.nodes }
        ensures guards { self.old.room.guards ≤ self.new.room.guards }
        ensures tree { self.new ≡ record self.old { room = record self.old.room { nodes = self.new.room.nodes; guards = self.new.room.guards } } }
    {
        self.nodes.reserve(1)?;
        self.guarded.reserve(1)?;
        Ok(())
    }

    // Makes the runs of a node to come, where there are none yet.
    fn make_runs(&mut self) -> Result<(), NoMemory>
        ensures ok { OnOk result (MatchOption self.new.room.runs ⊥ (λ runs. 4 ≤ runs.spare)) }
        ensures kept { MatchOption self.old.room.runs ⊥ (λ runs. 4 ≤ runs.spare) → self.new ≡ self.old }
        ensures tree { self.new ≡ record self.old { room = record self.old.room { runs = self.new.room.runs } } }
    {
        if !self.has_runs() {
            self.made = Some(self.runs_to_be()?);
        }
        Ok(())
    }

    // Whether the runs of a node to come are made.
    fn has_runs(&self) -> bool
        ensures yes { IsTrue result → MatchOption self.now.room.runs ⊥ (λ runs. 4 ≤ runs.spare) }
        ensures no { IsFalse result → MatchOption self.now.room.runs ⊥ (λ runs. 4 ≤ runs.spare) → ⊥ }
    {
        match &self.made {
            Some(runs) => runs.has_room(4),
            None => false,
        }
    }

    // A map of one run with room for four more.
    fn runs_to_be(&self) -> Result<RangeMap<Slot>, NoMemory>
        ensures sized { IfOk result (λ runs. length runs.bytes ≡ self.now.size) }
        ensures room { IfOk result (λ runs. 4 ≤ runs.spare) }
    {
        let slot = Slot {
            perm: Perm::Disabled,
            accessed: false,
            met: Dates {
                access: 0,
                write: 0,
            },
        };
        let mut runs = RangeMap::uniform(*self.nodes.allocator(), self.size, slot);
        runs.reserve(4)?;
        Ok(runs)
    }

    /// Makes room for one more date that a stored node notes.
    ///
    /// # Errors
    ///
    /// `NoMemory`: out of memory. No room is lost.
    pub fn reserve_note(&mut self, place: usize) -> Result<(), NoMemory>
        requires some { 1 ≤ place }
        requires stored { place ≤ length self.old.nodes }
        ensures ok { OnOk result (length (node_at self.old.nodes place).ends < self.new.room.notes) }
        ensures kept { self.old.room.notes ≤ self.new.room.notes }
        ensures tree { self.new ≡ record self.old { room = record self.old.room { notes = self.new.room.notes } } }
    {
        self.notes.clear();
        let Some(count) = self.nodes[place - 1].ends.len().checked_add(1) else {
            return Err(NoMemory);
        };
        self.notes.reserve(count)?;
        Ok(())
    }
}

/// How many stored nodes have a lesser tag.
fn first_from(nodes: &[Node], tag: Tag) -> usize
    requires { (i : ℕ) → (j : ℕ) → i < j → j < length nodes.now → (slice_index_or nodes.now i no_node).tag.0 < (slice_index_or nodes.now j no_node).tag.0 }
    ensures bound { result ≤ length nodes.now }
    ensures below { (i : ℕ) → i < result → (slice_index_or nodes.now i no_node).tag.0 < tag.0 }
    ensures above { (i : ℕ) → result ≤ i → i < length nodes.now → tag.0 ≤ (slice_index_or nodes.now i no_node).tag.0 }
{
    nodes.partition_point(|node| node.tag.0 < tag.0)
}

/// Takes a place out of a list.
fn take_out(places: &mut Vec<usize>, place: usize)
    ensures items { places.new.items ≡ filter (λ other. not (other == place)) places.old.items }
    ensures capacity { vec_capacity places.new ≡ vec_capacity places.old }
{
    places.retain(|other| *other != place);
}

/// Puts these dates into a list with room for them, and nothing else.
fn copy_into(dates: &[u64], list: &mut Vec<u64>)
    requires { length dates.now ≤ vec_capacity list.old }
    ensures items { list.new.items ≡ dates.now }
    ensures capacity { vec_capacity list.new ≡ vec_capacity list.old }
{
    list.clear();
    for at in 0..dates.len() {
        list.push_reserved(dates[at]);
    }
}
