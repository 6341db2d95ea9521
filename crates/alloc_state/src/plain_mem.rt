//! Plain memory of one allocation: its bytes, with the fragments of the pointers in them.
ghost use Rattle.std.specs.Prelude.{IfOk, OnOk, OnErr, ◌≡◌, ◌+◌, ◌*◌, ◌≤◌, ◌<◌, ◌^◌, None, length, replicate, IsTrue, true};
ghost use Rattle.std.specs.Result.{result_err};
ghost use Rattle.ir_ast.specs.Sizes.{most_size};
ghost use Rattle.ir_ast.specs.Words.{width_bytes, ty_bytes, modulus, word_bits};
ghost use Rattle.ir_ast.specs.declared.types.Ty.TheVariants.{Int};
ghost use Rattle.history.specs.declared.entry.Request.TheVariants.{Load as LoadRequest, Store as StoreRequest, Modify as ModifyRequest, CmpXchg as CmpXchgRequest, CopyOut as CopyOutRequest, CopyIn as CopyInRequest, Free as FreeRequest};
ghost use Rattle.history.specs.Histories.{fits};
ghost use Rattle.history.specs.Memory.{made_memory, trap_in, word_at, next_memory, in_range};
ghost use Rattle.history.specs.Fragments.{loaded_as, next_shadow, piece_at};
ghost use Rattle.alloc_state.specs.Outcomes.{seen_in};
ghost use Rattle.alloc_state.specs.PlainValues.{is_data, carried_in, needs_frags, done_by};

use crate::copies::{piece_of, put_bytes, put_frags};
use crate::outcome::Seen;
use bsan_ids::{NoMemory, Prov, Span};
use byte_mem::ByteMem;
use history::{Piece, Request, Trap};
use ir_ast::{ModifyOp, Place, Ty, Width};
use shadow_mem::ShadowMem;
use std::alloc::Global;
use std::marker::Model;
use word_ops::modify;

/// The bytes of an allocation and their fragments, with the room that there is for further runs of
/// fragments. A request that traps changes nothing.
#[derive(Drop)]
pub struct PlainMem {
    memory: ByteMem,
    shadow: ShadowMem,
}

impl Model for PlainMem {
    ghost use Rattle.alloc_state.specs.PlainValues.{PlainValue, IsPlain};

    ghost Value = { PlainValue };

    ghost view = { λ p. record { memory = p.memory; shadow = p.shadow.frags; room = p.shadow.spare } };

    ghost invariant = { λ p. IsPlain p.memory p.shadow.frags };
}

/// The width of the number that stands for a value of this type: a pointer is an address.
fn width_of(ty: Ty) -> Width
    ensures { width_bytes result ≡ ty_bytes ty }
{
    match ty {
        Ty::Int(width) => width,
        Ty::Ptr => Width::W64,
    }
}

/// How many run starts a request may add: a write cuts at both ends, a piece's at those of each byte.
fn frags_for(request: &Request) -> u32
    requires { IsTrue (fits request.now) }
    ensures { result ≡ needs_frags request.now }
{
    match request {
        Request::Store { .. } | Request::Modify { .. } | Request::CmpXchg { .. } => 2,
        Request::CopyIn { piece, .. } => 2 * piece.len() as u32,
        _ => 0,
    }
}

impl PlainMem {
    /// `size` bytes of 0 without a fragment, at least one and at most 1,048,576.
    ///
    /// # Errors
    ///
    /// `NoMemory`: out of memory.
    pub fn new(alloc: Global, size: u32, place: Place) -> Result<PlainMem, NoMemory>
        requires some { 1 ≤ size }
        requires bound { size ≤ most_size }
        ensures memory { IfOk result (λ plain. plain.memory ≡ made_memory size place) }
        ensures shadow { IfOk result (λ plain. plain.shadow ≡ replicate size None) }
    {
        Ok(PlainMem {
            memory: ByteMem::new(alloc, size, place)?,
            shadow: ShadowMem::new(alloc, size)?,
        })
    }

    /// How many bytes there are.
    pub fn size(&self) -> u32
        ensures value { result ≡ length self.now.memory.bytes }
        ensures frags { length self.now.shadow ≡ length self.now.memory.bytes }
        ensures bound { result ≤ most_size }
    {
        self.memory.size()
    }

    /// Whether the allocation isn't freed.
    pub fn is_live(&self) -> bool
        ensures { result ≡ self.now.memory.live }
    {
        self.memory.is_live()
    }

    /// Makes room for the runs of fragments that a request may add.
    ///
    /// # Errors
    ///
    /// `NoMemory`: out of memory. Nothing has changed.
    pub fn reserve(&mut self, request: &Request) -> Result<(), NoMemory>
        requires { IsTrue (fits request.now) }
        ensures room { OnOk result (needs_frags request.now ≤ self.new.room) }
        ensures grows { self.old.room ≤ self.new.room }
        ensures same { self.new ≡ record self.old { room = self.new.room } }
    {
        self.shadow.reserve(frags_for(request))
    }

    /// The bytes from `at` on with their fragments, at most 32. They are none where a copy of them
    /// traps.
    ///
    /// # Errors
    ///
    /// `NoMemory`: out of memory.
    #[tactic(auto, using(crate::proofs::ByteCopies::untrapped))]
    pub fn piece(&self, alloc: Global, at: u32, len: u8) -> Result<Piece, NoMemory>
        requires few { len ≤ 32 }
        ensures { IfOk result (λ piece. trap_in self.now.memory (CopyOutRequest at len None) ≡ None → piece ≡ piece_at self.now.memory self.now.shadow at len) }
    {
        let span = Span {
            start: at,
            len: u32::from(len),
        };
        match self.memory.check(span) {
            Ok(()) => piece_of(alloc, &self.memory, &self.shadow, at, len),
            Err(_) => Ok(Piece::new(alloc)),
        }
    }

    /// Reads a value, and a pointer's provenance with it.
    fn load(&self, at: u32, ty: Ty) -> Result<(Seen, Option<Prov>), Trap>
        ensures trap { result_err result ≡ trap_in self.now.memory (LoadRequest at ty None) }
        ensures seen { IfOk result (λ seen. seen.0 ≡ Seen.Value (word_at self.now.memory at (ty_bytes ty))) }
        ensures carried { IfOk result (λ seen. seen.1 ≡ loaded_as ty (in_range at 8 self.now.shadow)) }
    {
        let value = self.memory.load(at, width_of(ty))?;
        let carried = match ty {
            Ty::Int(_) => None,
            Ty::Ptr => self.shadow.load_ptr(at),
        };
        Ok((Seen::Value(value), carried))
    }

    /// Writes a value, with the fragments of a pointer.
    fn store(&mut self, at: u32, ty: Ty, value: u64, carried: Option<Prov>) -> Result<Seen, Trap>
        requires room { 2 ≤ self.old.room }
        ensures trap { result_err result ≡ trap_in self.old.memory (StoreRequest at ty value carried None) }
        ensures seen { IfOk result (λ seen. seen ≡ Seen.Done) }
        ensures ok { OnOk result (self.new ≡ done_by self.old (StoreRequest at ty value carried None) self.new.room) }
        ensures err { OnErr result (self.new ≡ self.old) }
    {
        self.memory.store(at, width_of(ty), value)?;
        let span = Span {
            start: at,
            len: ty.bytes(),
        };
        match ty {
            Ty::Int(_) => self.shadow.clear(span),
            Ty::Ptr => self.shadow.store_ptr(at, carried),
        }
        Ok(Seen::Done)
    }

    /// Reads a number and writes what an operation makes of it.
    fn modify(&mut self, at: u32, width: Width, op: ModifyOp, value: u64) -> Result<Seen, Trap>
        requires room { 2 ≤ self.old.room }
        requires fits { value < modulus width }
        ensures trap { result_err result ≡ trap_in self.old.memory (ModifyRequest at width op value None) }
        ensures seen { IfOk result (λ seen. seen ≡ Seen.Value (word_at self.old.memory at (width_bytes width))) }
        ensures ok { OnOk result (self.new ≡ done_by self.old (ModifyRequest at width op value None) self.new.room) }
        ensures err { OnErr result (self.new ≡ self.old) }
    {
        let old = self.memory.load(at, width)?;
        self.memory.store(at, width, modify(op, width, old, value))?;
        let len = width.bytes();
        self.shadow.clear(Span { start: at, len });
        Ok(Seen::Value(old))
    }

    /// Reads a number and, where it is `expected`, writes `value`.
    fn cmp_xchg(&mut self, at: u32, width: Width, expected: u64, value: u64) -> Result<Seen, Trap>
        requires room { 2 ≤ self.old.room }
        ensures trap { result_err result ≡ trap_in self.old.memory (CmpXchgRequest at width expected value None) }
        ensures seen { IfOk result (λ seen. seen ≡ Seen.Value (word_at self.old.memory at (width_bytes width))) }
        ensures ok { OnOk result (self.new ≡ done_by self.old (CmpXchgRequest at width expected value None) self.new.room) }
        ensures err { OnErr result (self.new ≡ self.old) }
    {
        let old = self.memory.load(at, width)?;
        if old == expected {
            self.memory.store(at, width, value)?;
            let len = width.bytes();
            self.shadow.clear(Span { start: at, len });
        }
        Ok(Seen::Value(old))
    }

    /// Writes the bytes of a piece, with their fragments.
    #[tactic(auto, using(crate::proofs::ByteCopies::untrapped))]
    fn copy_in(&mut self, at: u32, piece: &Piece) -> Result<Seen, Trap>
        requires few { length piece.now ≤ 32 }
        requires room { 2 * length piece.now ≤ self.old.room }
        ensures trap { result_err result ≡ trap_in self.old.memory (CopyInRequest at piece.now None) }
        ensures seen { IfOk result (λ seen. seen ≡ Seen.Done) }
        ensures ok { OnOk result (self.new ≡ done_by self.old (CopyInRequest at piece.now None) self.new.room) }
        ensures err { OnErr result (self.new ≡ self.old) }
    {
        let len = piece.len() as u32;
        self.memory.check(Span { start: at, len })?;
        put_bytes(&mut self.memory, at, piece);
        put_frags(&mut self.shadow, at, piece);
        Ok(Seen::Done)
    }

    /// Does a request for data, and answers what the program sees, with the provenance of a pointer
    /// that is loaded.
    ///
    /// # Errors
    ///
    /// The trap of the request. Nothing has changed.
    pub fn run(&mut self, request: &Request) -> Result<(Seen, Option<Prov>), Trap>
        requires data { is_data request.now ≡ true }
        requires fitting { IsTrue (fits request.now) }
        requires room { needs_frags request.now ≤ self.old.room }
        ensures trap { result_err result ≡ trap_in self.old.memory request.now }
        ensures seen { IfOk result (λ seen. seen.0 ≡ seen_in self.old.memory request.now) }
        ensures carried { IfOk result (λ seen. seen.1 ≡ carried_in self.old.shadow request.now) }
        ensures ok { OnOk result (self.new ≡ done_by self.old request.now self.new.room) }
        ensures err { OnErr result (self.new ≡ self.old) }
        ensures size { length self.new.memory.bytes ≡ length self.old.memory.bytes }
    {
        let seen = match request {
            Request::Load { at, ty, .. } => return self.load(*at, *ty),
            Request::Store {
                at,
                ty,
                value,
                carried,
                ..
            } => self.store(*at, *ty, *value, *carried)?,
            Request::Modify {
                at,
                width,
                op,
                value,
                ..
            } => self.modify(*at, *width, *op, *value)?,
            Request::CmpXchg {
                at,
                width,
                expected,
                value,
                ..
            } => self.cmp_xchg(*at, *width, *expected, *value)?,
            Request::CopyOut { at, len, .. } => {
                let len = u32::from(*len);
                self.memory.check(Span { start: *at, len })?;
                Seen::Copied
            }
            Request::CopyIn { at, piece, .. } => self.copy_in(*at, piece)?,
            Request::Free { at, stack, .. } => {
                self.memory.free(*at, *stack)?;
                Seen::Done
            }
            _ => unreachable!(),
        };
        Ok((seen, None))
    }
}
