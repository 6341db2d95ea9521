//! A frame.
ghost use Rattle.std.specs.Prelude.{◌+◌, ◌≤◌, ◌<◌, ◌^◌, length};
ghost use Rattle.ir_ast.specs.Lines.{most_instructions};
ghost use Rattle.source_machine.specs.Positions.{insts_left};
ghost use Rattle.source_machine.specs.Doings.{pending, awaited, copied_bytes};

use crate::bindings::{bind, put_some};
use crate::doing::{Doing, entry, from_step};
use crate::items::item;
use crate::operations::part_of;
use crate::part::Part;
use crate::registers::Registers;
use crate::results::{result_step, taken, taken_arg};
use crate::text::Text;
use bsan_ids::NoMemory;
use history::{Arg, PieceBuffer, Reply};
use ir_ast::{Attr, Block, Function, Inst, Jump, Named, Param, Ty};
use std::alloc::Global;
use thread_parts::Owned;

/// A frame: its function, its block and the place of its next instruction there, the number of that
/// instruction, its registers, what it must give up, which part it does next, and the piece of a copy that was read
/// last. Without a block it has no instruction, and its terminator is `unreachable`.
#[derive(Drop)]
pub struct Frame<'p> {
    pub function: u32,
    pub block: Option<&'p Block>,
    pub at: usize,
    pub number: u32,
    pub registers: Registers<'p>,
    pub owned: Owned,
    pub doing: Doing<'p>,
    pub piece: Option<PieceBuffer>,
    pub ghost numbered: { number + length (insts_left block at) + pending doing ≤ most_instructions },
    pub ghost placed: { at + length (insts_left block at) ≤ most_instructions },
    pub ghost awaiting: { awaited doing ≤ registers.room },
    pub ghost copying: { copied_bytes doing < 2 ^ 64 },
}

impl<'p> Frame<'p> {
    ghost use Rattle.std.specs.Prelude.{◌≡◌, List, IfOk, IsSome, OnOk, slice_get, true};
    ghost use Rattle.std.specs.Option.{option_copied};
    ghost use Rattle.history.specs.declared.ask.Arg.{Arg};
    ghost use Rattle.source_sem.specs.Source as sem;
    ghost use Rattle.source_sem.specs.Source.{op_part};
    ghost use Rattle.source_sem.specs.Env as env;
    ghost use Rattle.source_machine.specs.Parts.{part_in};
    ghost use Rattle.source_machine.specs.Positions.{IsWithinLimit, jump_of, params_of, rest_of};
    ghost use Rattle.source_sem.specs.Source.{to_retag};
    ghost use Rattle.source_machine.specs.declared.doing.Doing.TheVariants as doing;
    ghost use Rattle.source_machine.specs.Doings.{half_in};
    ghost use Rattle.thread_parts.specs.Rooms.{HasRoom};
    ghost use Rattle.source_machine.specs.Fits.{HasPieceRoom};
    ghost use Rattle.source_machine.specs.Frames.{copied_in, entered_in, frame_in};

    /// The next instruction, unless that is the block's terminator.
    #[tactic(auto, using(crate::proofs::Steps::inst_steps))]
    pub fn inst(&self) -> Option<&'p Inst>
        ensures { option_copied result ≡ slice_get (frame_in self.now).insts 0 }
    {
        match self.block {
            Some(block) => item(block.insts.as_slice(), self.at),
            None => None,
        }
    }

    /// The jump of the block's terminator, if there is a block.
    pub fn jump(&self) -> Option<&'p Jump>
        ensures { jump_of (option_copied result) ≡ (frame_in self.now).term }
    {
        match self.block {
            Some(block) => Some(&block.term.jump),
            None => None,
        }
    }

    /// What an instruction does in this frame, as one of so many.
    pub fn part(&self, text: &Text, depth: usize, inst: &'p Inst) -> Part<'p>
        requires { text.now.tracked ≡ true }
        ensures { part_in (frame_in self.now).env result ≡ op_part text.now (frame_in self.now).function depth (frame_in self.now).env inst.now.op }
    {
        part_of(text, self.function, depth, &self.registers, &inst.op)
    }

    /// A frame without a block.
    fn nowhere(alloc: Global, number: u32) -> Frame<'p>
        ensures { (x : sem.Setting) (row : List Arg) → frame_in result ≡ sem.frame_of x number None row }
    {
        Frame {
            function: number,
            block: None,
            at: 0,
            number: 0,
            registers: Registers::new(alloc),
            owned: Owned::new(alloc),
            doing: Doing::Ready,
            piece: None,
        }
    }

    /// A frame of a function, of this number, with these arguments.
    #[tactic(auto, using(crate::proofs::Steps::begin_steps))]
    fn begin(
        alloc: Global,
        text: &Text<'p>,
        number: u32,
        function: &'p Function,
        row: &[Arg],
    ) -> Result<Frame<'p>, NoMemory>
        requires tracked { text.now.tracked ≡ true }
        requires function { slice_get text.now.program.functions number ≡ Some function.now }
        ensures { IfOk result (λ f. frame_in f ≡ sem.frame_of text.now number (Some function.now) row.now) }
    {
        let params = function.params.as_slice();
        let mut registers = Registers::new(alloc);
        registers.reserve(params.len())?;
        bind(&mut registers, params, row);
        Ok(Frame {
            function: number,
            block: item(function.blocks.as_slice(), 0),
            at: 0,
            number: text.first(number, function),
            registers,
            owned: Owned::new(alloc),
            doing: entry(params),
            piece: None,
        })
    }

    /// A frame of the function of this number, with these arguments.
    ///
    /// # Errors
    ///
    /// `NoMemory`: out of memory.
    pub fn new(
        alloc: Global,
        text: &Text<'p>,
        number: u32,
        row: &[Arg],
    ) -> Result<Frame<'p>, NoMemory>
        requires { text.now.tracked ≡ true }
        ensures { IfOk result (λ f. frame_in f ≡ sem.new_frame text.now number row.now) }
    {
        match text.function(number) {
            Some(function) => Frame::begin(alloc, text, number, function, row),
            None => Ok(Frame::nowhere(alloc, number)),
        }
    }

    /// Goes past the next instruction, whose value it puts into a register.
    #[tactic(auto, using(crate::proofs::Steps::step_steps))]
    pub fn advance(&mut self, dest: Option<&'p Named>, value: Option<Arg>)
        requires room { 1 ≤ self.old.registers.room }
        requires more { IsSome (slice_get (frame_in self.old).insts 0) }
        ensures { frame_in self.new ≡ sem.advance (frame_in self.old) (rest_of (frame_in self.old).insts) (env.put_some (option_copied dest.entry) value (frame_in self.old).env) (frame_in self.old).owned }
    {
        put_some(&mut self.registers, dest, value);
        self.at += 1;
        self.number += 1;
        self.doing = Doing::Ready;
    }

    /// Waits for the result of the call that is its next instruction.
    #[tactic(auto, using(crate::proofs::Steps::step_steps))]
    pub fn wait(&mut self, dest: Option<&'p Named>, ty: Option<Ty>, attr: Option<Attr>)
        requires room { 1 ≤ self.old.registers.room }
        requires more { IsSome (slice_get (frame_in self.old).insts 0) }
        ensures { frame_in self.new ≡ sem.waiting (frame_in self.old) (rest_of (frame_in self.old).insts) (option_copied dest.entry) ty attr }
    {
        self.at += 1;
        self.doing = Doing::Waiting(dest, ty, attr);
    }

    /// Goes to the beginning of a block, whose parameters get these values; without a block it has no instruction.
    #[tactic(auto, using(crate::proofs::Steps::begin_steps))]
    pub fn enter(&mut self, block: Option<&'p Block>, number: u32, row: &[Arg])
        requires room { length (params_of (option_copied block)) ≤ self.old.registers.room }
        requires stands { IsWithinLimit number (option_copied block) }
        ensures { frame_in self.new ≡ sem.in_block (frame_in self.old) (option_copied block.entry) number row.now }
    {
        if let Some(block) = block {
            bind(&mut self.registers, block.params.as_slice(), row);
        }
        self.block = block;
        self.at = 0;
        self.number = number;
        self.doing = Doing::Ready;
    }

    /// The next instruction, or the one that waits, has its result: it goes into a register, and is
    /// retagged there where there is such a step.
    #[tactic(auto, using(crate::proofs::Steps::step_steps))]
    fn finish(&mut self, dest: Option<&'p Named>, ty: Option<Ty>, step: Option<Attr>, value: Arg)
        requires room { 1 ≤ self.old.registers.room }
        requires counted { self.old.number + length (frame_in self.old).insts + 1 ≤ most_instructions }
        ensures { frame_in self.new ≡ sem.resumed_by (frame_in self.old) (option_copied dest.entry) ty step value }
    {
        put_some(&mut self.registers, dest, taken(ty, value));
        match step {
            None => {
                self.number += 1;
                self.doing = Doing::Ready;
            }
            Some(attr) => self.doing = Doing::Retagging(dest, taken_arg(ty, value), attr),
        }
    }

    /// A result comes to the instruction that waits for it.
    pub fn resume(&mut self, value: Arg)
        ensures { frame_in self.new ≡ sem.resumed true (frame_in self.old) (frame_in self.old).doing value }
    {
        match self.doing {
            Doing::Waiting(dest, ty, attr) => {
                self.finish(dest, ty, result_step(ty, attr), value);
            }
            Doing::Ready
            | Doing::Entering(_)
            | Doing::Copying(..)
            | Doing::Retagging(..)
            | Doing::Leaving(_) => {
                self.block = None;
                self.doing = Doing::Ready;
            }
        }
    }

    /// The join that is its next instruction has its result.
    #[tactic(auto, using(crate::proofs::Steps::step_steps))]
    pub fn join(
        &mut self,
        child: u32,
        dest: Option<&'p Named>,
        ty: Option<Ty>,
        attr: Option<Attr>,
        value: Arg,
    )
        requires room { 1 ≤ self.old.registers.room }
        requires more { IsSome (slice_get (frame_in self.old).insts 0) }
        ensures { frame_in self.new ≡ sem.resumed_by (record (frame_in self.old) { insts = rest_of (frame_in self.old).insts; owned = sem.joined (frame_in self.old).owned child }) (option_copied dest.entry) ty (sem.result_step true ty attr) value }
    {
        self.owned.remove_child(child);
        self.at += 1;
        self.doing = Doing::Ready;
        self.finish(dest, ty, result_step(ty, attr), value);
    }

    /// Makes room for a piece of a copy.
    ///
    /// # Errors
    ///
    /// `NoMemory`: out of memory. The frame stays as it was.
    pub fn reserve_piece(&mut self, alloc: Global) -> Result<(), NoMemory>
        ensures room { OnOk result (HasPieceRoom self.new.piece) }
        ensures frame { frame_in self.new ≡ frame_in self.old }
        ensures registers { self.new.registers ≡ self.old.registers }
    {
        if self.piece.is_none() {
            self.piece = Some(PieceBuffer::new(alloc)?);
        }
        Ok(())
    }

    /// The result of its instruction is retagged: the pointer has the reply's provenance.
    #[tactic(auto, using(crate::proofs::Steps::step_steps))]
    pub fn retag(&mut self, dest: Option<&'p Named>, value: Arg, attr: Attr, reply: &Reply)
        requires room { 1 ≤ self.old.registers.room }
        requires doing { self.old.doing ≡ doing.Retagging dest value attr }
        ensures { frame_in self.new ≡ sem.retagged (frame_in self.old) (option_copied dest.entry) value reply.now }
    {
        let pointer = Arg {
            value: value.value,
            prov: reply.carried,
        };
        put_some(&mut self.registers, dest, Some(pointer));
        self.number += 1;
        self.doing = Doing::Ready;
    }

    /// The first of these parameters that has a step is retagged.
    pub fn enter_param(&mut self, params: &'p [Param], reply: &Reply)
        requires room { 1 ≤ self.old.registers.room }
        requires owned { HasRoom self.old.owned }
        requires begun { pending self.old.doing ≡ 0 }
        ensures { frame_in self.new ≡ entered_in (frame_in self.old) (to_retag true params.now) reply.now }
    {
        if let [param, rest @ ..] = from_step(params) {
            let name = param.reg.name.as_slice();
            let pointer = Arg {
                value: self.registers.get(name).value,
                prov: reply.carried,
            };
            self.registers.set(name, pointer);
            self.owned.protect(&reply.plain, reply.carried);
            self.doing = entry(rest);
        }
    }

    /// A copy of so many bytes has come so far.
    #[tactic(auto, using(crate::proofs::Steps::step_steps))]
    pub fn copy_on(&mut self, len: u64, pieces: u64, read: bool)
        requires room { 1 ≤ self.old.registers.room }
        requires more { IsSome (slice_get (frame_in self.old).insts 0) }
        requires begun { pending self.old.doing ≡ 0 }
        ensures { frame_in self.new ≡ copied_in (frame_in self.old) len (record { pieces = pieces; half = half_in self.old.piece read }) }
    {
        if len <= pieces.saturating_mul(32) {
            self.advance(None, None);
        } else {
            self.doing = Doing::Copying(pieces, read);
        }
    }
}
