//! What a thread asks.
ghost use Rattle.std.specs.Prelude.{List, Option, ℕ, ◌≡◌, [], ◌∷◌, drop, IfOk, OnErr, IfSome, IfNone};
ghost use Rattle.history.specs.declared.ask.Ask.TheVariants as asked;
ghost use Rattle.history.specs.declared.ask.MachineEnd.TheVariants as ending;
ghost use Rattle.thread_parts.specs.Parts.{binary_part, make_part, nth_value, part_ask, retag_ask as asked_retag};
ghost use Rattle.thread_parts.specs.Asks.{AsksAllocation};
ghost use Rattle.thread_machine.specs.Thread.{free_part, lines_ask, operand_at, operands_at, pointer_at, read_part, version_ask, write_part};
ghost use Rattle.thread_machine.specs.Views.{IsPlainLine, ended_by};

use crate::frame::Frame;
use crate::state::ThreadState;
use crate::words::{cut, work};
use bsan_ids::{AllocNo, NoMemory, Prov, ThreadNo, parts};
use history::{Arg, Ask, MachineEnd, Request, Trap};
use ir_ast::{BinaryOp, Place, Ty, Width, most_size_of};
use perm_table::{Guard, RetagKind};
use std::alloc::Global;
use target_code::{Line, Operand};
use word_ops::WordTrap;

/// Asks for a retag.
fn retag_ask(pointer: Arg, kind: RetagKind, guard: Guard, size: u32) -> Ask
    ensures { result ≡ asked_retag pointer kind guard size }
{
    let (alloc, at) = parts(pointer.value);
    let request = Request::Retag {
        at,
        len: size,
        kind,
        guard,
        prov: pointer.prov,
    };
    Ask::At { alloc, request }
}

/// The thread ends in this trap.
fn ended(trap: Trap) -> Ask
    ensures { result ≡ asked.Ended (ending.Trapped trap) }
{
    Ask::Ended(MachineEnd::Trapped(trap))
}

impl<'p> Frame<'p> {
    /// The pointer in a slot, with the provenance in a shadow slot.
    pub fn pointer(&self, slot: u32, shadow: u32) -> Arg
        ensures { result ≡ pointer_at self.now slot shadow }
    {
        Arg {
            value: self.word(slot),
            prov: self.prov(shadow),
        }
    }

    /// The line after the one that is next.
    pub fn line_after(&self) -> Option<&'p Line>
        ensures next { IfSome result (λ l. drop 1 self.now.rest ≡ l.now ∷ drop 2 self.now.rest) }
        ensures none { IfNone result (drop 1 self.now.rest ≡ []) }
    {
        match self.rest.split_first() {
            Some((_, more)) => match more.first() {
                Some(line) => Some(line),
                None => self.after.first(),
            },
            None => self.after.get(1),
        }
    }

    /// Asks for the access after a check of a read.
    fn read_ask(&self, shadow: u32) -> Ask
        ensures { result ≡ part_ask (read_part self.now shadow (drop 1 self.now.rest)) }
    {
        match self.line_after() {
            Some(Line::Load { ty, ptr, .. }) => {
                let pointer = self.pointer(*ptr, shadow);
                let (alloc, at) = parts(pointer.value);
                let request = Request::Load {
                    at,
                    ty: *ty,
                    prov: pointer.prov,
                };
                Ask::At { alloc, request }
            }
            _ => ended(Trap::Unreachable),
        }
    }

    /// Asks for the access after a check of a free.
    fn free_ask(&self, shadow: u32) -> Ask
        ensures { result ≡ part_ask (free_part self.now shadow (drop 1 self.now.rest)) }
    {
        match self.line_after() {
            Some(Line::Free { ptr }) => {
                let pointer = self.pointer(*ptr, shadow);
                let (alloc, at) = parts(pointer.value);
                let request = Request::Free {
                    at,
                    stack: false,
                    prov: pointer.prov,
                };
                Ask::At { alloc, request }
            }
            _ => ended(Trap::Unreachable),
        }
    }

    /// Asks for the access after a check of a write. `stored` is the provenance that a stored pointer leaves.
    fn write_ask(&self, stored: Option<Prov>, shadow: u32) -> Ask
        ensures { result ≡ part_ask (write_part self.now stored shadow (drop 1 self.now.rest)) }
    {
        match self.line_after() {
            Some(Line::Store { ty, value, ptr }) => {
                let pointer = self.pointer(*ptr, shadow);
                let (alloc, at) = parts(pointer.value);
                let carried = match ty {
                    Ty::Int(_) => None,
                    Ty::Ptr => stored,
                };
                let request = Request::Store {
                    at,
                    ty: *ty,
                    value: cut(*ty, self.operand(*value)),
                    carried,
                    prov: pointer.prov,
                };
                Ask::At { alloc, request }
            }
            Some(
                Line::Modify {
                    op,
                    width,
                    ptr,
                    value,
                    ..
                },
            ) => {
                let pointer = self.pointer(*ptr, shadow);
                let (alloc, at) = parts(pointer.value);
                let request = Request::Modify {
                    at,
                    width: *width,
                    op: *op,
                    value: cut(Ty::Int(*width), self.operand(*value)),
                    prov: pointer.prov,
                };
                Ask::At { alloc, request }
            }
            Some(
                Line::CmpXchg {
                    width,
                    ptr,
                    expected,
                    value,
                    ..
                },
            ) => {
                let pointer = self.pointer(*ptr, shadow);
                let (alloc, at) = parts(pointer.value);
                let request = Request::CmpXchg {
                    at,
                    width: *width,
                    expected: cut(Ty::Int(*width), self.operand(*expected)),
                    value: cut(Ty::Int(*width), self.operand(*value)),
                    prov: pointer.prov,
                };
                Ask::At { alloc, request }
            }
            _ => ended(Trap::Unreachable),
        }
    }
}

impl<'p> Frame<'p> {
    /// The end of the thread after a check of a read, where no load follows.
    fn read_end(&self) -> Option<MachineEnd>
        ensures { (shadow : ℕ) → result ≡ ended_by (part_ask (read_part self.now shadow (drop 1 self.now.rest))) }
    {
        match self.line_after() {
            Some(Line::Load { .. }) => None,
            _ => Some(MachineEnd::Trapped(Trap::Unreachable)),
        }
    }

    /// The end of the thread after a check of a free, where no free follows.
    fn free_end(&self) -> Option<MachineEnd>
        ensures { (shadow : ℕ) → result ≡ ended_by (part_ask (free_part self.now shadow (drop 1 self.now.rest))) }
    {
        match self.line_after() {
            Some(Line::Free { .. }) => None,
            _ => Some(MachineEnd::Trapped(Trap::Unreachable)),
        }
    }

    /// The end of the thread after a check of a write, where nothing is written.
    fn write_end(&self) -> Option<MachineEnd>
        ensures { (stored : Option Prov) (shadow : ℕ) → result ≡ ended_by (part_ask (write_part self.now stored shadow (drop 1 self.now.rest))) }
    {
        match self.line_after() {
            Some(Line::Store { .. } | Line::Modify { .. } | Line::CmpXchg { .. }) => None,
            _ => Some(MachineEnd::Trapped(Trap::Unreachable)),
        }
    }
}

impl<'p> Frame<'p> {
    /// The word of an operand of a list, and 0 where there is none.
    #[tactic(auto, using(crate::proofs::Asked::operand_at_place, crate::proofs::Asked::no_operand))]
    fn operand_word(&self, operands: &[Operand], index: usize) -> u64
        ensures { result ≡ nth_value (operands_at self.now operands.now) index }
    {
        if index < operands.len() {
            self.operand(operands[index])
        } else {
            0
        }
    }

    /// Asks for an allocation of this size.
    fn make_ask(&self, version: u8, size: Operand, place: Place) -> Ask
        ensures { result ≡ part_ask (make_part version place (operand_at self.now size)) }
    {
        let bytes = self.operand(size);
        if bytes == 0 || bytes > u64::from(most_size_of(version)) {
            return ended(Trap::BadSize);
        }
        Ask::Make {
            size: bytes as u32,
            place,
        }
    }
}

impl<'p> ThreadState<'p> {
    /// Asks for what a binary operation that can't be done ends in.
    fn binary_ask(&self, op: BinaryOp, width: Width, a: Operand, b: Operand) -> Ask
        ensures { result ≡ part_ask (binary_part op width (operand_at self.now.thread.top a) (operand_at self.now.thread.top b)) }
    {
        match work(op, width, self.top.operand(a), self.top.operand(b)) {
            Ok(_) => Ask::Turn,
            Err(WordTrap::DivZero) => ended(Trap::DivZero),
            Err(WordTrap::ShiftTooFar) => ended(Trap::ShiftTooFar),
        }
    }

    /// What the thread does at a line that makes a step or meets a trap, and touches no allocation by a check.
    fn line_ask(&self, version: u8, line: &Line) -> Ask
        requires { IsPlainLine line.now }
        ensures { (ls : List Line) → result ≡ lines_ask version self.now.thread (line.now ∷ ls) }
    {
        match line {
            Line::Turn { .. } | Line::Branch { .. } | Line::Jump { .. } | Line::Return => Ask::Turn,
            Line::Call { .. } => {
                if self.callers.len() < 1023 {
                    Ask::Turn
                } else {
                    ended(Trap::DepthLimit)
                }
            }
            Line::Binary {
                op,
                width,
                a,
                b,
                ..
            } => self.binary_ask(*op, *width, *a, *b),
            Line::Make { place, size, .. } => self.top.make_ask(version, *size, *place),
            Line::Retag {
                kind,
                guard,
                ptr,
                ptr_shadow,
                size,
                ..
            } => { retag_ask(self.top.pointer(*ptr, *ptr_shadow), *kind, *guard, *size) }
            Line::RetagResult { kind, size } => {
                retag_ask(self.top.given, *kind, Guard::Free, *size)
            }
            Line::PopFrame => self.owned.first().unwrap_or(Ask::Turn),
            Line::Print { width, value } => Ask::Print {
                value: cut(Ty::Int(*width), self.top.operand(*value)),
            },
            Line::Host { host, args, .. } => Ask::Host {
                number: *host,
                first: self.top.operand_word(args.as_slice(), 0),
                second: self.top.operand_word(args.as_slice(), 1),
            },
            Line::Spawn { function, .. } => Ask::Spawn {
                function: *function,
            },
            Line::Join { handle } => Ask::Join {
                child: ThreadNo((self.top.word(*handle) % 0x1_0000_0000) as u32),
            },
            _ => ended(Trap::Unreachable),
        }
    }

    /// What the thread does next.
    ///
    /// # Errors
    ///
    /// `NoMemory`: out of memory for a piece that a copy writes; comes only where an allocation is addressed.
    #[tactic(auto, using(crate::proofs::Asked::asks_at, crate::proofs::Asked::asks_nothing, crate::proofs::Asked::asks_over))]
    pub fn ask(&self, version: u8) -> Result<Ask, NoMemory>
        ensures asks { IfOk result (λ a. a ≡ version_ask version self.now.thread) }
        ensures refused { OnErr result (AsksAllocation (version_ask version self.now.thread)) }
    {
        if let Some(end) = self.over {
            return Ok(Ask::Ended(end));
        }
        match self.top.next_line() {
            None => Ok(ended(Trap::Unreachable)),
            Some(Line::CheckRead { ptr_shadow, .. }) => Ok(self.top.read_ask(*ptr_shadow)),
            Some(Line::CheckWrite { ptr_shadow, .. }) => {
                Ok(self.top.write_ask(self.stored, *ptr_shadow))
            }
            Some(Line::CheckFree { ptr_shadow, .. }) => Ok(self.top.free_ask(*ptr_shadow)),
            Some(
                Line::CheckCopy {
                    to,
                    to_shadow,
                    from,
                    from_shadow,
                    len,
                },
            ) => {
                let target = self.top.pointer(*to, *to_shadow);
                let source = self.top.pointer(*from, *from_shadow);
                self.copying.ask(target, source, self.top.operand(*len))
            }
            Some(line) => Ok(self.line_ask(version, line)),
        }
    }
    /// How the thread has ended, if it does nothing more. It takes no memory.
    #[tactic(auto, using(crate::proofs::Asked::asks_at, crate::proofs::Asked::asks_nothing, crate::proofs::Asked::asks_over, crate::proofs::Asked::copy_goes))]
    pub fn ended(&self, version: u8) -> Option<MachineEnd>
        ensures { result ≡ ended_by (version_ask version self.now.thread) }
    {
        if let Some(end) = self.over {
            return Some(end);
        }
        match self.top.next_line() {
            None => Some(MachineEnd::Trapped(Trap::Unreachable)),
            Some(Line::CheckRead { .. }) => self.top.read_end(),
            Some(Line::CheckWrite { .. }) => self.top.write_end(),
            Some(Line::CheckFree { .. }) => self.top.free_end(),
            Some(Line::Turn { .. } | Line::CheckCopy { .. }) => None,
            Some(line) => match self.line_ask(version, line) {
                Ask::Ended(end) => Some(end),
                _ => None,
            },
        }
    }
}
