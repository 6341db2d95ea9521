//! The state of a thread.
ghost use Rattle.std.specs.Prelude.{◌≡◌, ◌<◌, ℕ, List, Some, None, IfSome, IfNone, true, false};
ghost use Rattle.thread_parts.specs.Words.{plain_arg};
ghost use Rattle.thread_parts.specs.Parts.{input_arg};
ghost use Rattle.thread_machine.specs.Thread.{silent, set_word, set_shadow};
ghost use Rattle.thread_machine.specs.Views.{row_index, IsWordless, IsShadowless};

use crate::caller::Caller;
use crate::copying::CopyProgress;
use crate::frame::Frame;
use crate::row::ArgRow;
use crate::words::{cast, compare, cut, work};
use bsan_ids::Prov;
use history::MachineEnd;
use ir_ast::Ty;
use std::marker::Model;
use target_code::Line;
use thread_parts::Owned;

/// A thread: the newest frame with what it must give up, its callers with the newest last, and what all frames share.
#[derive(Drop)]
pub struct ThreadState<'p> {
    pub top: Frame<'p>,
    pub owned: Owned,
    pub callers: Vec<Caller<'p>>,
    pub row: ArgRow,
    pub loaded: Option<Prov>,
    pub stored: Option<Prov>,
    pub copying: CopyProgress,
    pub begun: bool,
    pub count: u64,
    pub over: Option<MachineEnd>,
}

impl<'p> Model for ThreadState<'p> {
    ghost use Rattle.std.specs.Prelude.{reverse, ◌-◌, vec_len, vec_capacity};
    ghost use Rattle.thread_machine.specs.Views.{WideThread};

    ghost Value = { WideThread };

    ghost view = { λ s. record { thread = record { top = record s.top { owned = s.owned.owned }; callers = reverse s.callers.items; row = s.row.row; loaded = s.loaded; stored = s.stored; copying = s.copying.progress; begun = s.begun; count = s.count; over = s.over }; width = s.row.width; room = record { callers = vec_capacity s.callers - vec_len s.callers; children = s.owned.children; protectors = s.owned.protectors; stack = s.owned.stack; piece = s.copying.has_room } } };
}

impl<'p> ThreadState<'p> {
    /// The slot that a line writes with a word of its own, and the word.
    pub(crate) fn word_written(&self, input: &[u8], line: &Line) -> Option<(u32, u64)>
        ensures some { IfSome result (λ w. silent input.now line.now self.now.thread ≡ Some (set_word self.now.thread w.0 w.1)) }
        ensures none { IfNone result (IsWordless line.now) }
    {
        match line {
            Line::Param { slot, index } => Some((*slot, self.top.handed.word(*index))),
            Line::Const { slot, ty, value } => Some((*slot, cut(*ty, *value))),
            Line::Move { slot, from } => Some((*slot, self.top.word(*from))),
            Line::Gep { slot, ptr, add } => {
                let address = self.top.word(*ptr).wrapping_add(self.top.operand(*add));
                Some((*slot, address))
            }
            Line::Compare {
                slot,
                cond,
                ty,
                a,
                b,
            } => {
                let holds = compare(*cond, *ty, self.top.operand(*a), self.top.operand(*b));
                Some((*slot, holds))
            }
            Line::Select {
                slot,
                ty,
                cond,
                a,
                b,
            } => {
                let taken = if self.top.operand(*cond) != 0 { *a } else { *b };
                Some((*slot, cut(*ty, self.top.operand(taken))))
            }
            Line::Cast {
                slot,
                op,
                from,
                value,
                to,
            } => { Some((*slot, cast(*op, *from, *to, self.top.operand(*value)))) }
            Line::PtrToInt { slot, ptr } => Some((*slot, self.top.word(*ptr))),
            Line::Input { slot, index } => {
                Some((*slot, input_byte(input, self.top.operand(*index))))
            }
            Line::TakeArg { slot, index } => Some((*slot, self.row.word(*index))),
            Line::CallResult { slot } => Some((*slot, self.top.given.value)),
            _ => None,
        }
    }

    /// The shadow slot that a line writes with a provenance of its own, and the provenance.
    pub(crate) fn prov_written(&self, line: &Line) -> Option<(u32, Option<Prov>)>
        ensures some { (input : List ℕ) → IfSome result (λ w. silent input line.now self.now.thread ≡ Some (set_shadow self.now.thread w.0 w.1)) }
        ensures none { IfNone result (IsShadowless line.now) }
    {
        match line {
            Line::ShadowParam { shadow, index } => Some((*shadow, self.top.handed.prov(*index))),
            Line::ShadowMove { shadow, from } => Some((*shadow, self.top.shadow(*from))),
            Line::Loaded { shadow } => Some((*shadow, self.loaded)),
            Line::Retag {
                shadow,
                ptr_shadow,
                size: 0,
                ..
            } => { Some((*shadow, self.top.prov(*ptr_shadow))) }
            Line::ShadowSelect { shadow, cond, a, b } => {
                let taken = if self.top.operand(*cond) != 0 { *a } else { *b };
                Some((*shadow, self.top.shadow(taken)))
            }
            Line::TakeShadowArg { shadow, index } => Some((*shadow, self.row.prov(*index))),
            Line::ShadowCallResult { shadow } => Some((*shadow, self.top.given.prov)),
            _ => None,
        }
    }

    /// Does what a line says that makes no step, meets no trap and leads to the line after it, where it writes neither
    /// a word nor a provenance of its own. Answers whether it is such a line.
    pub(crate) fn pass_other(&mut self, line: &Line) -> bool
        requires wordless { IsWordless line.now }
        requires shadowless { IsShadowless line.now }
        requires row { IfSome (row_index line.now) (λ i. i < self.old.width) }
        ensures passed { result ≡ true → (input : List ℕ) → silent input line.now self.old.thread ≡ Some self.new.thread }
        ensures stopped { result ≡ false → ((input : List ℕ) → silent input line.now self.old.thread ≡ None) × (self.new ≡ self.old) }
        ensures width { self.new.width ≡ self.old.width }
        ensures callers { self.new.thread.callers ≡ self.old.thread.callers }
    {
        match line {
            Line::PushFrame | Line::Copy { .. } => true,
            Line::Binary {
                slot,
                op,
                width,
                a,
                b,
            } => {
                match work(*op, *width, self.top.operand(*a), self.top.operand(*b)) {
                    Ok(word) => {
                        self.top.set_word(*slot, word);
                        true
                    }
                    Err(_) => false,
                }
            }
            Line::Stored { from } => {
                self.stored = self.top.shadow(*from);
                true
            }
            Line::Arg { index, value } => {
                self.row.set_word(*index, self.top.operand(*value));
                true
            }
            Line::ShadowArg { index, from } => {
                self.row.set_prov(*index, self.top.shadow(*from));
                true
            }
            Line::Result { value } => {
                self.top.result.value = self.top.operand(*value);
                true
            }
            Line::ShadowResult { from } => {
                self.top.result.prov = self.top.shadow(*from);
                true
            }
            Line::CheckCopy { len, .. } => self.top.operand(*len) == 0,
            Line::RetagResult { size, .. } => *size == 0,
            Line::PopFrame => self.owned.is_empty(),
            _ => false,
        }
    }
}

/// A byte of the input, and 256 past its end.
fn input_byte(input: &[u8], index: u64) -> u64
    ensures { result ≡ (input_arg input.now (plain_arg index)).value }
{
    if index < input.len() as u64 {
        u64::from(input[index as usize])
    } else {
        256
    }
}
