//! How a thread goes on with a reply.
ghost use Rattle.std.specs.Prelude.{◌≡◌, ◌<◌, ◌≤◌, ◌+◌, ◌*◌, ◌%◌, ◌^◌, drop, true};
ghost use Rattle.thread_parts.specs.Copies.{copy_after};
ghost use Rattle.thread_parts.specs.Owned.{with_stack};
ghost use Rattle.thread_parts.specs.Words.{number_in};
ghost use Rattle.history.specs.Replies.{trap_of};
ghost use Rattle.thread_machine.specs.Thread.{answer_by, copy_answer, counted, free_answer, go_on, guarded, lines_answer, load_answer, made_by, joined, popped, set_owned, set_shadow, set_word, spawned, with_loaded, word_of, write_answer};
ghost use Rattle.thread_machine.specs.Ready.{HasProtector, HasRoom, HasStack};
ghost use Rattle.thread_machine.specs.Views.{CallersFit, FitsRow, HasNumber, IsMade, IsSpawned};

use crate::state::ThreadState;
use bsan_ids::{AllocNo, ThreadNo};
use history::{Arg, MachineEnd, Plain, Reply};
use ir_ast::{Place, Ty};
use perm_table::Guard;
use target_code::{Line, Operand};
use thread_parts::StackAllocation;

/// The number in a reply, and 0 where there is none.
fn number_in_reply(plain: &Plain) -> u64
    ensures { result ≡ number_in plain.now }
{
    match plain {
        Plain::Made(number) => u64::from(number.0),
        Plain::Value(value) => *value,
        Plain::Spawned(child) => u64::from(child.0),
        _ => 0,
    }
}

/// The number of the allocation that was made.
fn made_number(plain: &Plain) -> AllocNo
    requires { IsMade plain.now }
    ensures { result.0 ≡ number_in plain.now }
{
    match plain {
        Plain::Made(number) => *number,
        _ => AllocNo(0),
    }
}

/// The number of the thread that was started.
fn spawned_number(plain: &Plain) -> ThreadNo
    requires { IsSpawned plain.now }
    ensures { result.0 ≡ number_in plain.now }
{
    match plain {
        Plain::Spawned(child) => *child,
        _ => ThreadNo(0),
    }
}

impl<'p> ThreadState<'p> {
    /// Keeps an allocation that was made.
    fn keep_made(&mut self, slot: u32, shadow: u32, place: Place, reply: &Reply)
        requires room { HasStack place self.old.room }
        requires number { IsMade reply.now.plain }
        ensures thread { self.new.thread ≡ set_owned (set_shadow (set_word self.old.thread slot (number_in reply.now.plain * 2 ^ 32)) shadow reply.now.carried) (with_stack place (made_by reply.now) self.old.thread.top.owned) }
        ensures width { self.new.width ≡ self.old.width }
    {
        let number = made_number(&reply.plain);
        self.top.set_word(slot, u64::from(number.0) * 0x1_0000_0000);
        self.top.set_shadow(shadow, reply.carried);
        if let Place::Stack = place {
            self.owned.push_stack(StackAllocation {
                number,
                prov: reply.carried,
            });
        }
    }

    /// Keeps a value that was loaded.
    fn keep_loaded(&mut self, slot: u32, ty: Ty, reply: &Reply)
        ensures { self.new ≡ record self.old { thread = with_loaded ty reply.now.carried (set_word self.old.thread slot (number_in reply.now.plain)) } }
    {
        self.top.set_word(slot, number_in_reply(&reply.plain));
        if let Ty::Ptr = ty {
            self.loaded = reply.carried;
        }
    }

    /// Keeps the provenance of a retag, and its protector.
    fn keep_retagged(&mut self, shadow: u32, guard: Guard, reply: &Reply)
        requires room { HasProtector guard self.old.room }
        ensures thread { self.new.thread ≡ set_owned (set_shadow self.old.thread shadow reply.now.carried) (guarded guard reply.now.plain reply.now.carried self.old.thread.top.owned) }
        ensures width { self.new.width ≡ self.old.width }
    {
        self.top.set_shadow(shadow, reply.carried);
        match guard {
            Guard::Free => {}
            Guard::Weak | Guard::Strong => self.owned.protect(&reply.plain, reply.carried),
        }
    }

    /// Keeps a child that was started; the row of arguments is then empty.
    fn keep_child(&mut self, slot: u32, reply: &Reply)
        requires room { 1 ≤ self.old.room.children }
        requires number { IsSpawned reply.now.plain }
        ensures thread { self.new.thread ≡ spawned self.old.thread slot (number_in reply.now.plain) }
        ensures width { self.new.width ≡ self.old.width }
    {
        let child = spawned_number(&reply.plain);
        self.top.set_word(slot, u64::from(child.0));
        self.owned.push_child(child.0);
        self.row.clear();
    }

    /// Keeps the result of a child that was joined.
    fn keep_joined(&mut self, handle: u32, reply: &Reply)
        ensures thread { self.new.thread ≡ joined self.old.thread handle reply.now }
        ensures width { self.new.width ≡ self.old.width }
    {
        let child = self.top.word(handle) % 0x1_0000_0000;
        self.owned.remove_child(child as u32);
        self.top.given = Arg {
            value: number_in_reply(&reply.plain),
            prov: reply.carried,
        };
    }
}

impl<'p> ThreadState<'p> {
    /// Goes past the line that is next, and on.
    #[tactic(auto, using(crate::proofs::Answering::past, crate::proofs::Running::fits_tail))]
    fn go_past(&mut self, input: &[u8])
        requires row { FitsRow self.old.width self.old.thread.top.rest }
        ensures goes { self.new.thread ≡ go_on input.now (drop 1 self.old.thread.top.rest) self.old.thread }
        ensures row { FitsRow self.new.width self.new.thread.top.rest }
        ensures width { self.new.width ≡ self.old.width }
        ensures callers { self.new.thread.callers ≡ self.old.thread.callers }
    {
        self.skip();
        self.go_on(input);
    }

    /// Goes past a check and its access, and on.
    #[tactic(auto, using(crate::proofs::Answering::past_two, crate::proofs::Running::fits_tail))]
    fn go_past_access(&mut self, input: &[u8])
        requires row { FitsRow self.old.width self.old.thread.top.rest }
        ensures goes { self.new.thread ≡ go_on input.now (drop 2 self.old.thread.top.rest) self.old.thread }
        ensures row { FitsRow self.new.width self.new.thread.top.rest }
        ensures width { self.new.width ≡ self.old.width }
        ensures callers { self.new.thread.callers ≡ self.old.thread.callers }
    {
        self.skip();
        self.go_past(input);
    }

    /// Goes on with the reply to a load.
    fn answer_read(&mut self, input: &[u8], reply: &Reply)
        requires row { FitsRow self.old.width self.old.thread.top.rest }
        ensures goes { self.new.thread ≡ load_answer input.now self.old.thread (drop 1 self.old.thread.top.rest) reply.now }
        ensures row { FitsRow self.new.width self.new.thread.top.rest }
        ensures width { self.new.width ≡ self.old.width }
        ensures callers { self.new.thread.callers ≡ self.old.thread.callers }
    {
        if let Some(Line::Load { slot, ty, .. }) = self.top.line_after() {
            self.keep_loaded(*slot, *ty, reply);
            self.go_past_access(input);
        }
    }

    /// Goes on with the reply to a store, or to a change that gives the old value.
    fn answer_write(&mut self, input: &[u8], reply: &Reply)
        requires row { FitsRow self.old.width self.old.thread.top.rest }
        ensures goes { self.new.thread ≡ write_answer input.now self.old.thread (drop 1 self.old.thread.top.rest) reply.now }
        ensures row { FitsRow self.new.width self.new.thread.top.rest }
        ensures width { self.new.width ≡ self.old.width }
        ensures callers { self.new.thread.callers ≡ self.old.thread.callers }
    {
        let old = number_in_reply(&reply.plain);
        match self.top.line_after() {
            Some(Line::Store { .. }) => self.go_past_access(input),
            Some(Line::Modify { slot, .. } | Line::CmpXchg { slot, .. }) => {
                self.top.set_word(*slot, old);
                self.go_past_access(input);
            }
            _ => {}
        }
    }

    /// Goes on with the reply to a free.
    fn answer_free(&mut self, input: &[u8])
        requires row { FitsRow self.old.width self.old.thread.top.rest }
        ensures goes { self.new.thread ≡ free_answer input.now self.old.thread (drop 1 self.old.thread.top.rest) }
        ensures row { FitsRow self.new.width self.new.thread.top.rest }
        ensures width { self.new.width ≡ self.old.width }
        ensures callers { self.new.thread.callers ≡ self.old.thread.callers }
    {
        if let Some(Line::Free { .. }) = self.top.line_after() {
            self.go_past_access(input);
        }
    }

    /// Goes on with the reply to a read or a write of a copy.
    fn answer_copy(&mut self, input: &[u8], len: Operand, reply: &Reply)
        requires row { FitsRow self.old.width self.old.thread.top.rest }
        requires room { self.old.room.piece ≡ true }
        ensures goes { self.new.thread ≡ copy_answer input.now self.old.thread (drop 1 self.old.thread.top.rest) (word_of self.old.thread.top len % 2 ^ 64) (copy_after self.old.thread.copying reply.now.plain) }
        ensures row { FitsRow self.new.width self.new.thread.top.rest }
        ensures width { self.new.width ≡ self.old.width }
        ensures callers { self.new.thread.callers ≡ self.old.thread.callers }
    {
        let alloc = *self.callers.allocator();
        let len = self.top.operand(len);
        if self.copying.advance(alloc, len, &reply.plain) {
            self.go_past(input);
        } else {
            self.begun = true;
        }
    }

    /// Goes on after the frame gave up one thing; it returns where nothing is left.
    fn answer_release(&mut self, input: &[u8])
        requires row { FitsRow self.old.width self.old.thread.top.rest }
        requires callers { CallersFit self.old.width self.old.thread.callers }
        ensures goes { self.new.thread ≡ popped input.now self.old.thread (drop 1 self.old.thread.top.rest) }
        ensures row { FitsRow self.new.width self.new.thread.top.rest }
        ensures callers { CallersFit self.new.width self.new.thread.callers }
        ensures width { self.new.width ≡ self.old.width }
    {
        self.owned.release();
        match self.top.line_after() {
            Some(Line::Return) if self.owned.is_empty() => self.return_on(input),
            _ => self.begun = true,
        }
    }

    /// Goes on with a reply that is no trap.
    fn answer_line(&mut self, input: &[u8], reply: &Reply)
        requires row { FitsRow self.old.width self.old.thread.top.rest }
        requires callers { CallersFit self.old.width self.old.thread.callers }
        requires room { HasRoom self.old.room self.old.thread.top.rest }
        requires number { HasNumber self.old.thread.top.rest reply.now.plain }
        ensures goes { self.new.thread ≡ lines_answer input.now self.old.thread self.old.thread.top.rest reply.now }
        ensures row { FitsRow self.new.width self.new.thread.top.rest }
        ensures callers { CallersFit self.new.width self.new.thread.callers }
        ensures width { self.new.width ≡ self.old.width }
    {
        match self.top.next_line() {
            Some(
                Line::Make {
                    slot,
                    shadow,
                    place,
                    ..
                },
            ) => {
                self.keep_made(*slot, *shadow, *place, reply);
                self.go_past(input);
            }
            Some(Line::CheckRead { .. }) => self.answer_read(input, reply),
            Some(Line::CheckWrite { .. }) => self.answer_write(input, reply),
            Some(Line::CheckFree { .. }) => self.answer_free(input),
            Some(Line::CheckCopy { len, .. }) => self.answer_copy(input, *len, reply),
            Some(Line::Retag { shadow, guard, .. }) => {
                self.keep_retagged(*shadow, *guard, reply);
                self.go_past(input);
            }
            Some(Line::RetagResult { .. } | Line::Print { .. }) => self.go_past(input),
            Some(Line::Host { slot, .. }) => {
                self.top.set_word(*slot, number_in_reply(&reply.plain));
                self.go_past(input);
            }
            Some(Line::Spawn { slot, .. }) => {
                self.keep_child(*slot, reply);
                self.go_past(input);
            }
            Some(Line::Join { handle }) => {
                self.keep_joined(*handle, reply);
                self.go_past(input);
            }
            Some(Line::PopFrame) => self.answer_release(input),
            _ => {}
        }
    }

    /// Goes on with the reply to what the thread asked.
    pub fn answer(&mut self, input: &[u8], reply: &Reply)
        requires row { FitsRow self.old.width self.old.thread.top.rest }
        requires callers { CallersFit self.old.width self.old.thread.callers }
        requires room { HasRoom self.old.room self.old.thread.top.rest }
        requires count { self.old.thread.count + 1 < 2 ^ 64 }
        requires number { HasNumber self.old.thread.top.rest reply.now.plain }
        ensures goes { self.new.thread ≡ answer_by input.now (counted self.old.thread) (trap_of reply.now.plain) reply.now }
        ensures row { FitsRow self.new.width self.new.thread.top.rest }
        ensures callers { CallersFit self.new.width self.new.thread.callers }
        ensures width { self.new.width ≡ self.old.width }
    {
        self.count_instruction();
        if let Plain::Trapped(trap) = reply.plain {
            self.over = Some(MachineEnd::Trapped(trap));
        } else {
            self.answer_line(input, reply);
        }
    }
}
