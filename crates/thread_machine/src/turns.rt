//! Local turns.
ghost use Rattle.std.specs.Prelude.{◌≡◌, ◌+◌, ◌<◌, ◌≤◌, ◌^◌, drop};
ghost use Rattle.thread_machine.specs.Thread.{at_lines, branch_lines, branched, call_by, counted, lines_turn, word_of};
ghost use Rattle.thread_machine.specs.Ready.{CallReady, HasRoom, HasSpare};
ghost use Rattle.thread_machine.specs.Views.{CallersFit, FitsRow, FitsTarget, setting};

use crate::calls::Spare;
use crate::state::ThreadState;
use target_code::{Line, Operand, Target};

impl<'p> ThreadState<'p> {
    /// Goes to the lines of a branch: those after it where the value isn't 0, and else those after the next `jump`.
    #[tactic(auto, using(crate::proofs::Jumping::branch_first, crate::proofs::Jumping::branch_second))]
    fn enter_branch(&mut self, cond: Operand)
        ensures { self.new ≡ record self.old { thread = at_lines self.old.thread (branch_lines (word_of self.old.thread.top cond) (drop 1 self.old.thread.top.rest)) } }
    {
        let is_first = self.top.operand(cond) != 0;
        self.skip();
        if !is_first {
            self.top.skip_jump();
        }
    }

    /// Goes to the lines of a branch, and on to the block of its `jump`.
    #[tactic(auto, using(crate::proofs::Jumping::fits_branch))]
    fn branch(&mut self, target: &'p Target, input: &[u8], cond: Operand)
        requires row { FitsRow self.old.width self.old.thread.top.rest }
        requires target { FitsTarget self.old.width target.now }
        ensures goes { self.new.thread ≡ branched (setting target.now input.now) self.old.thread cond (drop 1 self.old.thread.top.rest) }
        ensures row { FitsRow self.new.width self.new.thread.top.rest }
        ensures width { self.new.width ≡ self.old.width }
        ensures callers { self.new.thread.callers ≡ self.old.thread.callers }
    {
        self.enter_branch(cond);
        self.run_on(input);
        self.jump(target, input);
    }

    /// Calls the function of this number, and takes what was made for the call.
    fn call_with(
        &mut self,
        target: &'p Target,
        input: &[u8],
        function: u32,
        spare: &mut Option<Spare<'p>>,
    )
        requires room { 1 ≤ self.old.room.callers }
        requires spare { HasSpare target.now self.old.width function spare.old }
        requires target { FitsTarget self.old.width target.now }
        requires row { FitsRow self.old.width self.old.thread.top.rest }
        requires callers { CallersFit self.old.width self.old.thread.callers }
        ensures goes { self.new.thread ≡ call_by (setting target.now input.now) self.old.thread function (drop 1 self.old.thread.top.rest) }
        ensures row { FitsRow self.new.width self.new.thread.top.rest }
        ensures callers { CallersFit self.new.width self.new.thread.callers }
        ensures width { self.new.width ≡ self.old.width }
    {
        if let Some(spare) = spare.take() {
            self.call(target, input, function, spare);
        }
    }

    /// Does what the line that is next says, where that makes no step; a call takes what was made for it.
    fn turn_line(&mut self, target: &'p Target, input: &[u8], spare: &mut Option<Spare<'p>>)
        requires row { FitsRow self.old.width self.old.thread.top.rest }
        requires callers { CallersFit self.old.width self.old.thread.callers }
        requires target { FitsTarget self.old.width target.now }
        requires room { HasRoom self.old.room self.old.thread.top.rest }
        requires call { CallReady target.now self.old.width spare.old self.old.thread.top.rest }
        ensures goes { self.new.thread ≡ lines_turn (setting target.now input.now) self.old.thread self.old.thread.top.rest }
        ensures row { FitsRow self.new.width self.new.thread.top.rest }
        ensures callers { CallersFit self.new.width self.new.thread.callers }
        ensures width { self.new.width ≡ self.old.width }
    {
        match self.top.next_line() {
            Some(Line::Turn { .. }) => self.cross(input),
            Some(Line::Branch { cond }) => self.branch(target, input, *cond),
            Some(Line::Jump { .. }) => self.jump(target, input),
            Some(Line::Call { function }) => self.call_with(target, input, *function, spare),
            Some(Line::Return) => self.return_on(input),
            _ => {}
        }
    }

    /// Does one local instruction.
    pub fn turn(&mut self, target: &'p Target, input: &[u8], spare: &mut Option<Spare<'p>>)
        requires row { FitsRow self.old.width self.old.thread.top.rest }
        requires callers { CallersFit self.old.width self.old.thread.callers }
        requires target { FitsTarget self.old.width target.now }
        requires room { HasRoom self.old.room self.old.thread.top.rest }
        requires call { CallReady target.now self.old.width spare.old self.old.thread.top.rest }
        requires count { self.old.thread.count + 1 < 2 ^ 64 }
        ensures goes { self.new.thread ≡ lines_turn (setting target.now input.now) (counted self.old.thread) self.old.thread.top.rest }
        ensures row { FitsRow self.new.width self.new.thread.top.rest }
        ensures callers { CallersFit self.new.width self.new.thread.callers }
        ensures width { self.new.width ≡ self.old.width }
    {
        self.count_instruction();
        self.turn_line(target, input, spare);
    }
}
