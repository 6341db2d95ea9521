//! How a thread goes on.
ghost use Rattle.std.specs.Prelude.{◌≡◌, reverse, true};
ghost use Rattle.source_sem.specs.Source as sem;
ghost use Rattle.source_machine.specs.Frames.{frame_in};
ghost use Rattle.source_machine.specs.Threads.{callers_in, flow_in};

use crate::doing::Doing;
use crate::frame::Frame;
use crate::operands::argument;
use crate::registers::{BLANK, Registers};
use history::{Arg, MachineEnd};
use ir_ast::TypedVal;

/// How a thread goes on: in a frame, or not, with its end and the number of its last instruction.
#[derive(Drop)]
pub enum Flow<'p> {
    On(Frame<'p>),
    Over(MachineEnd, u32),
}

/// The value of a return.
pub fn returned_value(registers: &Registers, val: &Option<TypedVal>) -> Arg
    ensures { result ≡ sem.returned_value registers.now.env val.now }
{
    match val {
        Some(val) => argument(registers, val),
        None => BLANK,
    }
}

/// A frame returns a value to its caller, if it has one.
#[tactic(auto, using(crate::proofs::Calling::return_steps))]
pub fn return_to<'p>(frame: Frame<'p>, callers: &mut Vec<Frame<'p>>, value: Arg) -> Flow<'p>
    ensures { (t : sem.Source) → sem.return_to true t (frame_in frame.entry) (callers_in callers.old.items) value ≡ flow_in t result (callers_in callers.new.items) t.started }
{
    match callers.pop() {
        Some(mut caller) => {
            caller.resume(value);
            Flow::On(caller)
        }
        None => {
            let end = MachineEnd::Returned {
                value: value.value,
                carried: value.prov,
            };
            Flow::Over(end, frame.number)
        }
    }
}

/// A frame that returns a value has given up the first of what it has to give up.
pub fn leave_on<'p>(mut frame: Frame<'p>, callers: &mut Vec<Frame<'p>>, value: Arg) -> Flow<'p>
    ensures { (t : sem.Source) → sem.leave_on true t (frame_in frame.entry) (callers_in callers.old.items) value ≡ flow_in t result (callers_in callers.new.items) t.started }
{
    frame.owned.release();
    match frame.owned.first() {
        Some(_) => {
            frame.doing = Doing::Leaving(value);
            Flow::On(frame)
        }
        None => return_to(frame, callers, value),
    }
}
