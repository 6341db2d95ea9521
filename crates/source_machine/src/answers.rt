//! How a frame goes on with a reply.
ghost use Rattle.std.specs.Prelude.{◌≡◌, ◌≤◌, ◌<◌, ◌∷◌, List, IsSome, reverse, slice_get, true, false, vec_capacity, vec_len};
ghost use Rattle.std.specs.Option.{option_copied};
ghost use Rattle.source_sem.specs.Env as env;
ghost use Rattle.thread_parts.specs.Owned as owned_parts;
ghost use Rattle.thread_parts.specs.Parts as parts;
ghost use Rattle.thread_parts.specs.Rooms.{HasRoom};
ghost use Rattle.source_sem.specs.Source as sem;
ghost use Rattle.source_machine.specs.Positions.{rest_of};
ghost use Rattle.source_machine.specs.Doings.{half_in, pending};
ghost use Rattle.source_machine.specs.Fits.{PartFits, HasPartRoom, StepFits};
ghost use Rattle.source_machine.specs.Frames.{frame_in};
ghost use Rattle.source_machine.specs.Parts.{part_in, step_in};
ghost use Rattle.source_machine.specs.declared.doing.Doing.TheVariants as doing;

use crate::frame::Frame;
use crate::operands::plain;
use crate::part::{Part, Step};
use crate::replies::{access_result, keep, name_in, number_in};
use bsan_ids::AllocNo;
use history::{Arg, Reply};
use ir_ast::{Inst, Named, Place};
use thread_parts::StackAllocation;

/// The register of an instruction's value, if it has one.
pub fn dest_of(inst: &Inst) -> Option<&Named>
    ensures { option_copied result ≡ inst.now.dest }
{
    match &inst.dest {
        Some(dest) => Some(dest),
        None => None,
    }
}

/// The frame's instruction was a step: what the frame owns after it, and the children that the thread has started.
fn own<'p>(frame: &mut Frame<'p>, started: &mut Vec<u32>, step: Step, reply: &Reply)
    requires owned { HasRoom frame.old.owned }
    requires started { vec_len started.old < vec_capacity started.old }
    requires fits { StepFits step reply.now.plain }
    ensures frame { frame_in frame.new ≡ record (frame_in frame.old) { owned = owned_parts.step_owned (step_in (frame_in frame.old).env step.entry) reply.now (frame_in frame.old).owned } }
    ensures started { reverse started.new.items ≡ parts.step_started (step_in (frame_in frame.old).env step.entry) reply.now (reverse started.old.items) }
    ensures room { frame.new.registers ≡ frame.old.registers }
{
    match step {
        Step::Makes(_, Place::Stack) => {
            let number = AllocNo(name_in(&reply.plain));
            frame.owned.push_stack(StackAllocation {
                number,
                prov: reply.carried,
            });
        }
        Step::Spawns(..) => {
            let child = name_in(&reply.plain);
            frame.owned.push_child(child);
            started.push_reserved(child);
        }
        Step::Makes(_, Place::Heap) | Step::Accesses(..) | Step::Prints(_) | Step::Hosts(..) => {}
    }
}

/// The value that a step gives.
fn step_result(step: Step, reply: &Reply) -> Option<Arg>
    requires { StepFits step reply.now.plain }
    ensures { (e : env.Env) → result ≡ parts.step_result (step_in e step.entry) reply.now }
{
    match step {
        Step::Makes(..) => Some(Arg {
            value: u64::from(name_in(&reply.plain)) * 0x1_0000_0000,
            prov: reply.carried,
        }),
        Step::Accesses(_, access) => access_result(access, reply),
        Step::Prints(_) => None,
        Step::Hosts(..) | Step::Spawns(..) => Some(plain(number_in(&reply.plain))),
    }
}

/// The frame's instruction is answered, of which no part was done.
pub fn part_answer<'p>(
    frame: &mut Frame<'p>,
    started: &mut Vec<u32>,
    inst: &'p Inst,
    part: Part<'p>,
    reply: &Reply,
)
    requires registers { 1 ≤ frame.old.registers.room }
    requires owned { HasRoom frame.old.owned }
    requires started { vec_len started.old < vec_capacity started.old }
    requires more { IsSome (slice_get (frame_in frame.old).insts 0) }
    requires begun { pending frame.old.doing ≡ 0 }
    requires fits { PartFits part reply.now.plain }
    requires piece { HasPartRoom part frame.old.piece }
    ensures { (x : sem.Setting) (t : sem.Source) (fs : List sem.Frame) → x.tracked ≡ true → t.frames ≡ frame_in frame.old ∷ fs → t.started ≡ reverse started.old.items
        → sem.part_answer x t (frame_in frame.old) fs (rest_of (frame_in frame.old).insts) inst.now.dest (part_in (frame_in frame.old).env part.entry) reply.now ≡ record t { frames = frame_in frame.new ∷ fs; started = reverse started.new.items } }
{
    let dest = dest_of(inst);
    match part {
        Part::Steps(step) => {
            let value = step_result(step, reply);
            own(frame, started, step, reply);
            frame.advance(dest, value);
        }
        Part::Retags(pointer, ..) => {
            let pointer = Arg {
                value: pointer.value,
                prov: reply.carried,
            };
            frame.advance(dest, Some(pointer));
        }
        Part::Copies(_, _, len) => {
            keep(&mut frame.piece, &reply.plain);
            frame.copy_on(len, 0, true);
        }
        Part::Joins(child, ty, attr) => {
            let value = Arg {
                value: number_in(&reply.plain),
                prov: reply.carried,
            };
            frame.join(child, dest, ty, attr, value);
        }
        Part::Gives(_) | Part::Fails(_) | Part::Calls(..) => {}
    }
}

/// A later part of the copy that is the next instruction is answered: so many pieces were copied, and the next one was
/// read or not.
pub fn copying_answer<'p>(
    frame: &mut Frame<'p>,
    part: Part<'p>,
    pieces: u64,
    read: bool,
    reply: &Reply,
)
    requires doing { frame.old.doing ≡ doing.Copying pieces read }
    requires registers { 1 ≤ frame.old.registers.room }
    requires more { IsSome (slice_get (frame_in frame.old).insts 0) }
    requires piece { HasPartRoom part frame.old.piece }
    ensures { (t : sem.Source) (fs : List sem.Frame) → t.frames ≡ frame_in frame.old ∷ fs
        → sem.copying_part t (frame_in frame.old) fs (rest_of (frame_in frame.old).insts) (part_in (frame_in frame.old).env part.entry) (record { pieces = pieces; half = half_in frame.old.piece read }) reply.now ≡ record t { frames = frame_in frame.new ∷ fs } }
{
    if let Part::Copies(_, _, len) = part {
        if read {
            frame.copy_on(len, pieces + 1, false);
        } else {
            keep(&mut frame.piece, &reply.plain);
            frame.copy_on(len, pieces, true);
        }
    }
}
