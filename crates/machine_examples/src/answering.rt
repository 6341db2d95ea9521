//! Which entries answer what a thread asks.
ghost use Rattle.std.specs.Prelude.{◌≡◌, Option, Some, IsTrue};
ghost use Rattle.history.specs.Replies.{Answers, IsOnNumber};
ghost use Rattle.ir_ast.specs.declared.types.Ty.{Ty as AnyTy};
ghost use Rattle.runs.specs.Threads.{AsksSpawn};
ghost use Rattle.thread_parts.specs.Fits.{ReplyFits};
ghost use Rattle.thread_machine.specs.Views.{IsSpawn};

use bsan_ids::{AllocNo, Prov, Tag};
use history::{Ask, Entry, MachineEnd, Plain, Request};

/// Whether an allocation answers this request, once it is made.
fn is_on_number(request: &Request) -> bool
    ensures { IsTrue result → IsOnNumber request.now }
{
    match request {
        Request::Make { .. }
        | Request::Print { .. }
        | Request::Host { .. }
        | Request::Spawn { .. }
        | Request::Join { .. } => false,
        _ => true,
    }
}

/// Whether an entry answers what is asked.
pub fn is_answered(asked: &Ask, entry: &Entry) -> bool
    ensures { IsTrue result → Answers asked.now entry.now }
{
    let found = &entry.request;
    let is_off = entry.alloc.is_none();
    match asked {
        Ask::Turn | Ask::Ended(_) | Ask::Host { .. } => false,
        Ask::Make { size, place } => {
            let (size, place) = (*size, *place);
            found.equals(&Request::Make { size, place })
        }
        Ask::At { alloc, request } => {
            entry.alloc == Some(*alloc) && is_on_number(request) && found.equals(request)
        }
        Ask::Print { value } => is_off && found.equals(&Request::Print { value: *value }),
        Ask::Spawn { function } => {
            let function = *function;
            is_off && found.equals(&Request::Spawn { function })
        }
        Ask::Join { child } => is_off && found.equals(&Request::Join { child: *child }),
    }
}

/// Whether a thread is to be started.
pub fn is_spawn(asked: &Ask) -> bool
    ensures source { IsTrue result → AsksSpawn asked.now }
    ensures target { IsTrue result → IsSpawn asked.now }
{
    matches!(asked, Ask::Spawn { .. })
}

/// Whether a thread has ended so.
pub fn is_end(asked: &Ask, end: MachineEnd) -> bool {
    match asked {
        Ask::Ended(found) => *found == end,
        _ => false,
    }
}

/// Whether the provenance in a reply is that of the node which its step adds to an allocation.
fn carries_node(entry: &Entry, alloc: AllocNo) -> bool
    ensures { IsTrue result → entry.now.reply.carried ≡ Some (record { alloc = alloc; tag = record { 0 = entry.now.stamp.0 } }) }
{
    let tag = Tag(entry.stamp.0);
    entry.reply.carried == Some(Prov { alloc, tag })
}

/// Whether a reply fits its request, where that is one of these; a value is below 256 and carries nothing.
pub fn does_fit(entry: &Entry) -> bool
    ensures { (ty : Option AnyTy) → IsTrue result → ReplyFits ty entry.now entry.now.request }
{
    match (&entry.request, &entry.reply.plain) {
        (Request::Make { .. }, Plain::Made(number)) => {
            entry.alloc == Some(*number) && carries_node(entry, *number)
        }
        (Request::Retag { .. }, Plain::Retagged { added: true }) => match entry.alloc {
            Some(alloc) => carries_node(entry, alloc),
            None => false,
        },
        (Request::Load { .. } | Request::Join { .. }, Plain::Value(value)) => {
            *value < 256 && entry.reply.carried.is_none()
        }
        (Request::Store { .. } | Request::Free { .. }, Plain::Done) => true,
        (Request::EndProtector { .. } | Request::Print { .. }, Plain::Done) => true,
        (Request::Spawn { .. }, Plain::Spawned(child)) => child.0 != 0,
        _ => false,
    }
}
