//! The step that a thread asks for.
ghost use Rattle.std.specs.Prelude.{◌≡◌, ◌<◌, length, None, Some};
ghost use Rattle.history.specs.declared.ask.Ask.TheVariants as ask;
ghost use Rattle.history.specs.declared.entry.Plain.TheVariants as plain;
ghost use Rattle.history.specs.declared.entry.Request.TheVariants as request;
ghost use Rattle.run_memory.specs.Memory.{Records};
ghost use Rattle.history.specs.Objects.{clean};
ghost use Rattle.runs.specs.Threads.{AsksStep};
ghost use Rattle.core_model.specs.Steps.{HasNumbers, IsAllowed, AsksHostOf, IsStep, IsJoined, JoinsStep};

use bsan_ids::ThreadNo;
use history::{Ask, End, Plain, Reply, Request, Verdict};
use hosts::Hosts;
use run_memory::{RunMemory, Step};

/// A step of a join, where the child has ended.
fn join(memory: &mut RunMemory, thread: ThreadNo, site: u32, child: ThreadNo, ended: End) -> Step
    requires { HasNumbers memory.old.words }
    ensures { JoinsStep memory.old thread site child (Some ended) memory.new result }
{
    match ended {
        End::Returned { value, carried } => {
            let reply = Reply {
                plain: Plain::Value(value),
                carried,
                verdict: Verdict::Clean,
            };
            memory.note(thread, site, Request::Join { child }, reply)
        }
        _ => Step::Ends(End::ChildEnded(child)),
    }
}

/// A reply that carries no provenance, of a step that no tree answers.
fn told(plain: Plain) -> Reply
    ensures { result ≡ clean plain None }
{
    Reply {
        plain,
        carried: None,
        verdict: Verdict::Clean,
    }
}

/// A step that prints a value.
fn print(memory: &mut RunMemory, thread: ThreadNo, site: u32, value: u64) -> Step
    requires { HasNumbers memory.old.words }
    ensures { Records memory.old thread site (request.Print value) (clean plain.Done None) memory.new result }
{
    memory.note(thread, site, Request::Print { value }, told(Plain::Done))
}

/// A step that calls a host function.
fn call_host(
    memory: &mut RunMemory,
    hosts: &Hosts,
    thread: ThreadNo,
    site: u32,
    number: u32,
    arguments: (u64, u64),
) -> Step
    requires room { HasNumbers memory.old.words }
    requires there { number < length hosts.now.table.entries }
    ensures { IsStep memory.old hosts.now.table thread site None (ask.Host number arguments.0 arguments.1) memory.new result }
{
    let (first, second) = arguments;
    let answer = hosts.call(number, first, second);
    let request = Request::Host {
        number,
        first,
        second,
    };
    memory.note(thread, site, request, told(Plain::Value(answer)))
}

/// Makes the step that a thread asks for at this site, or answers how the thread ends in place of it. `joined` is the
/// end of the child where it asks to join one.
pub(crate) fn make_step(
    memory: &mut RunMemory,
    hosts: &Hosts,
    thread: ThreadNo,
    site: u32,
    joined: Option<End>,
    ask: Ask,
) -> Step
    requires step { AsksStep ask }
    requires room { HasNumbers memory.old.words }
    requires allowed { IsAllowed ask }
    requires hosts { AsksHostOf hosts.now.table ask }
    requires joined { IsJoined ask joined }
    ensures { IsStep memory.old hosts.now.table thread site joined ask memory.new result }
{
    match ask {
        Ask::Turn | Ask::Ended(_) => unreachable!(),
        Ask::Make { size, place } => memory.make(thread, site, size, place),
        Ask::At { alloc, request } => memory.ask(thread, site, alloc, request),
        Ask::Print { value } => print(memory, thread, site, value),
        Ask::Host {
            number,
            first,
            second,
        } => call_host(memory, hosts, thread, site, number, (first, second)),
        Ask::Spawn { function } => memory.spawn(thread, site, function),
        Ask::Join { child } => match joined {
            Some(ended) => join(memory, thread, site, child, ended),
            None => unreachable!(),
        },
    }
}
