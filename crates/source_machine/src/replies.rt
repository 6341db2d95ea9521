//! What replies give.
ghost use Rattle.std.specs.Prelude.{◌≡◌};
ghost use Rattle.thread_parts.specs.Copies as copies;
ghost use Rattle.thread_parts.specs.Parts as parts;
ghost use Rattle.thread_parts.specs.Words as words;
ghost use Rattle.source_machine.specs.Parts.{access_in};
ghost use Rattle.source_machine.specs.Doings.{bytes_in};
ghost use Rattle.source_machine.specs.Fits.{HasPieceRoom, IsNumber};

use crate::operands::{at_type, plain};
use crate::part::Access;
use history::{Arg, PieceBuffer, Plain, Reply};

/// The number in a reply, and 0 where there is none.
pub fn number_in(reply: &Plain) -> u64
    ensures { result ≡ words.number_in reply.now }
{
    match reply {
        Plain::Made(number) => u64::from(number.0),
        Plain::Value(value) => *value,
        Plain::Spawned(number) => u64::from(number.0),
        Plain::Copied(_) | Plain::Done | Plain::Retagged { .. } | Plain::Trapped(_) => 0,
    }
}

/// The number of an allocation or of a thread in a reply, and 0 where there is none.
pub fn name_in(reply: &Plain) -> u32
    requires { IsNumber reply.now }
    ensures { result ≡ words.number_in reply.now }
{
    match reply {
        Plain::Made(number) => number.0,
        Plain::Spawned(number) => number.0,
        Plain::Value(_) => unreachable!(),
        Plain::Copied(_) | Plain::Done | Plain::Retagged { .. } | Plain::Trapped(_) => 0,
    }
}

/// The value that an access gives.
pub fn access_result(access: Access, reply: &Reply) -> Option<Arg>
    ensures { result ≡ parts.access_result (access_in access) reply.now }
{
    let number = number_in(&reply.plain);
    match access {
        Access::Loads(ty) => Some(at_type(
            ty,
            Arg {
                value: number,
                prov: reply.carried,
            },
        )),
        Access::Modifies(..) | Access::Compares(..) => Some(plain(number)),
        Access::Stores(..) | Access::Frees => None,
    }
}

/// Keeps the bytes that were copied out in place of what is there, where there is room for a piece. It takes no memory.
pub fn keep(kept: &mut Option<PieceBuffer>, reply: &Plain)
    requires { HasPieceRoom kept.old }
    ensures { bytes_in kept.new ≡ copies.copied_of reply.now }
{
    match (reply, kept.as_mut()) {
        (Plain::Copied(piece), Some(buffer)) => buffer.assign(piece),
        _ => *kept = None,
    }
}
