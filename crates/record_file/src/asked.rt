//! Whether an entry answers what a thread asks.
ghost use Rattle.std.specs.Prelude.{◌≡◌, ◌↔◌, IsTrue};
ghost use Rattle.history.specs.Replies.{Answers, IsOnNumber};

use history::{Ask, Entry, Request};

/// Whether the request is one to an allocation of a number.
fn is_on_number(request: &Request) -> bool
    ensures { IsTrue result ↔ IsOnNumber request.now }
{
    match request {
        Request::Make { .. }
        | Request::Print { .. }
        | Request::Host { .. }
        | Request::Spawn { .. }
        | Request::Join { .. } => false,
        _ => true,
    }
}

/// Whether the entry is of this request, and on no allocation.
fn is_alone(entry: &Entry, request: &Request) -> bool
    ensures { IsTrue result ↔ ((entry.now.request ≡ request.now) × (entry.now.alloc ≡ None)) }
{
    entry.request.equals(request) && entry.alloc.is_none()
}

/// Whether the entry answers what is asked.
pub(crate) fn is_answered(ask: &Ask, entry: &Entry) -> bool
    ensures { IsTrue result ↔ Answers ask.now entry.now }
{
    match ask {
        Ask::Turn | Ask::Ended(_) => false,
        Ask::Make { size, place } => entry.request.equals(&Request::Make {
            size: *size,
            place: *place,
        }),
        Ask::At { alloc, request } => {
            entry.request.equals(request) && entry.alloc == Some(*alloc) && is_on_number(request)
        }
        Ask::Print { value } => is_alone(entry, &Request::Print { value: *value }),
        Ask::Host {
            number,
            first,
            second,
        } => is_alone(
            entry,
            &Request::Host {
                number: *number,
                first: *first,
                second: *second,
            },
        ),
        Ask::Spawn { function } => is_alone(
            entry,
            &Request::Spawn {
                function: *function,
            },
        ),
        Ask::Join { child } => is_alone(entry, &Request::Join { child: *child }),
    }
}
