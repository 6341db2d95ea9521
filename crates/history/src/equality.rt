//! Whether two values are the same.
ghost use Rattle.std.specs.Prelude.{◌≡◌, ◌↔◌, IsTrue};

use crate::entry::{Entry, Plain, Reply, Request};

impl Request {
    /// Whether the other request is the same.
    pub fn equals(&self, other: &Request) -> bool
        ensures { IsTrue result ↔ (self.now ≡ other.now) }
    {
        match (self, other) {
            (
                Request::Make { size, place },
                Request::Make {
                    size: other_size,
                    place: other_place,
                },
            ) => size == other_size && place == other_place,
            (
                Request::Load { at, ty, prov },
                Request::Load {
                    at: other_at,
                    ty: other_ty,
                    prov: other_prov,
                },
            ) => at == other_at && ty == other_ty && prov == other_prov,
            (
                Request::Store {
                    at,
                    ty,
                    value,
                    carried,
                    prov,
                },
                Request::Store {
                    at: other_at,
                    ty: other_ty,
                    value: other_value,
                    carried: other_carried,
                    prov: other_prov,
                },
            ) => at == other_at
                && ty == other_ty
                && value == other_value
                && carried == other_carried
                && prov == other_prov,
            (
                Request::Modify {
                    at,
                    width,
                    op,
                    value,
                    prov,
                },
                Request::Modify {
                    at: other_at,
                    width: other_width,
                    op: other_op,
                    value: other_value,
                    prov: other_prov,
                },
            ) => at == other_at
                && width == other_width
                && op == other_op
                && value == other_value
                && prov == other_prov,
            (
                Request::CmpXchg {
                    at,
                    width,
                    expected,
                    value,
                    prov,
                },
                Request::CmpXchg {
                    at: other_at,
                    width: other_width,
                    expected: other_expected,
                    value: other_value,
                    prov: other_prov,
                },
            ) => at == other_at
                && width == other_width
                && expected == other_expected
                && value == other_value
                && prov == other_prov,
            (
                Request::CopyOut { at, len, prov },
                Request::CopyOut {
                    at: other_at,
                    len: other_len,
                    prov: other_prov,
                },
            ) => at == other_at && len == other_len && prov == other_prov,
            (
                Request::CopyIn { at, piece, prov },
                Request::CopyIn {
                    at: other_at,
                    piece: other_piece,
                    prov: other_prov,
                },
            ) => at == other_at && piece.equals(other_piece) && prov == other_prov,
            (
                Request::Retag {
                    at,
                    len,
                    kind,
                    guard,
                    prov,
                },
                Request::Retag {
                    at: other_at,
                    len: other_len,
                    kind: other_kind,
                    guard: other_guard,
                    prov: other_prov,
                },
            ) => at == other_at
                && len == other_len
                && kind == other_kind
                && guard == other_guard
                && prov == other_prov,
            (Request::EndProtector { tag }, Request::EndProtector { tag: other_tag }) => tag
                == other_tag,
            (
                Request::Free { at, stack, prov },
                Request::Free {
                    at: other_at,
                    stack: other_stack,
                    prov: other_prov,
                },
            ) => at == other_at && stack == other_stack && prov == other_prov,
            (Request::Print { value }, Request::Print { value: other_value }) => value
                == other_value,
            (
                Request::Host {
                    number,
                    first,
                    second,
                },
                Request::Host {
                    number: other_number,
                    first: other_first,
                    second: other_second,
                },
            ) => number == other_number && first == other_first && second == other_second,
            (
                Request::Spawn { function },
                Request::Spawn {
                    function: other_function,
                },
            ) => function == other_function,
            (Request::Join { child }, Request::Join { child: other_child }) => child == other_child,
            _ => false,
        }
    }
}

impl Plain {
    /// Whether the other reply is the same.
    pub fn equals(&self, other: &Plain) -> bool
        ensures { IsTrue result ↔ (self.now ≡ other.now) }
    {
        match (self, other) {
            (Plain::Made(number), Plain::Made(other_number)) => number == other_number,
            (Plain::Value(value), Plain::Value(other_value)) => value == other_value,
            (Plain::Copied(piece), Plain::Copied(other_piece)) => piece.equals(other_piece),
            (Plain::Done, Plain::Done) => true,
            (Plain::Retagged { added }, Plain::Retagged { added: other_added }) => added
                == other_added,
            (Plain::Spawned(number), Plain::Spawned(other_number)) => number == other_number,
            (Plain::Trapped(trap), Plain::Trapped(other_trap)) => trap == other_trap,
            _ => false,
        }
    }
}

impl Reply {
    /// Whether the other reply is the same.
    pub fn equals(&self, other: &Reply) -> bool
        ensures { IsTrue result ↔ (self.now ≡ other.now) }
    {
        self.plain.equals(&other.plain)
            && self.carried == other.carried
            && self.verdict == other.verdict
    }
}

impl Entry {
    /// Whether the other entry is the same.
    pub fn equals(&self, other: &Entry) -> bool
        ensures { IsTrue result ↔ (self.now ≡ other.now) }
    {
        self.thread == other.thread
            && self.stamp == other.stamp
            && self.site == other.site
            && self.alloc == other.alloc
            && self.request.equals(&other.request)
            && self.reply.equals(&other.reply)
    }
}
