//! A thread's desk.
ghost use Rattle.std.specs.Prelude.{◌≡◌};
ghost use Rattle.turn_lock.specs.Plays.{IsDesk};

use crate::view::View;
use atomic_table::Seat;
use std::marker::Model;

/// What a thread makes its steps with. A contract sees of it the table that it belongs to and its
/// `View`. A desk that is dropped stays out on the desk from which it was split, so the table can
/// no longer be closed.
pub struct Desk<T> {
    pub(crate) seat: Seat<Option<T>, View>,
}

impl<T> Model for Desk<T> {
    ghost use Rattle.turn_lock.specs.Plays.{DeskView, IsDesk};

    ghost Value = { DeskView };

    ghost view = { λ d. record { table = d.seat.table_id; view = d.seat.me.0 } };

    ghost invariant = { λ d. IsDesk d.seat.table_id d.seat.me };
}

impl<T> Desk<T> {
    pub(crate) fn into_seat(self) -> Seat<Option<T>, View>
        ensures table { result.table_id ≡ self.table }
        ensures view { result.me.0 ≡ self.view }
        ensures desk { IsDesk result.table_id result.me }
    {
        let Self { seat } = self;
        seat
    }
}

impl<T> Drop for Desk<T> {
    fn drop(self) {
        let Desk { seat } = self;
        drop(seat);
    }
}
