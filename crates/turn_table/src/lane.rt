//! A lane's token.
ghost use Rattle.std.specs.Prelude.{◌≡◌};
ghost use Rattle.turn_table.specs.Lanes.{IsLane, shape_of};

use crate::tabled::Tabled;
use crate::view::View;
use atomic_table::Seat;
use std::marker::Model;

/// What one lane knows of a table, and whether it has the value out. A thread carries it from turn
/// to turn. One that is dropped is never joined, so its table cannot be closed.
pub struct Lane<D: Tabled> {
    pub(crate) seat: Seat<Option<D>, View<D::Ground, D::Item>>,
    pub(crate) out: bool,
}

impl<D: Tabled> Model for Lane<D> {
    ghost use Rattle.turn_table.specs.Lanes.{LaneShape, IsLane, shape_of};

    ghost Value = { LaneShape D.Ground D.Item };

    ghost view = { λ l. shape_of l.seat.table_id l.out l.seat.me.0 };

    ghost invariant = { λ l. IsLane l.seat.me.1 l.out l.seat.me.0 };
}

impl<D: Tabled> Lane<D> {
    pub(crate) fn into_seat(self) -> Seat<Option<D>, View<D::Ground, D::Item>>
        ensures shape { self ≡ shape_of result.table_id self.out result.me.0 }
        ensures lane { IsLane result.me.1 self.out result.me.0 }
    {
        let Lane { seat, out: _ } = self;
        seat
    }
}

impl<D: Tabled> Drop for Lane<D> {
    fn drop(self) {
        let Lane { seat: _, out: _ } = self;
    }
}
