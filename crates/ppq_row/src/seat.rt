//! The right to draw from a row.
use crate::Hand;
use atomic_table::Seat;
use ppq_table::Place;
use std::marker::Model;

/// The right to draw from a row. It may go to another thread.
///
/// Contracts see the row that it is of, which pass it is in the row's history, and its hand: its
/// shares, the places that it drew, and whether it has noted that the row is drawn to its end. Its
/// only bytes are that note.
#[derive(Drop)]
pub struct RowSeat<T> {
    pub(crate) seat: Seat<Place<T>, Hand<T>>,
    pub(crate) noted: bool,
}

impl<T> Model for RowSeat<T> {
    ghost use Rattle.std.specs.Prelude.{◌≡◌, ◌<◌};
    ghost use Rattle.ppq_row.specs.Known.{Known};

    ghost Value = { Known T };

    ghost view = { λ s. record { row = s.seat.table_id; pass = s.seat.id; hand = s.seat.me.0 } };

    ghost invariant = { λ s. (s.noted ≡ s.seat.me.0.noted) × (0 < s.seat.me.0.shares) };
}
