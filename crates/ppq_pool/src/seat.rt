//! The right to take from a pool.

use crate::Hand;
use ppq_table::Place;
use std::marker::Model;

/// The right to take from one pool, and the numbers that are taken by it. It has no bytes, and may
/// go to another thread.
///
/// Contracts see which pool it is of, which pass it is in the pool's history, and what it knows.
#[derive(Drop)]
pub struct PoolSeat<T> {
    pub(crate) seat: atomic_table::Seat<Place<T>, Hand<T>>,
}

impl<T> Model for PoolSeat<T> {
    ghost use Rattle.ppq_pool.specs.Known.{IsBetweenCalls, Known};

    ghost Value = { Known T };

    ghost view = { λ s. record { pool = s.seat.table_id; pass = s.seat.id; hand = s.seat.me.0 } };

    ghost invariant = { λ s. IsBetweenCalls s.seat };
}
