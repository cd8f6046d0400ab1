//! A row, and its calls.
ghost use Rattle.std.specs.Prelude.{◌≡◌, ℕ, ◌<◌, true, false, [], length, drop, IfSome, IfNone, IfOk, IfErr, vec_len};
ghost use Rattle.ppq_table.specs.Sums.{all_shares, times, once_below};
ghost use Rattle.ppq_row.specs.Hands.{first_hand, less_one, newcomer, moved, together};
ghost use Rattle.ppq_row.specs.Seats.{IsSeatOf, Drew, NoneLeft};

use crate::plays::{Draws, Moved, OneShare, Together};
use crate::rule::DrawnOnce;
use crate::{Hand, RowSeat};
use atomic_table::{Refused, Seat, Table};
use ppq_core::Memory;
use ppq_table::{Place, items_from, lay, unlay};
use std::alloc::Global;
use std::marker::Model;
use std::snapshot::Snapshot;

/// Items that are drawn in order, each once, by any number of threads.
///
/// Contracts see which row it is, so that a seat can be said to be of it.
#[derive(Drop)]
pub struct Row<T> {
    table: Table<Place<T>, Hand<T>, Snapshot<Vec<T>>, DrawnOnce, Global>,
}

impl<T> Model for Row<T> {
    ghost use Rattle.std.specs.Prelude.{◌≡◌, ◌<◌, ◌≤◌};
    ghost use Rattle.atomic_table.specs.Seated.{TableId, table_id_coded};

    ghost Value = { TableId };

    ghost coded = { table_id_coded };

    ghost view = { λ r. r.table.shared.table_id };

    ghost invariant = { λ r. (r.table.shared.table_id.words ≡ 1) × (0 < r.table.shared.table_id.slots) × (r.table.shared.table_id.slots ≤ 4294967296) };
}

impl<T: Drop> Row<T> {
    /// A row of the items, and the seat that has all its 2^32 shares.
    ///
    /// `Err` gives the items back as they were; it is returned only if an allocation failed.
    pub fn new(alloc: Global, items: Vec<T>) -> Result<(Row<T>, RowSeat<T>), (Vec<T>, Memory)>
        requires { vec_len items < 4294967296 }
        ensures seat { IfOk result (λ r. IsSeatOf r.0 r.1 × (r.1.pass ≡ 0) × (r.1.hand ≡ first_hand items.items)) }
        ensures unchanged { IfErr result (λ r. r.0.items ≡ items.items) }
    {
        let about = Snapshot::of(&items);
        let places = match lay(alloc, items) {
            Ok(places) => places,
            Err(items) => return Err((items, Memory)),
        };
        match Table::new(alloc, &[0], places, &about) {
            Ok((table, seat)) => Ok((Row { table }, RowSeat { seat, noted: false })),
            Err(Refused { slots }) => Err((unlay(slots), Memory)),
        }
    }

    /// The next item with its place, by one fetch-add of the counter.
    ///
    /// It is the very item that was put in at that place, which no seat drew before. `None` comes
    /// where the fetch-add of this call found all items drawn, which the seat then notes, or where
    /// the seat has that noted already; then no step is taken.
    #[inline]
    pub fn draw(&self, seat: &mut RowSeat<T>) -> Option<(u32, T)>
        requires row { IsSeatOf self.now seat.old }
        ensures row { IsSeatOf self.now seat.new }
        ensures pass { seat.new.pass ≡ seat.old.pass }
        ensures drawn { IfSome result (λ p. (seat.old.hand.noted ≡ false) × Drew seat.old.hand p.0 p.1 seat.new.hand) }
        ensures none { IfNone result (NoneLeft seat.old.hand seat.new.hand) }
        ensures noted { IfNone result (seat.new.hand.noted ≡ true) }
        ensures shares { seat.new.hand.shares ≡ seat.old.hand.shares }
    {
        if seat.noted {
            return None;
        }
        let shared = &self.table.shared;
        let end = self.table.slot_count() as u64 - 1;
        let found = shared.fetch_add::<Draws>(&mut seat.seat, 0, 1);
        if found >= end {
            seat.noted = true;
            return None;
        }
        match shared.exchange(&mut seat.seat, found as usize, Place::Empty) {
            Place::Item(item) => Some((found as u32, item)),
            _ => unreachable!(),
        }
    }

    /// A new seat, with one share of the old one and its note. It has drawn nothing yet.
    pub fn split(&self, seat: &mut RowSeat<T>) -> RowSeat<T>
        requires row { IsSeatOf self.now seat.old }
        requires shares { 1 < seat.old.hand.shares }
        ensures row { IsSeatOf self.now seat.new × IsSeatOf self.now result }
        ensures pass { seat.new.pass ≡ seat.old.pass }
        ensures old { seat.new.hand ≡ less_one seat.old.hand }
        ensures new { result.hand ≡ newcomer seat.old.hand }
    {
        let new = self.table.shared.split_seat::<OneShare>(&mut seat.seat);
        RowSeat {
            seat: new,
            noted: seat.noted,
        }
    }

    /// The seat takes over the shares and the places of the other, and its note. Two loads of the
    /// counter.
    pub fn join(&self, seat: &mut RowSeat<T>, other: RowSeat<T>)
        requires row { IsSeatOf self.now seat.old × IsSeatOf self.now other }
        ensures row { IsSeatOf self.now seat.new }
        ensures pass { seat.new.pass ≡ seat.old.pass }
        ensures both { seat.new.hand ≡ together seat.old.hand (moved other.hand) }
    {
        let RowSeat {
            seat: mut theirs,
            noted,
        } = other;
        let bare = self.moved(&mut theirs);
        let shared = &self.table.shared;
        shared.join_seat::<Together>(&mut seat.seat, bare);
        seat.noted = seat.noted || noted;
    }

    // All that the seat knows goes to a new one that has no slot out, as a join asks. The slots of
    // the items that it drew stay with the old one.
    fn moved(&self, seat: &mut Seat<Place<T>, Hand<T>>) -> Seat<Place<T>, Hand<T>>
        requires row { seat.old.table_id ≡ self.now }
        requires shares { 0 < seat.old.me.0.shares }
        ensures row { result.table_id ≡ self.now }
        ensures moved { result.me ≡ (moved seat.old.me.0, []) }
    {
        self.table.shared.split_seat::<Moved>(seat)
    }

    /// The items that were not drawn, in order, in the list in which they came.
    ///
    /// The seat has all shares, so it is the only one left: the places that it has, its own and
    /// those of the seats that it took in, are the numbers below the count of draws, each once.
    pub fn close(self, seat: RowSeat<T>) -> Vec<T>
        requires row { IsSeatOf self seat }
        requires shares { seat.hand.shares ≡ all_shares }
        ensures left { result.items ≡ drop (length seat.hand.places) seat.hand.items }
        ensures each_once { (x : ℕ) → times x seat.hand.places ≡ once_below x (length seat.hand.places) }
        ensures noted { seat.hand.noted ≡ true → result.items ≡ [] }
    {
        let Row { table } = self;
        let RowSeat { seat, noted: _ } = seat;
        let closed = table.close_with(seat);
        let drawn = closed.word(0);
        items_from(closed, drawn as usize)
    }
}
