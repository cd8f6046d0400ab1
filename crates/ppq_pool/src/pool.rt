//! A pool, and its calls.
ghost use Rattle.std.specs.Prelude.{◌≡◌, ℕ, ◌+◌, ◌-◌, ◌<◌, All, Contains, length, IfSome, IfNone, IfOk, IfErr, vec_len};
ghost use Rattle.ppq_pool.specs.Hands.{first_hand, common_shape, less_one, newcomer, together, with_look, with_give, last_moment};
ghost use Rattle.ppq_pool.specs.Seats.{IsSeatOf, IsOnly, IsLeft, count_of, Holds, Takes, FoundHeld};

use crate::plays::{Claims, Clears, OneShare, Reaches, Settles, Together};
use crate::rule::HeldOnce;
use crate::{Hand, PoolSeat, Shaped};
use atomic_table::{Refused, Table};
use ppq_core::Memory;
use ppq_table::{Place, items_from, lay, unlay};
use std::alloc::Global;
use std::marker::Model;
use std::snapshot::Snapshot;

/// A pool of items of one shape, each with a number from 0.
///
/// Contracts see which table it is, by which its seats are told from those of other pools.
#[derive(Drop)]
pub struct Pool<T: Shaped> {
    table: Table<Place<T>, Hand<T>, Snapshot<Vec<T>>, HeldOnce, Global>,
}

impl<T: Shaped> Model for Pool<T> {
    ghost use Rattle.std.specs.Prelude.{◌≡◌, ◌<◌, ◌≤◌};
    ghost use Rattle.atomic_table.specs.Seated.{TableId, table_id_coded};

    ghost Value = { TableId };

    ghost coded = { table_id_coded };

    ghost view = { λ p. p.table.shared.table_id };

    ghost invariant = { λ p. (p.table.shared.table_id.words ≡ p.table.shared.table_id.slots) × (0 < p.table.shared.table_id.slots) × (p.table.shared.table_id.slots ≤ 4294967296) };
}

impl<T: Shaped + Drop> Pool<T> {
    /// A pool of these items, and its first seat, which has all `2^32` shares. The item at `i` has
    /// the number `i`.
    ///
    /// It allocates a word and a place for each. `Err` gives the items back as they were; it is
    /// returned only if an allocation failed.
    pub fn new(alloc: Global, items: Vec<T>) -> Result<(Pool<T>, PoolSeat<T>), (Vec<T>, Memory)>
        requires few { vec_len items < 4294967296 }
        requires one_shape { (shape : ℕ) × All (λ x. T.shape_of x ≡ shape) items.items }
        ensures pool { IfOk result (λ r. IsSeatOf r.0 r.1 × (count_of r.0 ≡ vec_len items)) }
        ensures pass { IfOk result (λ r. r.1.pass ≡ 0) }
        ensures seat { IfOk result (λ r. r.1.hand ≡ first_hand (common_shape T.shape_of items.items) items.items) }
        ensures shape { IfOk result (λ r. All (λ x. T.shape_of x ≡ r.1.hand.shape) items.items) }
        ensures unchanged { IfErr result (λ r. r.0.items ≡ items.items) }
    {
        let known = Snapshot::of(&items);
        let Ok(words) = Vec::from_elem(alloc, 0u64, items.len() + 1) else {
            return Err((items, Memory));
        };
        let places = match lay(alloc, items) {
            Ok(places) => places,
            Err(items) => return Err((items, Memory)),
        };
        match Table::new(alloc, words.as_slice(), places, &known) {
            Ok((table, seat)) => Ok((Pool { table }, PoolSeat { seat })),
            Err(Refused { slots }) => Err((unlay(slots), Memory)),
        }
    }

    /// A free item, with its number, which the seat holds from now on.
    ///
    /// `None` is returned only if this call found each item's word held, one exchange for each: at
    /// some step of this call somebody held it (`looks_are_true`). It takes at most one exchange for
    /// each item and one more, and waits for nobody.
    pub fn take(&self, seat: &mut PoolSeat<T>) -> Option<(u32, T)>
        requires pool { IsSeatOf self.now seat.old }
        ensures pool { IsSeatOf self.now seat.new }
        ensures pass { seat.new.pass ≡ seat.old.pass }
        ensures number { IfSome result (λ p. p.0 < count_of self.now) }
        ensures taken { IfSome result (λ p. Takes seat.old.hand p.0 seat.new.hand) }
        ensures holds { IfSome result (λ p. Holds seat.new.hand p.0) }
        ensures shape { IfSome result (λ p. T.shape_of p.1 ≡ seat.old.hand.shape) }
        ensures own { IfSome result (λ p. IsOnly seat.old.hand → Contains seat.old.hand.put (p.0, p.1)) }
        ensures none { IfNone result (FoundHeld (count_of self.now) seat.old.hand seat.new.hand) }
    {
        let count = self.table.slot_count() - 1;
        for number in 0..count {
            if let Some(item) = self.claim(seat, number) {
                return Some((number as u32, item));
            }
        }
        None
    }

    // One exchange on the item's word. Where the item was free it comes out of its place, which goes
    // home empty.
    fn claim(&self, seat: &mut PoolSeat<T>, number: usize) -> Option<T>
        requires pool { IsSeatOf self.now seat.old }
        requires number { number < count_of self.now }
        ensures pool { IsSeatOf self.now seat.new }
        ensures pass { seat.new.pass ≡ seat.old.pass }
        ensures shape { IfSome result (λ x. T.shape_of x ≡ seat.old.hand.shape) }
        ensures taken { IfSome result (λ _. Takes seat.old.hand number seat.new.hand) }
        ensures own { IfSome result (λ x. IsOnly seat.old.hand → Contains seat.old.hand.put (number, x)) }
        ensures none { IfNone result (seat.new.hand ≡ with_look (last_moment seat.new.hand) number seat.old.hand) }
    {
        let shared = &self.table.shared;
        if shared.swap::<Claims>(&mut seat.seat, number + 1, 1) != 0 {
            return None;
        }
        match shared.exchange(&mut seat.seat, number, Place::Empty) {
            Place::Item(item) => {
                // The word is this seat's, so what it was is known: 1, as it stays.
                shared.swap::<Settles>(&mut seat.seat, number + 1, 1);
                Some(item)
            }
            _ => unreachable!(),
        }
    }

    /// The item goes back into the place of this number, and the seat holds the number no more.
    ///
    /// Two exchanges; it is never refused, and waits for nobody.
    pub fn give(&self, seat: &mut PoolSeat<T>, number: u32, item: T)
        requires pool { IsSeatOf self.now seat.old }
        requires holds { Holds seat.old.hand number }
        requires shape { T.shape_of item ≡ seat.old.hand.shape }
        ensures pool { IsSeatOf self.now seat.new }
        ensures pass { seat.new.pass ≡ seat.old.pass }
        ensures given { seat.new.hand ≡ with_give (last_moment seat.new.hand) number item seat.old.hand }
    {
        let shared = &self.table.shared;
        let place = number as usize;
        // Word and place are this seat's until the last step, so what they were is known: 1 and empty.
        shared.swap::<Reaches>(&mut seat.seat, place + 1, 1);
        shared.exchange(&mut seat.seat, place, Place::Item(item));
        shared.swap::<Clears>(&mut seat.seat, place + 1, 0);
    }

    /// A new seat of this pool, with one share of the old one. It holds nothing.
    pub fn split(&self, seat: &mut PoolSeat<T>) -> PoolSeat<T>
        requires pool { IsSeatOf self.now seat.old }
        requires shares { 1 < seat.old.hand.shares }
        ensures pool { IsSeatOf self.now seat.new × IsSeatOf self.now result }
        ensures pass { seat.new.pass ≡ seat.old.pass }
        ensures old { seat.new.hand ≡ less_one seat.old.hand }
        ensures new { result.hand ≡ newcomer seat.old.hand }
    {
        let shared = &self.table.shared;
        let new = shared.split_seat::<OneShare>(&mut seat.seat);
        PoolSeat { seat: new }
    }

    /// The seat takes over the numbers and the shares of the other one.
    pub fn join(&self, seat: &mut PoolSeat<T>, other: PoolSeat<T>)
        requires pool { IsSeatOf self.now seat.old × IsSeatOf self.now other }
        ensures pool { IsSeatOf self.now seat.new }
        ensures pass { seat.new.pass ≡ seat.old.pass }
        ensures both { seat.new.hand ≡ together seat.old.hand other.hand }
    {
        let PoolSeat { seat: theirs } = other;
        let shared = &self.table.shared;
        shared.join_seat::<Together>(&mut seat.seat, theirs);
    }

    /// The items whose numbers the seat does not hold, in the order of their numbers.
    ///
    /// The seat has all shares, so it is the only one that is left. The items that it holds stay
    /// with the caller. It does not allocate.
    pub fn close(self, seat: PoolSeat<T>) -> Vec<T>
        requires pool { IsSeatOf self seat }
        requires only { IsOnly seat.hand }
        ensures left { IsLeft (count_of self) seat.hand result.items }
        ensures count { vec_len result + length seat.hand.numbers ≡ count_of self }
        ensures shape { All (λ x. T.shape_of x ≡ seat.hand.shape) result.items }
    {
        let Pool { table } = self;
        let PoolSeat { seat } = seat;
        items_from(table.close_with(seat), 0)
    }
}
