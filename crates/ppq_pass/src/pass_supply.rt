//! A pass's supply.
ghost use Rattle.std.specs.Prelude.{◌≡◌, ◌<◌, ◌≤◌, ◌*◌, ◌^◌, [], length, All, nat_lt, vec_capacity};
ghost use Rattle.ppq_row.specs.Seats.{IsSeatOf as IsRowSeat};
ghost use Rattle.ppq_pool.specs.Seats.{IsSeatOf as IsPoolSeat, count_of};
ghost use Rattle.ppq_extract.specs.ppq_array.Owner.{HasSlot};
ghost use Rattle.ppq_pass.specs.Passing.{passing, steps_of, IsPass, IsWasDry, IsSince, new_pass};

use crate::{PassHome, PassParts, PoolBuf, Shared};
use ppq_extract::{Berth, BerthList, BlockBuf, Slot, Supply};
use ppq_pool::{PoolSeat, Record};
use ppq_row::RowSeat;
use std::marker::Model;
use std::snapshot::Snapshot;

/// What a pass draws from: first its stash, then the shared row; and the shared pool.
///
/// Contracts see which row and pool these are, what the pass's two seats know, and its `Stock`. It is
/// sure of the slots in its stash, and of no buffer. A draw that finds the stash empty and the row drawn
/// to its end raises `dry`, and from then on the row's seat has the end noted; a take that finds every
/// buffer of the pool held raises `scant`. Nothing else answers `None`.
///
/// A draw from the stash is no atomic step. What the other calls cost is said at `Row::draw`,
/// `Pool::take` and `Pool::give`.
#[derive(Drop)]
pub struct PassSupply<'a, S: Slot, R: Record> {
    // the row and the pool
    shared: &'a Shared<S, R>,
    // the right to draw from the row
    row_seat: RowSeat<Berth<S, R>>,
    // slots that were drawn and came back
    stash: BerthList<S, R>,
    // the right to take from the pool
    pool_seat: PoolSeat<PoolBuf<R>>,
    // the numbers of the buffers that are out
    numbers: Vec<u32>,
    // how many records a block has
    block: u32,
    // how many draws answered None
    dry: u64,
    // how many takes of a buffer answered None
    scant: u64,
    // how many buffers were out when a take last answered None
    room_when_scant: u64,
    // whether a draw had answered None before this supply was made
    was_dry: bool,
    // what the row's seat knew before this supply was made
    had_row: Snapshot<RowSeat<Berth<S, R>>>,
    // what the pool's seat knew before this supply was made
    had_pool: Snapshot<PoolSeat<PoolBuf<R>>>,
}

impl<'a, S: Slot, R: Record> Model for PassSupply<'a, S, R> {
    ghost use Rattle.std.specs.Prelude.{true};
    ghost use Rattle.ppq_pass.specs.Passing.{Passing, passing, steps_of, IsPass, IsWasDry, IsSince};

    ghost Value = { Passing S R };

    ghost view = { λ p. passing S.shown p.shared.now p.row_seat p.pool_seat p.stash p.numbers.items p.block p.dry p.scant p.room_when_scant p.was_dry p.had_row.value.hand.places (steps_of p.had_row.value p.had_pool.value) };

    ghost invariant = { λ p. IsPass S.shown R.WIDTH p.shared.now p.row_seat p.pool_seat p.stash p.numbers p.block p.dry p.scant × IsWasDry p.was_dry p.dry × IsSince p.had_row.value.hand.places (steps_of p.had_row.value p.had_pool.value) p.row_seat p.pool_seat };
}

impl<'a, S: Slot, R: Record> PassSupply<'a, S, R> {
    /// The supply of a pass that has drawn and taken nothing yet, over the row and the pool of its two
    /// seats. All slots of the row have the bytes of a block, and all buffers of the pool can hold
    /// `block` records. `numbers` is an empty list that has room for the numbers of all buffers; the
    /// supply takes no memory of its own.
    pub fn new(
        shared: &'a Shared<S, R>,
        row_seat: RowSeat<Berth<S, R>>,
        pool_seat: PoolSeat<PoolBuf<R>>,
        numbers: Vec<u32>,
        block: u32,
    ) -> Self
        requires row { IsRowSeat shared.now.row row_seat }
        requires undrawn { row_seat.hand.places ≡ [] }
        requires few { length row_seat.hand.items < 2 ^ 32 }
        requires sizes { All (HasSlot S.shown (block * R.WIDTH)) row_seat.hand.items }
        requires pool { IsPoolSeat shared.now.pool pool_seat }
        requires untaken { pool_seat.hand.numbers ≡ [] }
        requires shape { 0 < count_of shared.now.pool → pool_seat.hand.shape ≡ block }
        requires numbers { numbers.items ≡ [] }
        requires room { count_of shared.now.pool ≤ vec_capacity numbers }
        ensures { result ≡ new_pass shared.now row_seat pool_seat block }
    {
        let had_row = Snapshot::of(&row_seat);
        let had_pool = Snapshot::of(&pool_seat);
        PassSupply {
            shared,
            row_seat,
            stash: BerthList::empty(),
            pool_seat,
            numbers,
            block,
            dry: 0,
            scant: 0,
            room_when_scant: 0,
            was_dry: false,
            had_row,
            had_pool,
        }
    }

    /// The supply of a pass, of what it kept since it was last taken apart.
    pub fn from_parts(shared: &'a Shared<S, R>, parts: PassParts<S, R>) -> Self
        requires { IsPass S.shown R.WIDTH shared.now parts.row_seat parts.pool_seat parts.stash parts.numbers parts.block parts.dry parts.scant }
        ensures { result ≡ passing S.shown shared.now parts.row_seat parts.pool_seat parts.stash parts.numbers.items parts.block parts.dry parts.scant parts.room_when_scant (nat_lt 0 parts.dry) parts.row_seat.hand.places (steps_of parts.row_seat parts.pool_seat) }
    {
        let PassParts {
            row_seat,
            stash,
            pool_seat,
            numbers,
            block,
            dry,
            scant,
            room_when_scant,
        } = parts;
        let was_dry = dry > 0;
        let had_row = Snapshot::of(&row_seat);
        let had_pool = Snapshot::of(&pool_seat);
        PassSupply {
            shared,
            row_seat,
            stash,
            pool_seat,
            numbers,
            block,
            dry,
            scant,
            room_when_scant,
            was_dry,
            had_row,
            had_pool,
        }
    }

    /// What the pass keeps. `from_parts` makes the same supply of it, over the same row and pool. The
    /// row's seat has the places that it had and those that were drawn since, in this order.
    pub fn into_parts(self) -> PassParts<S, R>
        ensures of { IsPass S.shown R.WIDTH self.entry.home result.row_seat result.pool_seat result.stash result.numbers result.block result.dry result.scant }
        ensures same { passing S.shown self.entry.home result.row_seat result.pool_seat result.stash result.numbers.items result.block result.dry result.scant result.room_when_scant self.entry.was_dry self.entry.had_places self.entry.had_steps ≡ self.entry }
        ensures was_dry { IsWasDry self.entry.was_dry result.dry }
        ensures since { IsSince self.entry.had_places self.entry.had_steps result.row_seat result.pool_seat }
    {
        let PassSupply {
            shared: _,
            row_seat,
            stash,
            pool_seat,
            numbers,
            block,
            dry,
            scant,
            room_when_scant,
            was_dry: _,
            had_row: _,
            had_pool: _,
        } = self;
        PassParts {
            row_seat,
            stash,
            pool_seat,
            numbers,
            block,
            dry,
            scant,
            room_when_scant,
        }
    }
}

impl<'a, S: Slot, R: Record> Supply<S, R> for PassSupply<'a, S, R> {
    ghost use Rattle.ppq_pass.specs.Passing.{home_of};

    type Home = PassHome<S, R>;

    ghost home = { λ p. home_of p };

    ghost stock = { λ p. p.stock };

    fn draw_slot(&mut self) -> Option<Berth<S, R>> {
        if let Some(berth) = self.stash.pop_front() {
            return Some(berth);
        }
        let shared = self.shared;
        match shared.row.draw(&mut self.row_seat) {
            Some(drawn) => Some(drawn.1),
            None => {
                self.dry = self.dry.saturating_add(1);
                None
            }
        }
    }

    fn put_slot(&mut self, berth: &mut Option<Berth<S, R>>) {
        if let Some(berth) = berth.take() {
            self.stash.push_back(berth);
        }
    }

    fn take_buffer(&mut self) -> Option<BlockBuf<R>> {
        let shared = self.shared;
        match shared.pool.take(&mut self.pool_seat) {
            Some(taken) => {
                self.numbers.push_reserved(taken.0);
                Some(taken.1.buf)
            }
            None => {
                self.scant = self.scant.saturating_add(1);
                self.room_when_scant = self.numbers.len() as u64;
                None
            }
        }
    }

    fn put_buffer(&mut self, buf: &mut Option<BlockBuf<R>>) {
        if let Some(buf) = buf.take() {
            let shared = self.shared;
            let number = self.numbers.pop().unwrap();
            shared
                .pool
                .give(&mut self.pool_seat, number, PoolBuf { buf });
        }
    }

    fn dry(&self) -> u64 {
        self.dry
    }

    fn scant(&self) -> u64 {
        self.scant
    }
}
