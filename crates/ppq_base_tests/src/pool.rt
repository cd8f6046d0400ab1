//! Pools of tiles, by one seat and by several.
ghost use Rattle.std.specs.Prelude.{◌≡◌, ◌-◌, ◌<◌, ℕ};
ghost use Rattle.std.specs.Thread.{IsSync};
ghost use Rattle.ppq_pool.specs.Seats.{IsSeatOf, IsOnly, count_of};

use crate::core_laws::take;
use ppq_core::{Event, State};
use ppq_pool::{Pool, PoolSeat, Shaped, looks_are_true, steps_are_events};
use ppq_record::Pair;
use std::alloc::Global;
use std::process::Abort;
use std::thread::{Threads, join};

#[derive(Debug, Drop)]
struct Tile {
    value: u64,
}

impl Shaped for Tile {
    ghost shape_of = { λ _. 4 };

    fn shape(&self) -> u32 {
        4
    }
}

// A pool of tiles with the values from 10 on.
fn pool_of(rt: &impl Abort, alloc: Global, count: u64) -> (Pool<Tile>, PoolSeat<Tile>)
    requires { count < 1000 }
    ensures pool { IsSeatOf result.0 result.1 × (count_of result.0 ≡ count) }
    ensures only { IsOnly result.1.hand }
{
    let mut tiles = Vec::new(alloc);
    for i in 0..count {
        tiles.push(Tile { value: 10 + i }).expect(rt, "memory");
    }
    match Pool::new(alloc, tiles) {
        Ok(both) => both,
        Err(_) => panic!(rt; "memory"),
    }
}

// Whether these are tiles with these values, in their order.
fn are(tiles: &[Tile], values: &[u64]) -> bool {
    let mut is_same = tiles.len() == values.len();
    for (tile, value) in tiles.iter().zip(values) {
        is_same &= tile.value == *value;
    }
    is_same
}

#[test]
fn three_takes_of_two_tiles_give_both_and_then_none(rt: HostRuntime) {
    let (pool, mut seat) = pool_of(&rt, rt.alloc(), 2);
    let (Some((a, x)), Some((b, y)), None) = (
        pool.take(&mut seat),
        pool.take(&mut seat),
        pool.take(&mut seat),
    ) else {
        panic!(rt; "two were free, and no third")
    };
    assert!(rt; (x.shape() == 4) & (y.shape() == 4) & (x.value == 10) & (y.value == 11));
    assert!(rt; (a == 0) & (b == 1));
    pool.give(&mut seat, a, x);
    let Some((number, x)) = pool.take(&mut seat) else {
        panic!(rt; "number 0 was free")
    };
    assert!(rt; (number == 0) & (x.value == 10));
    let left = pool.close(seat);
    assert!(rt; left.is_empty());
}

#[test]
fn an_empty_pool_has_nothing_to_take(rt: HostRuntime) {
    let (pool, mut seat) = pool_of(&rt, rt.alloc(), 0);
    assert!(rt; pool.take(&mut seat).is_none());
    let other = pool.split(&mut seat);
    pool.join(&mut seat, other);
    let left = pool.close(seat);
    assert!(rt; left.is_empty());
}

#[test]
fn numbers_are_given_back_in_any_order(rt: HostRuntime) {
    let (pool, mut seat) = pool_of(&rt, rt.alloc(), 3);
    let (Some((a, x)), Some((b, y)), Some((c, z))) = (
        pool.take(&mut seat),
        pool.take(&mut seat),
        pool.take(&mut seat),
    ) else {
        panic!(rt; "all were free")
    };
    assert!(rt; (a == 0) & (b == 1) & (c == 2));
    pool.give(&mut seat, b, y);
    pool.give(&mut seat, c, z);
    pool.give(&mut seat, a, x);
    let left = pool.close(seat);
    assert!(rt; are(&left, &[10, 11, 12]));
}

#[test]
fn close_gives_what_the_seat_does_not_hold(rt: HostRuntime) {
    let (pool, mut seat) = pool_of(&rt, rt.alloc(), 4);
    let (Some((a, x)), Some((b, y))) = (pool.take(&mut seat), pool.take(&mut seat)) else {
        panic!(rt; "two were free")
    };
    pool.give(&mut seat, a, x);
    let left = pool.close(seat);
    assert!(rt; (b == 1) & (y.value == 11) & are(&left, &[10, 12, 13]));
}

// Takes and gives back, so often.
fn work(pool: &Pool<Tile>, mut seat: PoolSeat<Tile>, turns: u32) -> PoolSeat<Tile>
    requires { IsSeatOf pool.now seat }
    ensures { IsSeatOf pool.now result × (result.hand.shares ≡ seat.hand.shares) }
{
    for _ in 0..turns {
        if let Some((number, tile)) = pool.take(&mut seat) {
            pool.give(&mut seat, number, tile);
        }
    }
    seat
}

// So many more seats work beside this one, each on a thread of its own, and are joined.
fn work_beside<R: Threads + Sync>(
    rt: &R,
    pool: &Pool<Tile>,
    mut seat: PoolSeat<Tile>,
    others: u32,
    turns: u32,
) -> PoolSeat<Tile>
    requires pool { IsSeatOf pool.now seat }
    requires shares { others < seat.hand.shares }
    ensures { IsSeatOf pool.now result × (result.hand.shares ≡ seat.hand.shares) }
{
    if others == 0 {
        return work(pool, seat, turns);
    }
    let other = pool.split(&mut seat);
    let (mut seat, other) = join(
        rt,
        move || -> PoolSeat<Tile>
            requires { IsSync R.row × IsSeatOf pool.now seat × (0 < others) × (others - 1 < seat.hand.shares) }
            ensures { IsSeatOf pool.entry.now result × (result.hand.shares ≡ seat.hand.shares) }
        { work_beside(rt, pool, seat, others - 1, turns) },
        move || -> PoolSeat<Tile>
            requires { IsSeatOf pool.now other }
            ensures { IsSeatOf pool.entry.now result × (result.hand.shares ≡ other.hand.shares) }
        { work(pool, other, turns) },
    );
    pool.join(&mut seat, other);
    seat
}

// What a pool of three tiles has when so many more seats worked beside the first.
fn left_after<R: Threads + Sync + Abort>(
    rt: &R,
    alloc: Global,
    others: u32,
    turns: u32,
) -> Vec<Tile> {
    let (pool, seat) = pool_of(rt, alloc, 3);
    let seat = work_beside(rt, &pool, seat, others, turns);
    pool.close(seat)
}

#[test]
fn four_and_sixty_four_seats_share_three_tiles(rt: HostRuntime) {
    for (others, turns) in [(3, 10000), (63, 200)] {
        let left = left_after(&rt, rt.alloc(), others, turns);
        assert!(rt; are(&left, &[10, 11, 12]));
    }
}

// Takes the tile of a pool by one seat, which is not free for the other then, and by the other once it was given
// back; and gives it back.
fn taken_by_turns(rt: &impl Abort, alloc: Global) -> (u32, u32) {
    let (pool, mut seat) = pool_of(rt, alloc, 1);
    let mut other = pool.split(&mut seat);
    let (Some((a, x)), None) = (pool.take(&mut seat), pool.take(&mut other)) else {
        panic!(rt; "it was free once")
    };
    pool.give(&mut seat, a, x);
    let Some((b, y)) = pool.take(&mut other) else {
        panic!(rt; "it was free again")
    };
    pool.give(&mut other, b, y);
    pool.join(&mut seat, other);
    let left = pool.close(seat);
    assert!(rt; are(&left, &[10]));
    (a, b)
}

#[test]
fn what_two_seats_take_and_give_is_legal_and_what_they_found_held_is_not(rt: HostRuntime) {
    steps_are_events::<Tile, Pair>();
    looks_are_true::<Tile>();
    let (a, b) = taken_by_turns(&rt, rt.alloc());
    let mut state = State::<Pair>::new(rt.alloc(), 1, 0, 2).expect(&rt, "memory");
    let steps = [
        (Event::Take { pass: 0, buffer: a }, true),
        (Event::Take { pass: 1, buffer: 0 }, false),
        (Event::Give { pass: 0, buffer: a }, true),
        (Event::Take { pass: 1, buffer: b }, true),
        (Event::Give { pass: 1, buffer: b }, true),
    ];
    take(&rt, &mut state, &steps);
}
