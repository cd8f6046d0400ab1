//! Rows of letters and of numbers, by one seat and by several.
ghost use Rattle.std.specs.Prelude.{◌≡◌, ◌<◌, ◌≤◌, length};
ghost use Rattle.std.specs.Thread.{IsSync};
ghost use Rattle.ppq_row.specs.Seats.{IsSeatOf};
ghost use Rattle.ppq_table.specs.Sums.{all_shares};

use crate::core_laws::take;
use ppq_core::{Event, State};
use ppq_record::Pair;
use ppq_row::{Row, RowSeat, counter_never_wraps, steps_are_events};
use std::alloc::Global;
use std::process::Abort;
use std::thread::{Threads, join};

// A row of these letters.
fn row_of(rt: &impl Abort, alloc: Global, letters: &[char]) -> (Row<char>, RowSeat<char>)
    requires { length letters.now < 1000 }
    ensures { IsSeatOf result.0 result.1 × (result.1.hand.shares ≡ all_shares) }
{
    let items = letters.to_vec(alloc).expect(rt, "memory");
    match Row::new(alloc, items) {
        Ok(both) => both,
        Err(_) => panic!(rt; "memory"),
    }
}

#[test]
fn draws_in_order_and_then_none(rt: HostRuntime) {
    let (row, mut seat) = row_of(&rt, rt.alloc(), &['a', 'b']);
    let first = row.draw(&mut seat);
    let second = row.draw(&mut seat);
    let third = row.draw(&mut seat);
    let left = row.close(seat);
    assert!(rt; (first == Some((0, 'a'))) & (second == Some((1, 'b'))) & third.is_none());
    assert!(rt; left.is_empty());
}

#[test]
fn close_gives_the_rest_in_order(rt: HostRuntime) {
    let (row, mut seat) = row_of(&rt, rt.alloc(), &['a', 'b', 'c', 'd']);
    let first = row.draw(&mut seat);
    let left = row.close(seat);
    assert!(rt; (first == Some((0, 'a'))) & (left.as_slice() == ['b', 'c', 'd'].as_slice()));
}

#[test]
fn an_empty_row_has_nothing_to_draw(rt: HostRuntime) {
    let (row, mut seat) = row_of(&rt, rt.alloc(), &[]);
    let first = row.draw(&mut seat);
    let left = row.close(seat);
    assert!(rt; first.is_none() & left.is_empty());
}

#[test]
fn split_and_join_keep_the_note(rt: HostRuntime) {
    counter_never_wraps::<char>();
    let (row, mut seat) = row_of(&rt, rt.alloc(), &['a']);
    let mut other = row.split(&mut seat);
    let first = row.draw(&mut other);
    let second = row.draw(&mut other);
    row.join(&mut seat, other);
    let mut late = row.split(&mut seat);
    let third = row.draw(&mut late);
    row.join(&mut seat, late);
    let left = row.close(seat);
    assert!(rt; (first == Some((0, 'a'))) & second.is_none() & third.is_none() & left.is_empty());
}

// The places that were drawn with their items, and the seat.
type Drawn = (Vec<(u32, u64)>, RowSeat<u64>);

// Draws until none is left.
fn draw_all(rt: &impl Abort, alloc: Global, row: &Row<u64>, mut seat: RowSeat<u64>) -> Drawn
    requires { IsSeatOf row.now seat }
    ensures { IsSeatOf row.now result.1 × (result.1.hand.shares ≡ seat.hand.shares) }
{
    let mut drawn = Vec::new(alloc);
    for _ in 0..=1000 {
        match row.draw(&mut seat) {
            Some(p) => drawn.push(p).expect(rt, "memory"),
            None => break,
        }
    }
    (drawn, seat)
}

// Draws with so many seats more, each in a thread of its own.
#[cycle(beside)]
fn draw_beside<R: Threads + Sync + Abort>(
    rt: &R,
    alloc: Global,
    row: &Row<u64>,
    mut seat: RowSeat<u64>,
    more: u32,
) -> Drawn
    requires row { IsSeatOf row.now seat }
    requires shares { more < seat.hand.shares }
    ensures { IsSeatOf row.now result.1 × (result.1.hand.shares ≡ seat.hand.shares) }
{
    if more == 0 {
        return draw_all(rt, alloc, row, seat);
    }
    let other = row.split(&mut seat);
    let ((mut drawn, mut seat), (mut others, other)) = join(
        rt,
        move || -> Drawn
            requires { IsSync R.row × IsSeatOf row.now seat × (more ≤ seat.hand.shares) × (0 < more) }
            ensures { IsSeatOf row.entry.now result.1 × (result.1.hand.shares ≡ seat.hand.shares) }
        { draw_beside(rt, alloc, row, seat, more - 1) },
        move || -> Drawn
            requires { IsSync R.row × IsSeatOf row.now other }
            ensures { IsSeatOf row.entry.now result.1 × (result.1.hand.shares ≡ other.hand.shares) }
        { draw_all(rt, alloc, row, other) },
    );
    drawn.append(&mut others).expect(rt, "memory");
    row.join(&mut seat, other);
    (drawn, seat)
}

// A row in which the item at place `i` is `7 * i`, drawn to its end by so many seats, each in a
// thread of its own: what was drawn, in the order of the places, and what close gives.
fn drawn_from<R: Threads + Sync + Abort>(
    rt: &R,
    alloc: Global,
    count: u64,
    seats: u32,
) -> (Vec<(u32, u64)>, Vec<u64>)
    requires { (count ≤ 1000) × (0 < seats) }
{
    let mut items = Vec::new(alloc);
    for i in 0..count {
        items.push(i * 7).expect(rt, "memory");
    }
    let (row, seat) = match Row::new(alloc, items) {
        Ok(both) => both,
        Err(_) => panic!(rt; "memory"),
    };
    let (mut drawn, seat) = draw_beside(rt, alloc, &row, seat, seats - 1);
    drawn.sort().expect(rt, "memory");
    (drawn, row.close(seat))
}

// So many seats draw each of so many places once.
fn is_drawn_once<R: Threads + Sync + Abort>(rt: &R, alloc: Global, count: u64, seats: u32)
    requires { (count ≤ 1000) × (0 < seats) }
{
    let (drawn, left) = drawn_from(rt, alloc, count, seats);
    assert!(rt; left.is_empty() & (drawn.len() as u64 == count));
    for (i, (place, item)) in drawn.iter().enumerate() {
        assert!(rt; (*place as usize == i) & (*item == u64::from(*place) * 7));
    }
}

#[test]
fn any_number_of_seats_draws_each_place_once(rt: HostRuntime) {
    is_drawn_once(&rt, rt.alloc(), 1000, 4);
    is_drawn_once(&rt, rt.alloc(), 1000, 64);
    is_drawn_once(&rt, rt.alloc(), 3, 8);
}

#[test]
fn what_two_seats_draw_is_legal_and_what_they_found_no_more_is_not(rt: HostRuntime) {
    steps_are_events::<char, Pair>();
    let (row, mut seat) = row_of(&rt, rt.alloc(), &['a', 'b']);
    let mut other = row.split(&mut seat);
    let first = row.draw(&mut other);
    let second = row.draw(&mut seat);
    let third = row.draw(&mut other);
    row.join(&mut seat, other);
    let left = row.close(seat);
    assert!(rt; (first == Some((0, 'a'))) & (second == Some((1, 'b'))) & third.is_none());
    assert!(rt; left.is_empty());
    let mut state = State::<Pair>::new(rt.alloc(), 0, 2, 2).expect(&rt, "memory");
    let steps = [
        (Event::Draw { pass: 1, slot: 0 }, true),
        (Event::Draw { pass: 0, slot: 1 }, true),
        (Event::Draw { pass: 1, slot: 2 }, false),
    ];
    take(&rt, &mut state, &steps);
}
