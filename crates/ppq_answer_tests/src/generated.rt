//! Generated requests over small queues, which are answered as by a sorted list of records.

use crate::list::{Case, record, tight};
use crate::talks::{Plan, ends};
use ppq_answer::{End, Outcome};
use ppq_outside::Host;
use ppq_testkit::draw;
use std::alloc::Global;
use std::process::Abort;
use std::test::Fail;

// Keys are below it.
const KEYS: u64 = 500;

// Adds records to a request: one, or many.
fn add_records(case: &mut Case, seed: &mut u64, most: u64) -> Result<(), Fail> {
    if draw(seed, 3) > 0 {
        return case.push(record(seed, KEYS));
    }
    let mut items = Vec::new(case.alloc);
    for _ in 0..draw(seed, most) {
        items.push(record(seed, KEYS))?;
    }
    case.push_many(&items)
}

// Adds an operation to a request: of a hundred so many push.
fn add_operation(case: &mut Case, seed: &mut u64, pushes: u64) -> Result<(), Fail> {
    if draw(seed, 100) < pushes {
        return add_records(case, seed, 20);
    }
    match draw(seed, 6) {
        0 => case.top(),
        1 => case.bulk_pop(draw(seed, 30)),
        2 => case.bulk_pop_limit(record(seed, KEYS), draw(seed, 30)),
        3 => case.bulk_pop_limit(record(seed, KEYS), u64::MAX),
        _ => case.pop(),
    }
}

// So many requests, each of fewer than so many operations: first more is pushed than popped, and then less. The last request takes all that is
// left, and more.
fn requests(alloc: Global, seed: &mut u64, count: u64, operations: u64) -> Result<Case, Fail> {
    let mut case = Case::new(alloc)?;
    for number in 0..count {
        let pushes = if number < count / 2 { 80 } else { 30 };
        for _ in 0..draw(seed, operations) {
            add_operation(&mut case, seed, pushes)?;
        }
        case.send()?;
    }
    let left = case.len();
    case.bulk_pop(left.saturating_add(1))?;
    case.pop()?;
    case.send()?;
    Ok(case)
}

// So many talks of such requests by so many workers are answered as by the list, and write blocks.
fn do_as_a_list<H: Host + Abort>(
    rt: &H,
    alloc: Global,
    workers: u32,
    talks: u64,
    count: u64,
    operations: u64,
) -> Result<(), Fail>
where
    H::Dir: Send,
{
    let mut seed = u64::from(workers);
    let done = Outcome::Ended { end: End::Done };
    for _ in 0..talks {
        let case = requests(alloc, &mut seed, count, operations)?;
        let sizes = tight(workers, 4, case.load);
        let most = 1 + draw(&mut seed, 300) as usize;
        let plan = Plan::plain(most);
        let writes = ends(rt, alloc, &case.input, sizes, plan, done, &case.output);
        assert!(rt; writes > 10);
    }
    Ok(())
}

#[test]
fn single_operations_are_answered_as_by_a_list(rt: HostRuntime) -> Result<(), Fail> {
    do_as_a_list(&rt, rt.alloc(), 1, 4, 200, 2)
}

#[test]
fn batches_are_answered_as_by_a_list(rt: HostRuntime) -> Result<(), Fail> {
    do_as_a_list(&rt, rt.alloc(), 1, 4, 12, 40)
}

#[test]
fn two_workers_answer_as_a_list(rt: HostRuntime) -> Result<(), Fail> {
    do_as_a_list(&rt, rt.alloc(), 2, 4, 24, 20)
}
