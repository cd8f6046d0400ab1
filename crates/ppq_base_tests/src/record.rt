//! Records, their bytes, their order and their fronts, at pairs.
use ppq_record::{
    Listing, Lists, Pair, Record, is_least, one_front, pair_order, record_laws, sort, take_at,
    taken_back,
};

fn pair(key: u64, value: u64) -> Pair {
    Pair { key, value }
}

#[test]
fn a_pair_is_its_key_and_then_its_value(rt: HostRuntime) {
    for (record, want) in [
        (
            pair(258, 1),
            [0, 0, 0, 0, 0, 0, 1, 2, 0, 0, 0, 0, 0, 0, 0, 1],
        ),
        (pair(u64::MAX, u64::MAX), [255; 16]),
    ] {
        let mut bytes = [7u8; 16];
        record.put(&mut bytes);
        assert!(rt; (bytes == want) & (Pair::take(&bytes) == record));
        record.known();
    }
}

#[test]
fn the_key_decides_and_then_the_value(rt: HostRuntime) {
    for (one, other, is_less) in [
        (pair(1, 9), pair(2, 0), true),
        (pair(2, 0), pair(1, 9), false),
        (pair(2, 0), pair(2, 1), true),
        (pair(2, 1), pair(2, 0), false),
        (pair(2, 1), pair(2, 1), false),
        (pair(0, u64::MAX), pair(1, 0), true),
        (pair(u64::MAX, 0), pair(u64::MAX, u64::MAX), true),
    ] {
        let by = one.cmp(&other);
        assert!(rt;
            (one.is_less(&other) == is_less)
                & (by.is_lt() == is_less)
                & (by.is_eq() == (one == other))
        );
    }
}

#[test]
fn either_is_the_other_if_it_is_asked_for(rt: HostRuntime) {
    let (one, other) = (pair(1, 2), pair(3, 4));
    assert!(rt;
        (Pair::either(true, one, other) == other) & (Pair::either(false, one, other) == one)
    );
}

#[test]
fn records_are_put_and_taken_one_after_the_other(rt: HostRuntime) {
    record_laws::<Pair>();
    one_front::<Pair>();
    pair_order();
    taken_back::<Pair>();
    let mut bytes = [0u8; 32];
    pair(5, 1).put(&mut bytes[..16]);
    pair(3, 9).put(&mut bytes[16..]);
    let first: Pair = take_at(&bytes, 0);
    let second: Pair = take_at(&bytes, 1);
    assert!(rt; (first == pair(5, 1)) & (second == pair(3, 9)));
}

#[test]
fn a_sort_ascends(rt: HostRuntime) {
    let mut records = [pair(5, 1), pair(3, 9), pair(5, 0), pair(3, 9)];
    sort(&mut records);
    assert!(rt; records == [pair(3, 9), pair(3, 9), pair(5, 0), pair(5, 1)]);
    let falling = [pair(2, 0), pair(1, 0)];
    assert!(rt; is_least(&records, 4, &records) & !is_least(&falling, 2, &falling));
}

#[test]
fn a_front_is_told_by_counting(rt: HostRuntime) {
    let (three, four, five) = (pair(3, 0), pair(4, 0), pair(5, 0));
    let all = [five, three, five, four];
    let rising = [three, four, five, five];
    for (k, end) in [(0, 0), (2, 2), (3, 3), (9, 4)] {
        assert!(rt; is_least(&all, k, &rising[..end]));
    }
    assert!(rt; !is_least(&all, 2, &[four, three]) & !is_least(&all, 2, &[three, five]));
    assert!(rt; !is_least(&all, 4, &[three, four, five]));
}

#[test]
fn lists_are_shown_as_runs(rt: HostRuntime) {
    let alloc = rt.alloc();
    let first = vec![in alloc; pair(1, 0), pair(2, 0)].expect(&rt, "memory");
    let second = vec![in alloc; pair(3, 0)].expect(&rt, "memory");
    let lists = [first, second];
    let shown = Lists::new(&lists);
    assert!(rt; (shown.runs() == 2) & (shown.len(0) == 2) & (shown.len(1) == 1));
    assert!(rt; (shown.at(0, 1) == pair(2, 0)) & (shown.at(1, 0) == pair(3, 0)));
}
