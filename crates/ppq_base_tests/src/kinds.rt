//! Triples, and records in the opposite order: their bytes, their order, their fields.
use ppq_record::{Down, Fields, Pair, Record, Triple, fields_laws, record_laws, sort};

fn triple(time: u64, target: u64, word: u64) -> Triple {
    Triple { time, target, word }
}

fn down(key: u64, value: u64) -> Down<Pair> {
    Down {
        item: Pair { key, value },
    }
}

#[test]
fn a_triple_is_its_time_its_target_and_its_word(rt: HostRuntime) {
    let record = triple(258, 1, u64::MAX);
    let mut bytes = [7u8; 24];
    record.put(&mut bytes);
    assert!(rt;
        (bytes[..8] == [0, 0, 0, 0, 0, 0, 1, 2])
            & (bytes[8..16] == [0, 0, 0, 0, 0, 0, 0, 1])
            & (bytes[16..] == [255; 8])
            & (Triple::take(&bytes) == record)
    );
    record.known();
    record_laws::<Triple>();
}

#[test]
fn the_first_field_that_differs_decides(rt: HostRuntime) {
    for (one, other, is_less) in [
        (triple(1, 9, 9), triple(2, 0, 0), true),
        (triple(2, 0, 0), triple(1, 9, 9), false),
        (triple(2, 1, 9), triple(2, 2, 0), true),
        (triple(2, 2, 0), triple(2, 1, 9), false),
        (triple(2, 2, 0), triple(2, 2, 1), true),
        (triple(2, 2, 1), triple(2, 2, 1), false),
        (triple(0, u64::MAX, u64::MAX), triple(1, 0, 0), true),
        (triple(0, 0, u64::MAX), triple(0, 1, 0), true),
    ] {
        let by = one.cmp(&other);
        assert!(rt;
            (one.is_less(&other) == is_less)
                & (by.is_lt() == is_less)
                & (by.is_eq() == (one == other))
        );
    }
    let (one, other) = (triple(1, 2, 3), triple(4, 5, 6));
    assert!(rt;
        (Triple::either(true, one, other) == other) & (Triple::either(false, one, other) == one)
    );
}

#[test]
fn the_greatest_is_first_in_the_order_down(rt: HostRuntime) {
    let mut records = [down(1, 9), down(3, 0), down(2, 5), down(3, 1)];
    sort(&mut records);
    assert!(rt; records == [down(3, 1), down(3, 0), down(2, 5), down(1, 9)]);
    assert!(rt;
        down(2, 0).is_less(&down(1, 9))
            & !down(1, 9).is_less(&down(2, 0))
            & !down(1, 9).is_less(&down(1, 9))
            & (Down::either(true, down(1, 2), down(3, 4)) == down(3, 4))
    );
    let mut bytes = [0u8; 16];
    down(258, 1).put(&mut bytes);
    let back: Down<Pair> = Down::take(&bytes);
    assert!(rt; (bytes[6..] == [1, 2, 0, 0, 0, 0, 0, 0, 0, 1]) & (back == down(258, 1)));
    back.known();
    record_laws::<Down<Triple>>();
}

#[test]
fn records_are_made_of_their_fields(rt: HostRuntime) {
    fields_laws::<Pair>();
    fields_laws::<Triple>();
    fields_laws::<Down<Triple>>();
    let one = Pair::of(&[7, 8]);
    let two = Triple::of(&[7, 8, 9]);
    let three: Down<Triple> = Down::of(&[7, 8, 9]);
    assert!(rt;
        (one == Pair { key: 7, value: 8 })
            & (one.field(0) == 7)
            & (one.field(1) == 8)
            & (two == triple(7, 8, 9))
            & (two.field(0) == 7)
            & (two.field(1) == 8)
            & (two.field(2) == 9)
            & (three.item == two)
            & (three.field(2) == 9)
    );
    assert!(rt;
        (Pair::COUNT == 2)
            & (Triple::COUNT == 3)
            & (<Down<Triple> as Fields>::COUNT == 3)
            & (<Down<Triple> as Record>::WIDTH == 24)
            & <Down<Triple> as Fields>::DOWN
            & !Triple::DOWN
            & !<Down<Down<Pair>> as Fields>::DOWN
    );
}
