//! The worked sizes, and the ends of each range.
use ppq_budget::{Sizes, TooSmall, fixed_parts};

#[test]
fn worked_sizes_have_their_fixed_part_pool_and_room(rt: HostRuntime) {
    let rows = [
        ((2, 2, 1, 372, 200), 372, Ok(0), 4, 84),
        ((1, 2, 1, 158, 0), 158, Ok(0), 3, 80),
        ((2, 2, 1, 2372, 2200), 2372, Ok(0), 2000, 2080),
        (
            (4, 4096, 8, 1_048_576, 2048),
            526_336,
            Ok(127),
            4_000_000,
            2042,
        ),
        (
            (1, 4096, 8, 1_048_576, 2048),
            354_304,
            Ok(169),
            4_000_000,
            2030,
        ),
        ((2, 2, 1, 371, 200), 372, Err(TooSmall { need: 372 }), 4, 84),
    ];
    fixed_parts();
    for ((workers, block, heap, memory, blocks), fixed, pool, load, room) in rows {
        let sizes = Sizes::new(workers, block, heap, memory, blocks).expect(&rt, "sizes");
        assert!(rt; load <= 1 << 56);
        assert!(rt; (sizes.fixed() == fixed) & (sizes.pool() == pool) & (sizes.room(load) == room));
    }
}

#[test]
fn a_last_block_in_part_is_a_block(rt: HostRuntime) {
    let sizes = Sizes::new(1, 4, 1, 1_000, 0).expect(&rt, "sizes");
    for (load, blocks) in [(0, 0), (1, 1), (4, 1), (5, 2), (8, 2), (9, 3)] {
        assert!(rt; load <= 1 << 56);
        assert!(rt; sizes.blocks_for(load) == blocks);
    }
}

#[test]
fn each_size_has_its_two_ends(rt: HostRuntime) {
    assert!(rt; Sizes::new(1, 2, 1, 0, 0).is_some());
    assert!(rt; Sizes::new(64, 65_536, 64, 268_435_456, 65_536).is_some());
    for (workers, block, heap, memory, blocks) in [
        (0, 2, 1, 0, 0),
        (65, 2, 1, 0, 0),
        (1, 1, 1, 0, 0),
        (1, 65_537, 1, 0, 0),
        (1, 2, 0, 0, 0),
        (1, 2, 65, 0, 0),
        (1, 2, 1, 268_435_457, 0),
        (1, 2, 1, 0, 65_537),
    ] {
        assert!(rt; Sizes::new(workers, block, heap, memory, blocks).is_none());
    }
}

#[test]
fn sizes_give_their_numbers_back(rt: HostRuntime) {
    let sizes = Sizes::new(4, 4096, 8, 1_048_576, 2048).expect(&rt, "sizes");
    let asked = (sizes.workers(), sizes.block(), sizes.heap(), sizes.memory());
    assert!(rt; asked == (4, 4096, 8, 1_048_576));
    let made = (sizes.blocks(), sizes.heap_records(), sizes.batch());
    assert!(rt; made == (2048, 32_768, 16_384));
}
