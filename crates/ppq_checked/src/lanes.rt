//! Four sums of numbers, side by side.
ghost use Rattle.std.specs.Prelude.{◌≡◌, fold};
ghost use Rattle.ppq_checked.specs.Sums.{with_number, with_row, first_lanes, joined};

// 2^64 divided by the golden ratio, rounded to an odd number. Since it is odd the product by it can be undone.
const FACTOR: u64 = 0x9E37_79B9_7F4A_7C15;

/// Four sums side by side, so that no multiplication waits for another.
#[derive(Clone, Copy)]
pub(crate) struct Lanes {
    pub(crate) first: u64,
    pub(crate) second: u64,
    pub(crate) third: u64,
    pub(crate) fourth: u64,
}

// A lane with one number more: one multiplication.
#[inline]
pub(crate) fn with_number(lane: u64, number: u64) -> u64
    ensures { result ≡ with_number lane number }
{
    (lane ^ number).wrapping_mul(FACTOR).rotate_left(29)
}

// Four lanes with one word of 8 bytes more each.
#[inline]
fn with_row(lanes: Lanes, row: &[[u8; 8]; 4]) -> Lanes
    ensures { result ≡ with_row lanes row.now }
{
    Lanes {
        first: with_number(lanes.first, u64::from_le_bytes(row[0])),
        second: with_number(lanes.second, u64::from_le_bytes(row[1])),
        third: with_number(lanes.third, u64::from_le_bytes(row[2])),
        fourth: with_number(lanes.fourth, u64::from_le_bytes(row[3])),
    }
}

// The lanes of rows of four words each.
pub(crate) fn sum_rows(rows: &[[[u8; 8]; 4]]) -> Lanes
    ensures { result ≡ fold with_row first_lanes rows.now }
{
    let mut lanes = Lanes {
        first: 1,
        second: 2,
        third: 3,
        fourth: 4,
    };
    for row in rows {
        lanes = with_row(lanes, row);
    }
    lanes
}

// Four lanes as one number.
pub(crate) fn joined(lanes: Lanes) -> u64
    ensures { result ≡ joined lanes }
{
    let half = with_number(with_number(lanes.first, lanes.second), lanes.third);
    with_number(half, lanes.fourth)
}
