//! Choices and comparisons of numbers that compile to code with no branch.
ghost use Rattle.std.specs.Prelude.{◌≡◌, ◌+◌, ◌*◌, ◌^◌, ◌<◌, if◌then◌else◌};

// Two numbers as one, which has the order of the first and then the second.
#[inline]
pub(crate) fn joined(first: u64, second: u64) -> u128
    ensures number { result ≡ first * 2 ^ 64 + second }
    ensures value { second < 2 ^ 64 }
{
    u128::from(first) * 18446744073709551616 + u128::from(second)
}

// One of two numbers, chosen with no branch.
#[inline]
pub(crate) fn choose(is_other: bool, one: u64, other: u64) -> u64
    ensures { result ≡ (if is_other then other else one) }
{
    if is_other { other } else { one }
}
