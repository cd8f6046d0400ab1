//! What a command asks of a device and a budget.
ghost use Rattle.std.specs.Prelude.{◌≡◌, ◌≤◌};
ghost use Rattle.ppq_cli.specs.Budget.{plan_for, half_plan_for};

use ppq_record::record_laws;
use ppq_words::{GivenSizes, Record, Sizes};

/// What a command asks of a device and a budget.
#[derive(Clone, Copy, Debug, PartialEq, Eq)]
pub struct Plan {
    /// The sizes of each queue.
    pub sizes: Sizes,
    /// How many blocks the device has for all queues.
    pub blocks: u32,
    /// The least budget for all queues, in the unit in which it is given.
    pub need: u64,
}

/// One queue for records of a type, with the whole budget and the whole device.
pub fn plan_for<R: Record>(given: &GivenSizes) -> Plan
    requires width { 16 ≤ R.WIDTH }
    ensures { result ≡ plan_for R.WIDTH given.now }
{
    record_laws::<R>();
    let width = R::WIDTH as u64;
    let sizes = given.for_width(width);
    Plan {
        sizes,
        blocks: sizes.blocks(),
        need: given.unit().amount(sizes.fixed(), width),
    }
}

/// Two queues for records of a type, each with half of the budget and half of the device.
pub fn half_plan_for<R: Record>(given: &GivenSizes) -> Plan
    requires width { 16 ≤ R.WIDTH }
    ensures { result ≡ half_plan_for R.WIDTH given.now }
{
    record_laws::<R>();
    let width = R::WIDTH as u64;
    let sizes = given.half_for_width(width);
    Plan {
        sizes,
        blocks: 2 * sizes.blocks(),
        need: given.unit().amount(2 * sizes.fixed(), width),
    }
}
