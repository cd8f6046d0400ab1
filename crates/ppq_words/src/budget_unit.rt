//! The unit of a budget.
ghost use Rattle.std.specs.Prelude.{◌≡◌, ◌<◌, ◌≤◌, ◌^◌};
ghost use Rattle.ppq_words.specs.Given.{largest};
ghost use Rattle.ppq_words.specs.Reading.{in_unit, in_records};

/// The unit in which the arguments give the budget.
#[derive(Clone, Copy, Debug, PartialEq, Eq)]
pub enum BudgetUnit {
    /// Records, by `--memory`.
    Records,
    /// Bytes, by `--memory-bytes`.
    Bytes,
}

impl BudgetUnit {
    /// The largest budget in this unit. In bytes it is that in records of 16 bytes.
    pub fn largest(self) -> u64
        ensures { result ≡ largest self }
    {
        match self {
            BudgetUnit::Records => 268_435_456,
            BudgetUnit::Bytes => 4_294_967_296,
        }
    }

    /// So many records of this width, in bytes from 1 to 64, in this unit.
    pub fn amount(self, records: u64, width: u64) -> u64
        requires records { records < 2 ^ 58 }
        requires width { width ≤ 64 }
        ensures { result ≡ in_unit width self records }
    {
        match self {
            BudgetUnit::Records => records,
            BudgetUnit::Bytes => records * width,
        }
    }

    // A budget in this unit in records of this width: of bytes as many as fit.
    pub(crate) fn records(self, budget: u64, width: u64) -> u64
        requires { 1 ≤ width }
        ensures { result ≡ in_records width self budget }
    {
        match self {
            BudgetUnit::Records => budget,
            BudgetUnit::Bytes => budget / width,
        }
    }
}
