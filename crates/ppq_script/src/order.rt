//! The order of the records of a script.
ghost use Rattle.std.specs.Prelude.{◌≡◌};
ghost use Rattle.ppq_script.specs.Head.{goes};

/// Which record of a script goes first.
#[derive(Clone, Copy, Debug, PartialEq, Eq)]
pub enum Order {
    /// The smallest.
    Up,
    /// The greatest.
    Down,
}

impl Order {
    // Whether records go in this order, of which the greater goes first exactly where `down`.
    pub(crate) fn fits(self, down: bool) -> bool
        ensures { result ≡ goes down self }
    {
        match self {
            Order::Up => !down,
            Order::Down => down,
        }
    }
}
