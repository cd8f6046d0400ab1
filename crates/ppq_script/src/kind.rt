//! The kind of the records of a script.
ghost use Rattle.std.specs.Prelude.{◌≡◌};
ghost use Rattle.ppq_script.specs.Head.{count_of};

/// Which records a script is about.
#[derive(Clone, Copy, Debug, PartialEq, Eq)]
pub enum Kind {
    /// Records of two numbers, a key and a value.
    Pair,
    /// Records of three numbers.
    Triple,
}

impl Kind {
    /// How many numbers a record has.
    pub fn count(self) -> usize
        ensures { result ≡ count_of self }
    {
        match self {
            Kind::Pair => 2,
            Kind::Triple => 3,
        }
    }
}
