//! A record of fixed width, with bytes and an order.
ghost use Rattle.std.specs.Prelude.{◌≡◌, ◌≤◌, ◌<◌, List, ℕ, length, All, if◌then◌else◌};
ghost use Rattle.std.specs.Cmp.{IsTotalOrder};
ghost use Rattle.std.specs.declared.cmp.Ordering.TheVariants.{Equal};
ghost use Rattle.ppq_record.specs.Order.{is_before};

/// A value of `WIDTH` bytes, from 1 to 64, with a total order.
///
/// Bytes and values are inverse both ways, and two values are equal if and only if their bytes are,
/// which is if and only if the order calls them equal.
pub trait Record: Copy + Ord {
    /// How many bytes a record has, from 1 to 64.
    const WIDTH: usize;

    ghost WIDTH: { ℕ };

    /// Which records are values: those whose fields are in the range of their types.
    ghost is_value: { Self → Type 0 };

    /// The bytes of a record.
    ghost bytes_of: { Self → List ℕ };

    /// The record of so many bytes.
    ghost record_of: { List ℕ → Self };

    /// Writes the record's bytes over a slice of `WIDTH` bytes.
    fn put(&self, into: &mut [u8])
        requires { length into.old ≡ WIDTH }
        ensures { into.new ≡ bytes_of self.now };

    /// The record that `WIDTH` bytes stand for. Every such list stands for one.
    fn take(from: &[u8]) -> Self
        requires { length from.now ≡ WIDTH }
        ensures record { result ≡ record_of from.now }
        ensures value { is_value result };

    /// One of two records: the other where `is_other`, and else the one. Choose field by field: this
    /// compiles to code with no branch, and in a merge it cannot be foreseen which record goes first.
    fn either(is_other: bool, one: Self, other: Self) -> Self
        ensures { result ≡ (if is_other then other else one) };

    /// Whether the record is before another in the order of `cmp`. A merge asks it at every match:
    /// compare numbers as wide as can be, since a comparison field by field compiles to branches.
    fn is_less(&self, other: &Self) -> bool
        ensures { result ≡ is_before Self.Ord.cmp self.now other.now };

    /// Does nothing; it promises that its record is a value.
    fn known(&self)
        ensures { is_value self.now };

    ghost bytes_length: { (r : Self) → length (bytes_of r) ≡ WIDTH };

    ghost take_put: { (r : Self) → is_value r → record_of (bytes_of r) ≡ r };

    ghost put_take: { (b : List ℕ) → length b ≡ WIDTH → All (λ x. x < 256) b → bytes_of (record_of b) ≡ b };

    ghost same: { (x y : Self) → Self.Ord.cmp x y ≡ Equal → x ≡ y };

    ghost width: { (1 ≤ WIDTH) × (WIDTH ≤ 64) };
}

/// The laws of a record, as clauses for the proof of whoever calls it. It does nothing and costs
/// nothing.
#[inline]
pub fn record_laws<R: Record>()
    ensures order { IsTotalOrder R.Ord.cmp }
    ensures same { (x y : _) → R.Ord.cmp x y ≡ Equal → x ≡ y }
    ensures bytes_length { (r : _) → length (R.bytes_of r) ≡ R.WIDTH }
    ensures take_put { (r : _) → R.is_value r → R.record_of (R.bytes_of r) ≡ r }
    ensures put_take { (b : List ℕ) → length b ≡ R.WIDTH → All (λ x. x < 256) b → R.bytes_of (R.record_of b) ≡ b }
    ensures equal_bytes { (x y : _) → R.is_value x → R.is_value y → R.bytes_of x ≡ R.bytes_of y → x ≡ y }
    ensures width { (1 ≤ R.WIDTH) × (R.WIDTH ≤ 64) }
{}
