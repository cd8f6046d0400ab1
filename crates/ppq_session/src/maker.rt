//! Records that are made where they are added.
ghost use Rattle.std.specs.Prelude.{◌≡◌, ◌∷◌, [], List, length, take, drop, IfSome, IfNone};

use ppq_pass::Record;

/// Makes records, one after the other, and may begin at any of them.
///
/// Contracts see the records that are to come. Each worker of a session makes its part of them itself, on its
/// own thread, and no list of them is ever in memory.
pub trait Maker<R: Record>: Drop {
    /// The records that are to come.
    ghost rest: { Self → List R };

    /// How many records are to come.
    fn left(&self) -> u64
        ensures { result ≡ length (rest self.now) };

    /// A maker of at most `count` of these records, those behind the first `from`. It should cost much less
    /// than making the first ones.
    fn part(&self, from: u64, count: u64) -> Self
        ensures { rest result ≡ take count (drop from (rest self.now)) };

    /// The next record; `None` exactly where none is to come.
    fn make(&mut self) -> Option<R>
        ensures made { IfSome result (λ r. rest self.old ≡ r ∷ rest self.new) }
        ensures end { IfNone result (rest self.old ≡ []) };
}
