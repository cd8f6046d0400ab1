//! An operation of a request.

/// An operation of a request. Each stands for commands of scripts: for one, or for a `push` for each of
/// its records.
#[derive(Clone, Copy, Debug, PartialEq, Eq)]
pub enum Operation<'a, R> {
    /// `+`: adds a record.
    Push { item: R },
    /// `P`: adds the records that stand in these bytes, one after the other. `cut_record` cuts off the first.
    PushMany { records: &'a [u8] },
    /// `p`: removes the smallest record, if there is one, and returns it.
    Pop,
    /// `t`: returns the smallest record, if there is one, and leaves it.
    Top,
    /// `n`: removes the smallest so many records, or all, and returns them.
    BulkPop { count: u64 },
    /// `b`: removes the smallest records before this one, at most so many, and returns them, and whether any
    /// before it are left.
    BulkPopLimit { limit: R, count: u64 },
}
