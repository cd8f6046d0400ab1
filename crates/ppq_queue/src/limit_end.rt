//! How a bulk pop with a limit ended.

/// How a bulk pop with a limit ended.
#[derive(Clone, Copy, Debug, PartialEq, Eq)]
pub enum LimitEnd {
    /// No record below the limit is left.
    All,
    /// As many records as were asked for were returned, and one below the limit is left.
    More,
    /// The list is full: fewer records than were asked for were returned, and one below the limit is left.
    /// The next call goes on.
    Round,
}
