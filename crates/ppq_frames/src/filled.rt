//! What a source had.

/// Whether a source had more bytes, and what waits if it is at its end.
#[derive(Clone, Copy, Debug, PartialEq, Eq)]
pub enum Filled {
    /// One byte more or several came.
    More,
    /// Nothing more comes, and nothing waits: the end between two frames.
    End,
    /// Nothing more comes, and a part of a frame waits.
    CutOff,
}
