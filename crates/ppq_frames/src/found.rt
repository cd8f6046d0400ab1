//! What the bytes that wait begin with.

/// What the bytes that wait begin with.
#[derive(Clone, Copy, Debug, PartialEq, Eq)]
pub enum Found<'a> {
    /// The whole frame of this request.
    Request { request: &'a [u8] },
    /// A part of a frame, or nothing.
    Part,
    /// A frame that is longer than that of a request may be.
    TooLong,
}
