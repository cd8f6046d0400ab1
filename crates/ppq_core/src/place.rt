//! Where a buffer or a slot is.

/// The place of a buffer or of a slot. A buffer is free or held; a slot goes from free to held to
/// stored, and never back.
#[derive(Clone, Copy, Debug, PartialEq, Eq)]
pub enum Place {
    /// With nobody.
    Free,
    /// With this pass.
    Held { pass: u32 },
    /// With this pass, as part of one of the runs that it has written.
    Stored { pass: u32 },
}
