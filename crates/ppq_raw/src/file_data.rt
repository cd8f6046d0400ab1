//! What the machine says of a file.
use crate::FileNumbers;

/// What the machine says of a file.
#[derive(Clone, Copy, PartialEq, Eq)]
pub struct FileData {
    /// Which file it is.
    pub numbers: FileNumbers,
    /// Whether it is a plain file: no folder, pipe or device.
    pub is_plain: bool,
    /// Its length in bytes.
    pub size: u64,
}
