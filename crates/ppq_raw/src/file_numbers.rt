//! Which file of the machine a name leads to.
ghost use Rattle.std.specs.Prelude.{◌↔◌, Contains, IsTrue};

/// Which file of the machine a name leads to, whatever the name: the numbers of its device and of its inode.
#[derive(Clone, Copy, PartialEq, Eq)]
pub struct FileNumbers {
    /// The number of its device.
    pub device: u64,
    /// The number of its inode.
    pub inode: u64,
}

// Whether a file is one of these.
pub(crate) fn is_among(files: &[FileNumbers], file: FileNumbers) -> bool
    ensures { IsTrue result ↔ Contains files.now file }
{
    files.contains(&file)
}
