//! The raw calls of a machine for the names of files.
ghost use Rattle.std.specs.Prelude.{◌≤◌, IfOk, length};

use crate::{FileData, RawFile};
use ppq_outside::{Failed, Host, OutsideFault};
use std::alloc::Global;

/// A machine, by the raw calls for the names of its files.
pub trait RawFiles: Drop {
    /// An open file.
    type File: RawFile;

    /// Opens a file to read and to write, and creates one that is not there. It changes none that is there.
    fn open<H: Host>(
        &mut self,
        rt: &H,
        alloc: Global,
        name: &str,
    ) -> Result<Self::File, OutsideFault>;

    /// What the machine says of the file of a name, or `None` if there is none.
    fn look<H: Host>(&mut self, rt: &H, name: &str) -> Result<Option<FileData>, Failed>;

    /// Opens the file of a name, reads of it once, as [`RawFile::read_at`] does, and closes it.
    fn read_at<H: Host>(
        &mut self,
        rt: &H,
        name: &str,
        at: u64,
        into: &mut [u8],
    ) -> Result<usize, Failed>
        ensures { IfOk result (λ count. count ≤ length into.new) };
}
