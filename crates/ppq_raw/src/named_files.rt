//! The files that a library was asked for.
use crate::FileNumbers;
use std::alloc::{AllocError, Global};
use std::cell::Cell;

/// The plain files that a library was asked for, which a device is not to be made of. They are told by the
/// numbers of the machine, so a file is the same by each name, and through links.
///
/// It has 16 bytes for each question after the length of a file. It is written through a `&`, so nothing is
/// proved of which files it has.
#[derive(Drop)]
pub struct NamedFiles {
    // the files, once there was a first; taken out while a call looks at them
    files: Cell<Option<Vec<FileNumbers>>>,
}

impl NamedFiles {
    /// No file yet. It does not allocate.
    pub fn new() -> Self {
        NamedFiles {
            files: Cell::new(None),
        }
    }

    // Adds a file. If an allocation fails, the files are as before.
    pub(crate) fn add(&self, alloc: Global, file: FileNumbers) -> Result<(), AllocError> {
        let mut files = match self.files.replace(None) {
            Some(files) => files,
            None => Vec::new(alloc),
        };
        let pushed = files.push(file);
        self.files.set(Some(files));
        Ok(pushed?)
    }

    // Takes the files out, to look at them.
    pub(crate) fn take(&self) -> Option<Vec<FileNumbers>> {
        self.files.replace(None)
    }

    // Puts them back.
    pub(crate) fn put_back(&self, files: Option<Vec<FileNumbers>>) {
        self.files.set(files);
    }
}
