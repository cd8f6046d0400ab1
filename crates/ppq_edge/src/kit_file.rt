//! The raw calls of an open file.
ghost use Rattle.std.specs.Prelude.{⊤};

use ppq_outside::Failed;
use ppq_raw::{FileData, FileNumbers, RawFile};
use std::alloc::{AllocError, Global};
use std::fs::{File, Metadata, TryLockError};
use std::os::unix::fs::{FileExt, MetadataExt};
use std::sync::Arc;

/// An open file of the machine, which all blocks of a device share. It keeps no account of what it holds.
#[derive(Drop)]
pub struct KitFile {
    file: Arc<File, Global>,
}

impl KitFile {
    // A handle of a file.
    pub(crate) fn new(file: Arc<File, Global>) -> Self {
        KitFile { file }
    }
}

// What the system said of a file.
pub(crate) fn data_of(data: &Metadata) -> FileData {
    FileData {
        numbers: FileNumbers {
            device: data.dev(),
            inode: data.ino(),
        },
        is_plain: data.is_file(),
        size: data.len(),
    }
}

impl RawFile for KitFile {
    ghost holds = { λ _ _. ⊥ };

    ghost called = { λ _ _. ⊤ };

    ghost refused = { λ _. ⊤ };

    fn about(&mut self) -> Result<FileData, Failed> {
        match self.file.metadata() {
            Ok(data) => Ok(data_of(&data)),
            Err(_) => Err(Failed),
        }
    }

    fn lock(&mut self) -> bool {
        !matches!(self.file.try_lock(), Err(TryLockError::WouldBlock))
    }

    fn cut(&mut self) -> Result<(), Failed> {
        match self.file.set_len(0) {
            Ok(()) => Ok(()),
            Err(_) => Err(Failed),
        }
    }

    fn read_at(&mut self, at: u64, into: &mut [u8]) -> Result<usize, Failed> {
        match self.file.read_at(into, at) {
            Ok(count) => Ok(count),
            Err(_) => Err(Failed),
        }
    }

    fn write_at(&mut self, at: u64, bytes: &[u8]) -> Result<usize, Failed> {
        match self.file.write_at(bytes, at) {
            Ok(count) => Ok(count),
            Err(_) => Err(Failed),
        }
    }

    fn share(&self) -> Result<Self, AllocError> {
        let file = Arc::try_clone(&self.file)?;
        Ok(KitFile { file })
    }
}
