//! A file in memory, whose raw calls come short and fail.
ghost use Rattle.std.specs.Prelude.{⊤};

use ppq_outside::Failed;
use ppq_raw::{FileData, FileNumbers, RawFile};
use std::alloc::{AllocError, Global};

/// A raw call that was made.
#[derive(Clone, Copy, Debug, PartialEq, Eq)]
pub enum Made {
    /// What the machine says was asked.
    Asked,
    /// It was locked, or refused.
    Locked,
    /// It was cut.
    Cut,
    /// Some bytes were read.
    Read,
    /// Some bytes were written.
    Wrote,
}

/// A file in memory. Its transfers move a few bytes each, and that with a given number, from 1, fails.
#[derive(Drop)]
pub struct MemFile {
    /// What the machine says of it.
    pub data: FileData,
    /// What it holds.
    pub bytes: Vec<u8>,
    /// How many bytes a transfer moves at the most.
    pub most: usize,
    /// The number of the transfer that fails, or 0.
    pub fails: u64,
    /// Whether another handle has it locked.
    pub is_taken: bool,
    /// How many transfers were made.
    pub transfers: u64,
    /// The calls that were made.
    pub made: Vec<Made>,
}

impl MemFile {
    /// A plain file of these bytes, with this number, whose transfers move a number of bytes at the most.
    pub fn new(alloc: Global, inode: u64, bytes: &[u8], most: usize) -> Result<Self, AllocError> {
        let mut held = Vec::new(alloc);
        held.extend_from_slice(bytes)?;
        Ok(MemFile {
            data: FileData {
                numbers: FileNumbers { device: 1, inode },
                is_plain: true,
                size: 0,
            },
            bytes: held,
            most,
            fails: 0,
            is_taken: false,
            transfers: 0,
            made: Vec::new(alloc),
        })
    }

    // Keeps a call, unless an allocation fails.
    fn keep(&mut self, call: Made) {
        if self.made.push(call).is_err() {
            self.is_taken = true;
        }
    }

    // Whether the next transfer fails.
    fn fails_now(&mut self) -> bool {
        self.transfers = self.transfers.saturating_add(1);
        self.transfers == self.fails
    }
}

impl RawFile for MemFile {
    ghost holds = { λ _ _. ⊥ };

    ghost called = { λ _ _. ⊤ };

    ghost refused = { λ _. ⊤ };

    fn about(&mut self) -> Result<FileData, Failed> {
        self.keep(Made::Asked);
        Ok(self.data)
    }

    fn lock(&mut self) -> bool {
        self.keep(Made::Locked);
        !self.is_taken
    }

    fn cut(&mut self) -> Result<(), Failed> {
        self.keep(Made::Cut);
        self.bytes.truncate(0);
        Ok(())
    }

    fn read_at(&mut self, at: u64, into: &mut [u8]) -> Result<usize, Failed> {
        self.keep(Made::Read);
        if self.fails_now() {
            return Err(Failed);
        }
        let at = usize::try_from(at).unwrap_or(usize::MAX);
        let begin = at.min(self.bytes.len());
        let count = into.len().min(self.most).min(self.bytes.len() - begin);
        into[..count].copy_from_slice(&self.bytes[begin..begin + count]);
        Ok(count)
    }

    fn write_at(&mut self, at: u64, bytes: &[u8]) -> Result<usize, Failed> {
        self.keep(Made::Wrote);
        if self.fails_now() {
            return Err(Failed);
        }
        let at = usize::try_from(at).unwrap_or(usize::MAX);
        let count = bytes.len().min(self.most);
        let end = at.saturating_add(count);
        if self.bytes.len() < end && self.bytes.resize(end, 0).is_err() {
            return Err(Failed);
        }
        if at <= end && end <= self.bytes.len() && end - at == count {
            self.bytes[at..end].copy_from_slice(&bytes[..count]);
        }
        Ok(count)
    }

    fn share(&self) -> Result<Self, AllocError> {
        Ok(MemFile {
            data: self.data,
            bytes: self.bytes.clone()?,
            most: self.most,
            fails: self.fails,
            is_taken: self.is_taken,
            transfers: 0,
            made: self.made.clone()?,
        })
    }
}
