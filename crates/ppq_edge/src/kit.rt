//! The raw calls for names of files.
ghost use Rattle.std.specs.Prelude.{⊤};

use crate::KitFile;
use crate::kit_file::data_of;
use ppq_outside::{Failed, Host, OutsideFault};
use ppq_raw::{FileData, RawFiles};
use std::alloc::Global;
use std::fs::{self, File};
use std::io::ErrorKind;
use std::os::unix::fs::FileExt;
use std::sync::Arc;

/// The files of the machine; a name is a path from the working folder.
#[derive(Default, Drop)]
pub struct Kit;

impl RawFiles for Kit {
    type File = KitFile;

    fn open<H: Host>(
        &mut self,
        rt: &H,
        alloc: Global,
        name: &str,
    ) -> Result<KitFile, OutsideFault> {
        let opened = File::options()
            .read(true)
            .write(true)
            .create(true)
            .open(rt, name);
        match opened {
            Ok(file) => Ok(KitFile::new(Arc::new(alloc, file)?)),
            Err(_) => Err(OutsideFault::Failed),
        }
    }

    fn look<H: Host>(&mut self, rt: &H, name: &str) -> Result<Option<FileData>, Failed> {
        match fs::metadata(rt, name) {
            Ok(data) => Ok(Some(data_of(&data))),
            Err(error) if error.kind() == ErrorKind::NotFound => Ok(None),
            Err(_) => Err(Failed),
        }
    }

    fn read_at<H: Host>(
        &mut self,
        rt: &H,
        name: &str,
        at: u64,
        into: &mut [u8],
    ) -> Result<usize, Failed> {
        let Ok(file) = File::open(rt, name) else {
            return Err(Failed);
        };
        match file.read_at(into, at) {
            Ok(count) => Ok(count),
            Err(_) => Err(Failed),
        }
    }
}
