//! Device, files and streams of the machine.
//!
//! This is the trusted edge: what a file or a stream holds, gives or takes is nothing that a contract
//! can say, so none of these tells anything of contents. Of files it has only the raw calls ([`Kit`], [`KitFile`]),
//! a few lines each: what is made of them stands in `ppq_raw`, over any machine. Of the streams
//! it is proved that a call that fails raises its count and no other does.
#![tactic(auto)]

mod kit;
mod kit_file;
mod std_sink;
mod std_source;

pub use kit::Kit;
pub use kit_file::KitFile;
pub use ppq_raw::NamedFiles;
pub use std_sink::StdSink;
pub use std_source::StdSource;

/// A block of a device file.
pub type FileSlot = ppq_raw::RawSlot<KitFile>;

/// A device in a file; its name is a path from the working folder.
pub type FileRack<'a> = ppq_raw::RawRack<'a, Kit>;

/// The plain files of the machine; a name is a path from the working folder.
pub type DirLibrary<'a> = ppq_raw::RawLibrary<'a, Kit>;
