//! Devices and named files over the raw calls of a machine.
//!
//! What a machine does with one file is a few raw calls ([`RawFile`]): it says which file it is, locks it, cuts it, and
//! reads or writes some bytes at an offset. What it does with names is three more ([`RawFiles`]). What is made of
//! them is proved for every machine with these calls, also one that fails or moves fewer bytes than it was asked
//! for: transfers of whole ranges ([`read_whole`], [`write_whole`]), the offsets of blocks ([`RawSlot`]), and the order in
//! which a device's file is compared, locked and cut ([`claim`]). Which files are named lies in a cell ([`NamedFiles`]),
//! of which no contract speaks.
#![tactic(auto)]

mod device_file;
mod file_data;
mod file_numbers;
mod named_files;
mod raw_file;
mod raw_files;
mod raw_library;
mod raw_rack;
mod raw_slot;
mod transfers;

pub use device_file::claim;
pub use file_data::FileData;
pub use file_numbers::FileNumbers;
pub use named_files::NamedFiles;
pub use raw_file::RawFile;
pub use raw_files::RawFiles;
pub use raw_library::RawLibrary;
pub use raw_rack::RawRack;
pub use raw_slot::RawSlot;
pub use transfers::{read_whole, write_whole};
