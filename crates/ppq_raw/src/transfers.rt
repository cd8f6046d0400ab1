//! Transfers of whole ranges of bytes.
ghost use Rattle.std.specs.Prelude.{◌≡◌, ◌<◌, ◌≤◌, ◌+◌, ◌^◌, IfOk, OnOk, OnErr, length};
ghost use Rattle.ppq_raw.specs.Transfers.{Keeps, Writes, WritesMore, Gives, GivesMore};

use crate::RawFile;
use ppq_outside::Failed;

// Writes further bytes of those that belong at offset `at`, of which `done` are written, and returns how many.
fn write_more<F: RawFile>(file: &mut F, at: u64, bytes: &[u8], done: usize) -> Result<usize, Failed>
    requires room { done < length bytes.now }
    requires fits { at + length bytes.now < 2 ^ 64 }
    ensures within { IfOk result (λ count. done + count ≤ length bytes.now) }
    ensures more { IfOk result (λ count. WritesMore (F.holds file.old) (F.holds file.new) at bytes.now done count) }
    ensures none { IfOk result (λ count. count ≡ 0 → F.refused file.new) }
    ensures refused { OnErr result (F.refused file.new) }
{
    let count = file.write_at(at + done as u64, &bytes[done..])?;
    Ok(count)
}

/// Writes all bytes at offset `at`. A write that takes a part goes on with the rest. `Failed` is returned only if one
/// was refused, and nothing is then known of what the file holds.
#[tactic(auto, using(crate::proofs::Parts::writes_on))]
pub fn write_whole<F: RawFile>(file: &mut F, at: u64, bytes: &[u8]) -> Result<(), Failed>
    requires { at + length bytes.now < 2 ^ 64 }
    ensures writes { OnOk result (Writes (F.holds file.old) (F.holds file.new) at bytes.now) }
    ensures refused { OnErr result (F.refused file.new) }
{
    let mut done = 0;
    'writing: while done < bytes.len() {
        match write_more(file, at, bytes, done) {
            Ok(0) => return Err(Failed),
            Ok(count) => done += count,
            Err(fault) => return Err(fault),
        }
    }
    Ok(())
}

// Reads further bytes of those from offset `at` on, of which `got` are there, and returns how many.
fn read_more<F: RawFile>(
    file: &mut F,
    at: u64,
    into: &mut [u8],
    got: usize,
) -> Result<usize, Failed>
    requires room { got < length into.old }
    requires fits { at + length into.old < 2 ^ 64 }
    ensures within { IfOk result (λ count. got + count ≤ length into.new) }
    ensures more { IfOk result (λ count. GivesMore (F.holds file.old) at into.old into.new got count) }
    ensures none { IfOk result (λ count. count ≡ 0 → F.refused file.new) }
    ensures keeps { Keeps (F.holds file.old) (F.holds file.new) }
    ensures refused { OnErr result (F.refused file.new) }
{
    let count = file.read_at(at + got as u64, &mut into[got..])?;
    Ok(count)
}

/// Fills `into` with the bytes from offset `at` on. A read that gives a part goes on with the rest. `Failed` is returned
/// only if one was refused, as each is at the end of the file, and nothing is then known of `into`.
#[tactic(auto, using(crate::proofs::Parts::gives_on, crate::proofs::Parts::keeps_two))]
pub fn read_whole<F: RawFile>(file: &mut F, at: u64, into: &mut [u8]) -> Result<(), Failed>
    requires { at + length into.old < 2 ^ 64 }
    ensures gives { OnOk result (Gives (F.holds file.old) at into.new) }
    ensures keeps { Keeps (F.holds file.old) (F.holds file.new) }
    ensures refused { OnErr result (F.refused file.new) }
{
    let mut got = 0;
    'reading: while got < into.len() {
        match read_more(file, at, into, got) {
            Ok(0) => return Err(Failed),
            Ok(count) => got += count,
            Err(fault) => return Err(fault),
        }
    }
    Ok(())
}
