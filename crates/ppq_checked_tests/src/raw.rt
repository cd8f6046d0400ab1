//! What is made of raw calls that come short and fail, over a file in memory.
use crate::memory_file::{Made, MemFile};
use ppq_outside::Failed;
use ppq_raw::{FileNumbers, RawFile, claim, read_whole, write_whole};
use std::alloc::Global;
use std::process::Abort;

// A file with the number 7 that holds "ab", of whose transfers each moves a byte.
fn file_of(rt: &impl Abort, alloc: Global) -> MemFile {
    MemFile::new(alloc, 7, b"ab", 1).expect(rt, "memory")
}

#[test]
fn a_write_goes_on_until_all_is_written(rt: HostRuntime) {
    let mut file = file_of(&rt, rt.alloc());
    assert_eq!(rt; write_whole(&mut file, 3, b"cde"), Ok(()));
    assert_eq!(rt; file.bytes.as_slice(), b"ab\0cde".as_slice());
    assert_eq!(rt; file.transfers, 3);
}

#[test]
fn a_read_goes_on_until_all_is_read(rt: HostRuntime) {
    let mut file = file_of(&rt, rt.alloc());
    assert_eq!(rt; write_whole(&mut file, 1, b"xyz"), Ok(()));
    let mut into = [b'-'; 3];
    assert_eq!(rt; read_whole(&mut file, 1, &mut into), Ok(()));
    assert_eq!(rt; (into, file.transfers), (*b"xyz", 6));
}

#[test]
fn a_transfer_that_fails_ends_all(rt: HostRuntime) {
    let mut file = file_of(&rt, rt.alloc());
    file.fails = 2;
    assert_eq!(rt; write_whole(&mut file, 2, b"cde"), Err(Failed));
    assert_eq!(rt; file.bytes.as_slice(), b"abc".as_slice());
    file.fails = 4;
    let mut into = [b'-'; 3];
    assert_eq!(rt; read_whole(&mut file, 0, &mut into), Err(Failed));
    assert_eq!(rt; file.transfers, 4);
}

#[test]
fn the_end_of_a_file_ends_a_read(rt: HostRuntime) {
    let mut file = file_of(&rt, rt.alloc());
    let mut into = [b'-'; 3];
    assert_eq!(rt; read_whole(&mut file, 0, &mut into), Err(Failed));
    assert_eq!(rt; (into, file.transfers), (*b"ab-", 3));
    assert_eq!(rt; read_whole(&mut file, 9, &mut into), Err(Failed));
    // no byte is asked for
    assert_eq!(rt; read_whole(&mut file, 9, &mut []), Ok(()));
}

// Numbers of a file.
const fn numbers(inode: u64) -> FileNumbers {
    FileNumbers { device: 1, inode }
}

// Whether a claim of a file ends so, makes these calls and leaves these bytes.
fn claims(
    file: &mut MemFile,
    spared: &[FileNumbers],
    is_ok: bool,
    made: &[Made],
    left: &[u8],
) -> bool {
    let claimed = claim(file, spared);
    (claimed.is_ok() == is_ok) & (file.made.as_slice() == made) & (file.bytes.as_slice() == left)
}

#[test]
fn a_file_is_compared_and_locked_before_it_is_cut(rt: HostRuntime) {
    let mut file = file_of(&rt, rt.alloc());
    let calls = [Made::Asked, Made::Locked, Made::Cut];
    assert!(rt; claims(&mut file, &[numbers(6), numbers(8)], true, &calls, b""));
}

#[test]
fn a_spared_file_is_left_as_it_is(rt: HostRuntime) {
    let mut file = file_of(&rt, rt.alloc());
    assert!(rt;
        claims(
            &mut file,
            &[numbers(6), numbers(7)],
            false,
            &[Made::Asked],
            b"ab"
        )
    );
}

#[test]
fn a_file_that_another_handle_has_is_left_as_it_is(rt: HostRuntime) {
    let mut file = file_of(&rt, rt.alloc());
    file.is_taken = true;
    assert!(rt; claims(&mut file, &[], false, &[Made::Asked, Made::Locked], b"ab"));
}

#[test]
fn what_is_no_plain_file_is_neither_locked_nor_cut(rt: HostRuntime) {
    let mut file = file_of(&rt, rt.alloc());
    file.data.is_plain = false;
    file.is_taken = true;
    assert!(rt; claims(&mut file, &[], true, &[Made::Asked], b"ab"));
}

#[test]
fn a_handle_that_is_shared_has_the_same_bytes(rt: HostRuntime) {
    let file = file_of(&rt, rt.alloc());
    let mut other = file.share().expect(&rt, "memory");
    let mut into = [b'-'; 2];
    assert_eq!(rt; (other.read_at(0, &mut into), into), (Ok(1), *b"a-"));
    other.fails = 2;
    assert_eq!(rt; other.read_at(0, &mut into), Err(Failed));
}
