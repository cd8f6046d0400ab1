//! Device, library and streams over real files in the working folder.
use ppq_checked::{UntrustedRack, UntrustedSlot};
use ppq_edge::{DirLibrary, FileRack, FileSlot, NamedFiles, StdSink, StdSource};
use ppq_outside::{Failed, Host, Library, OutsideFault, Sink, Source};
use std::alloc::Global;
use std::fs::{self, File, Permissions};
use std::os::unix::fs::{FileExt, PermissionsExt, symlink};
use std::process::Abort;

// Makes a file of these bytes, or writes over one.
fn write_file<H: Host + Abort>(rt: &H, path: &str, bytes: &[u8]) {
    fs::write(rt, path, bytes).expect(rt, "a file");
}

// Removes a file.
fn remove_file<H: Host + Abort>(rt: &H, path: &str) {
    fs::remove_file(rt, path).expect(rt, "a file");
}

// A block of four bytes of a device.
fn block_of<H: Host + Abort>(
    rt: &H,
    alloc: Global,
    rack: &mut FileRack,
    device: &str,
    number: u32,
) -> FileSlot {
    let block = rack
        .block(rt, alloc, device, number, 4)
        .expect(rt, "a block");
    assert!(rt; block.number() == number && block.faults() == 0);
    block
}

// Asserts whether a block of four bytes takes these bytes.
fn takes<H: Host + Abort>(rt: &H, block: &mut FileSlot, bytes: [u8; 4], is_taken: bool) {
    assert_eq!(rt; block.size(), 4);
    assert_eq!(rt; block.write(rt, &bytes).is_ok(), is_taken);
}

// Asserts what a block of four bytes gives.
fn gives<H: Host + Abort>(rt: &H, block: &mut FileSlot, bytes: Result<[u8; 4], Failed>) {
    assert_eq!(rt; block.size(), 4);
    let mut into = [0; 4];
    let came = match block.read(rt, &mut into) {
        Ok(()) => Ok(into),
        Err(fault) => Err(fault),
    };
    assert_eq!(rt; came, bytes);
}

// Asserts how many writes, reads and faults a block counts.
fn counts(rt: &impl Abort, block: &FileSlot, writes: u64, reads: u64, faults: u64) {
    assert_eq!(rt; block.writes(), writes);
    assert_eq!(rt; block.reads(), reads);
    assert_eq!(rt; block.faults(), faults);
}

// Asserts that two blocks of a device keep their bytes, and that its file has them.
fn keep_their_bytes<H: Host + Abort + AllocGlobal>(
    rt: &H,
    path: &str,
    first: &mut FileSlot,
    second: &mut FileSlot,
) {
    takes(rt, second, [1, 2, 3, 4], true);
    takes(rt, first, [5, 6, 7, 8], true);
    gives(rt, second, Ok([1, 2, 3, 4]));
    gives(rt, first, Ok([5, 6, 7, 8]));
    let bytes = fs::read(rt, path).expect(rt, "a file");
    assert_eq!(rt; bytes.as_slice(), [5, 6, 7, 8, 1, 2, 3, 4].as_slice());
}

#[test]
fn a_device_file_keeps_its_blocks_and_counts_its_faults(rt: HostRuntime) {
    let path = "ppq_edge_test.device";
    write_file(&rt, path, b"what was there before");
    let mut rack = FileRack::new();
    let mut first = block_of(&rt, rt.alloc(), &mut rack, path, 0);
    let mut second = block_of(&rt, rt.alloc(), &mut rack, path, 1);
    keep_their_bytes(&rt, path, &mut first, &mut second);
    // a file that was cut in the middle of block 1
    write_file(&rt, path, b"123456");
    gives(&rt, &mut second, Err(Failed));
    counts(&rt, &second, 1, 1, 1);
    remove_file(&rt, path);
}

#[test]
fn a_file_that_another_device_has_is_refused_and_keeps_its_bytes(rt: HostRuntime) {
    let path = "ppq_edge_test.locked";
    let mut rack = FileRack::new();
    let mut block = block_of(&rt, rt.alloc(), &mut rack, path, 0);
    takes(&rt, &mut block, [1, 2, 3, 4], true);
    let mut other = FileRack::new();
    let made = other.block(&rt, rt.alloc(), path, 0, 4);
    assert!(rt; matches!(made, Err(OutsideFault::Failed)) & (other.faults() == 1));
    gives(&rt, &mut block, Ok([1, 2, 3, 4]));
    remove_file(&rt, path);
}

#[test]
fn a_full_disk_is_a_fault_of_the_block(rt: HostRuntime) {
    let mut rack = FileRack::new();
    let mut block = block_of(&rt, rt.alloc(), &mut rack, "/dev/full", 0);
    takes(&rt, &mut block, [1, 2, 3, 4], false);
    counts(&rt, &block, 0, 0, 1);
}

// How many of these bytes the machine takes of one write at a place of a file; none where it refuses it.
fn machine_takes<H: Host + Abort>(rt: &H, path: &str, bytes: &[u8], at: u64) -> usize {
    let opened = File::options().write(true).open(rt, path);
    let file = opened.expect(rt, "a file");
    file.write_at(bytes, at).unwrap_or(0)
}

#[test]
fn a_write_of_which_the_machine_takes_a_part_is_a_fault(rt: HostRuntime) {
    let path = "ppq_edge_test.far";
    let bytes = [7; 8192];
    let mut rack = FileRack::new();
    let first = rack.block(&rt, rt.alloc(), path, 0, 8192);
    let _first = first.expect(&rt, "a block");
    // The last byte of a file on ext4 is that at 2^44 - 4,097, in the middle of this block: of a write from
    // its beginning on half is taken. Where files may be longer, the write is whole.
    let made = rack.block(&rt, rt.alloc(), path, 2_147_483_647, 8192);
    let mut far = made.expect(&rt, "a block");
    let is_whole = machine_takes(&rt, path, &bytes, 17_592_186_036_224) == 8192;
    assert!(rt; far.size() == 8192);
    assert_eq!(rt; far.write(&rt, &bytes).is_ok(), is_whole);
    counts(&rt, &far, u64::from(is_whole), 0, u64::from(!is_whole));
    remove_file(&rt, path);
}

// A file that nobody may open.
const CLOSED: &str = "ppq_edge_test.closed";

// Makes that file. Says whether it opens all the same: the system's own user may open every file.
fn write_closed<H: Host + Abort>(rt: &H) -> bool {
    write_file(rt, CLOSED, b"");
    fs::set_permissions(rt, CLOSED, Permissions::from_mode(0)).expect(rt, "permissions");
    File::open(rt, CLOSED).is_ok()
}

#[test]
fn what_cannot_be_a_device_is_refused(rt: HostRuntime) {
    let opens = write_closed(&rt);
    let refused = [
        (".", 0),
        ("no_such_folder/ppq.device", 0),
        ("/dev/null/ppq.device", 0),
        (if opens { "." } else { CLOSED }, 0),
        // no block before block 0
        (CLOSED, 1),
    ];
    let mut rack = FileRack::new();
    for (device, number) in refused {
        let made = rack.block(&rt, rt.alloc(), device, number, 4);
        assert!(rt; matches!(made, Err(OutsideFault::Failed)), "{device}");
    }
    assert_eq!(rt; rack.faults(), 5);
    remove_file(&rt, CLOSED);
}

// Makes a file of 200,000 bytes, each the remainder of its place by 251.
fn write_remainders<H: Host + Abort>(rt: &H, alloc: Global, path: &str) {
    let mut bytes = Vec::new(alloc);
    for place in 0..200_000u32 {
        bytes.push((place % 251) as u8).expect(rt, "memory");
    }
    write_file(rt, path, &bytes);
}

// Asserts the length that a library says of a file.
fn says<H: Host + Abort>(
    rt: &H,
    alloc: Global,
    library: &mut DirLibrary,
    name: &str,
    length: Result<Option<u64>, OutsideFault>,
) {
    assert_eq!(rt; library.length(rt, alloc, name), length, "{name}");
}

// Asserts what a library gives of a file for five bytes from a place on.
fn reads<H: Host + Abort>(
    rt: &H,
    alloc: Global,
    library: &mut DirLibrary,
    name: &str,
    at: u64,
    bytes: [u8; 5],
    count: Result<usize, OutsideFault>,
) {
    let mut into = [0; 5];
    let came = library.read_at(rt, alloc, name, at, &mut into);
    assert_eq!(rt; came, count, "{at}");
    assert_eq!(rt; into, bytes, "{at}");
}

// Places in that file, the bytes from there on, and how many come.
const READS: &[(u64, [u8; 5], usize)] = &[
    (0, [0, 1, 2, 3, 4], 5),
    (131_073, [51, 52, 53, 54, 55], 5),
    (199_997, [201, 202, 203, 0, 0], 3),
    (200_000, [0, 0, 0, 0, 0], 0),
];

#[test]
fn a_library_reads_plain_files_from_any_place_on(rt: HostRuntime) {
    let path = "ppq_edge_test.file";
    write_remainders(&rt, rt.alloc(), path);
    let mut library = DirLibrary::new();
    says(&rt, rt.alloc(), &mut library, path, Ok(Some(200_000)));
    for (at, bytes, count) in READS {
        reads(&rt, rt.alloc(), &mut library, path, *at, *bytes, Ok(*count));
    }
    remove_file(&rt, path);
    says(&rt, rt.alloc(), &mut library, path, Ok(None));
    assert_eq!(rt; library.faults(), 0);
}

// The links to a file, and then the file; and another one.
const NAMES: [&str; 3] = [
    "ppq_edge_test.soft",
    "ppq_edge_test.hard",
    "ppq_edge_test.named",
];

const OTHER: &str = "ppq_edge_test.other";

// Makes these files.
fn write_names<H: Host + Abort>(rt: &H) {
    let [soft, hard, file] = NAMES;
    write_file(rt, file, b"push 1 0\n");
    symlink(rt, file, soft).expect(rt, "a link");
    fs::hard_link(rt, file, hard).expect(rt, "a link");
    write_file(rt, OTHER, b"records");
}

// Asserts how long a file is.
fn has_length<H: Host + Abort>(rt: &H, path: &str, length: u64) {
    let data = fs::metadata(rt, path).expect(rt, "a file");
    assert_eq!(rt; data.len(), length, "{path}");
}

#[test]
fn a_file_that_the_library_was_asked_for_is_no_device(rt: HostRuntime) {
    let alloc = rt.alloc();
    write_names(&rt);
    let named = NamedFiles::new();
    let mut rack = FileRack::sparing(&named);
    let mut library = DirLibrary::naming(&named);
    says(&rt, alloc, &mut library, NAMES[2], Ok(Some(9)));
    says(&rt, alloc, &mut library, ".", Err(OutsideFault::Failed));
    // one that it was not asked for is cut
    let _block = block_of(&rt, alloc, &mut rack, OTHER, 0);
    has_length(&rt, OTHER, 0);
    says(&rt, alloc, &mut library, OTHER, Ok(Some(0)));
    for name in NAMES {
        assert!(rt; rack.block(&rt, alloc, name, 0, 4).is_err(), "{name}");
        has_length(&rt, name, 9);
        remove_file(&rt, name);
    }
    assert_eq!(rt; (rack.faults(), library.faults()), (3, 1));
    remove_file(&rt, OTHER);
}

#[test]
fn what_is_no_plain_file_is_a_fault_of_the_library(rt: HostRuntime) {
    let mut library = DirLibrary::new();
    // a file that is not there, a folder, a device, and a path through what is no folder
    let failed = Err(OutsideFault::Failed);
    reads(
        &rt,
        rt.alloc(),
        &mut library,
        "no_such_file",
        0,
        [0; 5],
        failed,
    );
    for name in [".", "/dev/null", "/dev/null/s.ppq"] {
        says(
            &rt,
            rt.alloc(),
            &mut library,
            name,
            Err(OutsideFault::Failed),
        );
    }
    assert_eq!(rt; library.faults(), 4);
}

#[test]
fn the_streams_take_text(rt: HostRuntime) {
    let mut out = StdSink::out();
    assert_eq!(rt; out.put(&rt, b"a line\n"), Ok(()));
    assert_eq!(rt; out.faults(), 0);
    let mut errors = StdSink::err();
    assert_eq!(rt; errors.put(&rt, b"a line\n"), Ok(()));
    assert_eq!(rt; errors.put(&rt, b"\xff"), Err(Failed));
    assert_eq!(rt; errors.faults(), 1);
}

#[test]
fn a_reader_is_a_source(rt: HostRuntime) {
    write_file(&rt, "source", b"abc");
    let mut source = StdSource::new(File::open(&rt, "source").expect(&rt, "a file"));
    let mut into = [b'-'; 2];
    assert_eq!(rt; (source.get(&rt, &mut into), into), (Ok(2), *b"ab"));
    assert_eq!(rt; (source.get(&rt, &mut into), into), (Ok(1), *b"cb"));
    assert_eq!(rt; source.get(&rt, &mut into), Ok(0));
    assert_eq!(rt; source.faults(), 0);
}

#[test]
fn a_folder_is_a_source_that_fails(rt: HostRuntime) {
    let mut source = StdSource::new(File::open(&rt, ".").expect(&rt, "a folder"));
    let mut into = [0; 2];
    assert_eq!(rt; source.get(&rt, &mut into), Err(Failed));
    assert_eq!(rt; source.faults(), 1);
}

#[test]
fn a_block_of_a_file_is_read_only_when_it_is_asked_for(rt: HostRuntime) {
    let mut rack = FileRack::new();
    let mut block = block_of(&rt, rt.alloc(), &mut rack, "expected.device", 0);
    takes(&rt, &mut block, [5, 6, 7, 8], true);
    assert!(rt; !block.expect(&rt));
    gives(&rt, &mut block, Ok([5, 6, 7, 8]));
    counts(&rt, &block, 1, 1, 0);
    remove_file(&rt, "expected.device");
}
