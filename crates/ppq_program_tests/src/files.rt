//! The program over files of the machine, each test in a folder of its own.
ghost use Rattle.std.specs.Prelude.{None, ◌<◌, ◌^◌, ⊤};

use crate::memory::{TWO, sink_in, words_in};
use ppq_cli::{CheckedRack, DirLibrary, FileRack, Handler, NamedFiles, OpenGate, run_and_report};
use ppq_outside::{Host, Library, OutsideFault, Rack};
use std::alloc::Global;
use std::fs;
use std::os::unix::fs::symlink;
use std::process::Abort;

// Sizes by which a file is read by four records at once, and the third record of a queue is written.
const SIZES: &str = "--blocks 1700 --workers 2 --block 2 --heap 1 --memory 1872";

// What the program does: its status, what it writes and what it reports.
type Outcome<'a> = (u8, &'a [u8], &'a [u8]);

// Makes a folder.
fn make_folder<H: Host + Abort>(rt: &H, folder: &str) {
    fs::create_dir(rt, folder).expect(rt, "a folder");
}

// Removes a folder with all its files.
fn remove_folder<H: Host + Abort + AllocGlobal>(rt: &H, folder: &str) {
    fs::remove_dir_all(rt, folder).expect(rt, "a folder");
}

// Makes a file of these bytes.
fn write_file<H: Host + Abort>(rt: &H, name: &str, bytes: &[u8]) {
    fs::write(rt, name, bytes).expect(rt, "a file");
}

// Asserts what the program does for a line of words, over a library and a device.
fn does<H: Host + Abort, L: Library, K: Rack>(
    rt: &H,
    alloc: Global,
    line: &str,
    library: &mut L,
    rack: &mut K,
    outcome: Outcome,
)
where
    H::Dir: Send,
    K::Slot: Send + Sync,
    requires library { L.faults library.old < 2 ^ 63 }
    requires rack { K.faults rack.old < 2 ^ 63 }
{
    let words = words_in(rt, alloc, line);
    let mut out = sink_in(rt, alloc);
    let mut errors = sink_in(rt, alloc);
    let mut roster: Vec<Option<Box<dyn Handler + Send>>> = Vec::new(alloc);
    roster.push(None).expect(rt, "memory");
    let status = run_and_report(
        rt,
        alloc,
        &words,
        roster,
        library,
        rack,
        &OpenGate,
        &mut out,
        &mut errors,
    );
    assert_eq!(rt; status, outcome.0, "{line}");
    assert_eq!(rt; out.bytes(), outcome.1, "{line}");
    assert_eq!(rt; errors.bytes(), outcome.2, "{line}");
}

// Asserts what the program does for a script that is written into a folder, with a device.
fn does_script<H: Host + Abort, L: Library>(
    rt: &H,
    alloc: Global,
    folder: &str,
    device: &str,
    script: &str,
    library: &mut L,
    outcome: Outcome,
)
where
    H::Dir: Send,
    requires { L.faults library.old < 2 ^ 63 }
{
    let name = format!(in alloc; "{folder}/s.ppq").expect(rt, "memory");
    write_file(rt, name.as_str(), script.as_bytes());
    let line = format!(in alloc; "run {name} --device {device} {SIZES}").expect(rt, "memory");
    let mut rack = CheckedRack::new(FileRack::new());
    does(rt, alloc, line.as_str(), library, &mut rack, outcome);
}

// Scripts, the device of each, and what the program does.
const DEVICES: &[(&str, &str, Outcome<'static>)] = &[
    (
        "push 6 0\npush 5 0\npush 4 0\npop\npop\npop\n",
        "ppq_cli_test/s.device",
        (0, b"4 0\n5 0\n6 0\n", b""),
    ),
    // a device that is a folder, one in a folder that is not there, and one without room
    (
        "pop\n",
        "ppq_cli_test",
        (10, b"", b"ppq: cannot make the device\n"),
    ),
    (
        "pop\n",
        "ppq_cli_test/no/s.device",
        (10, b"", b"ppq: cannot make the device\n"),
    ),
    (
        "push 6 0\nsize\npush 5 0\npush 4 0\npop\n",
        "/dev/full",
        (5, b"1\n", b"ppq: device block 0 failed\n"),
    ),
];

#[test]
fn the_program_runs_over_real_files(rt: HostRuntime) {
    let alloc = rt.alloc();
    make_folder(&rt, "ppq_cli_test");
    for (script, device, outcome) in DEVICES {
        let mut library = DirLibrary::new();
        does_script(
            &rt,
            alloc,
            "ppq_cli_test",
            device,
            script,
            &mut library,
            *outcome,
        );
    }
    // a block of two records was written
    let device = fs::metadata(&rt, "ppq_cli_test/s.device").expect(&rt, "a device");
    assert_eq!(rt; device.len(), 32);
    remove_folder(&rt, "ppq_cli_test");
}

// Lines of words, and what the program does.
const WORDS: &[(&str, Outcome<'static>)] = &[
    (
        "run s",
        (
            2,
            b"",
            b"ppq: usage: ppq run SCRIPT --device FILE --blocks D --workers P --block B --heap H (--memory M | --memory-bytes N) [--form text|bytes]\n",
        ),
    ),
    // a script that is not there, and one that is a folder
    (
        "run ppq_cli_none --device d --blocks 0 --workers 1 --block 2 --heap 1 --memory 158",
        (11, b"", b"ppq: no such script\n"),
    ),
    (
        "run . --device d --blocks 0 --workers 1 --block 2 --heap 1 --memory 158",
        (3, b"", b"ppq: cannot read\n"),
    ),
];

#[test]
fn words_and_scripts_that_cannot_be_used_are_reported(rt: HostRuntime) {
    for (line, outcome) in WORDS {
        let mut rack = CheckedRack::new(FileRack::new());
        does(
            &rt,
            rt.alloc(),
            line,
            &mut DirLibrary::new(),
            &mut rack,
            *outcome,
        );
    }
}

// Scripts that load a file, and what the program does.
const LOADED: &[(&str, Outcome<'static>)] = &[
    ("bulk ppq_cli_files/empty\nsize\n", (0, b"0\n", b"")),
    (
        "bulk ppq_cli_files/two\npop\npop\npop\n",
        (0, b"3 9\n5 1\nempty\n", b""),
    ),
    (
        "size\nbulk ppq_cli_files/odd\n",
        (1, b"", b"ppq: line 2: bad line\n"),
    ),
    (
        "size\nbulk ppq_cli_files/none\n",
        (1, b"", b"ppq: line 2: bad line\n"),
    ),
    // a folder in the place of a file
    (
        "size\nbulk ppq_cli_files\n",
        (3, b"", b"ppq: cannot read\n"),
    ),
];

#[test]
fn a_record_file_is_loaded_or_its_line_is_refused(rt: HostRuntime) {
    let alloc = rt.alloc();
    make_folder(&rt, "ppq_cli_files");
    write_file(&rt, "ppq_cli_files/empty", b"");
    write_file(&rt, "ppq_cli_files/two", TWO);
    write_file(&rt, "ppq_cli_files/odd", &[0; 33]);
    for (script, outcome) in LOADED {
        does_script(
            &rt,
            alloc,
            "ppq_cli_files",
            "ppq_cli_files/s.device",
            script,
            &mut DirLibrary::new(),
            *outcome,
        );
    }
    remove_folder(&rt, "ppq_cli_files");
}

// A script that loads a file of two records, whose name has so many bytes. It makes the file, in the
// folder of the test of long names.
fn script_with_name<H: Host + Abort>(rt: &H, alloc: Global, length: usize) -> String {
    let mut name = "ppq_cli_name/".to_string(alloc).expect(rt, "memory");
    for _ in name.len()..length {
        name.push_str("x").expect(rt, "memory");
    }
    write_file(rt, name.as_str(), TWO);
    format!(in alloc; "bulk {name}\npop\n").expect(rt, "memory")
}

#[test]
fn a_name_of_255_bytes_names_a_file_and_a_longer_one_does_not(rt: HostRuntime) {
    let alloc = rt.alloc();
    make_folder(&rt, "ppq_cli_name");
    let rows: [(usize, Outcome); 2] = [
        (255, (0, b"3 9\n", b"")),
        (256, (1, b"", b"ppq: line 1: bad line\n")),
    ];
    for (length, outcome) in rows {
        let script = script_with_name(&rt, alloc, length);
        let mut library = DirLibrary::new();
        does_script(
            &rt,
            alloc,
            "ppq_cli_name",
            "ppq_cli_name/s.device",
            script.as_str(),
            &mut library,
            outcome,
        );
    }
    remove_folder(&rt, "ppq_cli_name");
}

// The files of the machine, of which somebody writes bytes over one once the first four records of a record file
// were read.
#[derive(Drop)]
struct ChangedFiles {
    files: DirLibrary<'static>,
    records: &'static str,
    changed: &'static str,
    bytes: &'static [u8],
}

impl Library for ChangedFiles {
    ghost told = { λ _. None };

    ghost replied = { λ _ _. ⊤ };

    ghost faults = { λ c. ⟦<DirLibrary<'static> as Library>⟧.faults c.files };

    fn faults(&self) -> u64 {
        self.files.faults()
    }

    fn length<H: Host>(
        &mut self,
        rt: &H,
        alloc: Global,
        name: &str,
    ) -> Result<Option<u64>, OutsideFault> {
        self.files.length(rt, alloc, name)
    }

    fn read_at<H: Host>(
        &mut self,
        rt: &H,
        alloc: Global,
        name: &str,
        at: u64,
        into: &mut [u8],
    ) -> Result<usize, OutsideFault> {
        if name == self.records && at > 0 {
            // If this fails, the test finds the file as it was.
            let _ = fs::write(rt, self.changed, self.bytes);
        }
        self.files.read_at(rt, alloc, name, at, into)
    }

    ghost truth = { λ _ _ _. tt };
}

#[test]
fn a_file_that_is_cut_while_it_is_read_has_changed(rt: HostRuntime) {
    let records = "ppq_cli_cut/records";
    make_folder(&rt, "ppq_cli_cut");
    write_file(&rt, records, &[0; 160]);
    let mut library = ChangedFiles {
        files: DirLibrary::new(),
        records,
        changed: records,
        bytes: &[0; 80],
    };
    let script = "size\nbulk ppq_cli_cut/records\npop\n";
    let report = b"ppq: line 2: file changed, said 160, got 80\n";
    let outcome = (9, b"0\n".as_slice(), report.as_slice());
    does_script(
        &rt,
        rt.alloc(),
        "ppq_cli_cut",
        "ppq_cli_cut/s.device",
        script,
        &mut library,
        outcome,
    );
    assert_eq!(rt; library.faults(), 0);
    remove_folder(&rt, "ppq_cli_cut");
}

#[test]
fn a_block_that_somebody_wrote_over_has_failed(rt: HostRuntime) {
    let records = "ppq_cli_wrong/records";
    make_folder(&rt, "ppq_cli_wrong");
    write_file(&rt, records, &[7; 160]);
    // All blocks of the device become zeros, which a queue would take for records 0 0. By then block 0 has 1 0
    // and 2 0, the first records that are popped.
    let mut library = ChangedFiles {
        files: DirLibrary::new(),
        records,
        changed: "ppq_cli_wrong/s.device",
        bytes: &[0; 54_400],
    };
    let script = "push 2 0\npush 1 0\npush 3 0\nbulk ppq_cli_wrong/records\nsize\npop\n";
    let report = b"ppq: device block 0 failed\n";
    let outcome = (5, b"13\n".as_slice(), report.as_slice());
    does_script(
        &rt,
        rt.alloc(),
        "ppq_cli_wrong",
        "ppq_cli_wrong/s.device",
        script,
        &mut library,
        outcome,
    );
    remove_folder(&rt, "ppq_cli_wrong");
}

// Asserts that a file of the folder is not made the device of the script in it.
fn is_no_device<H: Host + Abort>(rt: &H, alloc: Global, device: &str)
where
    H::Dir: Send,
{
    let line = format!(in alloc;
        "run ppq_cli_same/s.ppq --device ppq_cli_same/{device} {SIZES}"
    ).expect(rt, "memory");
    let named = NamedFiles::new();
    let mut library = DirLibrary::naming(&named);
    let mut rack = CheckedRack::new(FileRack::sparing(&named));
    let report = b"ppq: cannot make the device\n".as_slice();
    does(
        rt,
        alloc,
        line.as_str(),
        &mut library,
        &mut rack,
        (10, b"", report),
    );
}

// Asserts the bytes of a file.
fn has_bytes<H: Host + Abort + AllocGlobal>(rt: &H, name: &str, bytes: &[u8]) {
    let found = fs::read(rt, name).expect(rt, "a file");
    assert_eq!(rt; found.as_slice(), bytes, "{name}");
}

#[test]
fn neither_the_script_nor_a_record_file_is_made_the_device(rt: HostRuntime) {
    let script = b"bulk ppq_cli_same/two\npop\n";
    make_folder(&rt, "ppq_cli_same");
    write_file(&rt, "ppq_cli_same/s.ppq", script);
    write_file(&rt, "ppq_cli_same/two", TWO);
    symlink(&rt, "s.ppq", "ppq_cli_same/soft").expect(&rt, "a link");
    fs::hard_link(&rt, "ppq_cli_same/two", "ppq_cli_same/hard").expect(&rt, "a link");
    for device in ["s.ppq", "two", "soft", "hard", "../ppq_cli_same/two"] {
        is_no_device(&rt, rt.alloc(), device);
    }
    has_bytes(&rt, "ppq_cli_same/s.ppq", script);
    has_bytes(&rt, "ppq_cli_same/two", TWO);
    remove_folder(&rt, "ppq_cli_same");
}

// A script that pushes 1,600 records, the greatest first, and pops them; and its output.
fn long_script(rt: &impl Abort, alloc: Global) -> (String, String) {
    let mut script = "".to_string(alloc).expect(rt, "memory");
    let mut output = "".to_string(alloc).expect(rt, "memory");
    for i in 0..1_600u64 {
        let (down, up) = (u64::MAX - i, u64::MAX - 1_599 + i);
        let push = format!(in alloc; "push {down} {down}\n").expect(rt, "memory");
        let popped = format!(in alloc; "{up} {up}\n").expect(rt, "memory");
        script.push_str(push.as_str()).expect(rt, "memory");
        output.push_str(popped.as_str()).expect(rt, "memory");
    }
    script.push_str("bulk_pop 1600\n").expect(rt, "memory");
    (script, output)
}

#[test]
fn a_script_and_an_output_above_64_kilobytes_are_whole(rt: HostRuntime) {
    let alloc = rt.alloc();
    make_folder(&rt, "ppq_cli_long");
    let (script, output) = long_script(&rt, alloc);
    assert!(rt; script.len() > 65_536 && output.len() > 65_536);
    let outcome = (0, output.as_bytes(), b"".as_slice());
    does_script(
        &rt,
        alloc,
        "ppq_cli_long",
        "ppq_cli_long/s.device",
        script.as_str(),
        &mut DirLibrary::new(),
        outcome,
    );
    remove_folder(&rt, "ppq_cli_long");
}
