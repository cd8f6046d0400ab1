//! The top call over an outside that fails or changes.
ghost use Rattle.std.specs.Prelude.{None, ◌<◌, ◌^◌, ⊤};

use crate::memory::{ROOM, SIZES, ends, library_of, sink_in};
use ppq_cli::End;
use ppq_outside::{Host, Library, MemRack, MemSink, MemSlot, OutsideFault, Rack, Sink, Slot};
use std::alloc::Global;
use std::process::Abort;

// Asserts how a script ends over a rack, and that it writes nothing. Gives the blocks that came back.
fn ends_over_rack<H: Host + Abort>(
    rt: &H,
    alloc: Global,
    script: &[u8],
    rack: &mut MemRack,
    end: End,
) -> Vec<MemSlot>
where
    H::Dir: Send,
    requires { ⟦<MemRack as Rack>⟧.faults rack.old < 2 ^ 63 }
{
    let mut library = library_of(rt, alloc, script, 0);
    let mut sink = sink_in(rt, alloc);
    ends(rt, alloc, SIZES, &mut library, rack, &mut sink, end, b"")
}

// Asserts that these are the first three blocks.
fn are_first_three(rt: &impl Abort, blocks: &[MemSlot]) {
    assert_eq!(rt; blocks.len(), 3);
    for (number, block) in blocks.iter().enumerate() {
        assert_eq!(rt; block.number() as usize, number);
        assert_eq!(rt; block.size(), 32);
    }
}

#[test]
fn blocks_before_one_that_cannot_be_made_come_back(rt: HostRuntime) {
    let makes = vec![in rt.alloc(); 3].expect(&rt, "memory");
    let mut rack = MemRack::failing(Vec::new(rt.alloc()), makes);
    let blocks = ends_over_rack(&rt, rt.alloc(), b"pop\n", &mut rack, End::NoDevice);
    assert_eq!(rt; rack.faults(), 1);
    are_first_three(&rt, &blocks);
}

// Asserts that these are all blocks, of which block 0 alone failed.
fn have_one_failure(rt: &impl Abort, blocks: &[MemSlot]) {
    assert_eq!(rt; blocks.len(), 200);
    for block in blocks {
        assert_eq!(rt; block.faults() > 0, block.number() == 0);
    }
}

// Scripts, and the call of block 0 that fails.
const FAILING: &[(&[u8], u64)] = &[
    // it cannot be written
    (b"push 6 0\npush 5 0\npush 4 0\npop\n", 1),
    // it cannot be read again
    (b"push 1 0\npush 2 0\npush 3 0\npop\n", 2),
    // nor for the front of a limit session
    (
        b"push 1 0\npush 2 0\nlimit_begin 4 0\nlimit_pop\nlimit_end\n",
        2,
    ),
];

#[test]
fn a_block_that_fails_is_named_and_comes_back(rt: HostRuntime) {
    for (script, call) in FAILING {
        let calls = vec![in rt.alloc(); (0, *call)].expect(&rt, "memory");
        let mut rack = MemRack::failing(calls, Vec::new(rt.alloc()));
        let end = End::DeviceFault { number: 0 };
        let blocks = ends_over_rack(&rt, rt.alloc(), script, &mut rack, end);
        have_one_failure(&rt, &blocks);
    }
}

#[test]
fn a_sink_that_fails_holds_a_prefix(rt: HostRuntime) {
    let alloc = rt.alloc();
    let puts = vec![in alloc; (1, 3)].expect(&rt, "memory");
    let mut library = library_of(&rt, alloc, b"pop\npop\n", 0);
    let mut rack = MemRack::new();
    let mut sink = MemSink::failing(alloc, ROOM, puts).expect(&rt, "memory");
    let blocks = ends(
        &rt,
        alloc,
        SIZES,
        &mut library,
        &mut rack,
        &mut sink,
        End::WriteFault,
        b"emp",
    );
    assert_eq!(rt; (blocks.len(), sink.faults()), (200, 1));
}

// Asserts how the script of a library ends, and what it writes.
fn ends_over_library<H: Host + Abort, L: Library>(
    rt: &H,
    alloc: Global,
    library: &mut L,
    end: End,
    output: &[u8],
)
where
    H::Dir: Send,
    requires { L.faults library.old < 2 ^ 63 }
{
    let mut rack = MemRack::new();
    let mut sink = sink_in(rt, alloc);
    ends(rt, alloc, SIZES, library, &mut rack, &mut sink, end, output);
}

#[test]
fn a_library_that_fails_is_a_read_fault(rt: HostRuntime) {
    for call in [1, 2] {
        let mut library = library_of(&rt, rt.alloc(), b"pop\n", 0);
        library.fail_call(call).expect(&rt, "memory");
        ends_over_library(&rt, rt.alloc(), &mut library, End::ReadFault, b"");
        assert_eq!(rt; library.faults(), 1);
    }
}

#[test]
fn a_file_that_ends_early_has_changed(rt: HostRuntime) {
    let mut library = library_of(&rt, rt.alloc(), b"bulk f\npop\n", 0);
    library.shrink("f", 16);
    let changed = End::FileChanged {
        line: 1,
        said: 32,
        got: 16,
    };
    ends_over_library(&rt, rt.alloc(), &mut library, changed, b"");
}

// A library whose only file comes in pieces of a few bytes, and has maybe fewer than it says. It does
// not tell.
#[derive(Drop)]
struct PieceLibrary {
    bytes: &'static [u8],
    said: u64,
    piece: usize,
}

impl Library for PieceLibrary {
    ghost told = { λ _. None };

    ghost replied = { λ _ _. ⊤ };

    ghost faults = { λ _. 0 };

    fn faults(&self) -> u64 {
        0
    }

    fn length<H: Host>(
        &mut self,
        _rt: &H,
        _alloc: Global,
        _name: &str,
    ) -> Result<Option<u64>, OutsideFault> {
        Ok(Some(self.said))
    }

    fn read_at<H: Host>(
        &mut self,
        _rt: &H,
        _alloc: Global,
        _name: &str,
        at: u64,
        into: &mut [u8],
    ) -> Result<usize, OutsideFault> {
        if at >= self.bytes.len() as u64 {
            return Ok(0);
        }
        let rest = &self.bytes[at as usize..];
        let count = rest.len().min(into.len()).min(self.piece);
        into[..count].copy_from_slice(&rest[..count]);
        Ok(count)
    }

    ghost truth = { λ _ _ _. tt };
}

#[test]
fn a_script_comes_in_pieces_or_ends_before_its_length(rt: HostRuntime) {
    let changed = End::FileChanged {
        line: 0,
        said: 32,
        got: 22,
    };
    let rows: [(u64, End, &[u8]); 2] = [(22, End::Done, b"3 9\n"), (32, changed, b"")];
    for (said, end, output) in rows {
        let mut library = PieceLibrary {
            bytes: b"push 5 1\npush 3 9\npop\n",
            said,
            piece: 5,
        };
        ends_over_library(&rt, rt.alloc(), &mut library, end, output);
    }
}
