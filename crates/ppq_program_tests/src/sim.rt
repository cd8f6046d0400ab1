//! Whole agendas over memory, with the roster of the program: what they write, and how they end.
use crate::memory::{ends, sink_in, words_in};
use ppq_cli::{
    CountHandler, End, ForkHandler, Handler, MortalHandler, OpenGate, RelayHandler, all_words,
    status,
};
use ppq_outside::{Host, Library, MemLibrary, MemRack};
use std::alloc::Global;
use std::process::Abort;

// The sizes of most tests: the third event of a queue is written to a block.
const SIZES: &str = "--device d --blocks 200 --workers 2 --block 2 --heap 1 --memory 372";

// An event: its time, its target and its word.
type Event = (u64, u64, u64);

// The bytes of an agenda.
fn bytes_of(rt: &impl Abort, alloc: Global, events: &[Event]) -> Vec<u8> {
    let mut bytes = Vec::new(alloc);
    for event in events {
        for number in [event.0, event.1, event.2] {
            bytes
                .extend_from_slice(&number.to_be_bytes())
                .expect(rt, "memory");
        }
    }
    bytes
}

// Asserts the status with which the agenda `a` of these bytes ends under a line of words, over an outside that does
// not fail, and what it writes. Returns how many blocks were made.
fn does<H: Host + Abort>(
    rt: &H,
    alloc: Global,
    line: &str,
    bytes: &[u8],
    ends: u8,
    output: &str,
) -> usize
where
    H::Dir: Send,
{
    let mut library = MemLibrary::new(alloc);
    library.add(alloc, "a", bytes).expect(rt, "memory");
    let mut roster: Vec<Option<Box<dyn Handler + Send>>> = Vec::new(alloc);
    for place in 0..16u32 {
        let handler: Box<dyn Handler + Send> = match place % 3 {
            _ if place >= 12 => Box::new(alloc, MortalHandler::new()).expect(rt, "memory"),
            0 => Box::new(alloc, CountHandler::new()).expect(rt, "memory"),
            1 => Box::new(alloc, RelayHandler::new()).expect(rt, "memory"),
            _ => Box::new(alloc, ForkHandler::new()).expect(rt, "memory"),
        };
        roster.push(Some(handler)).expect(rt, "memory");
    }
    assert_eq!(rt; roster.len(), 16);
    let words = words_in(rt, alloc, line);
    let (mut rack, mut sink) = (MemRack::new(), sink_in(rt, alloc));
    let ended = all_words(
        rt,
        alloc,
        &words,
        roster,
        &mut library,
        &mut rack,
        &OpenGate,
        &mut sink,
    );
    assert_eq!(rt; status(&ended.end), ends, "{line}");
    assert_eq!(rt; sink.bytes(), output.as_bytes(), "{line}");
    rack.made().len()
}

// Agendas, until when and how many events are handled, and their journals.
const JOURNALS: &[(&[Event], u64, u64, &str)] = &[
    (
        &[(5, 1, 2)],
        100,
        100,
        "5 1 2 2\n6 2 1 0\nend empty count 2\n",
    ),
    (
        &[(1, 2, 4), (1, 0, 7)],
        2,
        100,
        "1 0 7 7\n1 2 4 0\n2 3 2 2\nend until count 3\n",
    ),
    (&[(1, 2, 4), (1, 0, 7)], 2, 1, "1 0 7 7\nend full count 1\n"),
    // handlers that retire
    (
        &[(1, 12, 0), (2, 12, 5), (2, 0, 3)],
        100,
        100,
        "1 12 0 1\n2 0 3 3\n2 12 5 lost\nend empty count 3\n",
    ),
    (
        &[(4, 13, 0), (4, 13, 0), (4, 13, 1)],
        100,
        100,
        "4 13 0 1\n4 13 0 lost\n4 13 1 lost\nend empty count 3\n",
    ),
    // no event
    (&[], 100, 100, "end empty count 0\n"),
];

#[test]
fn an_agenda_writes_its_journal(rt: HostRuntime) {
    let alloc = rt.alloc();
    for (events, until, most, journal) in JOURNALS {
        let bytes = bytes_of(&rt, alloc, events);
        let line = format!(in alloc; "sim a {SIZES} --until {until} --events {most}");
        let line = line.expect(&rt, "memory");
        let made = does(&rt, alloc, line.as_str(), &bytes, 0, journal);
        assert_eq!(rt; made, 200, "{line}");
    }
}

// Lines of words, how many bytes of zeros the agenda `a` has, and the status.
const REFUSED: &[(&str, usize, u8)] = &[
    // no reading
    (
        "sim a --device d --blocks 200 --workers 2 --block 2 --heap 1 --memory 372 --events 100",
        24,
        2,
    ),
    ("sim", 24, 2),
    // no such agenda, also where the budget is too small
    (
        "sim b --device d --blocks 200 --workers 2 --block 2 --heap 1 --memory 1 --until 9 --events 9",
        24,
        11,
    ),
    // a part of an event, also where the budget is too small
    (
        "sim a --device d --blocks 200 --workers 2 --block 2 --heap 1 --memory 372 --until 9 --events 9",
        16,
        13,
    ),
    (
        "sim a --device d --blocks 200 --workers 2 --block 2 --heap 1 --memory 1 --until 9 --events 9",
        25,
        13,
    ),
    // a budget below its fixed part
    (
        "sim a --device d --blocks 200 --workers 2 --block 2 --heap 1 --memory 371 --until 9 --events 9",
        24,
        7,
    ),
];

#[test]
fn an_agenda_that_is_refused_writes_nothing_and_makes_no_block(rt: HostRuntime) {
    let alloc = rt.alloc();
    for (line, zeros, ends) in REFUSED {
        let bytes = vec![in alloc; 0u8; *zeros].expect(&rt, "memory");
        let made = does(&rt, alloc, line, &bytes, *ends, "");
        assert_eq!(rt; made, 0, "{line}");
    }
}

// Events for handlers of each kind and for no place, of which others follow.
const MANY: &[Event] = &[
    (1, 2, 9),
    (1, 11, 8),
    (2, 1, 3),
    (2, 16, 1),
    (2, 0, 18446744073709551615),
    (3, 8, 6),
    (3, 14, 0),
    (4, 0, 2),
    (4, 14, 7),
];

// Their journal up to time 6.
const MANY_JOURNAL: &str =
    "1 2 9 0\n1 11 8 0\n2 0 18446744073709551615 18446744073709551615\n2 1 3 3\n2 3 4 4\n2 12 4 1\n2 16 1 lost\n3 2 2 9\n3 4 4 4\n3 8 6 0\n3 13 4 1\n3 14 0 1\n4 0 2 1\n4 3 1 5\n4 5 3 0\n4 9 3 3\n4 14 7 lost\n5 4 1 1\n5 6 1 1\n5 10 3 3\n6 5 0 3\n6 7 1 1\n6 11 2 8\nend until count 23\n";

#[test]
fn the_journal_is_the_same_for_every_number_of_workers(rt: HostRuntime) {
    let alloc = rt.alloc();
    let bytes = bytes_of(&rt, alloc, MANY);
    for workers in [1, 2, 4, 7] {
        let line = format!(in alloc;
            "sim a --device d --blocks 200 --workers {workers} --block 2 --heap 1 --memory 442 --until 6 --events 1000"
        );
        let line = line.expect(&rt, "memory");
        does(&rt, alloc, line.as_str(), &bytes, 0, MANY_JOURNAL);
    }
}

#[test]
fn an_agenda_above_64_kilobytes_is_simulated(rt: HostRuntime) {
    let alloc = rt.alloc();
    let mut events = Vec::new(alloc);
    let mut journal = "".to_string(alloc).expect(&rt, "memory");
    for time in 0..2_800u64 {
        events.push((time, 0, 1)).expect(&rt, "memory");
        let line = format!(in alloc; "{time} 0 1 {}\n", time.saturating_add(1));
        let line = line.expect(&rt, "memory");
        journal.push_str(line.as_str()).expect(&rt, "memory");
    }
    journal
        .push_str("end empty count 2800\n")
        .expect(&rt, "memory");
    let bytes = bytes_of(&rt, alloc, &events);
    assert!(rt; bytes.len() > 65_536);
    let line =
        "sim a --device d --blocks 400 --workers 2 --block 64 --heap 1 --memory 20000 --until 10000 --events 10000";
    does(&rt, alloc, line, &bytes, 0, journal.as_str());
}

// Asserts how an agenda ends of which reads give only so many bytes: it writes nothing, and all blocks come back.
fn is_cut<H: Host + Abort>(rt: &H, alloc: Global, bytes: &[u8], cut: u64)
where
    H::Dir: Send,
{
    let line = format!(in alloc; "sim a {SIZES} --until 6 --events 1000");
    let line = line.expect(rt, "memory");
    let mut library = MemLibrary::new(alloc);
    library.add(alloc, "a", bytes).expect(rt, "memory");
    library.shrink("a", cut);
    let changed = End::FileChanged {
        line: 0,
        said: bytes.len() as u64,
        got: cut,
    };
    let (mut rack, mut sink) = (MemRack::new(), sink_in(rt, alloc));
    let blocks = ends(
        rt,
        alloc,
        line.as_str(),
        &mut library,
        &mut rack,
        &mut sink,
        changed,
        b"",
    );
    assert_eq!(rt; blocks.len(), 200);
    assert_eq!(rt; library.faults(), 0);
}

#[test]
fn an_agenda_that_is_shrunk_while_it_is_read_has_changed(rt: HostRuntime) {
    let alloc = rt.alloc();
    let bytes = bytes_of(&rt, alloc, MANY);
    assert_eq!(rt; bytes.len(), 216);
    // four events, 96 bytes, are read at once
    for cut in [0, 1, 24, 95, 96, 97, 192, 215] {
        is_cut(&rt, alloc, &bytes, cut);
    }
}
