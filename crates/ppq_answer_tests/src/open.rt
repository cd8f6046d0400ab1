//! Answers while the input stays open: each is put before more is read than its request.

use crate::list::{Case, tight};
use ppq_answer::{End, Incoming, Outcome, Source, serve};
use ppq_outside::{Failed, Host, MemRack, MemSlot, OpenGate, Sink};
use ppq_record::Pair;
use ppq_testkit::{blocks_of, pair};
use std::sync::atomic::{AtomicU64, Ordering};
use std::test::Fail;

// A sink that counts the bytes that it took.
#[derive(Drop)]
struct CountingSink<'a> {
    took: &'a AtomicU64,
}

impl<'a> Sink for CountingSink<'a> {
    ghost use Rattle.std.specs.Prelude.{None};

    ghost told = { λ _. None };

    ghost faults = { λ _. 0 };

    fn faults(&self) -> u64 {
        0
    }

    fn put<H: Host>(&mut self, _rt: &H, bytes: &[u8]) -> Result<(), Failed> {
        self.took.fetch_add(bytes.len() as u64, Ordering::SeqCst);
        Ok(())
    }
}

// A client that writes a request only after it has read all answers to those in front of it: a source that gives one
// frame a call, and looks at each call at how much its sink took.
#[derive(Drop)]
struct Client<'a> {
    input: &'a [u8],
    // Where each request begins, and how many bytes are answered in front of it.
    ends: &'a [(usize, usize)],
    // How many calls were made, and how many of them came before all answers.
    calls: usize,
    early: usize,
    took: &'a AtomicU64,
}

impl<'a> Client<'a> {
    // The bytes of the next frame; none at the end.
    fn next(&self) -> &'a [u8] {
        let (Some(from), Some(to)) = (
            self.ends.get(self.calls),
            self.ends.get(self.calls.saturating_add(1)),
        ) else {
            return b"";
        };
        self.input.get(from.0..to.0).unwrap_or(b"")
    }

    // Notes a call, and whether it came before all answers to what was given.
    fn look(&mut self) {
        let took = self.took.load(Ordering::SeqCst);
        let wants = self.ends.get(self.calls).or(self.ends.last());
        if wants.map(|end| end.1 as u64) != Some(took) {
            self.early = self.early.saturating_add(1);
        }
        self.calls = self.calls.saturating_add(1);
    }
}

impl<'a> Source for Client<'a> {
    ghost use Rattle.std.specs.Prelude.{None, ⊤};

    ghost told = { λ _. None };

    ghost gave = { λ _ _. ⊤ };

    ghost over = { λ _. ⊤ };

    ghost faults = { λ _. 0 };

    fn faults(&self) -> u64 {
        0
    }

    fn get<H: Host>(&mut self, _rt: &H, into: &mut [u8]) -> Result<usize, Failed> {
        let bytes = self.next();
        self.look();
        let count = bytes.len().min(into.len());
        into[..count].copy_from_slice(&bytes[..count]);
        Ok(count)
    }

    ghost truth = { λ _ _. tt };
}

// Requests of each operation, that a client writes one by one.
fn requests(case: &mut Case) -> Result<(), Fail> {
    for key in 0..12 {
        case.push(pair(100 - key))?;
        case.send()?;
        case.top()?;
        case.send()?;
        case.send()?;
    }
    case.bulk_pop_limit(pair(95), 9)?;
    case.send()?;
    case.bulk_pop(20)?;
    case.send()?;
    case.pop()?;
    case.send()
}

#[test]
fn each_answer_is_put_before_more_is_read(rt: HostRuntime) -> Result<(), Fail> {
    let alloc = rt.alloc();
    let mut case = Case::new(alloc)?;
    requests(&mut case)?;
    let took = AtomicU64::new(0);
    let mut client = Client {
        input: &case.input,
        ends: &case.ends,
        calls: 0,
        early: 0,
        took: &took,
    };
    let mut sink = CountingSink { took: &took };
    let sizes = tight(1, 4, case.load).expect(&rt, "a number is out of range");
    let slots = blocks_of::<HostRuntime, Pair>(&rt, alloc, &mut MemRack::new(), sizes)?;
    let mut incoming = Incoming::new(alloc).expect(&rt, "no memory");
    let answered = serve::<HostRuntime, MemSlot, Pair, Client, CountingSink, OpenGate>(
        &rt,
        alloc,
        sizes,
        slots,
        &mut incoming,
        &mut client,
        &mut sink,
        &OpenGate,
    );
    assert!(rt; answered.outcome == Outcome::Ended { end: End::Done });
    // a call for each request, and one that finds the end
    assert_eq!(&rt; client.calls, case.ends.len());
    assert_eq!(&rt; client.early, 0);
    assert!(rt; took.load(Ordering::SeqCst) == case.output.len() as u64);
    Ok(())
}
