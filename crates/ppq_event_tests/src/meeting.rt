//! Two handlers of one round work beside each other.
ghost use Rattle.ppq_event.specs.ppq_handler.Handling.{standing};
ghost use Rattle.ppq_event.specs.ppq_handler.declared.kind.Kind.TheVariants.{Count};

use crate::desk::{Job, Roster, run_job, small};
use ppq_event::{Handler, Kind, Outcome};
use ppq_outside::{MemRack, MemSink, OpenGate};
use ppq_testkit::triple;
use std::alloc::{AllocError, Global};
use std::process::Abort;
use std::sync::Arc;
use std::sync::atomic::{AtomicU64, Ordering};
use std::test::Fail;

// Counts, once another one has begun too; it waits for at most 200,000,000 turns.
#[derive(Drop)]
struct Meeting {
    kept: u64,
    // How many have begun, and how many waited in vain.
    begun: Arc<AtomicU64>,
    late: Arc<AtomicU64>,
}

impl Meeting {
    // Waits until two have begun.
    fn meet(&self) {
        self.begun.fetch_add(1, Ordering::SeqCst);
        for _turn in 0..200_000_000u64 {
            if self.begun.load(Ordering::SeqCst) >= 2 {
                return;
            }
        }
        self.late.fetch_add(1, Ordering::SeqCst);
    }
}

impl Handler for Meeting {
    ghost stands = { λ h. standing Count h.kept };

    fn kind(&self) -> Kind {
        Kind::Count
    }

    fn kept(&self) -> u64 {
        self.kept
    }

    fn handle(&mut self, _now: u64, _me: u64, _peers: u64, word: u64) -> Outcome {
        self.meet();
        self.kept = self.kept.wrapping_add(word);
        Outcome {
            reply: self.kept,
            first: None,
            second: None,
            retire: false,
        }
    }
}

// Sixteen places, at the first and the last of which handlers are to meet.
fn meeting_roster(
    alloc: Global,
    begun: &Arc<AtomicU64>,
    late: &Arc<AtomicU64>,
) -> Result<Roster, AllocError> {
    let mut roster: Roster = Vec::new(alloc);
    for i in 0..16u64 {
        let place: Option<Box<dyn Handler + Send>> = if i == 0 || i == 15 {
            let meeting = Meeting {
                kept: 0,
                begun: Arc::try_clone(begun)?,
                late: Arc::try_clone(late)?,
            };
            Some(Box::new(alloc, meeting)?)
        } else {
            None
        };
        roster.push(place)?;
    }
    Ok(roster)
}

#[test]
fn two_handlers_of_one_round_wait_for_each_other(rt: HostRuntime) -> Result<(), Fail> {
    let alloc = rt.alloc();
    let begun = Arc::new(alloc, AtomicU64::new(0))?;
    let late = Arc::new(alloc, AtomicU64::new(0))?;
    let mut roster = meeting_roster(alloc, &begun, &late)?;
    let job = Job {
        sizes: small(),
        events: &[triple(1, 0, 1), triple(1, 15, 1)],
        until: 100,
        most: 100,
    };
    let mut out = MemSink::new(alloc, 4096)?;
    let ended = run_job(
        &rt,
        alloc,
        job,
        &mut roster,
        &mut MemRack::new(),
        &mut out,
        &OpenGate,
    )?;
    assert!(rt; ended.is_ok());
    assert_eq!(rt;
        out.bytes(),
        b"1 0 1 1\n1 15 1 1\nend empty count 2\n".as_slice()
    );
    assert_eq!(rt; begun.load(Ordering::SeqCst), 2);
    assert_eq!(rt; late.load(Ordering::SeqCst), 0);
    Ok(())
}
