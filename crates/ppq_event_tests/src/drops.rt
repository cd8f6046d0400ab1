//! A handler that retires is dropped once.
ghost use Rattle.ppq_event.specs.ppq_handler.Handling.{standing};
ghost use Rattle.ppq_event.specs.ppq_handler.declared.kind.Kind.TheVariants.{Mortal};

use crate::desk::{Job, Roster, run_job, small};
use ppq_event::{Handler, Kind, Outcome};
use ppq_outside::{MemRack, MemSink, OpenGate};
use ppq_testkit::triple;
use std::process::Abort;
use std::sync::Arc;
use std::sync::atomic::{AtomicU64, Ordering};
use std::test::Fail;

// Retires at a word of 0, and counts its drops.
struct Counted {
    kept: u64,
    drops: Arc<AtomicU64>,
}

impl Drop for Counted {
    fn drop(self) {
        let Counted { kept: _, drops } = self;
        drops.fetch_add(1, Ordering::SeqCst);
    }
}

impl Handler for Counted {
    ghost stands = { λ h. standing Mortal h.kept };

    fn kind(&self) -> Kind {
        Kind::Mortal
    }

    fn kept(&self) -> u64 {
        self.kept
    }

    fn handle(&mut self, _now: u64, _me: u64, _peers: u64, word: u64) -> Outcome {
        self.kept = self.kept.wrapping_add(1);
        Outcome {
            reply: self.kept,
            first: None,
            second: None,
            retire: word == 0,
        }
    }
}

#[test]
fn a_handler_that_retires_is_dropped_once(rt: HostRuntime) -> Result<(), Fail> {
    let alloc = rt.alloc();
    let drops = Arc::new(alloc, AtomicU64::new(0))?;
    let counted = Counted {
        kept: 0,
        drops: Arc::try_clone(&drops)?,
    };
    let boxed: Box<dyn Handler + Send> = Box::new(alloc, counted)?;
    let mut roster: Roster = Vec::new(alloc);
    roster.push(Some(boxed))?;
    let job = Job {
        sizes: small(),
        events: &[triple(1, 0, 5), triple(2, 0, 0), triple(3, 0, 1)],
        until: 100,
        most: 100,
    };
    let mut out = MemSink::new(alloc, 4096)?;
    let ended = run_job(
        &rt,
        alloc,
        job,
        &mut roster,
        &mut MemRack::new(),
        &mut out,
        &OpenGate,
    )?;
    assert!(rt; ended.is_ok());
    assert_eq!(rt;
        out.bytes(),
        b"1 0 5 1\n2 0 0 2\n3 0 1 lost\nend empty count 3\n".as_slice()
    );
    assert_eq!(rt; drops.load(Ordering::SeqCst), 1);
    drop(roster);
    assert_eq!(rt; drops.load(Ordering::SeqCst), 1);
    Ok(())
}
