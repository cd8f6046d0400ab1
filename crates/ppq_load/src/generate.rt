//! Sessions of generated records.
ghost use Rattle.std.specs.Prelude.{◌≡◌, ◌≤◌, ◌+◌, ◌*◌, ◌%◌, ◌<◌, ◌^◌, [], All, ◌++◌, OnOk, OnErr, IfErr, max, ℕ, Some, None, Err};
ghost use Rattle.ppq_session.specs.ppq_record.Bag.{IsSameBag};
ghost use Rattle.ppq_session.specs.ppq_outside.Shown.{AllTell};
ghost use Rattle.ppq_session.specs.ppq_array.Kept.{AreQuiet};
ghost use Rattle.ppq_session.specs.ppq_queue.Holding.{CountsFew, session_begun};
ghost use Rattle.ppq_session.specs.ppq_array.declared.store_fault.StoreFault.TheVariants.{Device};
ghost use Rattle.ppq_session.specs.Dealing.{AddsPart};
ghost use Rattle.ppq_load.specs.declared.fault.LoadFault.TheVariants.{Queue as ByQueue};
ghost use Rattle.ppq_load.specs.Given.{generated_by};
ghost use Rattle.ppq_load.specs.Refusal.{Keeps};
ghost use Rattle.ppq_load.specs.Loading.{IsByLoad, LoadLeaves, LoadStopsFor};

use crate::fault::{LoadFault, loaded};
use crate::generator::Generator;
use ppq_record::Fields;
use ppq_session::{Gate, Host, Queue, Session, Slot};
use std::alloc::Global;

/// Adds so many generated records in a session: each pass gets an equal part of them, which its worker makes on
/// a thread of its own.
///
/// The fields of a record are the generator's number, how many records of the seed come before it, the seed,
/// and zeros, as many as it has.
///
/// A refusal hands the queue back, with a part of the records unless a block failed: `Memory` before the
/// session began, `Queue` where there is no room for the records or a block failed. Whatever is returned, the
/// queue counts a session more at the most, and these records.
pub fn load_generated<H: Host, S: Slot + Send + Sync, R: Fields + Send + Sync, G: Gate>(
    rt: &H,
    alloc: Global,
    queue: Queue<S, R>,
    seed: u64,
    count: u64,
    gate: &G,
) -> (Queue<S, R>, Result<(), LoadFault>)
where
    H::Dir: Send,
    ensures bag { OnOk result.1 (AllTell queue.slots → IsSameBag result.0.bag (generated_by R.COUNT R.of_fields seed count ++ queue.bag)) }
    ensures size { OnOk result.1 (result.0.size ≡ queue.size + count) }
    ensures sound { OnOk result.1 (result.0.failed ≡ None) }
    ensures quiet { OnOk result.1 (AreQuiet queue.slots result.0.slots) }
    ensures part { OnErr result.1 (result.0.failed ≡ None → AllTell queue.slots → AddsPart (generated_by R.COUNT R.of_fields seed count) queue.bag result.0.bag) }
    ensures peak { OnOk result.1 (result.0.peak ≡ max queue.peak (queue.size + count)) }
    ensures refused { IfErr result.1 (LoadStopsFor (max queue.peak (queue.size + count)) queue.sizes queue.limited result.0.slots) }
    ensures by_load { IfErr result.1 IsByLoad }
    ensures left { IfErr result.1 (LoadLeaves queue result.0 count) }
    ensures latched { (number : ℕ) → queue.failed ≡ Some number → result ≡ (session_begun queue, Err (ByQueue (Device number))) }
    ensures kept { Keeps queue result.0 }
    ensures counted { CountsFew count 1 queue result.0 result.1 }
{
    queue.known();
    match Session::begin(rt, alloc, queue, gate) {
        Ok(mut session) => {
            let _all = session.deal(rt, &Generator::new(seed, count), gate);
            let (queue, ended) = session.end(rt, gate);
            (queue, loaded(ended))
        }
        Err((queue, fault)) => (queue, Err(LoadFault::from(fault))),
    }
}
