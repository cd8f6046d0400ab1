//! Sessions of the records of a file.
ghost use Rattle.std.specs.Prelude.{◌≡◌, ◌≤◌, ◌<◌, ◌+◌, ◌*◌, ◌/◌, ◌++◌, [], List, ℕ, Option, Some, None, All, Err, OnOk, OnErr, IfOk, IfErr, length, max};
ghost use Rattle.ppq_session.specs.ppq_record.Bag.{IsSameBag};
ghost use Rattle.ppq_load.specs.Given.{records_of};
ghost use Rattle.ppq_session.specs.ppq_outside.Shown.{AllTell};
ghost use Rattle.ppq_session.specs.ppq_outside.Told.{Remembers, RepliesOnly, bytes_or_none};
ghost use Rattle.ppq_session.specs.ppq_queue.Holding.{Holding, CountsFew, session_begun};
ghost use Rattle.ppq_session.specs.ppq_array.Kept.{AreQuiet};
ghost use Rattle.ppq_session.specs.ppq_array.declared.store_fault.StoreFault.TheVariants.{Device};
ghost use Rattle.ppq_session.specs.Dealing.{IsGoing, AddsPart};
ghost use Rattle.ppq_load.specs.declared.fault.LoadFault.TheVariants.{Queue as ByQueue};
ghost use Rattle.ppq_files.specs.Reading.{IsReadWithin, ReadsFile, CountsBy, HasLength};
ghost use Rattle.ppq_load.specs.Refusal.{Keeps};
ghost use Rattle.ppq_load.specs.Loading.{DealsFile, LoadLeaves, LoadStopsFor, LoadCountsFrom, LoadEndsIn, first_of};

use crate::fault::{LoadFault, loaded};
use crate::piece::Piece;
use ppq_files::{Context, Library, Pieces};
use ppq_record::record_laws;
use ppq_session::{Gate, Host, Queue, QueueFault, Record, Session, Slot};
use std::alloc::Global;

/// Adds the records of a file of `said` bytes in a session. The file is read by pieces of as many records as
/// `room` has place for. Each pass gets an equal part of a piece, whose records its worker makes of their bytes
/// and adds on a thread of its own; so a worker enters the gate once a piece.
///
/// A refusal hands the queue back, with the session ended, and with a part of the records unless a block
/// failed: `Memory`, `Read` and `Ended` as reading says, or `Memory` before the session began; `Queue` where
/// there is no room for the records or a block failed. Whatever is returned, the queue counts a session more
/// at the most, and the records of the file.
pub fn load_file<H: Host, S: Slot + Send + Sync, R: Record + Send + Sync, L: Library, G: Gate>(
    rt: &H,
    alloc: Global,
    library: &mut L,
    name: &str,
    said: u64,
    room: &mut [u8],
    queue: Queue<S, R>,
    gate: &G,
) -> (Queue<S, R>, Result<(), LoadFault>)
where
    H::Dir: Send,
    requires room { R.WIDTH ≤ length room.old }
    requires fits { said ≤ 4294967296 * R.WIDTH }
    requires long { (files : List ℕ → Option (List ℕ)) → L.told library.old ≡ Some files → length (bytes_or_none (files name.now)) ≡ said }
    ensures bag { OnOk result.1 (AllTell queue.slots → (files : List ℕ → Option (List ℕ)) → L.told library.old ≡ Some files → IsSameBag result.0.bag (records_of R.record_of R.WIDTH (bytes_or_none (files name.now)) ++ queue.bag)) }
    ensures size { OnOk result.1 (result.0.size ≡ queue.size + said / R.WIDTH) }
    ensures sound { OnOk result.1 (result.0.failed ≡ None) }
    ensures quiet { OnOk result.1 (AreQuiet queue.slots result.0.slots) }
    ensures part { OnErr result.1 (result.0.failed ≡ None → AllTell queue.slots → (files : List ℕ → Option (List ℕ)) → L.told library.old ≡ Some files → AddsPart (records_of R.record_of R.WIDTH (bytes_or_none (files name.now))) queue.bag result.0.bag) }
    ensures peak { OnOk result.1 (result.0.peak ≡ max queue.peak (queue.size + said / R.WIDTH)) }
    ensures refused { IfErr result.1 (LoadStopsFor (max queue.peak (queue.size + said / R.WIDTH)) queue.sizes queue.limited result.0.slots) }
    ensures ended { IfErr result.1 (LoadEndsIn (L.told library.old) (L.replied library.new) name.now said) }
    ensures left { IfErr result.1 (LoadLeaves queue result.0 (said / R.WIDTH)) }
    ensures latched { (number : ℕ) → queue.failed ≡ Some number → result ≡ (session_begun queue, Err (ByQueue (Device number))) }
    ensures kept { Keeps queue result.0 }
    ensures counted { CountsFew (said / R.WIDTH) 1 queue result.0 result.1 }
    ensures remembers { Remembers (L.replied library.old) (L.replied library.new) }
    ensures asks { RepliesOnly (L.replied library.old) (L.replied library.new) (IsReadWithin name.now said) }
    ensures told { L.told library.new ≡ L.told library.old }
    ensures later { L.faults library.old ≤ L.faults library.new }
    ensures stays { OnOk result.1 (L.faults library.new ≡ L.faults library.old) }
    ensures cause { IfErr result.1 (LoadCountsFrom (L.faults library.old) (L.faults library.new)) }
{
    queue.known();
    match Session::begin(rt, alloc, queue, gate) {
        Ok(mut session) => {
            let context = Context { rt, alloc };
            let mut pieces = Pieces::new(name, said);
            let read = deal_file(&context, library, &mut pieces, room, &mut session, gate);
            let (queue, ended) = session.end(rt, gate);
            (queue, first_fault(read, ended))
        }
        Err((queue, fault)) => (queue, Err(LoadFault::from(fault))),
    }
}

// A fault of reading stays the fault, whatever the end of the session says.
fn first_fault(read: Result<(), LoadFault>, ended: Result<(), QueueFault>) -> Result<(), LoadFault>
    ensures { result ≡ first_of read ended }
{
    read?;
    loaded(ended)
}

// Reads a file piece by piece and deals its records to the passes of a session, until one stops.
fn deal_file<H: Host, S: Slot + Send + Sync, R: Record + Send + Sync, L: Library, G: Gate>(
    context: &Context<H>,
    library: &mut L,
    pieces: &mut Pieces<'_>,
    room: &mut [u8],
    session: &mut Session<S, R>,
    gate: &G,
) -> Result<(), LoadFault>
where
    H::Dir: Send,
    requires going { All IsGoing session.old.passes }
    requires room { R.WIDTH ≤ length room.old }
    requires unread { pieces.old.from ≡ 0 }
    requires fits { pieces.old.said ≤ 4294967296 * R.WIDTH }
    requires long { HasLength (L.told library.old) pieces.old.name pieces.old.said }
    ensures deals { DealsFile R.record_of R.WIDTH S.shown (L.told library.old) (L.replied library.new) pieces.old.name pieces.old.said session.old session.new result }
    ensures reads { ReadsFile L.told L.replied pieces.old.name pieces.old.said library.old library.new }
    ensures counts { CountsBy LoadCountsFrom (L.faults library.old) (L.faults library.new) result }
{
    record_laws::<R>();
    'pieces: while !pieces.is_over::<R>() {
        match pieces.next::<R, H, L>(context, library, room) {
            Ok(bytes) => {
                if !session.deal(context.rt, &Piece::new(&room[..bytes]), gate) {
                    return Ok(());
                }
            }
            Err(fault) => return Err(LoadFault::from(fault)),
        }
    }
    Ok(())
}
