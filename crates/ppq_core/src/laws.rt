//! Laws over every list of events, each the contract of a call that does nothing and costs nothing. They
//! are for the proof of whoever calls them, and for a reader.
ghost use Rattle.ppq_core.specs.Laws.{HasGiveBetween, DrawsInOrder, DrawsOnce, StoresOnce, StoresItsDraw, TellsSlots, NeighboursTrade, StepsShowTheirHistory};
ghost use Rattle.ppq_core.specs.Parts.{PartsInterleave, PartsAreLegal, PartsGoOn, PassesRenumber};

use ppq_record::Record;

/// A buffer is given back, by the pass that took it, before it is taken again.
#[inline]
pub fn buffer_laws<R: Record>()
    ensures { HasGiveBetween R }
{}

/// Slots are drawn in the order of their numbers, each at most once, and stored at most once, by the
/// pass that drew them. A slot is free, held or stored as these events tell.
#[inline]
pub fn slot_laws<R: Record>()
    ensures in_order { DrawsInOrder R }
    ensures drawn_once { DrawsOnce R }
    ensures stored_once { StoresOnce R }
    ensures stored_after { StoresItsDraw R }
    ensures places { TellsSlots R }
{}

/// Neighbours of different passes may change their order, unless both draw or both are at one buffer.
/// So the schedules of a session differ by the order of the draws and the order at each buffer alone.
#[inline]
pub fn order_laws<R: Record>()
    ensures { NeighboursTrade R }
{}

/// Steps that all returned Ok, from a new state on, end in the places of their history, and each pass
/// has the items that it pushed, in order, and no other.
#[inline]
pub fn step_laws<R: Record>()
    ensures { StepsShowTheirHistory R }
{}

/// One history of a pool and a row. A pool shows a legal history of takes and gives, a row one of
/// draws; pushes and stores go with the draws.
///
/// Such two histories of the same passes make one legal history, in whatever order their events come
/// together, and it ends with the buffers of the one and the slots and items of the other
/// (`together`); each legal history comes apart so (`apart`). Where a [`State`](crate::State) shows
/// the whole, an event by which one part goes on may follow in it, so `State::step` does not refuse
/// it (`go_on`). A pool and a row number their seats each for itself: with other numbers for its
/// passes, or more of them, a legal history stays legal and ends as it did (`renumbered`).
#[inline]
pub fn interleaving_laws<R: Record>()
    ensures together { PartsInterleave R }
    ensures apart { PartsAreLegal R }
    ensures go_on { PartsGoOn R }
    ensures renumbered { PassesRenumber R }
{}
