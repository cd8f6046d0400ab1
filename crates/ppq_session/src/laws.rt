//! The laws of a session's events.
ghost use Rattle.ppq_session.specs.OneHistory.{StatesShowOne, PlaysAreSteps, EachStepShowsOne, AllStepsShowOne};
ghost use Rattle.ppq_session.specs.Pushes.{PushesStandAnywhere, NothingIsPushed, GivenArePushed, PushedAreAdded};
ghost use Rattle.ppq_session.specs.Stored.{StoresStandAnywhere, RunsAreStored};
ghost use Rattle.ppq_pass.specs.declared.shared.PoolBuf.{PoolBuf};
ghost use Rattle.ppq_pass.specs.ppq_array.declared.berth.DeviceBlock.{DeviceBlock};

use ppq_pass::{
    Record, Slot, buffer_steps_are_events, interleaving_laws, slot_laws, slot_steps_are_events,
};

/// One history of a pool of buffers and a row of slots, whose seats are of the passes of a session.
///
/// While their rules hold and no two seats of the pool were joined, they show one legal history
/// together (`shown`). A buffer is free where its word is 0, and held by the pass of the seat that
/// lists it. A slot is free where the counter is at most its number; else the pass of the seat that
/// lists it holds it, or has stored it. Each step of any seat that is no join adds one event of the
/// seat's pass to this history, or none: a `Take` where a buffer was claimed, a `Give` where one was
/// put back, a `Draw` where a slot was drawn. A pass may always push, and may store a slot that it
/// holds (`step`). What the tables tell of each play at a word makes it such a step (`plays`). So pool
/// and row show one legal history after any steps of any threads (`steps`).
///
/// It does nothing: its clauses are for the proof of whoever calls it, and for a reader.
#[inline]
pub fn sessions_are_histories<B, S, R: Record>()
    ensures shown { StatesShowOne B S R }
    ensures plays { PlaysAreSteps B S R }
    ensures step { EachStepShowsOne B S R }
    ensures steps { AllStepsShowOne B S R }
{
    slot_laws::<R>();
    interleaving_laws::<R>();
    buffer_steps_are_events::<B, R>();
    slot_steps_are_events::<S, R>();
}

/// In that history each pass pushes just what it accepted, in its order.
///
/// In a session's beginning the passes have pushed nothing (`none`). Records are given to them by
/// [`deal`](crate::deal) and [`push_lines`](crate::push_lines), as often as there are some, while the seats
/// take any steps. Whatever legal history pool and row show after that, there is one with the same takes,
/// gives, draws and stores, in their order, that goes on with the pushes so far: each pass has pushed
/// besides, in their order, those of its records that it accepted (`given`). So each pass has pushed as
/// many records as it accepted, and what it holds is what it began with and these; and all passes hold
/// together what they began with and all that was pushed (`added`).
///
/// Where pushes stand between other events is not told: they may stand anywhere (`anywhere`).
///
/// It does nothing: its clauses are for the proof of whoever calls it, and for a reader.
#[inline]
pub fn accepted_are_pushed<S: Slot, R: Record>()
    ensures none { NothingIsPushed S R S.shown }
    ensures given { GivenArePushed S R S.shown }
    ensures added { PushedAreAdded S R S.shown }
    ensures anywhere { PushesStandAnywhere (PoolBuf R) (DeviceBlock S R) R }
{}

/// In that history each pass stores just the slots of its runs in blocks.
///
/// A pass draws slots by its seat of the row, and holds those that it drew: in its runs in blocks, or in its
/// stash (`slots` of `IsKnown`, which each call of a pass keeps). Whatever legal history pool and row show,
/// there is one with the same takes, gives, draws and pushes, in their order, in which the slots that a pass
/// stored are those of its runs, each as often, told by their numbers (`stored`). Of the history of
/// [`accepted_are_pushed`] it makes one that has both, the pushes and the stores.
///
/// Where stores stand behind their draws is not told: they may stand anywhere there (`anywhere`).
///
/// It does nothing: its clauses are for the proof of whoever calls it, and for a reader.
#[inline]
pub fn runs_are_stored<S: Slot, R: Record>()
    ensures stored { RunsAreStored S R S.shown }
    ensures anywhere { StoresStandAnywhere (PoolBuf R) (DeviceBlock S R) R }
{}
