//! The table of places.
ghost use Rattle.std.specs.Prelude.{◌≡◌, ◌≢◌, ◌<◌, ◌↔◌, ◌∷◌, true, false, List, [], length, replicate, slice_index_or, Ok, Err, IfOk, IfErr};
ghost use Rattle.ppq_core.specs.declared.event.Event.{Event};
ghost use Rattle.ppq_core.specs.declared.event.Event.TheVariants.{Take, Give, Draw, Push, Store};
ghost use Rattle.ppq_core.specs.declared.place.Place.TheVariants.{Free};
ghost use Rattle.ppq_core.specs.History.{buffer_at, slot_at, pushed_by, IsPush};
ghost use Rattle.ppq_core.specs.Shown.{Shows, MayFollow, Adds, IsSameSize, IsStep};

use crate::pushed::Pushed;
use crate::{Event, Place, StepFault};
use ppq_record::{Memory, Record};
use std::alloc::Global;
use std::marker::Model;

/// The places of all buffers and slots after a history, and what each pass pushed.
///
/// Contracts see a `Table`. It has no history: its clauses say which histories a table shows, for
/// every list of events. A state takes the bytes of a place for each buffer and slot, and the
/// items.
#[derive(Debug, Drop)]
pub struct State<R> {
    // The place of each buffer.
    buffers: Vec<Place>,
    // The place of each slot.
    slots: Vec<Place>,
    // What each pass pushed.
    pushed: Vec<Pushed<R>>,
    // How many slots were drawn: those with the numbers below.
    drawn: u32,
}

impl<R> Model for State<R> {
    ghost use Rattle.std.specs.Prelude.{◌<◌, length};
    ghost use Rattle.ppq_core.specs.Shown.{Table};

    ghost Value = { Table R };

    ghost view = { λ s. record { buffers = s.buffers.items; slots = s.slots.items; pushed = s.pushed.items; drawn = s.drawn } };

    ghost invariant = { λ s. length s.slots.items < 4294967296 };
}

// So many free places.
fn all_free(alloc: Global, count: u32) -> Result<Vec<Place>, Memory>
    ensures { IfOk result (λ v. v.items ≡ replicate count Free) }
{
    let mut places = Vec::new(alloc);
    places.resize(count as usize, Place::Free)?;
    Ok(places)
}

// So many empty lists of items.
fn nothing_pushed<R: Copy>(alloc: Global, passes: u32) -> Result<Vec<Pushed<R>>, Memory>
    ensures { IfOk result (λ v. v.items ≡ replicate passes []) }
{
    let mut pushed = Vec::with_capacity(alloc, passes as usize)?;
    for _ in 0..passes {
        pushed.push(Pushed::new(alloc))?;
    }
    Ok(pushed)
}

impl<R: Record> State<R> {
    /// A state in which every buffer and slot is free and no pass has pushed anything. It allocates
    /// a place for each buffer and slot and a list for each pass, and returns `Memory` if an
    /// allocation fails.
    pub fn new(alloc: Global, buffers: u32, slots: u32, passes: u32) -> Result<State<R>, Memory>
        ensures fresh { IfOk result (λ s. Shows s []) }
        ensures buffers { IfOk result (λ s. length s.buffers ≡ buffers) }
        ensures slots { IfOk result (λ s. length s.slots ≡ slots) }
        ensures passes { IfOk result (λ s. length s.pushed ≡ passes) }
    {
        Ok(State {
            buffers: all_free(alloc, buffers)?,
            slots: all_free(alloc, slots)?,
            pushed: nothing_pushed(alloc, passes)?,
            drawn: 0,
        })
    }

    /// Takes in one event, at constant cost (amortized, for a push). `Illegal` comes if and only if
    /// the event is not legal after the history that the state shows. Only a push allocates, from
    /// the allocator that the state was made with, so only a push can answer `Memory`. After either
    /// refusal the state is unchanged.
    pub fn step(&mut self, e: &Event<R>) -> Result<(), StepFault>
        ensures ok { IfOk result (λ _. Adds self.old e.now self.new) }
        ensures illegal { (h : List (Event R)) → Shows self.old h → (result ≡ Err StepFault.Illegal) ↔ ¬ (MayFollow self.old e.now h) }
        ensures memory { result ≡ Err StepFault.Memory → IsPush e.now }
        ensures unchanged { IfErr result (λ _. self.new ≡ self.old) }
        ensures size { IsSameSize self.old self.new }
    {
        let (Event::Take { pass, .. }
        | Event::Give { pass, .. }
        | Event::Draw { pass, .. }
        | Event::Push { pass, .. }
        | Event::Store { pass, .. }) = *e;
        if pass as usize >= self.pushed.len() {
            return Err(StepFault::Illegal);
        }
        let done = match *e {
            Event::Take { pass, buffer } => self.take(pass, buffer),
            Event::Give { pass, buffer } => self.give(pass, buffer),
            Event::Draw { pass, slot } => self.draw(pass, slot),
            Event::Store { pass, slot } => self.store(pass, slot),
            Event::Push { pass, item } => return self.push(pass, item),
        };
        if done {
            Ok(())
        } else {
            Err(StepFault::Illegal)
        }
    }

    /// The place of a buffer.
    #[inline]
    pub fn buffer(&self, i: u32) -> Place
        requires { i < length self.now.buffers }
        ensures place { result ≡ slice_index_or self.now.buffers i Free }
        ensures shown { (h : List (Event R)) → Shows self.now h → result ≡ buffer_at i h }
    {
        self.buffers[i as usize]
    }

    /// The place of a slot.
    #[inline]
    pub fn slot(&self, i: u32) -> Place
        requires { i < length self.now.slots }
        ensures place { result ≡ slice_index_or self.now.slots i Free }
        ensures shown { (h : List (Event R)) → Shows self.now h → result ≡ slot_at i h }
    {
        self.slots[i as usize]
    }

    /// The items that a pass pushed, in order.
    #[inline]
    pub fn pushed(&self, pass: u32) -> &[R]
        requires { pass < length self.now.pushed }
        ensures items { result.now ≡ slice_index_or self.now.pushed pass [] }
        ensures shown { (h : List (Event R)) → Shows self.now h → result.now ≡ pushed_by pass h }
    {
        self.pushed[pass as usize].as_slice()
    }

    fn take(&mut self, pass: u32, buffer: u32) -> bool
        requires { pass < length self.old.pushed }
        ensures { IsStep self.old (Take pass buffer) result self.new }
    {
        let place = buffer as usize;
        if place >= self.buffers.len() || self.buffers[place] != Place::Free {
            return false;
        }
        self.buffers[place] = Place::Held { pass };
        true
    }

    fn give(&mut self, pass: u32, buffer: u32) -> bool
        requires { pass < length self.old.pushed }
        ensures { IsStep self.old (Give pass buffer) result self.new }
    {
        let place = buffer as usize;
        if place >= self.buffers.len() || self.buffers[place] != (Place::Held { pass }) {
            return false;
        }
        self.buffers[place] = Place::Free;
        true
    }

    fn draw(&mut self, pass: u32, slot: u32) -> bool
        requires { pass < length self.old.pushed }
        ensures { IsStep self.old (Draw pass slot) result self.new }
    {
        let place = slot as usize;
        if slot != self.drawn || place >= self.slots.len() {
            return false;
        }
        self.slots[place] = Place::Held { pass };
        self.drawn += 1;
        true
    }

    fn store(&mut self, pass: u32, slot: u32) -> bool
        requires { pass < length self.old.pushed }
        ensures { IsStep self.old (Store pass slot) result self.new }
    {
        let place = slot as usize;
        if place >= self.slots.len() || self.slots[place] != (Place::Held { pass }) {
            return false;
        }
        self.slots[place] = Place::Stored { pass };
        true
    }

    fn push(&mut self, pass: u32, item: R) -> Result<(), StepFault>
        requires { pass < length self.old.pushed }
        ensures ok { IfOk result (λ _. Adds self.old (Push pass item) self.new) }
        ensures memory { result ≢ Err StepFault.Illegal }
        ensures unchanged { IfErr result (λ _. self.new ≡ self.old) }
        ensures size { IsSameSize self.old self.new }
    {
        if self.pushed[pass as usize].push(item).is_err() {
            return Err(StepFault::Memory);
        }
        Ok(())
    }
}
