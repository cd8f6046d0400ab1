//! The rule of a simulation, written a second time: a list that is searched for its least event, and a number for
//! each place.
use itoa::Buffer;
use ppq_record::Triple;
use std::alloc::{AllocError, Global};

// The places, and what waits.
#[derive(Drop)]
pub(crate) struct Model {
    // What waits, in any order.
    agenda: Vec<Triple>,
    // What each place keeps; none where its handler retired.
    kept: [Option<u64>; 16],
    // The journal.
    text: Vec<u8>,
}

impl Model {
    pub(crate) fn new(alloc: Global, events: &[Triple]) -> Result<Model, AllocError> {
        let mut agenda = Vec::new(alloc);
        agenda.extend_from_slice(events)?;
        Ok(Model {
            agenda,
            kept: [Some(0); 16],
            text: Vec::new(alloc),
        })
    }

    // The journal.
    pub(crate) fn text(&self) -> &[u8] {
        &self.text
    }

    // Runs until nothing waits, an event is too late, or so many were handled.
    pub(crate) fn run(&mut self, until: u64, most: u64) -> Result<(), AllocError> {
        for count in 0..most {
            let Some(event) = self.next() else {
                return self.end(b"end empty count ", count);
            };
            if event.time > until {
                return self.end(b"end until count ", count);
            }
            self.handle(event)?;
        }
        match self.next() {
            None => self.end(b"end empty count ", most),
            Some(event) if event.time > until => self.end(b"end until count ", most),
            Some(_) => self.end(b"end full count ", most),
        }
    }

    // Takes the least event out.
    fn next(&mut self) -> Option<Triple> {
        let mut least = *self.agenda.first()?;
        let mut at = 0;
        for i in 0..self.agenda.len() {
            let event = self.agenda[i];
            if event < least {
                least = event;
                at = i;
            }
        }
        if at < self.agenda.len() {
            let _taken = self.agenda.swap_remove(at);
        }
        Some(least)
    }

    // Answers an event, and adds its line.
    fn handle(&mut self, event: Triple) -> Result<(), AllocError> {
        self.number(event.time, b" ")?;
        self.number(event.target, b" ")?;
        self.number(event.word, b" ")?;
        let place = event.target.min(16) as usize;
        let Some(kept) = self.kept.get(place).copied().flatten() else {
            return self.text.extend_from_slice(b"lost\n");
        };
        let (reply, next) = match place {
            12.. => (
                kept.wrapping_add(1),
                Some(kept.wrapping_add(1)).filter(|_| event.word > 0),
            ),
            0 | 3 | 6 | 9 => (
                kept.wrapping_add(event.word),
                Some(kept.wrapping_add(event.word)),
            ),
            1 | 4 | 7 | 10 => (event.word, Some(kept.wrapping_add(1))),
            _ => (kept, Some(event.word)),
        };
        if let Some(slot) = self.kept.get_mut(place) {
            *slot = next;
        }
        if place < 12 && place % 3 == 1 && event.word > 0 {
            self.add(event, 1, event.word - 1)?;
        }
        if place < 12 && place % 3 == 2 && event.word > 1 {
            self.add(event, 1, event.word / 2)?;
            self.add(event, 2, event.word / 2)?;
        }
        self.number(reply, b"\n")
    }

    // Adds an event that follows by so many ticks and places, unless that is too late.
    fn add(&mut self, event: Triple, by: u64, word: u64) -> Result<(), AllocError> {
        let Some(time) = event.time.checked_add(by) else {
            return Ok(());
        };
        let target = (event.target % 16).wrapping_add(by) % 16;
        self.agenda.push(Triple { time, target, word })?;
        Ok(())
    }

    // Adds a number to the journal, and a text behind it.
    fn number(&mut self, number: u64, behind: &[u8]) -> Result<(), AllocError> {
        let mut digits = Buffer::new();
        self.text
            .extend_from_slice(digits.format(number).as_bytes())?;
        self.text.extend_from_slice(behind)
    }

    // Adds the last line.
    fn end(&mut self, text: &[u8], count: u64) -> Result<(), AllocError> {
        self.text.extend_from_slice(text)?;
        self.number(count, b"\n")
    }
}
