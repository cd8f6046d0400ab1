//! A sink in memory.
ghost use Rattle.std.specs.Prelude.{◌≡◌, [], Some, None, IfOk, is_ok};
ghost use Rattle.ppq_outside.specs.MemorySink.{at_most, limit_from};

use crate::{Failed, Host, Memory, Sink};
use std::alloc::Global;
use std::marker::Model;

/// A sink that keeps what it took in memory. It tells.
///
/// Its memory is taken when it is made, so that no put takes any. A put fails where that was
/// planned, or where its piece is longer than the room that is left; no other put fails.
#[derive(Drop)]
pub struct MemSink {
    // What it took.
    bytes: Vec<u8>,
    // How many bytes fit in all.
    room: usize,
    // The puts that are to fail, numbered from 1, each with how many bytes it may take.
    plan: Vec<(u64, usize)>,
    // How many puts were made.
    puts: u64,
    // How many of them failed.
    faults: u64,
}

impl Model for MemSink {
    ghost use Rattle.std.specs.Prelude.{◌≤◌, vec_len, vec_capacity};
    ghost use Rattle.ppq_outside.specs.MemorySink.{SinkState};

    ghost Value = { SinkState };

    ghost view = { λ s. record { taken = s.bytes.items; room = s.room; plan = s.plan.items; puts = s.puts; faults = s.faults } };

    ghost invariant = { λ s. (vec_len s.bytes ≤ s.room) × (s.room ≤ vec_capacity s.bytes) };
}

impl MemSink {
    ghost use Rattle.ppq_outside.specs.MemorySink.{fresh_sink};

    /// An empty sink with room for so many bytes, of which no put is planned to fail.
    pub fn new(alloc: Global, room: usize) -> Result<MemSink, Memory>
        ensures { IfOk result (λ sink. sink ≡ fresh_sink room []) }
    {
        MemSink::failing(alloc, room, Vec::new(alloc))
    }

    /// An empty sink with room for so many bytes. For each pair of `puts`, the put with that number,
    /// from 1, takes at most so many bytes of its piece and fails.
    pub fn failing(alloc: Global, room: usize, puts: Vec<(u64, usize)>) -> Result<MemSink, Memory>
        ensures { IfOk result (λ sink. sink ≡ fresh_sink room puts.items) }
    {
        Ok(MemSink {
            bytes: Vec::with_capacity(alloc, room)?,
            room,
            plan: puts,
            puts: 0,
            faults: 0,
        })
    }

    /// All bytes that it took.
    #[inline]
    pub fn bytes(&self) -> &[u8]
        ensures { result.now ≡ self.now.taken }
    {
        &self.bytes
    }
}

// How many bytes a put may take by a plan, and `None` where it is not planned to fail.
fn limit_of(plan: &[(u64, usize)], put: u64) -> Option<usize>
    ensures { result ≡ limit_from None plan.now put }
{
    let mut limit = None;
    for (planned, most) in plan {
        if *planned == put {
            limit = Some(no_more(limit, *most));
        }
    }
    limit
}

// No more than a limit, where there is one.
fn no_more(limit: Option<usize>, count: usize) -> usize
    ensures { result ≡ at_most limit count }
{
    match limit {
        None => count,
        Some(most) => most.min(count),
    }
}

impl Sink for MemSink {
    ghost use Rattle.ppq_outside.specs.MemorySink.{after_put, put_succeeds};
    ghost use Rattle.ppq_outside.specs.Told.{HasOneCause};

    ghost told = { λ s. Some s.taken };

    ghost faults = { λ s. s.faults };

    fn faults(&self) -> u64 {
        self.faults
    }

    /// Takes no memory. It appends what fits and the plan leaves, and answers Ok exactly where that is
    /// the whole piece and no failure was planned. It looks through the plan once.
    fn put<H: Host>(&mut self, _rt: &H, bytes: &[u8]) -> Result<(), Failed>
        ensures ok { is_ok result ≡ put_succeeds self.old bytes.now }
        ensures after { self.new ≡ after_put self.old bytes.now }
        ensures cause { HasOneCause self.old.faults self.new.faults result }
    {
        self.puts = self.puts.saturating_add(1);
        let limit = limit_of(&self.plan, self.puts);
        let fitting = bytes.len().min(self.room - self.bytes.len());
        let taken = self
            .bytes
            .extend_from_slice(&bytes[..no_more(limit, fitting)]);
        if taken.is_ok() && limit.is_none() && fitting == bytes.len() {
            return Ok(());
        }
        self.faults = self.faults.saturating_add(1);
        Err(Failed)
    }
}
