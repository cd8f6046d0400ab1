//! Three numbers that never fall.
ghost use Rattle.std.specs.Prelude.{◌≡◌};
ghost use Rattle.ppq_counts.specs.Tally.{no_tally, tally, accepting, storing, beginning, joined};

use std::marker::Model;

/// How many records were accepted, how many stores of a full heap were begun, and how many sessions. Each
/// number stands still at its last value, 2^64 - 1.
#[derive(Clone, Copy)]
pub struct Counts {
    // records
    accepted: u64,
    // stores of a full heap
    stores: u64,
    // sessions
    sessions: u64,
}

impl Model for Counts {
    ghost use Rattle.std.specs.Prelude.{◌<◌, ◌^◌};
    ghost use Rattle.ppq_counts.specs.Tally.{Tally, tally};

    ghost Value = { Tally };

    ghost view = { λ c. tally c.accepted c.stores c.sessions };

    ghost invariant = { λ c. (c.accepted < 2 ^ 64) × (c.stores < 2 ^ 64) × (c.sessions < 2 ^ 64) };

    ghost inverse = { λ t. record { accepted = t.accepted; stores = t.stores; sessions = t.sessions } };
}

impl Counts {
    /// All three are 0.
    #[inline]
    pub fn none() -> Self
        ensures { result ≡ no_tally }
    {
        Counts {
            accepted: 0,
            stores: 0,
            sessions: 0,
        }
    }

    /// The numbers of a pass: so many records and stores, and no session.
    #[inline]
    pub fn of_pass(accepted: u64, stores: u64) -> Self
        ensures { result ≡ tally accepted stores 0 }
    {
        Counts {
            accepted,
            stores,
            sessions: 0,
        }
    }

    /// How many records were accepted.
    #[inline]
    pub fn accepted(&self) -> u64
        ensures { result ≡ self.now.accepted }
    {
        self.accepted
    }

    /// How many stores of a full heap were begun.
    #[inline]
    pub fn stores(&self) -> u64
        ensures { result ≡ self.now.stores }
    {
        self.stores
    }

    /// How many sessions were begun.
    #[inline]
    pub fn sessions(&self) -> u64
        ensures { result ≡ self.now.sessions }
    {
        self.sessions
    }

    /// So many records more were accepted.
    #[inline]
    pub fn accept(&mut self, records: u64)
        ensures { self.new ≡ accepting records self.old }
    {
        self.accepted = self.accepted.saturating_add(records);
    }

    /// One store of a full heap more is begun.
    #[inline]
    pub fn begin_store(&mut self)
        ensures { self.new ≡ storing self.old }
    {
        self.stores = self.stores.saturating_add(1);
    }

    /// One session more is begun.
    #[inline]
    pub fn begin_session(&mut self)
        ensures { self.new ≡ beginning self.old }
    {
        self.sessions = self.sessions.saturating_add(1);
    }

    /// The numbers of a pass come on top.
    #[inline]
    pub fn join(&mut self, other: Counts)
        ensures { self.new ≡ joined self.old other }
    {
        self.accepted = self.accepted.saturating_add(other.accepted);
        self.stores = self.stores.saturating_add(other.stores);
        self.sessions = self.sessions.saturating_add(other.sessions);
    }
}
