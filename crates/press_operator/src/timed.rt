//! A store whose saves are counted and timed.

ghost use Rattle.std.specs.Prelude.{◌≡◌};

use press_acceptor::{Block, PromiseStore, StoreFault};
use press_starts::{Mark, Starts};
use press_wire::{Ballot, Round, Slot, Vote};
use std::cell::Cell;
use std::time::{Duration, Instant};

/// Saves of a store, failed ones among them.
#[derive(Clone, Copy, Debug)]
pub struct Saves {
    pub count: u64,
    /// The milliseconds that they took.
    pub millis: u64,
}

/// Where saves are noted.
#[derive(Drop)]
pub struct Tally {
    saves: Cell<u64>,
    nanos: Cell<u64>,
}

impl Tally {
    /// None yet.
    pub fn new() -> Tally {
        Tally {
            saves: Cell::new(0),
            nanos: Cell::new(0),
        }
    }

    fn note(&self, took: Duration) {
        let nanos = u64::try_from(took.as_nanos()).unwrap_or(u64::MAX);
        self.saves.set(self.saves.get().saturating_add(1));
        self.nanos.set(self.nanos.get().saturating_add(nanos));
    }

    /// As it stands.
    pub fn saves(&self) -> Saves {
        Saves {
            count: self.saves.get(),
            millis: self.nanos.get() / 1_000_000,
        }
    }
}

/// A store whose saves are noted, where somebody is to know of them. It keeps what the one within
/// keeps.
pub struct TimedStore<'c, S> {
    rt: &'c HostRuntime,
    tally: Option<&'c Tally>,
    store: S,
}

impl<S: Drop> Drop for TimedStore<'_, S> {
    fn drop(self) {
        let TimedStore {
            rt: _,
            tally: _,
            store: _,
        } = self;
    }
}

impl<'c, S> TimedStore<'c, S> {
    /// The store, timed by a runtime's clock.
    pub fn new(rt: &'c HostRuntime, tally: Option<&'c Tally>, store: S) -> TimedStore<'c, S>
        ensures { result.store ≡ store }
    {
        TimedStore { rt, tally, store }
    }

    // When a save begins; none where nobody is to know, or the clock can't be read.
    fn begin(&self) -> Option<Instant> {
        self.tally?;
        Instant::now(self.rt).ok()
    }

    // A save that began then is over.
    fn end(&self, begun: Option<Instant>) {
        let Some(tally) = self.tally else {
            return;
        };
        let took = match (begun, Instant::now(self.rt)) {
            (Some(begun), Ok(now)) => now.duration_since(begun),
            _ => Duration::ZERO,
        };
        tally.note(took);
    }
}

impl<S: Starts> Starts for TimedStore<'_, S> {
    ghost marked = { λ timed. S.marked timed.store };

    fn mark(&self) -> Option<Mark> {
        self.store.mark()
    }
}

impl<S: PromiseStore> PromiseStore for TimedStore<'_, S> {
    ghost seen = { λ timed. S.seen timed.store };

    fn faults(&self) -> u64 {
        self.store.faults()
    }

    fn load(&mut self, first: Slot) -> Result<Block, StoreFault> {
        self.store.load(first)
    }

    fn save_promise(&mut self, first: Slot, ballot: Ballot) -> Result<(), StoreFault> {
        let begun = self.begin();
        let saved = self.store.save_promise(first, ballot);
        self.end(begun);
        saved
    }

    fn save_vote(&mut self, slot: Slot, vote: &Vote) -> Result<(), StoreFault> {
        let begun = self.begin();
        let saved = self.store.save_vote(slot, vote);
        self.end(begun);
        saved
    }

    fn last_round(&mut self) -> Result<u64, StoreFault> {
        self.store.last_round()
    }

    fn save_round(&mut self, round: Round) -> Result<(), StoreFault> {
        let begun = self.begin();
        let saved = self.store.save_round(round);
        self.end(begun);
        saved
    }

    ghost shows = { λ timed. S.shows timed.store };
}
