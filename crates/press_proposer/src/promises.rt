//! The promises that came for a ballot.

ghost use Rattle.std.specs.Prelude.{◌≡◌, ◌++◌, ◌∷◌, [], IfOk, OnOk, OnErr, option_copied};
ghost use Rattle.press_proposer.specs.declared.promises.Promise.{Promise};
ghost use Rattle.press_proposer.specs.Promises as model;

use crate::queue::Queue;
use press_apply::Value;
use press_wire::{MemberId, Slot, Vote, Votes};
use std::alloc::{AllocError, Global};
use std::marker::Model;

/// A member's promise, and the votes that it reports.
#[derive(Debug)]
pub struct Promise {
    pub from: MemberId,
    pub votes: Votes,
}

impl Drop for Promise {
    fn drop(self) {
        let Promise { from: _, votes: _ } = self;
    }
}

/// The promises that came for a ballot, in the order in which they came.
#[derive(Debug)]
pub struct Promises {
    promises: Vec<Promise>,
}

impl Drop for Promises {
    fn drop(self) {
        let Promises { promises: _ } = self;
    }
}

impl Model for Promises {
    ghost use Rattle.std.specs.Prelude.{List};
    ghost use Rattle.press_proposer.specs.declared.promises.Promise.{Promise};

    ghost Value = { List Promise };

    ghost view = { λ p. p.promises.items };
}

impl Promises {
    pub fn new(alloc: Global) -> Promises
        ensures { result ≡ [] }
    {
        Promises {
            promises: Vec::new(alloc),
        }
    }

    /// Whether the member's promise is among these.
    pub fn has(&self, member: MemberId) -> bool
        ensures { result ≡ model.has_promised self.now member }
    {
        self.promises.iter().any(|promise| promise.from == member)
    }

    pub fn as_slice(&self) -> &[Promise]
        ensures { result.now ≡ self.now }
    {
        self.promises.as_slice()
    }

    pub fn push(&mut self, promise: Promise) -> Result<(), AllocError>
        ensures pushed { OnOk result (self.new ≡ self.old ++ promise ∷ []) }
        ensures unchanged { OnErr result (self.new ≡ self.old) }
    {
        self.promises.push(promise)?;
        Ok(())
    }
}

/// Whether one more is a majority.
pub fn lacks_one(promises: &[Promise], members: u8) -> bool
    ensures { (promise : Promise) → result
        ≡ model.is_majority members (promises.now ++ promise ∷ []) }
{
    usize::from(members) / 2 <= promises.len()
}

/// What to propose for the slot once one more promise came.
#[tactic(auto, using(crate::proofs::Best::best_of_push))]
pub fn value_with(
    alloc: Global,
    promises: &[Promise],
    last: &Promise,
    slot: Slot,
    queue: &Queue,
) -> Result<Value, AllocError>
    ensures { IfOk result (λ value. value
        ≡ model.choice (model.best_of slot (promises.now ++ last.now ∷ [])) queue.now) }
{
    let best = better(best_of(promises, slot), last.votes.get(slot));
    value_to_propose(alloc, best, queue)
}

/// What to propose for the slot.
pub fn value_of(
    alloc: Global,
    promises: &Promises,
    slot: Slot,
    queue: &Queue,
) -> Result<Value, AllocError>
    ensures { IfOk result
        (λ value. value ≡ model.choice (model.best_of slot promises.now) queue.now) }
{
    value_to_propose(alloc, best_of(promises.as_slice(), slot), queue)
}

// The value of the best vote, or the first that waits.
fn value_to_propose(alloc: Global, best: Option<&Vote>, queue: &Queue) -> Result<Value, AllocError>
    ensures { IfOk result (λ value. value ≡ model.choice (option_copied best.entry) queue.now) }
{
    match best {
        Some(best) => best.value.copy(alloc),
        None => queue.first_value(alloc),
    }
}

// The reported vote for the slot of the greatest ballot.
fn best_of(promises: &[Promise], slot: Slot) -> Option<&Vote>
    ensures { option_copied result ≡ model.best_of slot promises.now }
{
    let mut best = None;
    for promise in promises {
        best = better(best, promise.votes.get(slot));
    }
    best
}

// The vote of the greater ballot, of equal ones the first.
fn better<'a>(best: Option<&'a Vote>, other: Option<&'a Vote>) -> Option<&'a Vote>
    ensures { option_copied result ≡ model.better (option_copied best.entry)
        (option_copied other.entry) }
{
    match (best, other) {
        (best, None) => best,
        (None, Some(vote)) => Some(vote),
        (Some(best), Some(vote)) => {
            if best.ballot.is_less(vote.ballot) {
                Some(vote)
            } else {
                Some(best)
            }
        }
    }
}
