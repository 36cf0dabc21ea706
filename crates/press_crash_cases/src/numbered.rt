//! Promises and votes whose numbers are all one.

use press_apply::Value;
use press_text::Moment;
use press_wire::{Ballot, MemberId, Round, Vote};

fn ballot_of(number: u64, node: u8) -> Option<Ballot> {
    Some(Ballot {
        round: Round::new(number)?,
        node: MemberId::new(node)?,
    })
}

/// The ballot of that round to promise: the third node's.
pub fn promise_of(number: u64) -> Option<Ballot> {
    ballot_of(number, 3)
}

/// A vote in that round, in the first node's ballot.
pub fn vote_of(number: u64) -> Option<Vote> {
    Some(Vote {
        ballot: ballot_of(number, 1)?,
        value: Value::Noop {
            at: Moment::new(number)?,
        },
    })
}
