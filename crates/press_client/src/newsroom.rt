//! The members, as a client sees them.

ghost use Rattle.std.specs.Prelude.{IfOk, List, OnErr, Option};
ghost use Rattle.press_client.specs.Saying.{Adds, Said, SaysNothing, asks, sends};

use press_apply::Stamped;
use press_site::{Outcome, Token};
use std::alloc::AllocError;

/// What a member makes of a command that is sent to it.
#[derive(Clone, Copy, Debug, PartialEq, Eq)]
pub enum FormAnswer {
    /// It waits to be chosen.
    Queued,
    /// Too many wait, or the member isn't ready.
    Busy,
    /// It isn't taken, for good, with that status.
    Refused(u16),
    /// There was no reply: the member may have it, or not.
    Lost,
}

/// What a member says of the outcome of a command.
#[derive(Clone, Copy, Debug, PartialEq, Eq)]
pub enum OutcomeAnswer {
    Outcome(Outcome),
    /// It has applied no such command.
    NotYet,
    /// There was no reply, or one that says nothing of it.
    Lost,
}

/// The members that a client can ask, by their places, from 0.
pub trait Newsroom {
    /// What was said to them and what they said, the last first, where that is known.
    ghost said: { Self → Option (List Said) };

    /// Sends a command to the member at a place.
    fn submit(&mut self, place: usize, command: &Stamped) -> Result<FormAnswer, AllocError>
        ensures sends { IfOk result (λ taken.
            Adds (said self.old) (said self.new) (sends place command.now taken)) }
        ensures no_memory { OnErr result (SaysNothing (said self.old) (said self.new)) };

    /// Asks the member at a place for the outcome of a command, by its token.
    fn outcome(&mut self, place: usize, token: &Token) -> Result<OutcomeAnswer, AllocError>
        ensures asks { IfOk result (λ told.
            Adds (said self.old) (said self.new) (asks place token.now told)) }
        ensures no_memory { OnErr result (SaysNothing (said self.old) (said self.new)) };

    /// So many commands have an outcome.
    fn note(&mut self, told: usize)
        ensures { SaysNothing (said self.old) (said self.new) };

    /// Waits for a moment, shorter behind an answer than behind none; returns whether it is worth
    /// while to go on.
    fn rest(&mut self, answered: bool) -> bool
        ensures { SaysNothing (said self.old) (said self.new) };
}
