//! What a member's reply says.

ghost use Rattle.std.specs.Prelude.{ℕ, ◌≡◌, ◌++◌, IfOk, IfSome, List, codes};
ghost use Rattle.press_http.specs.StatusLine.{SaysStatus};
ghost use Rattle.press_client.specs.Logging.{TellsPiece};
ghost use Rattle.press_client.specs.Replying.{IsNumber, IsOutcome, SaysTaken, SaysTold, TellsOutcome};

use crate::log::{LogFault, Piece, piece_in};
use crate::newsroom::{FormAnswer, OutcomeAnswer};
use press_http::status_of_reply;
use press_site::Outcome;
use press_text::dec_u64;
use std::alloc::Global;
use std::str::from_utf8;

// What is behind the first empty line.
fn body_in(reply: &str) -> Option<&str>
    ensures { IfSome result (λ body. (head : List ℕ)
        × (reply.now ≡ head ++ (codes "\r\n\r\n" ++ body.now))) }
{
    match reply.split_once("\r\n\r\n") {
        Some((_, body)) => Some(body),
        None => None,
    }
}

// The number between these.
fn number_in(body: &str, front: &str) -> Option<u64>
    ensures { IfSome result (λ number. IsNumber front.now number body.now) }
{
    let behind = body.strip_prefix(front)?;
    let digits = behind.strip_suffix("}")?;
    dec_u64(digits)
}

fn refused_in(body: &str) -> Option<Outcome>
    ensures { IfSome result (λ outcome. IsOutcome outcome body.now) }
{
    let fault = number_in(body, "{\"refused\":")?;
    match u8::try_from(fault) {
        Ok(fault) => Some(Outcome::Refused(fault)),
        Err(_) => None,
    }
}

fn outcome_in(body: &str) -> Option<Outcome>
    ensures { IfSome result (λ outcome. IsOutcome outcome body.now) }
{
    match number_in(body, "{\"done\":") {
        Some(id) => Some(Outcome::Done(id)),
        None => refused_in(body),
    }
}

fn outcome_of_reply(reply: &[u8]) -> Option<Outcome>
    ensures { IfSome result (λ outcome. TellsOutcome outcome reply.now) }
{
    let text = from_utf8(reply).ok()?;
    outcome_in(body_in(text)?)
}

/// What a member makes of a command, by its reply to the form.
pub fn taken_by(reply: &[u8]) -> FormAnswer
    ensures { SaysTaken result reply.now }
{
    match status_of_reply(reply) {
        Some(202) => FormAnswer::Queued,
        Some(503) => FormAnswer::Busy,
        Some(status) if 400 <= status && status < 500 => FormAnswer::Refused(status),
        _ => FormAnswer::Lost,
    }
}

/// What a member says of an outcome, by its reply to the question.
pub fn told_by(reply: &[u8]) -> OutcomeAnswer
    ensures { SaysTold result reply.now }
{
    match status_of_reply(reply) {
        Some(404) => OutcomeAnswer::NotYet,
        Some(200) => match outcome_of_reply(reply) {
            Some(outcome) => OutcomeAnswer::Outcome(outcome),
            None => OutcomeAnswer::Lost,
        },
        _ => OutcomeAnswer::Lost,
    }
}

/// The piece of a log that a member tells, by its reply.
pub fn piece_of_reply(alloc: Global, reply: &[u8]) -> Result<Piece, LogFault>
    ensures status { IfOk result (λ _. SaysStatus reply.now 200) }
    ensures piece { IfOk result (λ piece. TellsPiece piece reply.now) }
{
    if status_of_reply(reply) != Some(200) {
        return Err(LogFault::NoLog);
    }
    let Ok(text) = from_utf8(reply) else {
        return Err(LogFault::NoLog);
    };
    match body_in(text) {
        Some(body) => piece_in(alloc, body),
        None => Err(LogFault::NoLog),
    }
}
