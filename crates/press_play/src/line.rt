//! Lines of JSON.

ghost use Rattle.std.specs.Prelude.{◌≡◌, ◌++◌, ◌≢◌, [], IfOk, OnOk, false, string_bytes};
ghost use Rattle.serde_json.specs.View.{view};
ghost use Rattle.serde_json.specs.Written.{compact_text, has_float};
ghost use Rattle.press_kit.specs.Places.{place_text};
ghost use Rattle.press_page.specs.Json.{outcome_data};
ghost use Rattle.press_play.specs.Lines.{answer_data, limit_data, line};
ghost use Rattle.press_play.specs.Pages.{reply_data};
ghost use Rattle.press_play.specs.Answers.{fault_data, fault_data_at};

use crate::fault::PlayFault;
use press_kit::Place;
use press_page::Reply;
use press_site::Outcome;
use serde_json::{Value, json};
use std::alloc::{AllocError, Global};

// What a play gave: the text, and the output so far where there is any.
fn answer(alloc: Global, text: &str, output: &str) -> Result<Value, AllocError>
    ensures { IfOk result (λ v. view v ≡ answer_data text.now output.now) }
{
    if output.is_empty() {
        json!(in alloc; {"text": text})
    } else {
        json!(in alloc; {"output": output, "text": text})
    }
}

fn limit(alloc: Global) -> Result<Value, AllocError>
    ensures { IfOk result (λ v. view v ≡ limit_data) }
{
    json!(in alloc; {"limit": true})
}

fn fault_at(alloc: Global, number: u8, place: Option<Place>) -> Result<Value, AllocError>
    ensures { IfOk result (λ v. view v ≡ fault_data_at number place) }
{
    let number = u64::from(number);
    match place {
        None => json!(in alloc; {"fault": number}),
        Some(place) => {
            let text = place.text(alloc)?;
            json!(in alloc; {"at": text.as_str(), "fault": number})
        }
    }
}

fn outcome(alloc: Global, outcome: Outcome) -> Result<Value, AllocError>
    ensures { IfOk result (λ v. view v ≡ outcome_data outcome) }
{
    match outcome {
        Outcome::Done(id) => json!(in alloc; {"done": id}),
        Outcome::Refused(fault) => {
            let fault = u64::from(fault);
            json!(in alloc; {"refused": fault})
        }
    }
}

fn reply(alloc: Global, reply: &Reply) -> Result<Value, AllocError>
    ensures { IfOk result (λ v. view v ≡ reply_data reply.now) }
{
    let status = u64::from(reply.status);
    json!(in alloc; {"body": reply.body.as_str(), "status": status})
}

// The value's text on a line of its own.
fn line(alloc: Global, value: &Value) -> Result<String, AllocError>
    requires { has_float (view value.now) ≡ false }
    ensures { IfOk result (λ t. string_bytes t ≡ line (view value.now)) }
{
    let mut text = value.to_string(alloc)?;
    text.push_str("\n")?;
    Ok(text)
}

/// The line of a play that gave this text, with the output so far.
pub fn answer_line(alloc: Global, text: &str, output: &str) -> Result<String, AllocError>
    ensures { IfOk result (λ t. string_bytes t ≡ line (answer_data text.now output.now)) }
{
    let value = answer(alloc, text, output)?;
    line(alloc, &value)
}

/// The line of a play that met a limit.
pub fn limit_line(alloc: Global) -> Result<String, AllocError>
    ensures { IfOk result (λ t. string_bytes t ≡ line limit_data) }
{
    let value = limit(alloc)?;
    line(alloc, &value)
}

/// The line of what became of a command.
pub fn outcome_line(alloc: Global, told: Outcome) -> Result<String, AllocError>
    ensures { IfOk result (λ t. string_bytes t ≡ line (outcome_data told)) }
{
    let value = outcome(alloc, told)?;
    line(alloc, &value)
}

/// The line of a page.
pub fn reply_line(alloc: Global, shown: &Reply) -> Result<String, AllocError>
    ensures { IfOk result (λ t. string_bytes t ≡ line (reply_data shown.now)) }
{
    let value = reply(alloc, shown)?;
    line(alloc, &value)
}

/// The line of a file with a fault.
pub fn fault_line(alloc: Global, fault: PlayFault) -> Result<String, AllocError>
    ensures { IfOk result (λ t. string_bytes t ≡ line (fault_data fault)) }
{
    let value = fault_at(alloc, fault.number(), fault.place())?;
    line(alloc, &value)
}
