//! The requests of a client.

ghost use Rattle.std.specs.Prelude.{◌≡◌, IfOk, string_bytes};
ghost use Rattle.press_forms.specs.Forms.{form_of};
ghost use Rattle.press_client.specs.Asking.{command_bytes, head_of_form, log_bytes, question_bytes};

use press_apply::Stamped;
use press_forms::form_of;
use press_site::Token;
use std::alloc::{AllocError, Global};

#[tactic(auto, unfolding(crate::specs::Asking::head_of_form))]
fn head_of_form(alloc: Global, host: &str, count: usize) -> Result<String, AllocError>
    ensures { IfOk result (λ head. string_bytes head ≡ head_of_form host.now count) }
{
    format!(in alloc;
        "POST /command HTTP/1.1\r\nHost: {host}\r\nContent-Type: application/x-www-form-urlencoded\r\nContent-Length: {count}\r\n\r\n"
    )
}

/// The request that sends a command to a host.
pub fn command_request(alloc: Global, host: &str, command: &Stamped) -> Result<String, AllocError>
    ensures { IfOk result (λ request. string_bytes request ≡ command_bytes host.now command.now) }
{
    let form = form_of(alloc, command)?;
    let mut request = head_of_form(alloc, host, form.len())?;
    request.push_str(&form)?;
    Ok(request)
}

#[tactic(auto, unfolding(crate::specs::Asking::question_bytes))]
fn outcome_question(alloc: Global, host: &str, editor: &str, seq: u64) -> Result<String, AllocError>
    ensures { IfOk result (λ t. string_bytes t ≡ question_bytes host.now editor.now seq) }
{
    format!(in alloc; "GET /result/{editor}/{seq} HTTP/1.1\r\nHost: {host}\r\n\r\n")
}

/// The request that asks a host for the outcome under a token.
pub fn outcome_request(alloc: Global, host: &str, token: &Token) -> Result<String, AllocError>
    ensures { IfOk result (λ request. string_bytes request
        ≡ question_bytes host.now token.now.editor token.now.seq) }
{
    outcome_question(alloc, host, token.editor.as_str(), token.seq)
}

/// The request that asks a host what it has applied behind the first so many values.
#[tactic(auto, unfolding(crate::specs::Asking::log_bytes))]
pub fn log_request(alloc: Global, host: &str, from: u64) -> Result<String, AllocError>
    ensures { IfOk result (λ request. string_bytes request ≡ log_bytes host.now from) }
{
    format!(in alloc; "GET /desk/log?from={from} HTTP/1.1\r\nHost: {host}\r\n\r\n")
}
