//! What a request asks for.

ghost use Rattle.std.specs.Prelude.{◌≡◌, ◌≢◌, ◌==◌, Ok, Err, IsOk, codes};
ghost use Rattle.std.specs.List.{before_first, after_first};
ghost use Rattle.press_text.specs.Gives.{Gives};
ghost use Rattle.press_http.specs.Meanings.{Refuses};
ghost use Rattle.press_http.specs.Forms.{LacksPlainly};
ghost use Rattle.press_http.specs.Routes as spec;
ghost use Rattle.press_wire.specs.Memory.{editor_of_message};

use crate::asked::Asked;
use crate::endpoint::{Endpoint, Routes};
use crate::fault::HttpFault;
use crate::form::{first_value, form_command};
use crate::request::Request;
use press_page::Target;
use press_site::Token;
use press_text::{Name, NameFault, dec_u64};
use press_wire::{Message, WireFault, decode_msg};
use std::alloc::Global;

pub(crate) fn path(target: &str) -> &str
    ensures { result.now ≡ spec.path_of target.now }
{
    match target.split_once('?') {
        Some((path, _)) => path,
        None => target,
    }
}

pub(crate) fn query(target: &str) -> &str
    ensures { result.now ≡ spec.query_of target.now }
{
    match target.split_once('?') {
        Some((_, query)) => query,
        None => "",
    }
}

fn before_slash(text: &str) -> &str
    ensures { result.now ≡ before_first (λ b. b == 47) text.now }
{
    match text.split_once('/') {
        Some((front, _)) => front,
        None => text,
    }
}

fn after_slash(text: &str) -> &str
    ensures { result.now ≡ after_first (λ b. b == 47) text.now }
{
    match text.split_once('/') {
        Some((_, rest)) => rest,
        None => "",
    }
}

// What follows the first `slashes` slashes.
#[tactic(auto, using(crate::proofs::Slashes::one_more, crate::proofs::Slashes::none_left))]
pub(crate) fn behind(path: &str, slashes: usize) -> &str
    ensures { result.now ≡ spec.behind slashes path.now }
{
    let mut rest = path;
    for slash in 0..slashes {
        rest = after_slash(rest);
    }
    rest
}

fn front(alloc: Global, query: &str) -> Result<Target, HttpFault>
    ensures target { Gives Refuses Ok result (spec.front_of query.now) }
    ensures memory { LacksPlainly (codes "p") query.now → result ≡ Ok Target.Front }
{
    let found = first_value(alloc, query.as_bytes(), "p")?;
    match found {
        None => Ok(Target::Front),
        Some(id) => match dec_u64(id.as_str()) {
            Some(id) => Ok(Target::Post(id)),
            None => Err(HttpFault::NotFound),
        },
    }
}

fn post(path: &str) -> Result<Target, HttpFault>
    ensures target { Gives Refuses Ok result (spec.post_of path.now) }
    ensures memory { result ≢ Err HttpFault.NoMemory }
{
    match dec_u64(behind(path, 5)) {
        Some(id) => Ok(Target::Json(id)),
        None => Err(HttpFault::NotFound),
    }
}

fn editor(alloc: Global, text: &str) -> Result<Name, HttpFault>
    ensures name { Gives Refuses Ok result (spec.editor_in text.now) }
    ensures memory { result ≡ Err HttpFault.NoMemory → IsOk (spec.editor_in text.now) }
{
    match Name::new(alloc, text) {
        Ok(name) => Ok(name),
        Err(NameFault::NoMemory) => Err(HttpFault::NoMemory),
        Err(NameFault::BadName | NameFault::TooLong) => Err(HttpFault::NotFound),
    }
}

#[tactic(auto, unfolding(crate::specs::Routes::token_in))]
fn token(alloc: Global, text: &str) -> Result<Token, HttpFault>
    ensures token { Gives Refuses Ok result (spec.token_in text.now) }
    ensures memory { result ≡ Err HttpFault.NoMemory → IsOk (spec.first_in text.now) }
{
    let editor = editor(alloc, before_slash(text))?;
    match dec_u64(after_slash(text)) {
        Some(seq) => Ok(Token { editor, seq }),
        None => Err(HttpFault::NotFound),
    }
}

fn outcome(alloc: Global, path: &str) -> Result<Target, HttpFault>
    ensures target { Gives Refuses Ok result (spec.outcome_of path.now) }
    ensures memory { result ≡ Err HttpFault.NoMemory
        → IsOk (spec.first_in (spec.behind 2 path.now)) }
{
    let token = token(alloc, behind(path, 2))?;
    Ok(Target::Result(token))
}

fn message(alloc: Global, body: &[u8]) -> Result<Message, HttpFault>
    ensures message { Gives Refuses Ok result (spec.message_in body.now) }
    ensures memory { result ≡ Err HttpFault.NoMemory → IsOk (editor_of_message body.now) }
{
    match decode_msg(alloc, body) {
        Ok(message) => Ok(message),
        Err(WireFault::NoMemory) => Err(HttpFault::NoMemory),
        Err(_) => Err(HttpFault::BadPeer),
    }
}

#[tactic(auto, unfolding(crate::specs::Routes::asked_at))]
fn asked_at(alloc: Global, place: Endpoint, target: &str, body: &[u8]) -> Result<Asked, HttpFault>
    ensures asked { Gives Refuses Ok result (spec.asked_at place target.now body.now) }
    ensures memory { result ≡ Err HttpFault.NoMemory → spec.TakesMemory place target.now body.now }
{
    match place {
        Endpoint::Front => Ok(Asked::Page(front(alloc, query(target))?)),
        Endpoint::Post => Ok(Asked::Page(post(path(target))?)),
        Endpoint::Outcome => Ok(Asked::Page(outcome(alloc, path(target))?)),
        Endpoint::Commands => Ok(Asked::Command(form_command(alloc, body)?)),
        Endpoint::Peers => Ok(Asked::Peer(message(alloc, body)?)),
    }
}

fn check_method(method: &str, place: Endpoint) -> Result<Endpoint, HttpFault>
    ensures place { Gives Refuses Ok result (spec.or_not_allowed method.now place) }
    ensures memory { result ≢ Err HttpFault.NoMemory }
{
    if method == place.method() {
        Ok(place)
    } else {
        Err(HttpFault::NotAllowed)
    }
}

impl Routes {
    /// What a request asks for: by its path, then its method, then what it carries. NotFound for a
    /// path that is not served, or whose id, editor or number doesn't read; NotAllowed for another
    /// method; BadForm and BadPeer for what a command or a message can't be read from.
    #[tactic(auto, unfolding(crate::specs::Routes::asked_by_request))]
    pub fn route(&self, alloc: Global, request: &Request) -> Result<Asked, HttpFault>
        ensures asked { Gives Refuses Ok result (spec.asked_by_request
            request.now.method request.now.target
            request.now.body) }
        ensures memory { result ≡ Err HttpFault.NoMemory → spec.MayTakeMemory
            request.now.method request.now.target request.now.body }
    {
        let target = request.target.as_str();
        let place = self.at(path(target))?;
        let place = check_method(request.method.as_str(), place)?;
        asked_at(alloc, place, target, request.body.as_slice())
    }
}

/// The same by a table of its own, which takes memory.
pub fn route(alloc: Global, request: &Request) -> Result<Asked, HttpFault>
    ensures { Gives Refuses Ok result (spec.asked_by_request
        request.now.method request.now.target
        request.now.body) }
{
    Routes::new(alloc)?.route(alloc, request)
}
