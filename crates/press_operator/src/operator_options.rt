//! What a server does with a request before its node sees it.

ghost use Rattle.std.specs.Prelude.{◌≡◌, ◌≢◌, ◌&&◌, IfErr, IfOk, IfSome, MatchOption, MatchResult, Ok, OnErr, Some, false, is_some, true};
ghost use Rattle.std.specs.Io.KnownBytes.{Appends};
ghost use Rattle.press_http.specs.Desk.{desk_request_of};
ghost use Rattle.press_http.specs.Meanings.{Refuses};
ghost use Rattle.press_http.specs.Replies.{fault_bytes};
ghost use Rattle.press_operator.specs.Screening.{IsOfSort, ahead_of, has_page, is_ahead, is_of_desk, sort_by, sort_named};
ghost use Rattle.press_text.specs.Gives.{Gives};
ghost use Rattle.press_text.specs.Streams.{AppendsProperFront};

use crate::paths::Own;
use crate::timed::{Saves, Tally};
use press_http::{
    Asked, DeskRequest, DeskRoutes, HttpFault, Request, read_request, route, write_fault,
    write_reply,
};
use press_page::{ContentKind, Reply};
use press_starts::{Mark, Sighting};
use press_text::{Text, write_once};
use std::alloc::{AllocError, Global};

/// Whether a target is of the desk.
pub fn is_of_desk(target: &str) -> bool
    ensures { result ≡ is_of_desk target.now }
{
    target.starts_with("/desk/")
}

/// What a request asks for.
#[derive(Clone, Copy, PartialEq, Eq)]
pub enum Sort {
    /// That a message of a peer be taken.
    Peer,
    /// That a command be taken, with its time in seconds.
    Command(u64),
    /// A page of the site, or a reply in JSON.
    Page,
    /// It isn't whole, or is refused.
    Other,
}

fn sort_of_question(asked: &Asked) -> Sort
    ensures { result ≡ sort_named asked.now }
{
    match asked {
        Asked::Peer(_) => Sort::Peer,
        Asked::Command(stamped) => Sort::Command(stamped.at.seconds()),
        Asked::Page(_) => Sort::Page,
    }
}

// A request that is refused is of no sort; where there was no memory, nothing is known of it.
fn sort_of_refusal(fault: HttpFault) -> Result<Sort, HttpFault>
    ensures { MatchResult result (λ sort. (sort ≡ Sort.Other) × (fault ≢ HttpFault.NoMemory))
        (λ e. (e ≡ HttpFault.NoMemory) × (fault ≡ HttpFault.NoMemory)) }
{
    match fault {
        HttpFault::NoMemory => Err(fault),
        _ => Ok(Sort::Other),
    }
}

/// What a request asks for. Its only fault is that there is no memory to see it.
pub fn sort_of(alloc: Global, bytes: &[u8]) -> Result<Sort, HttpFault>
    ensures { MatchResult result (IsOfSort bytes.now) (λ e. e ≡ HttpFault.NoMemory) }
{
    let mut rest = bytes;
    let request = match read_request(alloc, &mut rest) {
        Ok(request) => request,
        Err(fault) => return sort_of_refusal(fault),
    };
    match route(alloc, &request) {
        Ok(asked) => Ok(sort_of_question(&asked)),
        Err(fault) => sort_of_refusal(fault),
    }
}

// The page for editors, and what they may ask beside it.
#[derive(Drop)]
struct Editors {
    page: Text,
    routes: DeskRoutes,
}

/// What an operator asked for: a page for editors, how far ahead of the machine's clock a command
/// may be, in seconds, and that the server tells how it stands.
pub struct OperatorOptions {
    editors: Option<Editors>,
    ahead: Option<u64>,
    tally: Option<Tally>,
}

impl Drop for OperatorOptions {
    fn drop(self) {
        let OperatorOptions {
            editors: _,
            ahead: _,
            tally: _,
        } = self;
    }
}

impl OperatorOptions {
    /// The page for editors, the most seconds that a command may be ahead, and what saves are noted
    /// in; None asks for none.
    pub fn new(
        alloc: Global,
        editor: Option<Text>,
        ahead: Option<u64>,
        tally: Option<Tally>,
    ) -> Result<OperatorOptions, AllocError>
        ensures page { IfOk result (λ options. has_page options ≡ is_some editor) }
        ensures ahead { IfOk result (λ options. ahead_of options ≡ ahead) }
    {
        let editors = match editor {
            Some(page) => Some(Editors {
                page,
                routes: DeskRoutes::new(alloc)?,
            }),
            None => None,
        };
        Ok(OperatorOptions {
            editors,
            ahead,
            tally,
        })
    }

    /// What a request by that method asks for, where its time may matter: no GET is a command.
    pub fn sort_of(&self, alloc: Global, method: &str, bytes: &[u8]) -> Result<Sort, HttpFault> {
        if self.ahead.is_none() || method == "GET" {
            return Ok(Sort::Other);
        }
        sort_of(alloc, bytes)
    }

    /// Whether the server tells how it stands.
    pub fn has_status(&self) -> bool {
        self.tally.is_some()
    }

    /// Where saves are noted, where the server tells how it stands.
    pub fn tally(&self) -> Option<&Tally> {
        self.tally.as_ref()
    }

    /// The saves that were noted.
    pub fn saves(&self) -> Saves {
        match &self.tally {
            Some(tally) => tally.saves(),
            None => Saves {
                count: 0,
                millis: 0,
            },
        }
    }

    /// Whether a node by itself has that path.
    pub fn has(&self, own: Own) -> bool {
        match own {
            Own::Ready | Own::Metrics => self.has_status(),
            Own::Editor => self.has_editor(),
            Own::Members => false,
        }
    }

    /// Whether there is a page for editors.
    pub fn has_editor(&self) -> bool
        ensures { result ≡ has_page self.now }
    {
        self.editors.is_some()
    }

    /// Whether a command of such a time is too far ahead.
    pub fn is_ahead(&self, at: u64, now: u64) -> bool
        ensures { result ≡ is_ahead (ahead_of self.now) at now }
    {
        match self.ahead {
            Some(most) => at > now.saturating_add(most),
            None => false,
        }
    }

    /// The most seconds that a command may be ahead, where one of such a time is more.
    pub fn limit_behind(&self, at: u64, now: u64) -> Option<u64>
        ensures { MatchOption result (is_ahead (ahead_of self.now) at now ≡ false)
            (λ limit. (ahead_of self.now ≡ Some limit)
            × (is_ahead (ahead_of self.now) at now ≡ true)) }
    {
        match self.ahead {
            Some(limit) => {
                if self.is_ahead(at, now) {
                    Some(limit)
                } else {
                    None
                }
            }
            None => None,
        }
    }

    /// What a request asks of the desk, exactly where its path is one of the desk and there is a
    /// page for editors.
    pub fn desk_question(
        &self,
        alloc: Global,
        request: &Request,
    ) -> Option<Result<DeskRequest, HttpFault>>
        ensures asked { IfSome result (λ asked. Gives Refuses Ok asked
            (desk_request_of request.now.method request.now.target)) }
        ensures desk { is_some result
            ≡ (has_page self.now && is_of_desk request.now.target) }
    {
        match &self.editors {
            Some(editors) if is_of_desk(request.target.as_str()) => {
                Some(editors.routes.route(alloc, request))
            }
            _ => None,
        }
    }

    /// The page for editors.
    pub fn show_editor(&self, alloc: Global, told: &mut Vec<u8>) -> Result<u16, HttpFault> {
        let Some(Editors { page, .. }) = &self.editors else {
            return refuse_path(told);
        };
        let reply = Reply {
            status: 200,
            kind: ContentKind::Html,
            body: page.copy(alloc)?,
        };
        write_reply(alloc, told, &reply)?;
        Ok(200)
    }
}

/// A command is too far ahead.
pub fn refuse_form(told: &mut Vec<u8>) -> Result<u16, HttpFault> {
    write_fault(told, 400)?;
    Ok(400)
}

/// There is nothing at this path.
pub fn refuse_path(told: &mut Vec<u8>) -> Result<u16, HttpFault> {
    write_fault(told, 404)?;
    Ok(404)
}

/// There was no memory to see what was asked, or for the reply.
pub fn refuse_without_memory(told: &mut Vec<u8>) -> Result<u16, HttpFault>
    ensures told { IfOk result (λ status. (status ≡ 503)
        × Appends (Some told.old.items) (Some told.new.items) (fault_bytes 503)) }
    ensures left { OnErr result (AppendsProperFront (Some told.old.items) (Some told.new.items)
        (fault_bytes 503)) }
    ensures fault { IfErr result (λ e. e ≡ HttpFault.WriteFault) }
{
    write_fault(told, 503)?;
    Ok(503)
}

fn tell(told: &mut Vec<u8>, line: &[u8]) -> Result<(), HttpFault> {
    match write_once(told, line) {
        Ok(()) => Ok(()),
        Err(_) => Err(HttpFault::WriteFault),
    }
}

const NOT_READY: &str =
    "HTTP/1.1 503 Service Unavailable\r\nContent-Type: text/plain; charset=UTF-8\r\nContent-Length: 14\r\nRetry-After: 1\r\nConnection: close\r\n\r\nnot ready yet\n";

/// The node isn't ready yet.
pub fn refuse_for_now(told: &mut Vec<u8>) -> Result<u16, HttpFault>
    ensures { IfOk result (λ status. status ≡ 503) }
{
    tell(told, NOT_READY.as_bytes())?;
    Ok(503)
}

fn ready_head(alloc: Global, is_ready: bool, count: usize) -> Result<String, AllocError> {
    let (first, retry) = if is_ready {
        ("200 OK", "")
    } else {
        ("503 Service Unavailable", "Retry-After: 1\r\n")
    };
    format!(in alloc;
        "HTTP/1.1 {first}\r\nContent-Type: application/json; charset=UTF-8\r\nContent-Length: {count}\r\n{retry}Connection: close\r\n\r\n"
    )
}

/// How a node stands.
#[derive(Clone, Copy)]
pub struct Standing<'a> {
    pub is_ready: bool,
    /// How many slots it has applied.
    pub applied: u64,
    /// How many are chosen, as far as it knows.
    pub chosen: u64,
    /// The numbers of the members that answered lately.
    pub near: &'a [usize],
    /// Those that count other members, or run another kit.
    pub foreign: &'a [usize],
    /// None of a node by itself.
    pub agreement: Option<Agreement<'a>>,
}

/// How what a member has applied stands to what the others have.
#[derive(Clone, Copy)]
pub struct Agreement<'a> {
    /// Of what it has applied.
    pub digest: &'a [u8; 32],
    /// The numbers of those that have applied other commands.
    pub differing: &'a [usize],
}

// With a comma in front, as more of an object; nothing of a node by itself.
fn agreement_text(alloc: Global, agreement: Option<Agreement<'_>>) -> Result<String, AllocError> {
    let Some(Agreement { digest, differing }) = agreement else {
        return Ok(String::new(alloc));
    };
    let digest = hex::encode(alloc, digest.as_slice())?;
    let differing = list_of(alloc, differing)?;
    format!(in alloc; ",\"digest\":\"{digest}\",\"differing\":[{differing}]")
}

// Numbers with commas between.
fn list_of(alloc: Global, numbers: &[usize]) -> Result<String, AllocError> {
    let mut text = String::new(alloc);
    for number in numbers {
        if !text.is_empty() {
            text.push(',')?;
        }
        let digits = format!(in alloc; "{number}")?;
        text.push_str(&digits)?;
    }
    Ok(text)
}

fn ready_body(alloc: Global, standing: Standing<'_>) -> Result<String, AllocError> {
    let Standing {
        is_ready,
        applied,
        chosen,
        near,
        foreign,
        agreement,
    } = standing;
    let near = list_of(alloc, near)?;
    let foreign = list_of(alloc, foreign)?;
    let agreement = agreement_text(alloc, agreement)?;
    format!(in alloc;
        "{{\"ready\":{is_ready},\"applied\":{applied},\"chosen\":{chosen},\"members\":[{near}],\"foreign\":[{foreign}]{agreement}}}\n"
    )
}

fn forgotten_body(alloc: Global, reminder: Sighting) -> Result<String, AllocError> {
    let member = reminder.member.number();
    let Mark { start, saves } = reminder.mark;
    format!(in alloc;
        "{{\"ready\":false,\"forgotten\":{{\"member\":{member},\"start\":{start},\"saves\":{saves}}}}}\n"
    )
}

/// The store lacks what another member heard.
pub fn show_forgotten(
    alloc: Global,
    reminder: Sighting,
    told: &mut Vec<u8>,
) -> Result<u16, HttpFault>
    ensures { IfOk result (λ status. status ≡ 503) }
{
    let body = forgotten_body(alloc, reminder)?;
    let head = ready_head(alloc, false, body.len())?;
    tell(told, head.as_bytes())?;
    tell(told, body.as_bytes())?;
    Ok(503)
}

/// How far the node is.
pub fn show_ready(
    alloc: Global,
    standing: Standing<'_>,
    told: &mut Vec<u8>,
) -> Result<u16, HttpFault> {
    let body = ready_body(alloc, standing)?;
    let head = ready_head(alloc, standing.is_ready, body.len())?;
    tell(told, head.as_bytes())?;
    tell(told, body.as_bytes())?;
    Ok(if standing.is_ready { 200 } else { 503 })
}
