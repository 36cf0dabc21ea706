//! The page of numbers for those who watch a server.

ghost use Rattle.std.specs.Prelude.{◌≡◌, ◌++◌, IfOk, OnOk, Some, string_bytes};
ghost use Rattle.std.specs.Io.KnownBytes.{Appends};
ghost use Rattle.press_operator.specs.Metrics.{count_line, counter, gauge, of_agreement, of_node, of_others, of_requests, of_server, of_store, one_if, page_of, reply_of};

use crate::counts::Count;
use crate::timed::Saves;
use press_http::HttpFault;
use press_net::Traffic;
use press_text::write_once;
use std::alloc::{AllocError, Global};

/// What a node knows of its cluster. One by itself knows what it has applied, and hears of no
/// other.
#[derive(Clone, Copy, Debug)]
pub struct Among {
    /// How many slots are chosen, as far as it knows.
    pub chosen: u64,
    /// How often another began to have other peers or another kit.
    pub foreign: u64,
    /// Whether none of those that were compared has applied other commands; None of a node by
    /// itself.
    pub is_unanimous: Option<bool>,
}

/// How a server stands.
#[derive(Clone, Copy)]
pub struct Metrics<'a> {
    /// How many slots its node has applied.
    pub applied: u64,
    pub is_down: bool,
    /// Whether another member heard of this one what the store lacks.
    pub has_forgotten: bool,
    /// How many commands wait at its node to be chosen.
    pub waiting: u64,
    pub among: Among,
    pub saves: Saves,
    pub traffic: Traffic,
    pub counts: &'a [Count],
}

// A number that may fall.
#[tactic(auto, unfolding(crate::specs::Metrics::gauge))]
fn gauge(alloc: Global, name: &str, help: &str, value: u64) -> Result<String, AllocError>
    ensures { IfOk result (λ t. string_bytes t ≡ gauge name.now help.now value) }
{
    format!(in alloc;
        "# HELP press_{name} {help}\n# TYPE press_{name} gauge\npress_{name} {value}\n"
    )
}

// A number that never falls while a server runs.
#[tactic(auto, unfolding(crate::specs::Metrics::counter))]
fn counter(alloc: Global, name: &str, help: &str, value: u64) -> Result<String, AllocError>
    ensures { IfOk result (λ t. string_bytes t ≡ counter name.now help.now value) }
{
    format!(in alloc;
        "# HELP press_{name} {help}\n# TYPE press_{name} counter\npress_{name} {value}\n"
    )
}

// Whether something is so.
fn flag(alloc: Global, name: &str, help: &str, is: bool) -> Result<String, AllocError>
    ensures { IfOk result (λ t. string_bytes t ≡ gauge name.now help.now (one_if is)) }
{
    gauge(alloc, name, help, u64::from(is))
}

fn two(alloc: Global, one: &str, other: &str) -> Result<String, AllocError>
    ensures { IfOk result (λ t. string_bytes t ≡ one.now ++ other.now) }
{
    format!(in alloc; "{one}{other}")
}

fn of_node(alloc: Global, metrics: &Metrics<'_>) -> Result<String, AllocError>
    ensures { IfOk result (λ t. string_bytes t ≡ of_node metrics.now) }
{
    let applied = gauge(
        alloc,
        "applied_slots",
        "Slots whose commands the node has applied.",
        metrics.applied,
    )?;
    let down = flag(
        alloc,
        "down",
        "Whether its store, or want of memory, has stopped the node.",
        metrics.is_down,
    )?;
    let forgotten = flag(
        alloc,
        "forgotten",
        "Whether another member heard of saves that the store lacks.",
        metrics.has_forgotten,
    )?;
    let queued = gauge(
        alloc,
        "queued_commands",
        "Commands that wait at the node to be chosen.",
        metrics.waiting,
    )?;
    let stops = two(alloc, down.as_str(), forgotten.as_str())?;
    let standing = two(alloc, stops.as_str(), queued.as_str())?;
    two(alloc, applied.as_str(), standing.as_str())
}

fn of_store(alloc: Global, metrics: &Metrics<'_>) -> Result<String, AllocError>
    ensures { IfOk result (λ t. string_bytes t ≡ of_store metrics.now) }
{
    let saves = counter(
        alloc,
        "saves_total",
        "Saves of the store, failed ones too.",
        metrics.saves.count,
    )?;
    let millis = counter(
        alloc,
        "save_milliseconds_total",
        "Milliseconds that saves took.",
        metrics.saves.millis,
    )?;
    two(alloc, saves.as_str(), millis.as_str())
}

fn of_server(alloc: Global, metrics: &Metrics<'_>) -> Result<String, AllocError>
    ensures { IfOk result (λ t. string_bytes t ≡ of_server metrics.now) }
{
    let connections = gauge(
        alloc,
        "open_connections",
        "Connections that are open.",
        metrics.traffic.connections,
    )?;
    let lost = counter(
        alloc,
        "lost_lines_total",
        "Lines that standard error did not take.",
        metrics.traffic.lost,
    )?;
    two(alloc, connections.as_str(), lost.as_str())
}

fn of_agreement(alloc: Global, is_unanimous: Option<bool>) -> Result<String, AllocError>
    ensures { IfOk result (λ t. string_bytes t ≡ of_agreement is_unanimous) }
{
    match is_unanimous {
        None => Ok(String::new(alloc)),
        Some(is_unanimous) => flag(
            alloc,
            "digests_agree",
            "Whether no member that was compared has applied other commands.",
            is_unanimous,
        ),
    }
}

fn of_others(alloc: Global, among: Among) -> Result<String, AllocError>
    ensures { IfOk result (λ t. string_bytes t ≡ of_others among) }
{
    let chosen = gauge(
        alloc,
        "chosen_slots",
        "Slots that are chosen, as far as the node knows.",
        among.chosen,
    )?;
    let foreign = counter(
        alloc,
        "foreign_members_total",
        "Members that began to have other peers or another kit.",
        among.foreign,
    )?;
    let agreement = of_agreement(alloc, among.is_unanimous)?;
    let rest = two(alloc, foreign.as_str(), agreement.as_str())?;
    two(alloc, chosen.as_str(), rest.as_str())
}

#[tactic(auto, unfolding(crate::specs::Metrics::count_line))]
fn count_line(alloc: Global, count: Count) -> Result<String, AllocError>
    ensures { IfOk result (λ t. string_bytes t ≡ count_line count) }
{
    let Count { status, requests } = count;
    format!(in alloc; "press_requests_total{{status=\"{status}\"}} {requests}\n")
}

fn push_count(text: &mut String, alloc: Global, count: Count) -> Result<(), AllocError>
    ensures { OnOk result (string_bytes text.new ≡ string_bytes text.old ++ count_line count) }
{
    let line = count_line(alloc, count)?;
    text.push_str(line.as_str())
}

#[tactic(auto, unfolding(crate::specs::Metrics::of_requests))]
fn of_requests(alloc: Global, counts: &[Count]) -> Result<String, AllocError>
    ensures { IfOk result (λ t. string_bytes t ≡ of_requests counts.now) }
{
    let mut text = String::from_str(
        alloc,
        "# HELP press_requests_total Requests that were answered, by status.\n# TYPE press_requests_total counter\n",
    )?;
    for count in counts {
        push_count(&mut text, alloc, *count)?;
    }
    Ok(text)
}

// What is told of the server, its store among it.
fn beside_node(alloc: Global, metrics: &Metrics<'_>) -> Result<String, AllocError>
    ensures { IfOk result (λ t. string_bytes t ≡ of_store metrics.now
        ++ (of_server metrics.now ++ of_requests metrics.now.counts.now)) }
{
    let store = of_store(alloc, metrics)?;
    let server = of_server(alloc, metrics)?;
    let requests = of_requests(alloc, metrics.counts)?;
    let rest = two(alloc, server.as_str(), requests.as_str())?;
    two(alloc, store.as_str(), rest.as_str())
}

#[tactic(auto, unfolding(crate::specs::Metrics::page_of))]
fn page_of(alloc: Global, metrics: &Metrics<'_>) -> Result<String, AllocError>
    ensures { IfOk result (λ t. string_bytes t ≡ page_of metrics.now) }
{
    let node = of_node(alloc, metrics)?;
    let others = of_others(alloc, metrics.among)?;
    let beside = beside_node(alloc, metrics)?;
    let rest = two(alloc, others.as_str(), beside.as_str())?;
    two(alloc, node.as_str(), rest.as_str())
}

#[tactic(auto, unfolding(crate::specs::Metrics::reply_of))]
fn reply_of(alloc: Global, page: &str) -> Result<String, AllocError>
    ensures { IfOk result (λ t. string_bytes t ≡ reply_of page.now) }
{
    let count = page.len();
    format!(in alloc;
        "HTTP/1.1 200 OK\r\nContent-Type: text/plain; version=0.0.4; charset=UTF-8\r\nContent-Length: {count}\r\nConnection: close\r\n\r\n{page}"
    )
}

/// Tells how a server stands.
pub fn show_metrics(
    alloc: Global,
    metrics: &Metrics<'_>,
    told: &mut Vec<u8>,
) -> Result<u16, HttpFault>
    ensures { IfOk result (λ status. (status ≡ 200) × Appends (Some told.old.items)
        (Some told.new.items) (reply_of (page_of metrics.now))) }
{
    let page = page_of(alloc, metrics)?;
    let reply = reply_of(alloc, page.as_str())?;
    match write_once(told, reply.as_bytes()) {
        Ok(()) => Ok(200),
        Err(_) => Err(HttpFault::WriteFault),
    }
}
