//! One request of a connection, from its bytes to the bytes of its reply.

ghost use Rattle.std.specs.Prelude.{◌≡◌, ◌≤◌, ℕ, List, [], length, IfOk, IfErr, OnErr};
ghost use Rattle.std.specs.Io.KnownBytes.{Appends, Consumes};
ghost use Rattle.press_text.specs.Streams.{AppendsProperFront};
ghost use Rattle.press_http.specs.Replies.{IsReplyStatus, fault_bytes};
ghost use Rattle.press_http.specs.Requests.{longest_request};
ghost use Rattle.press_node.specs.Nodes.{kit_of, node_move, state_of};
ghost use Rattle.press_node.specs.Serving.{
  AsksFor,
  IsAnswered,
  IsClosed,
  PlaysAndTells,
  queued_reply,
  Serves,
  Shows,
  ShowsFront,
  taken_reply,
  Tells,
  TellsFront,
  status_of_node,
};
ghost use Rattle.press_http.specs.Faults.{status_of};

use crate::event::Event;
use crate::fault::NodeFault;
use crate::node::Node;
use press_acceptor::PromiseStore;
use press_http::{Asked, HttpFault, read_request, route, write_fault, write_reply};
use press_page::{ContentKind, Reply, Target};
use press_text::Text;
use press_wire::Message;
use std::alloc::Global;
use std::io::{Read, Write};

/// What was replied on a connection, and what is to be sent because of it.
#[derive(Drop)]
pub struct Served {
    /// The status of the reply that was written.
    pub status: u16,
    /// In the order of sending; empty unless an event sends.
    pub outbox: Vec<Message>,
}

impl NodeFault {
    /// The status of the reply to the fault.
    pub fn status(self) -> u16
        ensures value { result ≡ status_of_node self }
        ensures told { IsReplyStatus result }
    {
        match self {
            NodeFault::TooLong => 413,
            NodeFault::Down
            | NodeFault::Full
            | NodeFault::SlotsUsedUp
            | NodeFault::RoundsUsedUp
            | NodeFault::Disk
            | NodeFault::Damaged
            | NodeFault::NoMemory => 503,
        }
    }
}

// What the request on a connection asks for.
fn parse_request<R: Read>(alloc: Global, reader: &mut R) -> Result<Asked, HttpFault>
    ensures { (seen : List ℕ) × Consumes (R.remaining reader.old) (R.remaining reader.new) seen ×
        (length seen ≤ longest_request) × AsksFor seen (R.remaining reader.new) result }
{
    match read_request(alloc, reader) {
        Ok(request) => route(alloc, &request),
        Err(fault) => Err(fault),
    }
}

// Writes a reply with a fixed body; nothing is to be sent.
fn refuse<W: Write>(alloc: Global, writer: &mut W, status: u16) -> Result<Served, HttpFault>
    requires { IsReplyStatus status }
    ensures ok { IfOk result
        (λ s. (s.status ≡ status) × (s.outbox.items ≡ []) ×
        Appends (W.contents writer.old) (W.contents writer.new) (fault_bytes status)) }
    ensures err { OnErr result
        (AppendsProperFront (W.contents writer.old) (W.contents writer.new) (fault_bytes status)) }
    ensures fault { IfErr result (λ e. e ≡ HttpFault.WriteFault) }
{
    match write_fault(writer, status) {
        Ok(()) => Ok(Served {
            status,
            outbox: Vec::new(alloc),
        }),
        Err(fault) => Err(fault),
    }
}

/// The reply that a command waits to be chosen. Its body is short, so it takes no memory.
pub fn queued_reply(alloc: Global) -> Reply
    ensures { result ≡ queued_reply }
{
    let Ok(body) = Text::from_str(alloc, "{\"queued\":true}") else {
        unreachable!()
    };
    Reply {
        status: 202,
        kind: ContentKind::Json,
        body,
    }
}

/// The reply that a message was taken.
pub fn taken_reply(alloc: Global) -> Reply
    ensures { result ≡ taken_reply }
{
    Reply {
        status: 200,
        kind: ContentKind::Text,
        body: Text::new(alloc),
    }
}

// Writes a reply; its outbox is to be sent. Without memory for its head, 503 is written in its
// place.
fn write_reply_or_503<W: Write>(
    alloc: Global,
    writer: &mut W,
    reply: &Reply,
    outbox: Vec<Message>,
) -> Result<Served, HttpFault>
    ensures outbox { IfOk result (λ s. s.outbox.items ≡ outbox.items) }
    ensures ok { IfOk result
        (λ s. Tells (W.contents writer.old) (W.contents writer.new) reply.now s.status) }
    ensures err { OnErr result (TellsFront (W.contents writer.old) (W.contents writer.new)
        reply.now) }
    ensures fault { IfErr result (λ e. e ≡ HttpFault.WriteFault) }
{
    match write_reply(alloc, writer, reply) {
        Ok(()) => Ok(Served {
            status: reply.status,
            outbox,
        }),
        Err(HttpFault::NoMemory) => match write_fault(writer, 503) {
            Ok(()) => Ok(Served {
                status: 503,
                outbox,
            }),
            Err(fault) => Err(fault),
        },
        Err(fault) => Err(fault),
    }
}

// Writes the page that is asked for, or 503 where the node is down or out of memory.
fn serve_page<S: PromiseStore, W: Write>(
    node: &Node<S>,
    writer: &mut W,
    target: &Target,
) -> Result<Served, HttpFault>
    ensures outbox { IfOk result (λ s. s.outbox.items ≡ []) }
    ensures ok { IfOk result
        (λ s. Shows (kit_of node.now) (state_of node.now).up target.now (W.contents writer.old)
        (W.contents writer.new) s.status) }
    ensures err { OnErr result
        (ShowsFront (kit_of node.now) (state_of node.now).up target.now (W.contents writer.old)
        (W.contents writer.new)) }
    ensures fault { IfErr result (λ e. e ≡ HttpFault.WriteFault) }
{
    match node.get(target) {
        Ok(reply) => write_reply_or_503(node.alloc, writer, &reply, Vec::new(node.alloc)),
        Err(_) => refuse(node.alloc, writer, 503),
    }
}

// Plays an event, and writes its reply or the reply to its fault.
fn serve_event<S: PromiseStore, W: Write>(
    node: &mut Node<S>,
    writer: &mut W,
    event: Event,
    reply: &Reply,
) -> Result<Served, HttpFault>
    ensures kit { kit_of node.new ≡ kit_of node.old }
    ensures plays { PlaysAndTells (node_move S.seen node.old node.new).plays event reply.now
        (W.contents writer.old) (W.contents writer.new) result }
{
    let alloc = node.alloc;
    match node.on(event) {
        Ok(outbox) => write_reply_or_503(alloc, writer, reply, outbox),
        Err(fault) => refuse(alloc, writer, fault.status()),
    }
}

// Answers a request that asks for nothing. A read that failed and an end before the whole request
// close the connection without a reply.
fn close<W: Write>(alloc: Global, writer: &mut W, fault: HttpFault) -> Result<Served, HttpFault>
    ensures { IsClosed fault (status_of fault) (W.contents writer.old) (W.contents writer.new)
        result }
{
    match fault.status() {
        Some(status) => refuse(alloc, writer, status),
        None => Err(fault),
    }
}

// Does what is asked and replies.
fn serve_request<S: PromiseStore, W: Write>(
    node: &mut Node<S>,
    writer: &mut W,
    asked: Asked,
) -> Result<Served, HttpFault>
    ensures kit { kit_of node.new ≡ kit_of node.old }
    ensures answered { IsAnswered (node_move S.seen node.old node.new) (W.contents writer.old)
        (W.contents writer.new) asked result }
{
    let alloc = node.alloc;
    match asked {
        Asked::Page(target) => {
            let served = serve_page(node, writer, &target);
            drop(target);
            served
        }
        Asked::Command(stamped) => {
            let reply = queued_reply(alloc);
            let served = serve_event(node, writer, Event::Submit(stamped), &reply);
            drop(reply);
            served
        }
        Asked::Peer(message) => {
            let reply = taken_reply(alloc);
            let served = serve_event(node, writer, Event::Deliver(message), &reply);
            drop(reply);
            served
        }
    }
}

/// Serves one request of a connection: reads it, does what it asks, and writes the reply; a refusal
/// is a reply too. The caller sends the outbox, and delivers what is for this node itself by
/// `Node::on`. Err closes the connection: after ReadFault or Ended nothing was done or written;
/// after WriteFault the reply is not whole, though a prefix of it may be out, the event is done,
/// and its messages are lost.
pub fn serve_one<S: PromiseStore, R: Read, W: Write>(
    node: &mut Node<S>,
    reader: &mut R,
    writer: &mut W,
) -> Result<Served, HttpFault>
    ensures kit { kit_of node.new ≡ kit_of node.old }
    ensures served { Serves (node_move S.seen node.old node.new) (R.remaining reader.old)
        (R.remaining reader.new) (W.contents writer.old) (W.contents writer.new) result }
{
    match parse_request(node.alloc, reader) {
        Ok(asked) => serve_request(node, writer, asked),
        Err(fault) => close(node.alloc, writer, fault),
    }
}
