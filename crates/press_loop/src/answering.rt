//! What the receiving end of a connection makes of a request, and its answer.

ghost use Rattle.std.specs.Prelude.{◌≡◌, ◌≢◌, true, IfErr, IfOk, IfSome};
ghost use Rattle.std.specs.Io.KnownBytes.{Appends};
ghost use Rattle.press_http.specs.Replies.{fixed_reply, reply_bytes};
ghost use Rattle.press_node.specs.Serving.{status_of_node};
ghost use Rattle.press_loop.specs.Responses.{bytes_of, reply_for, reply_to, status_to, without_page};

use crate::alike::is_sent;
use press_apply::{Stamped, same_values_are_equal};
use press_http::{Asked, HttpFault, read_request, route, write_fault, write_reply};
use press_node::{NodeFault, queued_reply, taken_reply};
use press_page::{Reply, Target};
use press_wire::Message;
use press_world::{Played, ReplayFault, Step, World, WorldFault};
use std::alloc::Global;
use std::io::{Read, Write};

// A connection that fails, or carries something else, ends the run as a failed read does.
fn fault_of(fault: HttpFault) -> ReplayFault
    ensures schedule { result ≢ ReplayFault.BadSchedule }
    ensures memory { fault ≡ HttpFault.NoMemory → result ≡ ReplayFault.NoMemory }
    ensures others { fault ≢ HttpFault.NoMemory → result ≡ ReplayFault.ReadFault }
{
    match fault {
        HttpFault::NoMemory => ReplayFault::NoMemory,
        _ => ReplayFault::ReadFault,
    }
}

fn parse_request<R: Read>(alloc: Global, reader: &mut R) -> Result<Asked, HttpFault> {
    let request = read_request(alloc, reader)?;
    route(alloc, &request)
}

fn is_same(target: &Target, other: &Target) -> bool
    ensures { result ≡ true → target.now ≡ other.now }
{
    match (target, other) {
        (Target::Front, Target::Front) => true,
        (Target::Post(id), Target::Post(other)) => *id == *other,
        (Target::Json(id), Target::Json(other)) => *id == *other,
        (Target::Result(token), Target::Result(other)) => {
            token.editor.is(&other.editor) && token.seq == other.seq
        }
        (_, _) => false,
    }
}

fn submit_from(step: &Step, came: Stamped) -> Option<Step>
    ensures { IfSome result (λ made. made ≡ step.now) }
{
    same_values_are_equal();
    match step {
        Step::Submit { node, command, cut } if command.is(&came) => Some(Step::Submit {
            node: *node,
            command: came,
            cut: *cut,
        }),
        _ => None,
    }
}

fn get_from(step: &Step, came: Target) -> Option<Step>
    ensures { IfSome result (λ made. made ≡ step.now) }
{
    match step {
        Step::Get { node, target } if is_same(target, &came) => Some(Step::Get {
            node: *node,
            target: came,
        }),
        _ => None,
    }
}

fn deliver_from(step: &Step, came: &Message, world: &World) -> Option<Step>
    ensures { IfSome result (λ made. made ≡ step.now) }
{
    match step {
        Step::Deliver { message, cut } if is_sent(world, *message, came) => Some(Step::Deliver {
            message: *message,
            cut: *cut,
        }),
        _ => None,
    }
}

/// The step of what the request on a connection asks, with node and cut of the schedule's step.
/// ReadFault where what came is something else than what the schedule has there; a message is the
/// one with the step's number.
pub fn step_from<R: Read>(
    alloc: Global,
    reader: &mut R,
    step: &Step,
    world: &World,
) -> Result<Step, ReplayFault>
    ensures step { IfOk result (λ came. came ≡ step.now) }
    ensures fault { IfErr result (λ e. e ≢ ReplayFault.BadSchedule) }
{
    let made = match parse_request(alloc, reader).map_err(fault_of)? {
        Asked::Command(command) => submit_from(step, command),
        Asked::Page(target) => get_from(step, target),
        Asked::Peer(message) => deliver_from(step, &message, world),
    };
    made.ok_or(ReplayFault::ReadFault)
}

// The reply to a step that asks for no page.
fn reply_without_page(alloc: Global, step: &Step) -> Reply
    ensures { result ≡ without_page step.now }
{
    match step {
        Step::Submit { .. } => queued_reply(alloc),
        Step::Wake { .. } | Step::Deliver { .. } | Step::Restart { .. } | Step::Get { .. } => {
            taken_reply(alloc)
        }
    }
}

fn tell<W: Write>(alloc: Global, writer: &mut W, reply: &Reply) -> Result<u16, HttpFault>
    ensures { IfOk result (λ status. (status ≡ reply.now.status)
        × Appends (W.contents writer.old) (W.contents writer.new) (reply_bytes reply.now)) }
{
    write_reply(alloc, writer, reply)?;
    Ok(reply.status)
}

#[tactic(auto, unfolding(press_http::specs::Replies::fault_bytes))]
fn refuse<W: Write>(writer: &mut W, fault: NodeFault) -> Result<u16, HttpFault>
    ensures { IfOk result (λ status. (status ≡ status_of_node fault)
        × Appends (W.contents writer.old) (W.contents writer.new)
        (reply_bytes (fixed_reply (status_of_node fault)))) }
{
    let status = fault.status();
    write_fault(writer, status)?;
    Ok(status)
}

fn tell_done<W: Write>(
    alloc: Global,
    writer: &mut W,
    step: &Step,
    played: &Played,
) -> Result<u16, HttpFault>
    ensures { IfOk result (λ status. (status ≡ (reply_for step.now played.now).status)
        × Appends (W.contents writer.old) (W.contents writer.new)
        (reply_bytes (reply_for step.now played.now))) }
{
    match &played.reply {
        Some(page) => tell(alloc, writer, page),
        None => tell(alloc, writer, &reply_without_page(alloc, step)),
    }
}

/// Answers a step as a node's connection does; returns the status of the reply, or None where the
/// connection is to close without one, as that of a node that was stopped.
#[tactic(auto, using(crate::proofs::Carried::unchanged))]
pub fn answer<W: Write>(
    alloc: Global,
    writer: &mut W,
    step: &Step,
    played: &Result<Played, WorldFault>,
) -> Result<Option<u16>, ReplayFault>
    ensures fault { IfErr result (λ e. e ≢ ReplayFault.BadSchedule) }
    ensures status { IfOk result (λ status. status ≡ status_to step.now played.now) }
    ensures bytes { IfOk result (λ _. Appends (W.contents writer.old) (W.contents writer.new)
        (bytes_of (reply_to step.now played.now))) }
{
    let status = match played {
        Ok(played) if played.stopped => return Ok(None),
        Ok(played) => tell_done(alloc, writer, step, played),
        Err(WorldFault::Node(fault)) => refuse(writer, *fault),
        Err(WorldFault::NoSuchMessage | WorldFault::NoSuchNode) => return Ok(None),
    };
    match status {
        Ok(status) => Ok(Some(status)),
        Err(fault) => Err(fault_of(fault)),
    }
}
