//! What a node answers, as bytes.

ghost use Rattle.std.specs.Io.KnownBytes.{Appends};
ghost use Rattle.std.specs.Prelude.{◌≡◌, IfErr, IfOk, OnErr, Some};
ghost use Rattle.press_text.specs.Streams.{AppendsProperFront};
ghost use Rattle.press_http.specs.Replies.{fault_bytes};
ghost use Rattle.press_node.specs.Nodes.{kit_of, state_of};
ghost use Rattle.press_node.specs.Serving.{Tells, TellsFront, status_of_node};
ghost use Rattle.press_operator.specs.Desk.{ShowsDesk, ShowsDeskFront, TellsFault, TellsFaultFront};

use crate::operator_options::{refuse_for_now, refuse_without_memory};
use press_http::{DeskRequest, HttpFault, write_fault, write_reply};
use press_log::show_log;
use press_node::{Node, NodeFault};
use press_page::Reply;
use std::alloc::Global;

/// A request is refused; the connection of one that isn't whole is closed without a reply.
pub fn refuse(fault: HttpFault, told: &mut Vec<u8>) -> Result<u16, HttpFault>
    ensures told { IfOk result (TellsFault fault (Some told.old.items) (Some told.new.items)) }
    ensures left { IfErr result (TellsFaultFront fault (Some told.old.items)
        (Some told.new.items)) }
{
    match fault.status() {
        Some(status) => {
            write_fault(told, status)?;
            Ok(status)
        }
        None => Err(fault),
    }
}

/// A node refuses what it is asked.
pub fn refuse_by(fault: NodeFault, told: &mut Vec<u8>) -> Result<u16, HttpFault>
    ensures told { IfOk result (λ status. (status ≡ status_of_node fault)
        × Appends (Some told.old.items) (Some told.new.items) (fault_bytes status)) }
    ensures left { OnErr result (AppendsProperFront (Some told.old.items) (Some told.new.items)
        (fault_bytes (status_of_node fault))) }
    ensures fault { IfErr result (λ e. e ≡ HttpFault.WriteFault) }
{
    let status = fault.status();
    write_fault(told, status)?;
    Ok(status)
}

/// Writes a reply; without memory for its head, 503 in its place.
pub fn tell_reply(alloc: Global, reply: &Reply, told: &mut Vec<u8>) -> Result<u16, HttpFault>
    ensures told { IfOk result (Tells (Some told.old.items) (Some told.new.items) reply.now) }
    ensures left { OnErr result (TellsFront (Some told.old.items) (Some told.new.items) reply.now) }
    ensures fault { IfErr result (λ e. e ≡ HttpFault.WriteFault) }
{
    match write_reply(alloc, told, reply) {
        Ok(()) => Ok(reply.status),
        Err(HttpFault::NoMemory) => refuse_without_memory(told),
        Err(fault) => Err(fault),
    }
}

/// What editors see of a node.
pub fn tell_desk<S>(
    alloc: Global,
    node: &Node<S>,
    asked: Result<DeskRequest, HttpFault>,
    told: &mut Vec<u8>,
) -> Result<u16, HttpFault>
    ensures told { IfOk result (ShowsDesk (kit_of node.now) (state_of node.now) asked
        (Some told.old.items) (Some told.new.items)) }
    ensures left { IfErr result (ShowsDeskFront (kit_of node.now) (state_of node.now) asked
        (Some told.old.items) (Some told.new.items)) }
{
    match asked {
        Err(fault) => refuse(fault, told),
        Ok(DeskRequest::Show(asked)) => match node.show_desk(asked) {
            Ok(reply) => tell_reply(alloc, &reply, told),
            Err(fault) => refuse_by(fault, told),
        },
        Ok(DeskRequest::Log { .. }) if node.is_down() => refuse_by(NodeFault::Down, told),
        Ok(DeskRequest::Log { from }) => {
            let reply = show_log(alloc, node.values(), from)?;
            tell_reply(alloc, &reply, told)
        }
    }
}
