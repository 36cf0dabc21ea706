//! A node, and the messages that wait for it.

ghost use Rattle.std.specs.Prelude.{◌≡◌};

use crate::lines::{done_line, kind_of, sent_line, store_line};
use crate::piece_reader::PieceReader;
use crate::posts::post;
use crate::store::{Failing, mend};
use crate::word::Turn;
use press_apply::Stamped;
use press_callbacks::Kit;
use press_http::HttpFault;
use press_node::{Event, Node, NodeFault, Served, StartFault, serve_one};
use press_wire::{MemberId, Message};
use std::alloc::{AllocError, Global};
use std::collections::VecDeque;
use std::io;
use std::io::{Read, Write};

const FRONT: &[u8] = b"GET / HTTP/1.1\r\nHost: a\r\n\r\n";

/// A node by itself, the messages that it sent to itself, and in what pieces its connections come.
pub struct Seat {
    node: Node<Failing>,
    waiting: VecDeque<Message>,
    size: usize,
    alloc: Global,
}

impl Drop for Seat {
    fn drop(self) {
        let Seat {
            node: _,
            waiting: _,
            size: _,
            alloc: _,
        } = self;
    }
}

// The only member.
fn member() -> MemberId
    ensures { result ≡ 1 }
{
    let Some(member) = MemberId::new(1) else {
        unreachable!()
    };
    member
}

fn start_error(fault: StartFault<Failing>) -> anyhow::Error {
    anyhow::anyhow!("no start: {}", fault.fault)
}

impl Seat {
    pub fn start(alloc: Global, kit: Kit, store: Failing, size: usize) -> anyhow::Result<Seat> {
        match Node::start(alloc, member(), 1, kit, store) {
            Ok(node) => Ok(Seat {
                node,
                waiting: VecDeque::new(alloc),
                size,
                alloc,
            }),
            Err(fault) => Err(start_error(fault)),
        }
    }

    pub fn size(&self) -> usize {
        self.size
    }

    pub fn applied(&self) -> u64 {
        self.node.applied()
    }

    // Puts messages at the end of those that wait; returns how many.
    fn wait(&mut self, outbox: Vec<Message>) -> Result<usize, AllocError> {
        let count = outbox.len();
        for message in outbox {
            self.waiting.push_back(message)?;
        }
        Ok(count)
    }

    // Plays an event; returns how many messages it sent.
    fn on(&mut self, event: Event) -> Result<usize, NodeFault>
        requires always { Unit {0} }
    {
        let outbox = self.node.on(event)?;
        match self.wait(outbox) {
            Ok(count) => Ok(count),
            Err(AllocError) => Err(NodeFault::NoMemory),
        }
    }

    /// Plays one turn; returns the line of its result.
    pub fn play(&mut self, turn: Turn) -> anyhow::Result<String>
        requires always { Unit {0} }
    {
        match turn {
            Turn::Wake => Ok(self.wake()?),
            Turn::Deliver => Ok(self.deliver()?),
            Turn::Settle => Ok(self.settle()?),
            Turn::Fill(count) => self.fill(count),
        }
    }

    fn wake(&mut self) -> Result<String, AllocError>
        requires always { Unit {0} }
    {
        let done = self.on(Event::Wake);
        sent_line(self.alloc, "wake", self.applied(), done)
    }

    // Delivers the oldest message.
    fn deliver(&mut self) -> Result<String, AllocError>
        requires always { Unit {0} }
    {
        let Some(message) = self.waiting.pop_front() else {
            return format!(in self.alloc; "deliver: nothing waits\n");
        };
        let what = format!(in self.alloc; "deliver {}", kind_of(&message.body))?;
        let done = self.on(Event::Deliver(message));
        sent_line(self.alloc, what.as_str(), self.applied(), done)
    }

    // Delivers messages as long as any waits; returns how many.
    fn deliver_all(&mut self, delivered: &mut u64) -> Result<(), NodeFault>
        requires always { Unit {0} }
    {
        for _ in 0..u64::MAX {
            let Some(message) = self.waiting.pop_front() else {
                return Ok(());
            };
            self.on(Event::Deliver(message))?;
            *delivered = delivered.saturating_add(1);
        }
        Ok(())
    }

    // Delivers messages until none waits, or one meets a fault.
    fn settle(&mut self) -> Result<String, AllocError>
        requires always { Unit {0} }
    {
        let mut delivered = 0;
        let fault = self.deliver_all(&mut delivered).err();
        let what = format!(in self.alloc; "settle: {delivered} delivered")?;
        done_line(self.alloc, what.as_str(), self.applied(), fault)
    }

    // Submits this many commands, until one meets a fault.
    fn fill(&mut self, count: u32) -> anyhow::Result<String>
        requires always { Unit {0} }
    {
        let (mut queued, mut fault) = (0, None);
        for seq in 0..count {
            let command = post(self.alloc, seq)?;
            fault = self.on(Event::Submit(command)).err();
            if fault.is_some() {
                break;
            }
            queued = seq + 1;
        }
        let what = format!(in self.alloc; "fill={count}: {queued} queued")?;
        let line = done_line(self.alloc, what.as_str(), self.applied(), fault)?;
        Ok(line)
    }

    /// Serves the bytes of one connection.
    pub fn serve(&mut self, name: &str, bytes: &[u8]) -> anyhow::Result<Vec<u8>>
        requires always { Unit {0} }
    {
        let mut reader = PieceReader::new(bytes, self.size);
        let mut reply = Vec::new(self.alloc);
        match serve_one(&mut self.node, &mut reader, &mut reply) {
            Ok(Served { status, outbox }) => {
                let count = self.wait(outbox)?;
                let applied = self.applied();
                let line = format!(in self.alloc;
                    "{name}: {status}, {count} to send, k={applied}\n"
                )?;
                let mut said = line.into_bytes();
                said.extend_from_slice(&reply)?;
                said.extend_from_slice(b"|\n")?;
                Ok(said)
            }
            Err(fault) => {
                let line = format!(in self.alloc; "{name}: closed, {fault}\n")?;
                Ok(line.into_bytes())
            }
        }
    }

    /// Submits a command, which is then chosen.
    pub fn choose(&mut self, command: Stamped) -> Result<(), NodeFault>
        requires always { Unit {0} }
    {
        self.on(Event::Submit(command))?;
        self.go_on()
    }

    /// Wakes the node, and delivers messages until none waits.
    pub fn go_on(&mut self) -> Result<(), NodeFault>
        requires always { Unit {0} }
    {
        self.on(Event::Wake)?;
        self.deliver_all(&mut 0)
    }

    /// The reply to the bytes of one connection in one piece.
    pub fn reply_to(&mut self, bytes: &[u8]) -> anyhow::Result<Vec<u8>>
        requires always { Unit {0} }
    {
        let mut reader = PieceReader::new(bytes, bytes.len());
        let mut reply = Vec::new(self.alloc);
        self.serve_on(&mut reader, &mut reply)?;
        Ok(reply)
    }

    pub fn store(&self) -> &Failing {
        self.node.store()
    }

    /// The node as it is seen: how many values it has applied, what it stores, and its front page.
    pub fn snapshot(&mut self) -> anyhow::Result<Vec<u8>>
        requires always { Unit {0} }
    {
        let page = self.reply_to(FRONT)?;
        let (k, store) = (self.node.applied(), self.node.store());
        let mut seen = format!(in self.alloc; "{k} {store:?}")?.into_bytes();
        seen.extend_from_slice(&page)?;
        Ok(seen)
    }

    /// Serves a connection; the status of its reply.
    pub fn serve_on<R: Read, W: Write>(
        &mut self,
        reader: &mut R,
        writer: &mut W,
    ) -> Result<u16, HttpFault>
        requires always { Unit {0} }
    {
        let Served { status, outbox } = serve_one(&mut self.node, reader, writer)?;
        match self.wait(outbox) {
            Ok(_) => Ok(status),
            Err(AllocError) => Err(HttpFault::NoMemory),
        }
    }

    /// Ends the node, and starts one over this store; what waited is dropped.
    pub fn start_over(self, store: Failing) -> anyhow::Result<Seat>
        requires always { Unit {0} }
    {
        let Seat {
            node,
            waiting: _,
            size,
            alloc,
        } = self;
        let (kit, _) = node.down();
        Seat::start(alloc, kit, store, size)
    }

    /// Serves the bytes of one connection in one piece, and drops its reply.
    pub fn serve_away(&mut self, bytes: &[u8])
        requires always { Unit {0} }
    {
        let mut reader = PieceReader::new(bytes, bytes.len());
        let _ = serve_one(&mut self.node, &mut reader, &mut io::sink());
    }

    /// Ends the node, drops what waits, and starts a node over what the store keeps.
    pub fn stop(self) -> anyhow::Result<(Seat, String)>
        requires always { Unit {0} }
    {
        let Seat {
            node,
            waiting: _,
            size,
            alloc,
        } = self;
        let (kit, store) = node.down();
        let line = store_line(alloc, store.memory())?;
        let seat = Seat::start(alloc, kit, mend(store), size)?;
        Ok((seat, line))
    }
}
