//! One request that goes out to a member, from its begin to its end.

ghost use Rattle.std.specs.Prelude.{◌≡◌, ◌++◌, ◌-◌, ◌<◌, ◌≤◌, IfOk, IsFalse, IsTrue, false, length, option_map, take};
ghost use Rattle.press_net.specs.Lanes.{HasSameAim, request_by, is_call_late, is_out, reply_in, request_of, stream_left};

use crate::answers::{Errand, Outgoing};
use crate::reply::is_whole;
use crate::write_buffer::WriteBuffer;
use mio::net::TcpStream;
use std::alloc::{AllocError, Global};
use std::io;
use std::io::{ErrorKind, Read};
use std::time::{Duration, Instant};

const PIECE: usize = 8192;

// The most pieces of a reply that are drained at once: more than are looked at.
const MOST_AWAY: u32 = 160;

// How many bytes of a reply are looked at: a batch, and a head.
const LONGEST: usize = 1_049_088;

// Its time limit.
const LIMIT_SECONDS: u64 = 2;

// How long others may wait for it to be out.
const OUT_MILLIS: u64 = 2;

/// How far a request is.
#[derive(Clone, Copy, PartialEq, Eq)]
pub enum Course {
    Goes,
    /// Its reply came.
    Whole,
    Lost,
}

/// A request that goes out.
pub struct OutgoingConnection {
    stream: TcpStream,
    // For which member it is.
    place: usize,
    errand: Errand,
    request: WriteBuffer,
    reply: Vec<u8>,
    begun: Instant,
    course: Course,
    // Whether its reply is whole by what its head says, so that its connection may take another
    // request.
    is_kept: bool,
}

impl Drop for OutgoingConnection {
    fn drop(self) {
        let OutgoingConnection {
            stream: _,
            place: _,
            errand: _,
            request: _,
            reply: _,
            begun: _,
            course: _,
            is_kept: _,
        } = self;
    }
}

impl OutgoingConnection {
    /// A request that goes out over a stream that is being connected.
    pub fn new(
        alloc: Global,
        stream: TcpStream,
        outgoing: Outgoing,
        begun: Instant,
    ) -> OutgoingConnection
        ensures request { request_of result ≡ request_by outgoing }
        ensures begun { result.begun ≡ begun }
        ensures stream { result.stream ≡ stream }
        ensures kept { result.is_kept ≡ false }
    {
        let Outgoing {
            place,
            bytes,
            errand,
        } = outgoing;
        OutgoingConnection {
            stream,
            place,
            errand,
            request: WriteBuffer::new(bytes),
            reply: Vec::new(alloc),
            begun,
            course: Course::Goes,
            is_kept: false,
        }
    }

    /// Ends it, and returns its connection, if another request may go over that.
    pub fn into_stream(self) -> Option<TcpStream>
        ensures { result ≡ stream_left self }
    {
        let OutgoingConnection {
            stream,
            place: _,
            errand: _,
            request: _,
            reply: _,
            begun: _,
            course: _,
            is_kept,
        } = self;
        if is_kept {
            return Some(stream);
        }
        None
    }

    /// Its socket, for the poll.
    pub fn stream(&mut self) -> &mut TcpStream {
        &mut self.stream
    }

    /// For which member it is.
    pub fn place(&self) -> usize
        ensures { result ≡ self.now.place }
    {
        self.place
    }

    /// The reply to it, as far as it is looked at.
    pub fn reply(&self) -> &[u8]
        ensures { result.now ≡ self.now.reply.items }
    {
        &self.reply
    }

    pub fn errand(&self) -> Errand
        ensures { result ≡ self.now.errand }
    {
        self.errand
    }

    /// Whether all of it is out, or it had two milliseconds for that.
    pub fn is_out(&self, now: Instant) -> bool
        ensures { result ≡ is_out now self.now }
    {
        self.request.bytes.len() <= self.request.sent_count()
            || Duration::from_millis(OUT_MILLIS) <= now.duration_since(self.begun)
    }

    pub fn course(&self) -> Course
        ensures { result ≡ self.now.course }
    {
        self.course
    }

    /// What is told of it: nothing while it goes, and an empty reply where it is lost.
    pub fn final_reply(&self) -> Option<&[u8]>
        ensures { option_map (λ reply. reply.now) result ≡
            reply_in self.now.course self.now.reply.items }
    {
        match self.course() {
            Course::Goes => None,
            Course::Whole => Some(self.reply()),
            Course::Lost => Some(&[]),
        }
    }

    /// Whether its time is over.
    pub fn is_late(&self, now: Instant) -> bool
        ensures { result ≡ is_call_late now self.now }
    {
        Duration::from_secs(LIMIT_SECONDS) <= now.duration_since(self.begun)
    }

    /// Sends the request as far as the socket takes it: none of it before it is connected. Returns
    /// whether it is out.
    pub fn send(&mut self) -> io::Result<bool>
        ensures whole { IfOk result (λ whole. IsTrue whole →
            length self.new.request.bytes.items ≤ self.new.request.sent) }
        ensures left { IfOk result (λ whole. IsFalse whole →
            self.new.request.sent < length self.new.request.bytes.items) }
        ensures same { HasSameAim self.new self.old }
    {
        match self.request.send(&mut self.stream) {
            Err(e) if e.kind() == ErrorKind::NotConnected => Ok(false),
            sent => sent,
        }
    }

    fn hear(&mut self, piece: &[u8]) -> Result<(), AllocError>
        ensures heard { IfOk result (λ _. self.new.reply.items ≡
            self.old.reply.items ++ take (1049088 - length self.old.reply.items) piece.now) }
        ensures same { HasSameAim self.new self.old }
    {
        let room = LONGEST.saturating_sub(self.reply.len());
        let front = piece.get(..room).unwrap_or(piece);
        self.reply.extend_from_slice(front)
    }

    // Drains the reply, until it ends, or is whole.
    fn read_away(&mut self) -> io::Result<()>
        ensures { HasSameAim self.new self.old }
    {
        let mut piece = [0u8; PIECE];
        for _ in 0..MOST_AWAY {
            match self.stream.read(&mut piece) {
                Ok(0) => {
                    self.course = Course::Whole;
                    return Ok(());
                }
                Ok(n) => self.hear(&piece[..n])?,
                Err(e) if e.kind() == ErrorKind::WouldBlock => return Ok(()),
                Err(e) => return Err(e),
            }
            if is_whole(&self.reply) {
                self.is_kept = true;
                self.course = Course::Whole;
                return Ok(());
            }
        }
        Ok(())
    }

    fn go_on(&mut self) -> io::Result<()>
        ensures { HasSameAim self.new self.old }
    {
        if self.send()? {
            self.read_away()?;
        }
        Ok(())
    }

    /// Does what its socket is ready for.
    pub fn step(&mut self)
        ensures { HasSameAim self.new self.old }
    {
        if self.go_on().is_err() {
            self.course = Course::Lost;
        }
    }
}
