//! One connection, from its beginning to its end.

ghost use Rattle.std.specs.Prelude.{◌≡◌, ◌≢◌, ◌≤◌, ◌⊎◌, ◌||◌, [], false, IfOk, IsFalse, IsOk, IsTrue, if◌then◌else◌, length, nat_le, nat_lt};
ghost use Rattle.press_net.specs.declared.connection.Phase.TheVariants.{Ending, Reading, Writing};
ghost use Rattle.press_net.specs.Talking.{IsAnswered, is_due, is_held_as, is_late, is_member, is_reading, is_resting, is_stalled, may_stay, phase_behind};

use crate::answers::Answers;
use crate::request_buffer::RequestBuffer;
use crate::write_buffer::WriteBuffer;
use mio::net::TcpStream;
use press_http::HttpFault;
use press_text::write_once;
use std::alloc::{AllocError, Global};
use std::io;
use std::io::{ErrorKind, Read, Write};
use std::net::{IpAddr, Shutdown};
use std::time::{Duration, Instant};

const PIECE: usize = 8192;

// The most pieces that are read at once.
const MOST_PIECES: u32 = 10;

// The most pieces that are drained at once.
const MOST_AWAY: u32 = 64;

// The time limit of all its reads and writes together.
const LIMIT_SECONDS: u64 = 10;

// A reply of which nothing was taken for so many seconds is stalled.
const STALL_SECONDS: u64 = 1;

// The status of a reply that has a client come again later.
const UNAVAILABLE: u16 = 503;

// The status of a reply to what was taken.
const TAKEN: u16 = 200;

// The status of a reply to bytes that are no message.
const MISUNDERSTOOD: u16 = 400;

#[derive(Clone, Copy, PartialEq, Eq)]
pub enum Phase {
    /// The request isn't whole yet.
    Reading,
    /// The reply isn't out yet.
    Writing,
    /// The reply is out, and what still comes is drained: a close with bytes unread would reset the
    /// connection, and the client could lose the reply.
    Ending,
    Over,
}

/// Whose a connection is, as it came.
#[derive(Clone, Copy, PartialEq, Eq)]
pub enum Group {
    /// Of an address that had a quarter of the places already.
    Surplus,
    /// Of another.
    Within,
    /// Of an address of a member, whatever it had.
    Member,
}

impl Group {
    /// Whether it is a member's.
    pub fn is_member(self) -> bool
        ensures { result ≡ is_member self }
    {
        match self {
            Group::Surplus | Group::Within => false,
            Group::Member => true,
        }
    }
}

/// How a connection came.
#[derive(Clone, Copy)]
pub struct Arrival {
    pub from: IpAddr,
    /// How many came before it.
    pub number: u64,
    pub begun: Instant,
    pub group: Group,
}

/// A connection to a client: its request so far, then its reply. One of a member may have another
/// request behind that.
pub struct Connection {
    stream: TcpStream,
    pub arrival: Arrival,
    phase: Phase,
    came: RequestBuffer,
    told: WriteBuffer,
    // More may be there to be read than was read, though nothing else comes.
    has_more: bool,
    // When its socket last took some of the reply, or the reply was made.
    taken: Instant,
    // Whether its reply waits until it is let out.
    is_held: bool,
    // Whether it stays open behind a reply, for another request: a member's does, whose batch was
    // taken.
    is_kept: bool,
    alloc: Global,
}

impl Drop for Connection {
    fn drop(self) {
        let Connection {
            stream: _,
            arrival: _,
            phase: _,
            came: _,
            told: _,
            has_more: _,
            taken: _,
            is_held: _,
            is_kept: _,
            alloc: _,
        } = self;
    }
}

/// Writes a line; one that can't be written is dropped.
pub fn log_line<E: Write>(log: &mut E, line: &str) {
    let _ = write_once(log, line.as_bytes());
}

// Writes the line of a connection, where there was memory for it.
fn write_line<E: Write>(log: &mut E, line: Result<String, AllocError>) {
    if let Ok(line) = line {
        log_line(log, &line);
    }
}

/// A line says whose connection was closed, and why.
pub fn log_close<E: Write>(alloc: Global, log: &mut E, from: IpAddr, why: &str) {
    write_line(log, format!(in alloc; "{from} closed: {why}\n"));
}

impl Connection {
    pub fn new(alloc: Global, stream: TcpStream, arrival: Arrival) -> Connection
        ensures reads { result.phase ≡ Reading }
        ensures arrival { result.arrival ≡ arrival }
        ensures none { (result.came.bytes.items ≡ []) × (result.told.bytes.items ≡ []) }
        ensures sent { result.told.sent ≡ 0 }
    {
        Connection {
            stream,
            arrival,
            phase: Phase::Reading,
            came: RequestBuffer::new(alloc),
            told: WriteBuffer::new(Vec::new(alloc)),
            has_more: false,
            taken: arrival.begun,
            is_held: false,
            is_kept: false,
            alloc,
        }
    }

    pub fn phase(&self) -> Phase
        ensures { result ≡ self.now.phase }
    {
        self.phase
    }

    /// Its number among all that have come.
    pub fn number(&self) -> u64
        ensures { result ≡ self.now.arrival.number }
    {
        self.arrival.number
    }

    /// The address from which it came.
    pub fn from(&self) -> IpAddr
        ensures { result ≡ self.now.arrival.from }
    {
        self.arrival.from
    }

    /// Whose it is.
    pub fn group(&self) -> Group
        ensures { result ≡ self.now.arrival.group }
    {
        self.arrival.group
    }

    /// Whether more may be read from it at once.
    pub fn has_more(&self) -> bool
        ensures { result ≡ self.now.has_more }
    {
        self.has_more
    }

    /// Whether its reply is made and waits until it is let out, as one does that has an editor's
    /// client come again later.
    pub fn is_held(&self) -> bool
        ensures { result ≡ self.now.is_held }
    {
        self.is_held
    }

    /// Whether it is the one of that number, and its reply is held.
    pub fn is_held_as(&self, number: u64) -> bool
        ensures { result ≡ is_held_as number self.now }
    {
        self.number() == number && self.is_held()
    }

    /// Its socket, for the poll.
    pub fn stream(&mut self) -> &mut TcpStream {
        &mut self.stream
    }

    /// Whether its time is over.
    pub fn is_late(&self, now: Instant) -> bool
        ensures { result ≡ is_late now self.now }
    {
        Duration::from_secs(LIMIT_SECONDS) <= now.duration_since(self.arrival.begun)
    }

    /// Whether its socket took nothing of its reply for a second or more.
    pub fn is_stalled(&self, now: Instant) -> bool
        ensures { result ≡ is_stalled now self.now }
    {
        self.phase == Phase::Writing
            && Duration::from_secs(STALL_SECONDS) <= now.duration_since(self.taken)
    }

    /// Gives it up before its request was whole: a line says why.
    pub fn give_up<E: Write>(self, log: &mut E, why: &str) {
        log_close(self.alloc, log, self.arrival.from, why);
    }

    fn log_fault<E: Write>(&self, log: &mut E, fault: HttpFault) {
        let from = self.arrival.from;
        write_line(log, format!(in self.alloc; "{from} closed: {fault}\n"));
    }

    fn log_request<E: Write>(&self, log: &mut E, status: u16) {
        let (from, count) = (self.arrival.from, self.told.bytes.len());
        let (method, target) = self.came.method_and_target();
        write_line(
            log,
            format!(in self.alloc; "{from} {method} {target} {status} {count}\n"),
        );
    }

    // Whether its first line has it as one of a member's messages, or more of them.
    fn is_message(&self) -> bool {
        let (method, target) = self.came.method_and_target();
        method == "POST" && (target == "/members" || target == "/peer")
    }

    // Whether it stays open behind a reply of that status.
    fn stays_open(&self, ended: bool, status: u16) -> bool
        ensures { IsTrue result → IsTrue (may_stay ended status self.now.arrival.group) }
    {
        !ended
            && status == TAKEN
            && self.group().is_member()
            && self.came.method_and_target() == ("POST", "/members")
    }

    // Of a connection that stays open the first reply alone gets a line.
    fn log_reply<E: Write>(&self, log: &mut E, status: u16, is_kept: bool) {
        if !(self.is_kept && is_kept) {
            self.log_request(log, status);
        }
        self.log_misunderstood(log, status);
    }

    // A member's message that isn't understood gets a line: a program of another version may have
    // sent it.
    fn log_misunderstood<E: Write>(&self, log: &mut E, status: u16) {
        if status == MISUNDERSTOOD && self.is_message() && self.group().is_member() {
            let from = self.arrival.from;
            write_line(
                log,
                format!(in self.alloc;
                    "{from} sent a message that isn't understood: is its program of another version?\n"
                ),
            );
        }
    }

    // Whether what came is to be looked at before more is read: a request mostly comes at once, and
    // behind one that is whole only a member's connection stays open.
    fn is_enough(&self) -> bool {
        self.came.is_due() && !self.is_message()
    }

    // Reads what has come of the request, as far as it is to be looked at; returns whether the
    // input has ended.
    fn gather(&mut self) -> io::Result<bool>
        ensures phase { self.new.phase ≡ self.old.phase }
        ensures kept { self.new.is_kept ≡ self.old.is_kept }
    {
        let mut piece = [0u8; PIECE];
        for _ in 0..MOST_PIECES {
            match self.stream.read(&mut piece) {
                Ok(0) => return Ok(true),
                Ok(n) => self.came.add(&piece[..n])?,
                Err(e) if e.kind() == ErrorKind::WouldBlock => return Ok(false),
                Err(e) => return Err(e),
            }
            if self.is_enough() {
                break;
            }
        }
        self.has_more = true;
        Ok(false)
    }

    // Looks at what came, if that is due; returns whether the connection had its turn.
    fn answer_if_whole<A: Answers, E: Write>(
        &mut self,
        answers: &mut A,
        ended: bool,
        now: Instant,
        log: &mut E,
    ) -> bool
        requires always { Unit {0} }
        ensures ended { IsTrue ended → IsTrue result }
        ensures turn { IsTrue result → self.new.phase ≢ Reading }
        ensures waits { IsFalse result → self.new.phase ≡ self.old.phase }
        ensures came { self.new.came.bytes ≡ self.old.came.bytes }
        ensures asks { IsTrue (ended || is_due self.old) → IsAnswered A.answers ended
            answers.old self.old self.new answers.new }
        ensures asks_only { IsFalse (ended || is_due self.old) → (answers.new ≡ answers.old)
            × (self.new.told.bytes ≡ self.old.told.bytes) × (self.new.phase ≡ self.old.phase) }
        ensures arrival { self.new.arrival ≡ self.old.arrival }
        ensures made { self.old.phase ≢ Writing → self.new.phase ≡ Writing → self.new.taken ≡ now }
        // Nobody else's connection is ever to stay open.
        ensures kept { IsTrue self.new.is_kept → IsTrue self.old.is_kept
            ⊎ IsTrue (is_member self.old.arrival.group) }
        ensures becomes { A.becomes answers.old answers.new }
    {
        if !ended && !self.came.is_due() {
            return false;
        }
        match answers.answer(
            self.arrival.from,
            self.came.as_slice(),
            &mut self.told.bytes,
        ) {
            Ok(status) => {
                let is_kept = self.stays_open(ended, status);
                self.log_reply(log, status, is_kept);
                self.is_kept = is_kept;
                self.phase = Phase::Writing;
                self.taken = now;
                self.is_held = status == UNAVAILABLE
                    && self.came.method_and_target() == ("POST", "/command");
                true
            }
            Err(HttpFault::Ended) if !ended => {
                self.came.wait(self.alloc);
                false
            }
            Err(fault) => {
                self.log_fault(log, fault);
                self.phase = Phase::Over;
                true
            }
        }
    }

    fn hear<A: Answers, E: Write>(&mut self, answers: &mut A, now: Instant, log: &mut E) -> bool
        requires always { Unit {0} }
        ensures becomes { A.becomes answers.old answers.new }
        ensures turn { IsFalse result →
            (self.new.phase ≡ self.old.phase) ⊎ IsTrue self.old.is_kept }
    {
        match self.gather() {
            // Whoever leaves now, or is lost, has no request that could fail.
            Ok(true) | Err(_) if self.is_resting() => {
                self.phase = Phase::Over;
                false
            }
            Ok(ended) => {
                let had_turn = self.answer_if_whole(answers, ended, now, log);
                // What still comes behind that is drained once the reply is out.
                self.has_more &= !had_turn;
                had_turn
            }
            Err(_) => {
                self.log_fault(log, HttpFault::ReadFault);
                self.phase = Phase::Over;
                true
            }
        }
    }

    // Sends the reply as far as the socket takes it; returns whether all is out.
    fn send(&mut self, now: Instant) -> io::Result<bool>
        ensures phase { self.new.phase ≡ self.old.phase }
        ensures whole { IfOk result (λ whole.
            whole ≡ nat_le (length self.new.told.bytes.items) self.new.told.sent) }
        ensures same { self.new.told.bytes ≡ self.old.told.bytes }
        ensures kept { self.new.is_kept ≡ self.old.is_kept }
        ensures held { self.new.is_held ≡ self.old.is_held }
        ensures taken { self.new.taken ≡ (if nat_lt self.old.told.sent self.new.told.sent
            then now else self.old.taken) }
    {
        let before = self.told.sent_count();
        let is_out = self.told.send(&mut self.stream);
        if before < self.told.sent_count() {
            self.taken = now;
        }
        is_out
    }

    // Another request may come, with a time of its own. What came behind the last one is lost:
    // nothing was to come.
    fn begin_again(&mut self, now: Instant)
        ensures reads { self.new.phase ≡ Reading }
        ensures none { (self.new.came.bytes.items ≡ []) × (self.new.told.bytes.items ≡ []) }
        ensures sent { self.new.told.sent ≡ 0 }
        ensures begun { self.new.arrival.begun ≡ now }
        ensures held { self.new.is_held ≡ self.old.is_held }
        ensures whose { (self.new.arrival.from ≡ self.old.arrival.from)
            × (self.new.arrival.number ≡ self.old.arrival.number)
            × (self.new.arrival.group ≡ self.old.arrival.group) }
    {
        self.came = RequestBuffer::new(self.alloc);
        self.told = WriteBuffer::new(Vec::new(self.alloc));
        self.arrival.begun = now;
        self.phase = Phase::Reading;
    }

    // Behind a reply that is out another request may come, or the write side is shut.
    fn finish(&mut self, now: Instant) -> io::Result<()>
        ensures behind { IfOk result (λ _. self.new.phase ≡ phase_behind self.old.is_kept) }
        ensures group { self.new.arrival.group ≡ self.old.arrival.group }
        ensures held { self.new.is_held ≡ self.old.is_held }
    {
        if self.is_kept {
            self.begin_again(now);
            return Ok(());
        }
        self.stream.shutdown(Shutdown::Write)?;
        self.phase = Phase::Ending;
        Ok(())
    }

    // Whether it stayed open, and no other request has begun.
    fn is_resting(&self) -> bool
        ensures { result ≡ is_resting self.now }
    {
        self.is_kept && self.came.as_slice().is_empty()
    }

    // Drains what still comes.
    fn read_away(&mut self) -> io::Result<()>
        ensures { self.new.is_held ≡ self.old.is_held }
    {
        let mut piece = [0u8; PIECE];
        for _ in 0..MOST_AWAY {
            match self.stream.read(&mut piece) {
                Ok(0) => {
                    self.phase = Phase::Over;
                    return Ok(());
                }
                Ok(_) => {}
                Err(e) if e.kind() == ErrorKind::WouldBlock => return Ok(()),
                Err(e) => return Err(e),
            }
        }
        self.has_more = true;
        Ok(())
    }

    /// Lets its reply out.
    pub fn let_out(&mut self, now: Instant)
        ensures { self.new.is_held ≡ false }
    {
        self.is_held = false;
        self.taken = now;
        if self.send_reply(now).is_err() {
            self.phase = Phase::Over;
        }
    }

    // What is left to do after a look.
    fn send_reply(&mut self, now: Instant) -> io::Result<()>
        ensures held { self.new.is_held ≡ self.old.is_held }
        ensures reads { self.old.phase ≡ Reading → (self.new ≡ self.old) × IsOk result }
    {
        if self.phase == Phase::Writing && !self.is_held && self.send(now)? {
            self.finish(now)?;
        }
        if self.phase == Phase::Ending {
            self.read_away()?;
        }
        Ok(())
    }

    /// Does what its socket is ready for; returns whether the connection had its turn by that: a
    /// reply was made, or it was closed within a request.
    pub fn step<A: Answers, E: Write>(&mut self, answers: &mut A, now: Instant, log: &mut E) -> bool
        requires always { Unit {0} }
        ensures becomes { A.becomes answers.old answers.new }
        ensures turn { IsFalse result → IsTrue (is_reading self.old) →
            IsTrue (is_reading self.new) ⊎ IsTrue self.old.is_kept }
    {
        self.has_more = false;
        let had_turn = self.phase == Phase::Reading && self.hear(answers, now, log);
        if self.send_reply(now).is_err() {
            self.phase = Phase::Over;
        }
        had_turn
    }
}
