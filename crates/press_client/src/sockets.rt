//! The members over sockets: a connection for each request, which is waited for.

ghost use Rattle.std.specs.Prelude.{◌<◌, ◌^◌, None};

use crate::exporting::Teller;
use crate::log::{LogFault, Piece};
use crate::newsroom::{FormAnswer, Newsroom, OutcomeAnswer};
use crate::replies::{piece_of_reply, taken_by, told_by};
use crate::requests::{command_request, log_request, outcome_request};
use press_apply::Stamped;
use press_net::{AddressBook, Listed};
use press_site::Token;
use press_text::{read_limited, write_once};
use press_wire::MOST_MEMBERS;
use std::alloc::{AllocError, Global};
use std::io::{ErrorKind, IsTerminal};
use std::net::{Net, OpenStream, SocketAddr};
use std::time::{Clock, Duration, Instant};
use std::{io, thread};
use thiserror::Error;

// How long a member may take to be reached, and for each read and write.
const MEMBER_SECONDS: u64 = 2;

// The longest reply that is read to a command or a question, and to one for a piece of a log: 64
// commands whose bytes are all escaped.
const LONGEST: usize = 65_536;

const LONGEST_LOG: usize = 33_554_432;

// Milliseconds until an outcome is asked for again, and until the next member is asked behind a
// loss.
const SOON_MILLIS: u64 = 4;

const LATER_MILLIS: u64 = 50;

// Seconds without an outcome after which it is not worth while to go on.
const MOST_IDLE_SECONDS: u64 = 60;

// Milliseconds from one line of progress to the next.
const PACE: u64 = 100;

/// Why no members are asked.
#[derive(Clone, Copy, Debug, PartialEq, Eq, Error)]
pub enum MembersFault {
    #[error("no memory")]
    NoMemory,
    /// The text names no members, or too many.
    #[error("no such members")]
    Unknown,
}

impl From<AllocError> for MembersFault {
    fn from(_e: AllocError) -> MembersFault {
        MembersFault::NoMemory
    }
}

// Milliseconds of a clock that doesn't go back. One that can't be read stands still.
#[derive(Clone, Copy)]
struct Watch {
    begun: Option<Instant>,
    now: u64,
}

impl Watch {
    fn new<C: Clock>(clock: &C) -> Watch {
        Watch {
            begun: Instant::now(clock).ok(),
            now: 0,
        }
    }

    fn look<C: Clock>(&mut self, clock: &C) -> u64 {
        if let (Some(begun), Ok(now)) = (self.begun, Instant::now(clock)) {
            let since = now.duration_since(begun).as_millis();
            self.now = u64::try_from(since).unwrap_or(u64::MAX);
        }
        self.now
    }
}

/// The members of a cluster, by their addresses, with a line of progress where the standard error
/// is a terminal.
pub struct Sockets<'r> {
    rt: &'r HostRuntime,
    hosts: Vec<String>,
    book: AddressBook,
    watch: Watch,
    // How many commands there are, and when the last one ended.
    count: usize,
    ended: u64,
    // When progress was shown last; None where it isn't.
    shown: Option<u64>,
}

impl Drop for Sockets<'_> {
    fn drop(self) {
        let Sockets {
            rt: _,
            hosts: _,
            book: _,
            watch: _,
            count: _,
            ended: _,
            shown: _,
        } = self;
    }
}

// Sends a request to an address, and returns its whole reply. There may be one though not all was
// written: a form that is too long is refused by its head.
fn ask(rt: &HostRuntime, to: SocketAddr, request: &[u8], longest: usize) -> io::Result<Vec<u8>>
    requires { longest < 2 ^ 62 }
{
    let limit = Duration::from_secs(MEMBER_SECONDS);
    let mut stream = rt.connect_timeout(to, limit)?;
    stream.set_read_timeout(Some(limit))?;
    stream.set_write_timeout(Some(limit))?;
    let _ = write_once(&mut stream, request);
    match read_limited(rt.alloc(), &mut stream, longest) {
        Ok(reply) => Ok(reply),
        Err(_) => Err(io::Error::from(ErrorKind::UnexpectedEof)),
    }
}

impl<'r> Sockets<'r> {
    /// The members whose addresses or names are in the text, with commas between.
    pub fn new(rt: &'r HostRuntime, members: &str) -> Result<Sockets<'r>, MembersFault> {
        let mut book = AddressBook::new(rt.alloc());
        let mut hosts = Vec::new(rt.alloc());
        for part in members.split(',') {
            if hosts.len() >= MOST_MEMBERS as usize || book.add(rt, part)? == Listed::Never {
                return Err(MembersFault::Unknown);
            }
            match hosts.push(String::from_str(rt.alloc(), part)?) {
                Ok(()) => {}
                Err(_) => return Err(MembersFault::NoMemory),
            }
        }
        Ok(Sockets {
            rt,
            hosts,
            book,
            watch: Watch::new(rt),
            count: 0,
            ended: 0,
            shown: if rt.stderr().is_terminal() {
                Some(0)
            } else {
                None
            },
        })
    }

    /// The runtime that they are asked over.
    pub fn runtime(&self) -> &'r HostRuntime {
        self.rt
    }

    /// They get so many commands; returns how many they are.
    pub fn expect(&mut self, count: usize) -> usize {
        self.count = count;
        self.hosts.len()
    }

    /// How many members there are.
    pub fn count(&self) -> usize {
        self.hosts.len()
    }

    // The reply of the member at a place, up to that length; None where it is away.
    fn reply(&mut self, place: usize, request: &[u8], longest: usize) -> Option<Vec<u8>>
        requires { longest < 2 ^ 62 }
    {
        let to = self.book.first(place);
        if let Some(addr) = to {
            if let Ok(reply) = ask(self.rt, addr, request, longest) {
                return Some(reply);
            }
        }
        self.book.lose(place, to);
        let now = self.watch.look(self.rt);
        self.book.look_up(self.rt, now);
        None
    }

    fn host(&self, place: usize) -> &str {
        match self.hosts.get(place) {
            Some(host) => host.as_str(),
            None => "",
        }
    }
}

fn progress_line(alloc: Global, told: usize, count: usize) -> Result<String, AllocError> {
    format!(in alloc; "\r{told} of {count}")
}

impl Sockets<'_> {
    // Shows how many have ended, on a terminal, at most ten times in a second.
    fn show(&mut self, told: usize, now: u64) {
        let is_last = told == self.count;
        let is_due = match self.shown {
            Some(shown) => is_last || shown.saturating_add(PACE) <= now,
            None => false,
        };
        if !is_due {
            return;
        }
        self.shown = Some(now);
        let mut error = self.rt.stderr();
        if let Ok(line) = progress_line(self.rt.alloc(), told, self.count) {
            let _ = write_once(&mut error, line.as_bytes());
        }
        if is_last {
            let _ = write_once(&mut error, b"\n");
        }
    }
}

impl Newsroom for Sockets<'_> {
    // Contracts see nothing of what goes over sockets.
    ghost said = { λ _. None };

    fn submit(&mut self, place: usize, command: &Stamped) -> Result<FormAnswer, AllocError> {
        let request = command_request(self.rt.alloc(), self.host(place), command)?;
        match self.reply(place, request.as_bytes(), LONGEST) {
            Some(reply) => Ok(taken_by(&reply)),
            None => Ok(FormAnswer::Lost),
        }
    }

    fn outcome(&mut self, place: usize, token: &Token) -> Result<OutcomeAnswer, AllocError> {
        let request = outcome_request(self.rt.alloc(), self.host(place), token)?;
        match self.reply(place, request.as_bytes(), LONGEST) {
            Some(reply) => Ok(told_by(&reply)),
            None => Ok(OutcomeAnswer::Lost),
        }
    }

    fn note(&mut self, told: usize) {
        let now = self.watch.look(self.rt);
        self.ended = now;
        self.show(told, now);
    }

    fn rest(&mut self, answered: bool) -> bool {
        let millis = if answered { SOON_MILLIS } else { LATER_MILLIS };
        thread::sleep(self.rt, Duration::from_millis(millis));
        self.watch.look(self.rt) < self.ended.saturating_add(MOST_IDLE_SECONDS * 1_000)
    }
}

// The first of them tells.
impl Teller for Sockets<'_> {
    ghost use Rattle.std.specs.Prelude.{ℕ, List, IfOk};
    ghost use Rattle.press_client.specs.Logging.{TellsPiece};

    ghost tells = { λ old from result new. IfOk result (λ piece. (reply : List ℕ)
        × TellsPiece piece reply) };

    fn piece(&mut self, from: u64) -> Result<Piece, LogFault> {
        let alloc = self.rt.alloc();
        let request = log_request(alloc, self.host(0), from)?;
        match self.reply(0, request.as_bytes(), LONGEST_LOG) {
            Some(reply) => piece_of_reply(alloc, &reply),
            None => Err(LogFault::Away),
        }
    }
}
