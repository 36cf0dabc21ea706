//! Nodes side by side, whose connections come in pieces of different sizes. They have to answer
//! alike.

use crate::faults::{Connections, Writes};
use crate::posts::{apply_posts, post};
use crate::seat::Seat;
use crate::store::{Plan, store_over};
use crate::word::{Turn, Word};
use press_acceptor::MemoryStore;
use press_callbacks::Kit;
use std::alloc::Global;
use std::mem;

// What one of the nodes says.
#[derive(Drop)]
struct Said {
    size: usize,
    bytes: Vec<u8>,
}

/// Nodes, and how often the next connection is served.
#[derive(Drop)]
pub struct Seats {
    seats: Vec<Seat>,
    times: Option<u32>,
    alloc: Global,
}

// What the first says, and what another says where it differs.
fn joint_bytes(alloc: Global, says: &[Said]) -> anyhow::Result<Vec<u8>> {
    let mut bytes = Vec::new(alloc);
    let Some((first, others)) = says.split_first() else {
        return Ok(bytes);
    };
    bytes.extend_from_slice(&first.bytes)?;
    for other in others {
        if other.bytes.as_slice() != first.bytes.as_slice() {
            let front = format!(in alloc; ", in pieces of {}: ", other.size)?;
            bytes.extend_from_slice(front.as_bytes())?;
            bytes.extend_from_slice(&other.bytes)?;
        }
    }
    Ok(bytes)
}

impl Seats {
    pub fn new(alloc: Global) -> Seats {
        Seats {
            seats: Vec::new(alloc),
            times: None,
            alloc,
        }
    }

    /// One node more, over an empty store; its connections come in pieces of this size.
    pub fn start(&mut self, kit: Kit, plan: Plan, size: usize) -> anyhow::Result<()> {
        let store = store_over(MemoryStore::new(self.alloc), plan);
        let seat = Seat::start(self.alloc, kit, store, size)?;
        self.seats.push(seat)?;
        Ok(())
    }

    fn turn(&mut self, turn: Turn) -> anyhow::Result<Vec<u8>>
        requires always { Unit {0} }
    {
        let mut says = Vec::new(self.alloc);
        for seat in self.seats.iter_mut() {
            let bytes = seat.play(turn)?.into_bytes();
            let size = seat.size();
            says.push(Said { size, bytes })?;
        }
        joint_bytes(self.alloc, &says)
    }

    fn stop(&mut self) -> anyhow::Result<Vec<u8>>
        requires always { Unit {0} }
    {
        let mut says = Vec::new(self.alloc);
        for seat in mem::replace(&mut self.seats, Vec::new(self.alloc)) {
            let (seat, line) = seat.stop()?;
            let (size, bytes) = (seat.size(), line.into_bytes());
            self.seats.push(seat)?;
            says.push(Said { size, bytes })?;
        }
        joint_bytes(self.alloc, &says)
    }

    fn serve(&mut self, name: &str, request: &[u8]) -> anyhow::Result<Vec<u8>>
        requires always { Unit {0} }
    {
        let mut says = Vec::new(self.alloc);
        for seat in self.seats.iter_mut() {
            let bytes = seat.serve(name, request)?;
            let size = seat.size();
            says.push(Said { size, bytes })?;
        }
        joint_bytes(self.alloc, &says)
    }

    // Serves each front of a request. Says what it gets, and from how many bytes on.
    fn cuts(&mut self, name: &str, request: &[u8]) -> anyhow::Result<Vec<u8>>
        requires always { Unit {0} }
    {
        let count = request.len();
        let mut said = format!(in self.alloc; "cuts={name}: {count} connections\n")?.into_bytes();
        let mut last = Vec::new(self.alloc);
        for end in 0..count {
            let answer = self.serve(name, &request[..end])?;
            if answer.as_slice() != last.as_slice() {
                let from = format!(in self.alloc; "from {end} bytes on, ")?;
                said.extend_from_slice(from.as_bytes())?;
                said.extend_from_slice(&answer)?;
                last = answer;
            }
        }
        Ok(said)
    }

    // The first node by itself; the others leave.
    fn alone(&mut self) -> Option<&mut Seat> {
        self.seats.truncate(1);
        self.seats.first_mut()
    }

    fn commands(&mut self, count: u32) -> anyhow::Result<Vec<u8>>
        requires always { Unit {0} }
    {
        let (mut k, alloc) = (0, self.alloc);
        if let Some(seat) = self.alone() {
            for seq in 0..count {
                let command = post(alloc, seq)?;
                seat.choose(command)?;
            }
            k = seat.applied();
        }
        Ok(format!(in alloc; "commands={count}: k={k}\n")?.into_bytes())
    }

    fn serves(&mut self, request: &[u8], times: u32) -> anyhow::Result<Vec<u8>>
        requires always { Unit {0} }
    {
        let mut k = 0;
        if let Some(seat) = self.alone() {
            for _ in 0..times {
                seat.serve_away(request);
            }
            k = seat.applied();
        }
        Ok(format!(in self.alloc; "serves={times}: k={k}\n")?.into_bytes())
    }

    fn reads(&mut self, name: &str, request: &[u8]) -> anyhow::Result<Vec<u8>>
        requires always { Unit {0} }
    {
        let alloc = self.alloc;
        let Some(seat) = self.alone() else {
            return Ok(Vec::new(alloc));
        };
        let mut connections = Connections {
            alloc,
            seat,
            request,
        };
        Ok(connections.reads(name)?.into_bytes())
    }

    fn writes(&mut self, name: &str, request: &[u8]) -> anyhow::Result<Vec<u8>>
        requires always { Unit {0} }
    {
        let alloc = self.alloc;
        self.seats.truncate(1);
        let Some(seat) = self.seats.pop() else {
            return Ok(Vec::new(alloc));
        };
        let writes = Writes::on(alloc, &seat, request)?;
        let (seat, line) = writes.fail(seat, name)?;
        self.seats.push(seat)?;
        Ok(line.into_bytes())
    }

    /// What is printed for an argument; a file's bytes come with it.
    pub fn play(&mut self, word: Word<'_>, request: &[u8]) -> anyhow::Result<Vec<u8>>
        requires always { Unit {0} }
    {
        match word {
            Word::Turn(turn) => self.turn(turn),
            Word::Stop => self.stop(),
            Word::Applies(count) => apply_posts(self.alloc, count),
            Word::Commands(count) => self.commands(count),
            Word::Serves(times) => {
                self.times = Some(times);
                Ok(Vec::new(self.alloc))
            }
            Word::Cuts(name) => self.cuts(name, request),
            Word::Reads(name) => self.reads(name, request),
            Word::Writes(name) => self.writes(name, request),
            Word::File(name) => match self.times.take() {
                Some(times) => self.serves(request, times),
                None => self.serve(name, request),
            },
        }
    }
}
