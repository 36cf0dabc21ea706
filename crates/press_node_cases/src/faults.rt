//! Connections of which one read, or one write, fails.

use crate::failing::{Fails, Reader, Writer};
use crate::seat::Seat;
use crate::store::{Failing, copy_to};
use press_http::HttpFault;
use std::alloc::Global;

/// One request, on one node.
#[derive(Drop)]
pub struct Connections<'a> {
    pub alloc: Global,
    pub seat: &'a mut Seat,
    pub request: &'a [u8],
}

impl Connections<'_> {
    // Whether a connection whose read of that number fails is closed at once, and the node is as it
    // was.
    fn closes(&mut self, fails_at: u64) -> anyhow::Result<bool>
        requires always { Unit {0} }
    {
        let before = self.seat.snapshot()?;
        let mut reader = Reader::new(self.request, fails_at);
        let mut reply = Vec::new(self.alloc);
        let served = self.seat.serve_on(&mut reader, &mut reply);
        let after = self.seat.snapshot()?;
        Ok(
            served == Err(HttpFault::ReadFault)
                && reader.reads == fails_at
                && reply.is_empty()
                && after.as_slice() == before.as_slice(),
        )
    }

    /// Serves the request byte by byte, then with each of its reads failing. Wakes the node at
    /// last, twice: what it has applied.
    pub fn reads(&mut self, name: &str) -> anyhow::Result<String>
        requires always { Unit {0} }
    {
        let mut reader = Reader::new(self.request, 0);
        let mut reply = Vec::new(self.alloc);
        let _ = self.seat.serve_on(&mut reader, &mut reply);
        let (reads, mut failed) = (reader.reads, 0u64);
        for before in 0..reads {
            let at = before.saturating_add(1);
            if self.closes(at)? {
                failed = failed.saturating_add(1);
            }
        }
        self.seat.go_on()?;
        self.seat.go_on()?;
        let k = self.seat.applied();
        Ok(format!(in self.alloc; "reads={name}: {failed} of {reads} fail with 40, k={k}\n")?)
    }
}

// What a connection leaves: what came of it, and the node, once it was woken, as it is seen.
#[derive(Drop)]
struct Left {
    fault: Option<HttpFault>,
    seen: Vec<u8>,
}

/// One request, on nodes that start over the same store.
#[derive(Drop)]
pub struct Writes<'a> {
    alloc: Global,
    store: Failing,
    last: u32,
    request: &'a [u8],
}

impl<'a> Writes<'a> {
    /// Over what a node stores up to the slot behind those that it has applied.
    pub fn on(alloc: Global, seat: &Seat, request: &'a [u8]) -> anyhow::Result<Writes<'a>> {
        let last = u32::try_from(seat.applied())?.saturating_add(1);
        let store = copy_to(alloc, seat.store(), last)?;
        Ok(Writes {
            alloc,
            store,
            last,
            request,
        })
    }

    // A node over the store in place of this one, which has applied as much as that one had.
    fn anew(&self, seat: Seat) -> anyhow::Result<Seat>
        requires always { Unit {0} }
    {
        let mut seat = seat.start_over(copy_to(self.alloc, &self.store, self.last)?)?;
        for _ in 1..self.last {
            seat.go_on()?;
        }
        Ok(seat)
    }

    // Serves the request, and wakes the node.
    fn serve(&self, seat: &mut Seat, writer: &mut Writer) -> anyhow::Result<Left>
        requires always { Unit {0} }
    {
        let mut reader = Reader::new(self.request, 0);
        let fault = seat.serve_on(&mut reader, writer).err();
        seat.go_on()?;
        let seen = seat.snapshot()?;
        Ok(Left { fault, seen })
    }

    /// Serves the request with its reply taken byte by byte, then with each of the writes failing,
    /// in two ways: a front of the reply is written, what the request asks is done, and the node is
    /// as after a whole reply. The node of the last one comes with the line.
    pub fn fail(&self, seat: Seat, name: &str) -> anyhow::Result<(Seat, String)>
        requires always { Unit {0} }
    {
        let mut seat = self.anew(seat)?;
        let mut whole = Writer::new(self.alloc, 0, Fails::WithError);
        let Left { seen, .. } = self.serve(&mut seat, &mut whole)?;
        let mut failed = 0u64;
        for fails in [Fails::WithError, Fails::TakesNone] {
            for before in 0..whole.writes {
                let mut writer = Writer::new(self.alloc, before.saturating_add(1), fails);
                seat = self.anew(seat)?;
                let left = self.serve(&mut seat, &mut writer)?;
                if left.fault == Some(HttpFault::WriteFault)
                    && writer.has_front_of(&whole.taken)
                    && left.seen.as_slice() == seen.as_slice()
                {
                    failed = failed.saturating_add(1);
                }
            }
        }
        let (k, tried) = (seat.applied(), whole.writes.saturating_mul(2));
        let line = format!(in self.alloc;
            "writes={name}: {failed} of {tried} fail with 42, k={k}\n"
        )?;
        Ok((seat, line))
    }
}
