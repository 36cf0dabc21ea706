//! The requests that go out at once, and those that wait.

ghost use Rattle.std.specs.Prelude.{◌≡◌, [], if◌then◌else◌, ◌+◌, ◌<◌, ◌≤◌, ◌⊎◌, IfErr, IfOk, IfSome, IsFalse, IsTrue, MatchOption, None, Some, false, is_none, length, option_and_then, option_map, position, slice_get, slice_set, unwrap_or};
ghost use Rattle.std.specs.VecDeque.{deque_capacity, deque_len};
ghost use Rattle.press_net.specs.Lanes.{IsGrown, MakesRoom, are_out, call_at, changed_at, after_end, front_at, is_call_late, is_out_at, is_ready, kept_at, kept_streams, queue_of, queues, ready_lane, after_send, stream_left, with_kept, with_lanes, with_last};

use crate::answers::Outgoing;
use crate::outgoing_connection::OutgoingConnection;
use mio::net::TcpStream;
use std::alloc::{AllocError, Global};
use std::collections::VecDeque;
use std::time::Instant;

// The most that are open at once for one member.
const MOST_OPEN_REQUESTS: usize = 32;

// The most that wait for one member; one more is lost.
const MOST_WAITING_REQUESTS: usize = 4_096;

// The requests for one member.
struct Lane {
    waiting: VecDeque<Outgoing>,
    open: usize,
    // A connection over which a request went, and its whole reply came.
    kept: Option<TcpStream>,
}

impl Lane {
    // Whether one of those that wait may go out.
    fn is_ready(&self) -> bool
        ensures { result ≡ is_ready (queue_of self.now) }
    {
        self.open < MOST_OPEN_REQUESTS && !self.waiting.is_empty()
    }

    // The first that waits goes out, if one may.
    fn send(&mut self) -> Option<Outgoing>
        ensures first { result ≡ (if is_ready (queue_of self.old)
            then slice_get (queue_of self.old).waiting 0 else None) }
        ensures sent { queue_of self.new ≡
            (if is_ready (queue_of self.old) then after_send (queue_of self.old)
            else queue_of self.old) }
    {
        if !self.is_ready() {
            return None;
        }
        let outgoing = self.waiting.pop_front()?;
        self.open = self.open.saturating_add(1);
        Some(outgoing)
    }
}

impl Drop for Lane {
    fn drop(self) {
        let Lane {
            waiting: _,
            open: _,
            kept: _,
        } = self;
    }
}

// Whether no request at a place is still going out.
fn is_out_at(slot: &Option<OutgoingConnection>, now: Instant) -> bool
    ensures { result ≡ is_out_at now slot.now }
{
    match slot {
        Some(call) => call.is_out(now),
        None => true,
    }
}

/// Requests by the member that they are for: a limited number go out at once, and others wait their
/// turn.
pub struct OutgoingConnections {
    alloc: Global,
    lanes: Vec<Lane>,
    places: Vec<Option<OutgoingConnection>>,
}

impl Drop for OutgoingConnections {
    fn drop(self) {
        let OutgoingConnections {
            alloc: _,
            lanes: _,
            places: _,
        } = self;
    }
}

impl OutgoingConnections {
    pub fn new(alloc: Global) -> OutgoingConnections
        ensures lanes { queues result ≡ [] }
        ensures places { result.places.items ≡ [] }
    {
        OutgoingConnections {
            alloc,
            lanes: Vec::new(alloc),
            places: Vec::new(alloc),
        }
    }

    // Makes a lane for a place, and those before it.
    fn make_lane(&mut self, place: usize) -> Result<(), AllocError>
        ensures made { IfOk result (λ _.
            queues self.new ≡ with_lanes (place + 1) (queues self.old)) }
        ensures there { place < length self.old.lanes.items → self.new ≡ self.old }
        ensures grown { IfErr result (λ _. (length self.old.lanes.items ≤ place)
            × IsGrown (queues self.new) (queues self.old)) }
        ensures same { self.new.places ≡ self.old.places }
    {
        while self.lanes.len() <= place {
            self.lanes.push(Lane {
                waiting: VecDeque::new(self.alloc),
                open: 0,
                kept: None,
            })?;
        }
        Ok(())
    }

    /// Puts a request at the end, or drops it; returns whether it waits.
    pub fn add(&mut self, outgoing: Outgoing) -> bool
        ensures waits { IsTrue result → queues self.new ≡
            changed_at (with_last outgoing) outgoing.place
            (with_lanes (outgoing.place + 1) (queues self.old)) }
        ensures room { IsTrue result → IfSome
            (slice_get (with_lanes (outgoing.place + 1) (queues self.old)) outgoing.place)
            (λ queue. length queue.waiting < 4096) }
        ensures lost { IsFalse result → IsGrown (queues self.new) (queues self.old) }
        ensures lost_where { IsFalse result → IfSome (slice_get self.old.lanes.items outgoing.place)
            (λ lane. (4096 ≤ length lane.waiting.items)
            ⊎ (deque_capacity lane.waiting ≤ deque_len lane.waiting)) }
        ensures same { self.new.places ≡ self.old.places }
    {
        let place = outgoing.place;
        if self.make_lane(place).is_err() {
            return false;
        }
        match self.lanes.get_mut(place) {
            Some(lane) if lane.waiting.len() < MOST_WAITING_REQUESTS => {
                lane.waiting.push_back(outgoing).is_ok()
            }
            _ => false,
        }
    }

    // The first lane of which one may go out.
    fn ready(&self) -> Option<usize>
        ensures { result ≡ ready_lane self.now }
    {
        self.lanes.iter().position(|lane| lane.is_ready())
    }

    /// The next that may go out: the first of the first lane that has one, and fewer than 32 open.
    pub fn next(&mut self) -> Option<Outgoing>
        ensures next { result ≡ option_and_then (front_at self.old) (ready_lane self.old) }
        ensures lanes { MatchOption (ready_lane self.old) (queues self.new ≡ queues self.old)
            (λ place.
            queues self.new ≡ changed_at after_send place (queues self.old)) }
        ensures same { self.new.places ≡ self.old.places }
    {
        let place = self.ready()?;
        self.lanes.get_mut(place)?.send()
    }

    /// One that was to go out has ended.
    pub fn close_lane(&mut self, place: usize)
        ensures closes { queues self.new ≡ changed_at after_end place (queues self.old) }
        ensures kept { kept_streams self.new ≡ kept_streams self.old }
        ensures same { self.new.places ≡ self.old.places }
    {
        if let Some(lane) = self.lanes.get_mut(place) {
            lane.open = lane.open.saturating_sub(1);
        }
    }

    fn first_free(&self) -> Option<usize>
        ensures { result ≡ position is_none self.now.places.items }
    {
        self.places.iter().position(|call| call.is_none())
    }

    /// A place for one more.
    pub fn free_place(&mut self) -> Result<usize, AllocError>
        ensures made { IfOk result (MakesRoom self.old.places.items self.new.places.items) }
        ensures no_memory { IfErr result (λ _. (position is_none self.old.places.items ≡ None)
            × (self.new.places.items ≡ self.old.places.items)) }
        ensures same { self.new.lanes ≡ self.old.lanes }
    {
        if let Some(place) = self.first_free() {
            return Ok(place);
        }
        let count = self.places.len();
        self.places.push(None)?;
        Ok(count)
    }

    /// Puts one at a free place.
    pub fn enter(&mut self, place: usize, call: OutgoingConnection)
        ensures enters { self.new.places.items ≡ slice_set self.old.places.items place (Some call) }
        ensures same { self.new.lanes ≡ self.old.lanes }
    {
        if let Some(slot) = self.places.get_mut(place) {
            *slot = Some(call);
        }
    }

    /// The one at a place.
    pub fn get_mut(&mut self, place: usize) -> Option<&mut OutgoingConnection>
        ensures is { MatchOption result (call_at self.old place ≡ None)
            (λ call. call_at self.old place ≡ Some call.now) }
    {
        match self.places.get_mut(place) {
            Some(Some(call)) => Some(call),
            _ => None,
        }
    }

    /// Takes one from its place: its lane has one less that is open.
    pub fn leave(&mut self, place: usize)
        ensures free { self.new.places.items ≡ slice_set self.old.places.items place None }
        ensures lane { MatchOption (call_at self.old place) (self.new.lanes ≡ self.old.lanes)
            (λ call. queues self.new ≡ changed_at after_end call.place (queues self.old)) }
    {
        let Some(slot) = self.places.get_mut(place) else {
            return;
        };
        if let Some(call) = slot.take() {
            self.close_lane(call.place());
        }
    }

    /// Takes one from its place, whose reply came: another may go over its connection, where that
    /// stays open.
    pub fn keep(&mut self, place: usize)
        ensures free { self.new.places.items ≡ slice_set self.old.places.items place None }
        ensures lane { MatchOption (call_at self.old place) (self.new.lanes ≡ self.old.lanes)
            (λ call. queues self.new ≡ changed_at after_end call.place (queues self.old)) }
        ensures kept { MatchOption (call_at self.old place) (self.new.lanes ≡ self.old.lanes)
            (λ call. kept_streams self.new ≡ with_kept call.place (stream_left call)
            (kept_streams self.old)) }
    {
        let Some(slot) = self.places.get_mut(place) else {
            return;
        };
        let Some(call) = slot.take() else {
            return;
        };
        let to = call.place();
        self.close_lane(to);
        self.keep_stream(to, call.into_stream());
    }

    // A connection to the member at a place stays open.
    fn keep_stream(&mut self, place: usize, stream: Option<TcpStream>)
        ensures keeps { kept_streams self.new ≡ with_kept place stream (kept_streams self.old) }
        ensures lanes { queues self.new ≡ queues self.old }
        ensures same { self.new.places ≡ self.old.places }
    {
        if let (Some(lane), Some(stream)) = (self.lanes.get_mut(place), stream) {
            lane.kept = Some(stream);
        }
    }

    /// The connection to the member at a place that stayed open, if one did: it is the caller's
    /// now.
    pub fn take_stream(&mut self, place: usize) -> Option<TcpStream>
        ensures takes { result ≡ kept_at self.old place }
        ensures gone { kept_at self.new place ≡ None }
        ensures lanes { queues self.new ≡ queues self.old }
        ensures same { self.new.places ≡ self.old.places }
    {
        self.lanes.get_mut(place)?.kept.take()
    }

    /// How many places there are.
    pub fn len(&self) -> usize
        ensures { result ≡ length self.now.places.items }
    {
        self.places.len()
    }

    /// Whether all of each is out, or each had two milliseconds for that.
    pub fn are_out(&self, now: Instant) -> bool
        ensures { result ≡ are_out now self.now }
    {
        self.places.iter().all(|slot| is_out_at(slot, now))
    }

    /// Whether the time of one is over.
    pub fn is_late(&self, place: usize, now: Instant) -> bool
        ensures { result ≡
            unwrap_or (option_map (is_call_late now) (call_at self.now place)) false }
    {
        match self.places.get(place) {
            Some(Some(call)) => call.is_late(now),
            _ => false,
        }
    }
}
