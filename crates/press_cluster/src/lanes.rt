//! What waits to go out to each member.

ghost use Rattle.std.specs.Prelude.{ℕ, ◌≡◌, ◌<◌, ◌≤◌, ◌⊎◌, ◌+◌, ◌-◌, IfErr, IfOk, IfSome, IsTrue, MatchOption, None, drop, false, if◌then◌else◌, length, slice_get};
ghost use Rattle.std.specs.List.{list_any};
ghost use Rattle.press_batch.specs.Spelling.{head_alone};
ghost use Rattle.press_cluster.specs.Going.{AreKept, GoIn, GoOut, GoesIn, HasEnded, HasSameElsewhere, HasSameWaiting, HasSameWay, HasSameWays, IsPut, asks_first, u32_count, fresh_of, is_free, is_query, is_ready, is_stale, owed_count, owed_at, question_count, waiting_at};

use crate::peers::place_of;
use press_batch::{BatchFault, BatchWriter, Head};
use press_wire::{Body, MemberId, Message};
use std::alloc::{AllocError, Global};
use std::collections::VecDeque;

// The most messages that wait for one member: where one more comes, the oldest is lost, as a
// message may be.
const MOST_MESSAGES: usize = 3_333;

// The most requests that are on their way to one member.
const MOST_REQUESTS: u32 = 8;

// How many milliseconds what waits leaves to the request before it: it goes out together then, and
// often with a reply.
const SHORT: u64 = 20;

// A message that waited for longer than so many milliseconds is lost.
const OLDEST: u64 = 2_000;

fn is_query(message: &Message) -> bool
    ensures { result ≡ is_query message.now.body }
{
    matches!(message.body, Body::Query)
}

// A message that waits, and since when.
#[derive(Drop)]
struct Waiting {
    message: Message,
    since: u64,
}

/// A batch that goes out, and how many looks and questions end with it.
#[derive(Drop)]
pub struct Parcel {
    pub batch: BatchWriter,
    pub asked: u32,
}

/// What a batch is written with.
#[derive(Clone, Copy)]
pub struct Sender {
    pub alloc: Global,
    pub head: Head,
    pub now: u64,
}

// What waits for one member.
#[derive(Drop)]
struct Lane {
    waiting: VecDeque<Waiting>,
    // How many looks at how far it is wait.
    looks: u32,
    // How many questions were lost before they went out.
    lost: u32,
    // How many requests are on their way, and when the last went out.
    open: u32,
    since: u64,
}

impl Lane {
    // Whether another request may go out: none is on its way, or the last has been for a while.
    fn is_free(&self, now: u64) -> bool
        ensures { result ≡ is_free now self.now }
    {
        self.open == 0 || (self.open < MOST_REQUESTS && SHORT <= now.saturating_sub(self.since))
    }

    fn is_ready(&self, now: u64) -> bool
        ensures { result ≡ is_ready now self.now }
    {
        self.is_free(now) && (self.looks > 0 || !self.waiting.is_empty())
    }

    // The oldest that waits is lost.
    fn lose(&mut self)
        ensures lost { self.new.waiting.items ≡ drop 1 self.old.waiting.items }
        ensures same { HasSameWay self.new self.old }
        ensures kept { AreKept (owed_count self.old) (owed_count self.new) }
    {
        if let Some(waiting) = self.waiting.pop_front() {
            let count = u32::from(is_query(&waiting.message));
            self.lost = self.lost.saturating_add(count);
        }
    }

    // A message waits behind all others, or is lost for want of memory.
    fn put(&mut self, message: Message, now: u64)
        ensures puts { IsPut (record { message = message; since = now }) self.old.waiting.items
            self.new.waiting.items }
        ensures most { length self.old.waiting.items ≤ 3333 →
            length self.new.waiting.items ≤ 3333 }
        ensures way { HasSameWay self.new self.old }
        ensures kept { AreKept (owed_count self.old + (if is_query message.body then 1 else 0))
            (owed_count self.new) }
    {
        if self.waiting.len() >= MOST_MESSAGES {
            self.lose();
        }
        let count = u32::from(is_query(&message));
        let waiting = Waiting {
            message,
            since: now,
        };
        if self.waiting.push_back(waiting).is_err() {
            self.lost = self.lost.saturating_add(count);
        }
    }

    // Whether the oldest that waits is too old.
    fn is_stale(&self, now: u64) -> bool
        ensures { result ≡ is_stale now self.now.waiting.items }
    {
        match self.waiting.front() {
            Some(waiting) => now.saturating_sub(waiting.since) > OLDEST,
            None => false,
        }
    }

    // From the oldest on, as far as each has waited for too long.
    fn lose_stale(&mut self, now: u64)
        ensures way { HasSameWay self.new self.old }
        ensures kept { AreKept (owed_count self.old) (owed_count self.new) }
        ensures fresh { self.new.waiting.items ≡ fresh_of now self.old.waiting.items }
    {
        while self.is_stale(now) {
            self.lose();
        }
    }

    // Puts the oldest that waits into a batch; how many questions that is. None where none waits,
    // or for want of room or memory. One that no batch takes is lost.
    fn move_one(&mut self, batch: &mut BatchWriter) -> Option<u32>
        ensures way { HasSameWay self.new self.old }
        ensures stays { result ≡ None → (self.new ≡ self.old) × (batch.new ≡ batch.old) }
        ensures goes { IfSome result (λ _. GoesIn self.old.waiting.items self.new.waiting.items
            batch.old batch.new) }
        ensures asks { IfSome result (λ count. question_count self.old.waiting.items ≡
            count + question_count self.new.waiting.items) }
        ensures lost { self.new.lost ≡ self.old.lost }
    {
        let waiting = self.waiting.front()?;
        let count = u32::from(is_query(&waiting.message));
        let is_in = match batch.push(&waiting.message) {
            Err(BatchFault::NoMemory) => return None,
            Err(_) => false,
            Ok(is_in) => is_in,
        };
        if !is_in && batch.count() > 0 {
            return None;
        }
        self.waiting.pop_front();
        Some(count)
    }

    // A request has ended that never went out.
    fn give_up(&mut self, asked: u32)
        ensures kept { AreKept (owed_count self.old + asked) (owed_count self.new) }
        ensures waits { self.new.waiting.items ≡ self.old.waiting.items }
        ensures way { self.new.«open» ≡ self.old.«open» - 1 }
    {
        self.open = self.open.saturating_sub(1);
        self.lost = self.lost.saturating_add(asked);
    }

    // Puts what waits into a batch, the oldest first, as much as it takes; how many questions that
    // is.
    fn move_all(&mut self, batch: &mut BatchWriter) -> u32
        ensures way { HasSameWay self.new self.old }
        ensures goes { GoIn self.old.waiting.items self.new.waiting.items batch.old batch.new }
        ensures asks { GoOut result (question_count self.old.waiting.items)
            (question_count self.new.waiting.items) }
        ensures lost { self.new.lost ≡ self.old.lost }
    {
        let mut asked: u32 = 0;
        for _ in 0..self.waiting.len() {
            let Some(count) = self.move_one(batch) else {
                break;
            };
            asked = asked.saturating_add(count);
        }
        asked
    }

    // What waits goes out, as much as a batch takes.
    fn pack(&mut self, sender: Sender) -> Result<Parcel, BatchFault>
        ensures since { IfOk result (λ _. self.new.since ≡ sender.now) }
        ensures looks { IfOk result (λ _. self.new.looks ≡ 0) }
        ensures way { IfOk result (λ _. self.new.«open» ≡ u32_count (self.old.«open» + 1)) }
        ensures asks { IfOk result (λ parcel. GoOut parcel.asked (owed_count self.old)
            (owed_count self.new)) }
        ensures goes { IfOk result (λ parcel. GoIn self.old.waiting.items self.new.waiting.items
            (head_alone sender.head) parcel.batch) }
        ensures stays { IfErr result (λ _. self.new ≡ self.old) }
    {
        let mut batch = BatchWriter::new(sender.alloc, &sender.head)?;
        let asked = self.move_all(&mut batch);
        let asked = asked.saturating_add(self.looks).saturating_add(self.lost);
        self.looks = 0;
        self.lost = 0;
        self.open = self.open.saturating_add(1);
        self.since = sender.now;
        Ok(Parcel { batch, asked })
    }

    // Whether the oldest that waits is a question.
    fn asks_first(&self) -> bool
        ensures { result ≡ asks_first self.now.waiting.items }
    {
        match self.waiting.front() {
            Some(waiting) => is_query(&waiting.message),
            None => false,
        }
    }

    // Puts what waits before the first question into a batch, as much as it takes.
    fn move_said(&mut self, batch: &mut BatchWriter)
        ensures way { HasSameWay self.new self.old }
        ensures kept { owed_count self.new ≡ owed_count self.old }
        ensures goes { GoIn self.old.waiting.items self.new.waiting.items batch.old batch.new }
    {
        for _ in 0..self.waiting.len() {
            if self.asks_first() || self.move_one(batch).is_none() {
                return;
            }
        }
    }

    // What waits before the first question goes out with a reply. Questions go with requests, whose
    // ends are told.
    fn pack_reply(&mut self, sender: Sender) -> Result<BatchWriter, BatchFault>
        ensures way { HasSameWay self.new self.old }
        ensures kept { AreKept (owed_count self.old) (owed_count self.new) }
        ensures goes { IfOk result (λ batch. GoIn (fresh_of sender.now self.old.waiting.items)
            self.new.waiting.items (head_alone sender.head) batch) }
        ensures stays { IfErr result (λ _. self.new ≡ self.old) }
    {
        let mut batch = BatchWriter::new(sender.alloc, &sender.head)?;
        self.lose_stale(sender.now);
        self.move_said(&mut batch);
        Ok(batch)
    }
}

/// What waits to go out, by member.
#[derive(Drop)]
pub struct Lanes {
    all: Vec<Lane>,
}

impl Lanes {
    /// Nothing waits for any of so many members.
    pub fn new(alloc: Global, count: usize) -> Result<Lanes, AllocError>
        ensures { IfOk result (λ lanes. length lanes.all.items ≡ count) }
    {
        let mut all = Vec::new(alloc);
        for _ in 0..count {
            all.push(Lane {
                waiting: VecDeque::new(alloc),
                looks: 0,
                lost: 0,
                open: 0,
                since: 0,
            })?;
        }
        Ok(Lanes { all })
    }

    /// A message is to go out.
    pub fn put(&mut self, message: Message, now: u64)
        ensures kept { message.to - 1 < length self.old.all.items →
            AreKept (owed_at self.old (message.to - 1)
            + (if is_query message.body then 1 else 0)) (owed_at self.new (message.to - 1)) }
        ensures puts { message.to - 1 < length self.old.all.items → IsPut
            (record { message = message; since = now }) (waiting_at self.old (message.to - 1))
            (waiting_at self.new (message.to - 1)) }
        ensures others { HasSameElsewhere (message.to - 1) self.new self.old }
        ensures ways { HasSameWays self.new self.old }
    {
        if let Some(lane) = self.all.get_mut(place_of(message.to)) {
            lane.put(message, now);
        }
    }

    /// A member is to say how far it is.
    pub fn look(&mut self, to: MemberId)
        ensures kept { to - 1 < length self.old.all.items →
            AreKept (owed_at self.old (to - 1) + 1) (owed_at self.new (to - 1)) }
        ensures waits { HasSameWaiting self.new self.old }
        ensures ways { HasSameWays self.new self.old }
    {
        if let Some(lane) = self.all.get_mut(place_of(to)) {
            lane.looks = lane.looks.saturating_add(1);
        }
    }

    /// Whether something may go out.
    pub fn is_ready(&self, now: u64) -> bool
        ensures { result ≡ list_any (is_ready now) self.now.all.items }
    {
        self.all.iter().any(|lane| lane.is_ready(now))
    }

    /// The first member to whom something may go out, by its place. What is too old is lost.
    pub fn ready(&mut self, now: u64) -> Option<usize>
        ensures is { IfSome result (λ place. IfSome (slice_get self.new.all.items place)
            (λ lane. IsTrue (is_ready now lane))) }
        ensures none { result ≡ None → (i : ℕ) → i < length self.new.all.items →
            IfSome (slice_get self.new.all.items i) (λ lane. is_ready now lane ≡ false) }
        ensures fresh { (i : ℕ) → (waiting_at self.new i ≡ waiting_at self.old i)
            ⊎ (waiting_at self.new i ≡ fresh_of now (waiting_at self.old i)) }
        ensures kept { (i : ℕ) → AreKept (owed_at self.old i) (owed_at self.new i) }
        ensures ways { HasSameWays self.new self.old }
    {
        for place in 0..self.all.len() {
            if let Some(lane) = self.all.get_mut(place) {
                lane.lose_stale(now);
                if lane.is_ready(now) {
                    return Some(place);
                }
            }
        }
        None
    }

    /// What goes out to the member at a place. None without memory.
    pub fn pack(&mut self, place: usize, sender: Sender) -> Option<Parcel>
        ensures asks { MatchOption result (owed_at self.new place ≡ owed_at self.old place)
            (λ parcel. GoOut parcel.asked (owed_at self.old place) (owed_at self.new place)) }
        ensures goes { IfSome result (λ parcel. GoIn (waiting_at self.old place)
            (waiting_at self.new place) (head_alone sender.head) parcel.batch) }
        ensures others { HasSameElsewhere place self.new self.old }
        ensures stays { result ≡ None → HasSameWaiting self.new self.old }
        ensures there { IfSome result (λ _. place < length self.new.all.items) }
    {
        self.all.get_mut(place)?.pack(sender).ok()
    }

    /// What goes out with the reply to the member at a place. None without memory.
    pub fn pack_reply(&mut self, place: usize, sender: Sender) -> Option<BatchWriter>
        ensures kept { AreKept (owed_at self.old place) (owed_at self.new place) }
        ensures ways { HasSameWays self.new self.old }
        ensures goes { IfSome result (λ batch. GoIn
            (fresh_of sender.now (waiting_at self.old place)) (waiting_at self.new place)
            (head_alone sender.head) batch) }
        ensures others { HasSameElsewhere place self.new self.old }
        ensures stays { result ≡ None → HasSameWaiting self.new self.old }
    {
        self.all.get_mut(place)?.pack_reply(sender).ok()
    }

    /// What was to go out to the member at a place is lost.
    pub fn give_up(&mut self, place: usize, asked: u32)
        ensures kept { place < length self.old.all.items →
            AreKept (owed_at self.old place + asked) (owed_at self.new place) }
        ensures waits { HasSameWaiting self.new self.old }
        ensures ways { HasEnded place self.new self.old }
    {
        if let Some(lane) = self.all.get_mut(place) {
            lane.give_up(asked);
        }
    }

    /// A request that was on its way to the member at a place has ended.
    pub fn end(&mut self, place: usize)
        ensures kept { owed_at self.new place ≡ owed_at self.old place }
        ensures waits { HasSameWaiting self.new self.old }
        ensures ways { HasEnded place self.new self.old }
    {
        if let Some(lane) = self.all.get_mut(place) {
            lane.open = lane.open.saturating_sub(1);
        }
    }
}
