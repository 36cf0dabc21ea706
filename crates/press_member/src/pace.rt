//! When a member wakes, when it looks how far the others are, and when it asks what it has missed.
//! It is a matter of time alone: what the cluster agrees on doesn't depend on it.

ghost use Rattle.std.specs.Prelude.{◌≡◌, ◌<◌, ◌≤◌, ◌+◌, ◌-◌, ◌&&◌, ◌||◌, IsFalse, IsTrue, None, Some, if◌then◌else◌, false, is_some, max, min, nat_le, nat_lt, unwrap_or};
ghost use Rattle.press_member.specs.Pacing.{HasSameNeeds, HasSameSeat, asks_at, has_all, is_busy, is_due, is_held_up, is_late, is_stuck, is_unbegun, last_asked, later, leads, rank_of, turn_from, wanted_slot};

use crate::signs::{Sign, sign_of};
use press_learner::WINDOW;
use press_wire::{BLOCK_SLOTS, MemberId, Message};

// Milliseconds between the turns of two members at the begin of a block, which who proposed last
// has after all others.
const STEP: u64 = 4;

// How long who proposes may be silent before another member does, and how long this one waits for
// what it proposed.
const SILENT: u64 = 40;

// The most times that a wait for its own proposal is doubled: to some 1.3 seconds.
const DOUBLINGS: u32 = 5;

// How long after another proposed this member leaves the begin of a block to others first.
const SHARED: u64 = 1_000;

// After so long a command that waits has its member propose in a new block though another has begun
// it, which tells that one to leave the next.
const LONG: u64 = 100;

// How many slots share a prepare.
const BLOCK: u64 = BLOCK_SLOTS as u64;

// How long answers may be on their way before it asks again, at first.
const ON_ITS_WAY: u64 = 100;

// How long what others say holds a member up that applies none of it, and how long one that does.
const UNPROVED: u64 = 2_000;

const MOST_UNPROVED: u64 = 60_000;

// However seldom an operator has it look, what others say is to be of the last two seconds.
const MOST_TICK: u64 = 1_000;

// How often it looks as long as it doesn't know how far the others are.
const UNKNOWN: u64 = 50;

// The most slots that are asked for at once: as many as a node keeps votes for.
const AT_ONCE: u64 = WINDOW as u64;

// How many slots a member may be behind what others are about before it asks for them: half of
// those that a node keeps votes for.
const SLACK: u64 = AT_ONCE / 2;

// How long the next slot may have been proposed for before this member proposes what it hears voted
// for there.
const STUCK: u64 = 2_000;

/// What is due.
#[derive(Clone, Copy, PartialEq, Eq)]
pub enum Due {
    Nothing,
    /// A wake, for a command that waits.
    Wake,
    /// A look at how far the others are.
    Look,
    /// Questions for the slots that are not applied, up to this one.
    Ask(u64),
}

#[derive(Clone, Copy)]
pub struct Pace {
    // The node's place, from 0, and how many nodes there are.
    place: u64,
    members: u64,
    // Milliseconds from one look to the next.
    tick: u64,
    time: u64,
    // How many slots are applied, and since when.
    applied: u64,
    applied_at: u64,
    // The place of who proposed last, if anybody did, and when that was.
    leader: Option<u64>,
    heard_at: u64,
    // Whether that was since the last look at the time.
    is_fresh: bool,
    // How many blocks somebody has begun, as far as it heard.
    begun: u64,
    // Until when others have the begin of a block before this node.
    shared_until: u64,
    // Whether it proposed last for a gap, and not for a command.
    is_filling: bool,
    // Whether it has prepared a block, and hasn't enough promises yet.
    is_preparing: bool,
    // When it wakes, where a command may wait.
    wake_at: Option<u64>,
    // Since when a command waits that it didn't propose.
    waiting_at: u64,
    // How many wakes have proposed since a slot was applied: each leaves the next one twice the
    // time.
    tries: u32,
    // When it looks again.
    look_at: u64,
    // The slot behind the applied ones for which it heard a proposal first, and when that was.
    proposed: u64,
    proposed_at: u64,
    // How many slots are chosen, by votes and by what a majority said.
    newest: u64,
    // The most that another says lately, and since when that is more than this member has.
    claim: u64,
    claimed_at: Option<u64>,
    // Whether a majority has said how far it is.
    is_known: bool,
    // What was applied when it asked last, the last slot that it asked for, when it asks again, and
    // how often it has asked for the same.
    asked_from: u64,
    asked_to: u64,
    ask_at: u64,
    asks: u32,
    is_open: bool,
}

impl Pace {
    /// The pace of the member at `place` of `members`, with the milliseconds of a tick.
    pub fn new(place: usize, members: usize, tick: u64) -> Pace
        ensures opens { result.is_open ≡ false }
        ensures seat { (result.place ≡ place) × (result.members ≡ members) × (result.tick ≡ tick) }
    {
        Pace {
            place: place as u64,
            members: members as u64,
            tick,
            time: 0,
            applied: 0,
            applied_at: 0,
            leader: None,
            heard_at: 0,
            is_fresh: false,
            begun: 0,
            shared_until: 0,
            is_filling: false,
            is_preparing: false,
            wake_at: None,
            waiting_at: 0,
            tries: 0,
            look_at: 0,
            proposed: 0,
            proposed_at: 0,
            newest: 0,
            claim: 0,
            claimed_at: None,
            is_known: false,
            asked_from: 0,
            asked_to: 0,
            ask_at: 0,
            asks: 0,
            is_open: false,
        }
    }

    /// Whether it has once applied what a majority knew to be chosen.
    pub fn is_open(&self) -> bool
        ensures { result ≡ self.now.is_open }
    {
        self.is_open
    }

    // How many have their turn before this one: who proposed last has it after all others.
    fn rank(&self) -> u64
        ensures { result ≡ rank_of self.now }
    {
        if self.members == 0 {
            return 0;
        }
        let last = self.leader.unwrap_or(0) % self.members;
        let place = self.place % self.members;
        if place > last {
            place - last - 1
        } else {
            (self.members - last - 1).saturating_add(place)
        }
    }

    // The begin of its turn, which a rank leaves to others first.
    fn turn_from(&self, time: u64) -> u64
        ensures { result ≡ turn_from self.now (rank_of self.now) time }
    {
        let turn = STEP.saturating_mul(self.rank());
        self.time.max(time.saturating_add(turn))
    }

    fn leads(&self) -> bool
        ensures { result ≡ leads self.now }
    {
        self.leader == Some(self.place)
    }

    // Whether a block begins with the next slot, and nobody was heard to propose in it.
    fn is_unbegun(&self) -> bool
        ensures { result ≡ is_unbegun self.now }
    {
        self.applied % BLOCK == 0 && self.begun <= self.applied / BLOCK
    }

    // Whether a command has waited long.
    fn is_late(&self) -> bool
        ensures { result ≡ is_late self.now }
    {
        self.waiting_at.saturating_add(LONG) <= self.time
    }

    // When it proposes what waits. A new block is each one's in turn, and at once that of who led
    // the last one, unless others proposed lately. Within a block who leads goes on at once, and
    // who doesn't waits until who leads was silent.
    fn turn(&self) -> u64 {
        if self.leads() && (!self.is_unbegun() || self.shared_until <= self.time) {
            return self.time;
        }
        if self.is_unbegun() {
            return self.turn_from(self.time);
        }
        let last = self.heard_at.max(self.applied_at);
        self.turn_from(last.saturating_add(self.patience()))
    }

    // A wait that is doubled so often.
    fn double_wait(&self, wait: u64, times: u32) -> u64 {
        let mut wait = wait;
        for _ in 0..times.min(DOUBLINGS) {
            wait = wait.saturating_mul(2);
        }
        wait
    }

    // How long a proposal has: longer after each of its own that came to nothing, since an answer
    // takes as long as it takes.
    fn patience(&self) -> u64 {
        self.double_wait(SILENT, self.tries.saturating_sub(1))
    }

    /// A command was taken, or not.
    pub fn note_command(&mut self, is_taken: bool)
        ensures seat { HasSameSeat self.new self.old }
        ensures waits { IsTrue is_taken → IsTrue (is_some self.new.wake_at) }
        ensures rests { IsFalse is_taken → self.new ≡ self.old }
    {
        if is_taken && self.wake_at.is_none() {
            self.waiting_at = self.time;
            let turn = self.turn();
            self.wake_at = Some(turn);
        }
    }

    /// The node was woken: whether it proposes, and whether it does so for a gap, where no command
    /// waits.
    pub fn note_wake(&mut self, is_filling: bool, proposes: bool)
        ensures seat { HasSameSeat self.new self.old }
        ensures fills { IsTrue proposes → self.new.is_filling ≡ is_filling }
        ensures tries { IsTrue proposes → self.new.tries ≡ min (self.old.tries + 1) 4294967295 }
        ensures sleeps { IsFalse proposes → self.new.wake_at ≡ None }
    {
        if proposes {
            self.tries = self.tries.saturating_add(1);
            self.is_filling = is_filling;
        } else {
            self.wake_at = None;
            self.is_filling = false;
        }
    }

    // Somebody proposes for a slot. Whether that is news: it isn't in a block that is over.
    fn hear(&mut self, leader: u64, slot: u64) -> bool
        ensures seat { HasSameSeat self.new self.old }
    {
        let block = slot.saturating_sub(1) / BLOCK;
        if block < self.applied / BLOCK {
            return false;
        }
        self.begun = self.begun.max(block.saturating_add(1));
        self.leader = Some(leader);
        self.is_preparing = false;
        self.heard_at = self.time;
        self.is_fresh = true;
        true
    }

    // It proposes for a slot itself; whether it prepares its block.
    fn lead(&mut self, slot: u64, is_preparing: bool)
        ensures seat { HasSameSeat self.new self.old }
    {
        if self.hear(self.place, slot) {
            self.is_preparing = is_preparing;
            self.waiting_at = self.time;
            let again = self.time.saturating_add(self.patience());
            let turn = self.turn_from(again);
            self.wake_at = Some(turn);
        }
    }

    // The member at another place proposes for a slot.
    fn leave_to(&mut self, place: u64, slot: u64)
        ensures seat { HasSameSeat self.new self.old }
    {
        if self.hear(place, slot) {
            self.share();
            if let Some(at) = self.wake_at {
                self.wake_at = Some(at.max(self.turn()));
            }
        }
    }

    // Another would propose, and is refused.
    fn share(&mut self)
        ensures seat { HasSameSeat self.new self.old }
        ensures shared { self.new.shared_until ≡ later self.old.time 1000 }
    {
        self.shared_until = self.time.saturating_add(SHARED);
    }

    // Its own proposal was refused, by what this node has promised.
    fn begin_again(&mut self)
        ensures seat { HasSameSeat self.new self.old }
    {
        if !self.leads() {
            return;
        }
        let again = self.time.saturating_add(self.patience() / 4);
        let turn = self.turn_from(again);
        self.wake_at = Some(turn);
    }

    // What a message that it sends says of who proposes.
    fn note(&mut self, message: &Message, own: MemberId, is_for_all: bool)
        ensures seat { HasSameSeat self.new self.old }
    {
        let slot = u64::from(message.slot.number());
        match sign_of(message, own, is_for_all) {
            Sign::Nothing => {}
            Sign::Prepares => self.lead(slot, true),
            Sign::Accepts => self.lead(slot, false),
            Sign::Other(member) => {
                let place = u64::from(member.number()).saturating_sub(1);
                self.leave_to(place, slot);
            }
            Sign::Refuses => self.share(),
            Sign::RefusesOwn => self.begin_again(),
        }
    }

    /// What the messages of one event say of who proposes.
    pub fn note_all(&mut self, sent: &[Message], own: MemberId)
        ensures seat { HasSameSeat self.new self.old }
    {
        let is_for_all = sent.len() > 1;
        for message in sent {
            self.note(message, own, is_for_all);
        }
    }

    /// Whether a command may wait, or somebody proposed lately.
    pub fn is_busy(&self) -> bool
        ensures { result ≡ is_busy self.now }
    {
        let is_quiet = self.leader.is_none() || self.heard_at.saturating_add(SILENT) <= self.time;
        self.wake_at.is_some() || !is_quiet
    }

    /// Whether it wakes at once.
    pub fn is_due(&self) -> bool
        ensures { result ≡ is_due self.now }
    {
        match self.wake_at {
            Some(at) => at <= self.time,
            None => false,
        }
    }

    // Whether what others say holds it up: it hasn't applied that, and goes on applying some of it.
    fn is_held_up(&self) -> bool
        ensures { result ≡ is_held_up self.now }
    {
        match self.claimed_at {
            Some(since) => {
                let moved_at = since.max(self.applied_at);
                self.applied < self.claim
                    && self.time < moved_at.saturating_add(UNPROVED)
                    && self.time < since.saturating_add(MOST_UNPROVED)
            }
            None => false,
        }
    }

    // Whether it has applied what is known to be chosen, and what others say that is chosen, as far
    // as that comes.
    fn has_all(&self) -> bool
        ensures { result ≡ has_all self.now }
    {
        self.is_known && self.applied >= self.newest && !self.is_held_up()
    }

    // Others say that so many slots are chosen.
    fn hear_claim(&mut self, claim: u64)
        ensures seat { HasSameSeat self.new self.old }
        ensures newest { self.new.newest ≡ self.old.newest }
        ensures known { self.new.is_known ≡ self.old.is_known }
        ensures claim { self.new.claim ≡ claim }
        // The time from which on it holds this member up is that of the first of them.
        ensures since { self.new.claimed_at ≡ (if nat_le claim self.old.applied then None
            else Some (unwrap_or self.old.claimed_at self.old.time)) }
    {
        self.claim = claim;
        if claim <= self.applied {
            self.claimed_at = None;
        } else if self.claimed_at.is_none() {
            self.claimed_at = Some(self.time);
        }
    }

    fn try_open(&mut self)
        ensures seat { HasSameSeat self.new self.old }
        ensures wake { self.new.wake_at ≡ self.old.wake_at }
        ensures needs { HasSameNeeds self.new self.old }
        ensures time { self.new.time ≡ self.old.time }
        ensures opens { self.new.is_open ≡ (self.old.is_open || has_all self.old) }
    {
        self.is_open |= self.has_all();
    }

    /// This many slots are applied; whether a command still waits. With a block that is over one
    /// that has waited long is proposed at once. What it fills goes on until a wake has nothing to
    /// propose.
    pub fn note_applied(&mut self, applied: u64, waits: bool)
        ensures seat { HasSameSeat self.new self.old }
        ensures rests { self.old.applied < applied → IsFalse (waits || self.old.is_filling) →
            self.new.wake_at ≡ None }
        ensures applied { self.new.applied ≡ max self.old.applied applied }
    {
        if applied <= self.applied {
            return;
        }
        let is_over = self.applied / BLOCK < applied / BLOCK;
        self.is_preparing &= !is_over;
        self.applied = applied;
        self.applied_at = self.time;
        self.wake_at = self.next_wake(waits || self.is_filling, is_over);
        self.try_open();
    }

    // When it wakes behind a slot that was applied. What it has prepared goes on with its promises.
    fn next_wake(&mut self, waits: bool, is_over: bool) -> Option<u64>
        ensures seat { HasSameSeat self.new self.old }
        ensures applied { self.new.applied ≡ self.old.applied }
        ensures none { IsFalse waits → result ≡ None }
        ensures wakes { IsTrue waits → IsFalse self.old.is_preparing → IsTrue (is_some result) }
    {
        if !waits {
            return None;
        }
        if self.is_preparing {
            return self.wake_at;
        }
        self.tries = 0;
        if is_over && self.is_late() {
            return Some(self.time);
        }
        Some(self.turn())
    }

    /// This many slots are chosen, by votes or by what a majority said.
    pub fn prove(&mut self, chosen: u64)
        ensures seat { HasSameSeat self.new self.old }
        ensures known { self.new.is_known ≡ self.old.is_known }
        ensures opens { self.new.is_open ≡ self.old.is_open }
        ensures newest { self.new.newest ≡ max self.old.newest chosen }
    {
        self.newest = self.newest.max(chosen);
    }

    /// Somebody proposed for this slot: those before it are chosen. Votes that are on their way
    /// close a small distance.
    pub fn hear_of(&mut self, proposed: Option<u64>, is_taken: bool)
        ensures seat { HasSameSeat self.new self.old }
        ensures newest { self.new.newest
            ≡ (if is_taken && nat_lt (self.old.applied + 32) (unwrap_or proposed 0)
            then max self.old.newest (unwrap_or proposed 0 - 1) else self.old.newest) }
    {
        let slot = proposed.unwrap_or(0);
        if is_taken && slot > self.applied.saturating_add(SLACK) {
            self.prove(slot.saturating_sub(1));
        }
        if is_taken && slot == self.next() && slot != self.proposed {
            self.proposed = slot;
            self.proposed_at = self.time;
        }
    }

    // The slot behind the applied ones.
    fn next(&self) -> u64
        ensures { result ≡ later self.now.applied 1 }
    {
        self.applied.saturating_add(1)
    }

    /// Whether somebody proposed for this slot, the next one, long ago, and nobody does so now.
    pub fn is_stuck(&self, slot: u64) -> bool
        ensures { result ≡ is_stuck self.now slot }
    {
        slot == self.next()
            && slot == self.proposed
            && self.proposed_at.saturating_add(STUCK) <= self.time
            && !self.is_busy()
    }

    /// How many slots are chosen, as far as it knows.
    pub fn chosen_count(&self) -> u64
        ensures { result ≡ max self.now.newest self.now.applied }
    {
        self.newest.max(self.applied)
    }

    /// What others say: so many slots of which a majority says that they are chosen, and the most
    /// that anybody says.
    pub fn hear_reports(&mut self, borne_out: u64, claim: u64, is_known: bool)
        ensures seat { HasSameSeat self.new self.old }
        ensures newest { self.new.newest ≡ max self.old.newest borne_out }
        ensures claim { self.new.claim ≡ claim }
        ensures known { self.new.is_known ≡ (self.old.is_known || is_known) }
    {
        self.prove(borne_out);
        self.hear_claim(claim);
        self.is_known |= is_known;
        self.try_open();
    }

    fn look(&mut self)
        ensures seat { HasSameSeat self.new self.old }
        ensures time { self.new.time ≡ self.old.time }
    {
        let tick = self.tick.min(MOST_TICK);
        let share = tick.saturating_mul(self.place) / 16;
        let wait = if self.is_known {
            tick.saturating_add(share)
        } else {
            UNKNOWN
        };
        self.look_at = self.time.saturating_add(wait);
    }

    // As far as it asks.
    fn wanted_slot(&self) -> u64
        ensures { result ≡ wanted_slot self.now }
    {
        self.newest.max(self.claim)
    }

    // Whether it asks: for slots that it hasn't asked for, or again.
    fn asks(&self) -> bool
        ensures { result ≡ asks_at self.now.time self.now }
    {
        self.wanted_slot() > self.applied
            && (self.applied >= self.asked_to || self.ask_at <= self.time)
    }

    // Asks for what is missing. The wait for answers is doubled each time that little came of it.
    fn ask(&mut self) -> Due
        ensures seat { HasSameSeat self.new self.old }
        ensures time { self.new.time ≡ self.old.time }
        ensures due { result ≡ Due.Ask self.new.asked_to }
        ensures window { self.new.asked_to ≡ last_asked self.old }
    {
        let is_new = self.applied >= self.asked_to
            || self.applied >= self.asked_from.saturating_add(SLACK);
        self.asks = if is_new {
            0
        } else {
            self.asks.saturating_add(1)
        };
        self.asked_from = self.applied;
        self.asked_to = self.wanted_slot().min(self.applied.saturating_add(AT_ONCE));
        self.ask_at = self
            .time
            .saturating_add(self.double_wait(ON_ITS_WAY, self.asks));
        Due::Ask(self.asked_to)
    }

    // Takes the time. What was heard since it was last looked at counts from now on: a save may
    // have held this node up.
    fn look_at_clock(&mut self, now: u64)
        ensures seat { HasSameSeat self.new self.old }
        ensures needs { HasSameNeeds self.new self.old }
        ensures time { self.new.time ≡ now }
        ensures heard { self.new.heard_at ≡ (if self.old.is_fresh then now else self.old.heard_at) }
    {
        let passed = now.saturating_sub(self.time);
        self.time = now;
        if self.is_fresh {
            self.is_fresh = false;
            self.heard_at = now;
            self.wake_at = self.wake_at.map(|at| at.saturating_add(passed));
        }
    }

    /// Takes the time; returns what is due.
    pub fn pass(&mut self, now: u64) -> Due
        ensures seat { HasSameSeat self.new self.old }
        ensures asks { IsTrue (asks_at now self.old) → result ≡ Due.Ask (last_asked self.old) }
        ensures looks { IsFalse (asks_at now self.old) → self.old.look_at ≤ now →
            result ≡ Due.Look }
        ensures time { self.new.time ≡ now }
    {
        self.look_at_clock(now);
        self.try_open();
        if self.asks() {
            return self.ask();
        }
        if self.look_at <= now {
            self.look();
            return Due::Look;
        }
        if self.is_due() {
            return Due::Wake;
        }
        Due::Nothing
    }
}
