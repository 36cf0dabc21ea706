//! The members of a cluster, by what they say and whether they answer.

ghost use Rattle.std.specs.Prelude.{◌≡◌, ◌≢◌, true, false, ◌+◌, ◌-◌, not, IfOk, IfSome, length, replicate, slice_get, unwrap_or};
ghost use Rattle.press_member.specs.Differing.{after_comparison};
ghost use Rattle.press_member.specs.Hearing.{after_end, after_hearing, after_report, changed_at};
ghost use Rattle.press_member.specs.Parts.{AreSame};
ghost use Rattle.press_member.specs.Ready.{borne_out, claim, if_borne, is_agreed, is_heard, is_lately, is_majority, others, says};

use crate::signs::is_query;
use press_batch::{Digests, Report};
use press_chain::Comparison;
use press_wire::{MemberId, Message};
use std::alloc::{AllocError, Global};

// Who was heard within this many milliseconds was heard lately.
const LATELY: u64 = 2_000;

// With this many looks and questions on their way a member gets no more.
const MOST_ASKED: u32 = 32;

#[derive(Drop)]
struct Peer {
    // When it was heard last.
    heard: Option<u64>,
    // How far it said it is, and when.
    told: Option<ChosenReport>,
    // How many looks and questions are on their way to it.
    asked: u32,
    // Whether it counts other members or runs another kit.
    is_foreign: bool,
}

// How far a member said it is, and when.
#[derive(Clone, Copy, Drop)]
struct ChosenReport {
    chosen: u64,
    at: u64,
}

// Whether that was at most so long ago.
fn is_lately(at: u64, now: u64) -> bool
    ensures { result ≡ is_lately now at }
{
    now.saturating_sub(at) <= LATELY
}

impl Peer {
    fn new() -> Peer {
        Peer {
            heard: None,
            told: None,
            asked: 0,
            is_foreign: false,
        }
    }

    fn is_heard(&self, now: u64) -> bool
        ensures { result ≡ is_heard now self.now }
    {
        match self.heard {
            Some(at) => is_lately(at, now),
            None => false,
        }
    }

    // It was heard, which counts unless it is foreign by its last report.
    fn hear(&mut self, now: u64)
        ensures { self.new ≡ after_hearing now self.old }
    {
        if !self.is_foreign {
            self.heard = Some(now);
        }
    }

    // It says how far it is, or is foreign, and so unheard.
    fn note(&mut self, is_foreign: bool, chosen: u64, now: u64)
        ensures { self.new ≡ after_report is_foreign chosen now self.old }
    {
        self.is_foreign = is_foreign;
        if is_foreign {
            self.heard = None;
            self.told = None;
        } else {
            self.heard = Some(now);
            self.told = Some(ChosenReport { chosen, at: now });
        }
    }

    // How many slots are chosen, as it said lately.
    fn claim(&self, now: u64) -> Option<u64>
        ensures { result ≡ claim now self.now }
    {
        match self.told {
            Some(told) if is_lately(told.at, now) => Some(told.chosen),
            _ => None,
        }
    }

    // Whether it said lately that at least so many are.
    fn says(&self, least: u64, now: u64) -> bool
        ensures { result ≡ says now least self.now }
    {
        match self.claim(now) {
            Some(chosen) => least <= chosen,
            None => false,
        }
    }
}

/// The members, of which one is this node.
#[derive(Drop)]
pub struct Peers {
    all: Vec<Peer>,
    // Which of them have applied other values than this one, by the last comparison.
    differing: Vec<bool>,
    own: MemberId,
    digests: Digests,
}

impl Peers {
    /// So many members, of whom nothing is heard yet; this one is among them.
    pub fn new(
        alloc: Global,
        own: MemberId,
        count: u8,
        digests: Digests,
    ) -> Result<Peers, AllocError>
        ensures own { IfOk result (λ peers. peers.own ≡ own) }
        ensures count { IfOk result (λ peers. length peers.all.items ≡ count) }
        ensures digests { IfOk result (λ peers. peers.digests ≡ digests) }
        ensures differing { IfOk result (λ peers. peers.differing.items
            ≡ replicate count false) }
    {
        let mut all = Vec::new(alloc);
        let mut differing = Vec::new(alloc);
        for place in 0..count {
            all.push(Peer::new())?;
            differing.push(false)?;
        }
        Ok(Peers {
            all,
            differing,
            own,
            digests,
        })
    }

    /// How many there are: at most 7.
    pub fn count(&self) -> usize
        ensures { result ≡ length self.now.all.items }
    {
        self.all.len()
    }

    /// The place of this member, from 0.
    pub fn place(&self) -> usize
        ensures { result ≡ self.now.own - 1 }
    {
        usize::from(self.own.number()).saturating_sub(1)
    }

    /// Whether it is one of them.
    pub fn counts(&self, member: MemberId) -> bool {
        usize::from(member.number()) <= self.all.len()
    }

    /// Which members there are, and what they run.
    pub fn digests(&self) -> Digests
        ensures { result ≡ self.now.digests }
    {
        self.digests
    }

    /// A message of a member came: that was heard, if the message is for this one.
    pub fn hear(&mut self, from: MemberId, to: MemberId, now: u64)
        ensures { AreSame self.old self.new }
    {
        if to != self.own {
            return;
        }
        let place = place_of(from);
        if let Some(peer) = self.all.get_mut(place) {
            peer.hear(now);
        }
    }

    /// A member says how far it is; whether it is heard.
    pub fn take_report(&mut self, member: MemberId, report: Report, now: u64) -> bool
        ensures same { AreSame self.old self.new }
        ensures taken { result ≡ true → report.digests ≡ self.old.digests }
        ensures foreign { result ≡ false → report.digests ≢ self.old.digests }
        ensures notes { self.new.all.items ≡ changed_at (member - 1)
            (after_report (not result) report.chosen now) self.old.all.items }
    {
        let is_foreign = report.digests != self.digests;
        let place = place_of(member);
        if let Some(peer) = self.all.get_mut(place) {
            peer.note(is_foreign, report.chosen, now);
        }
        !is_foreign
    }

    /// Notes what a comparison with a member says.
    pub fn note_comparison(&mut self, member: MemberId, comparison: Comparison)
        ensures own { self.new.own ≡ self.old.own }
        ensures all { self.new.all ≡ self.old.all }
        ensures digests { self.new.digests ≡ self.old.digests }
        ensures notes { self.new.differing.items
            ≡ after_comparison (member - 1) comparison self.old.differing.items }
    {
        let differs = match comparison {
            Comparison::Same => false,
            Comparison::Other => true,
            Comparison::Unknown => return,
        };
        let place = place_of(member);
        if let Some(noted) = self.differing.get_mut(place) {
            *noted = differs;
        }
    }

    /// Whether the member at a place has applied other values, by the last comparison.
    pub fn is_differing(&self, place: usize) -> bool
        ensures { result ≡ unwrap_or (slice_get self.now.differing.items place) false }
    {
        match self.differing.get(place) {
            Some(differs) => *differs,
            None => false,
        }
    }

    /// Whether the members that don't differ from this one are a majority, this one among them.
    pub fn is_agreed(&self, member: MemberId) -> bool
        ensures { result ≡ is_agreed (length self.now.all.items) (member - 1)
            self.now.differing.items }
    {
        let own = place_of(member);
        let mut agreeing: usize = 0;
        for (place, differs) in self.differing.iter().enumerate() {
            let is_counted = (place != own) & !*differs;
            agreeing = agreeing.saturating_add(usize::from(is_counted));
        }
        self.is_majority(agreeing.saturating_add(1))
    }

    // A look or a question goes to a member.
    fn begin_asking(&mut self, member: MemberId)
        ensures { AreSame self.old self.new }
    {
        let place = place_of(member);
        if let Some(peer) = self.all.get_mut(place) {
            peer.asked = peer.asked.saturating_add(1);
        }
    }

    /// These go out to others: each question among them is on its way.
    pub fn begin_all(&mut self, messages: &[Message])
        ensures { AreSame self.old self.new }
    {
        for message in messages {
            if is_query(message) {
                self.begin_asking(message.to);
            }
        }
    }

    /// So many of these have ended, in a request that was taken or lost.
    pub fn end_asking(&mut self, member: MemberId, count: u32, is_taken: bool, now: u64)
        ensures same { AreSame self.old self.new }
        ensures ends { self.new.all.items ≡ changed_at (member - 1)
            (after_end count is_taken now) self.old.all.items }
    {
        let place = place_of(member);
        if let Some(peer) = self.all.get_mut(place) {
            peer.asked = peer.asked.saturating_sub(count);
            if is_taken {
                peer.hear(now);
            }
        }
    }

    // Asks the member at a place how far it is, if it is another and not busy.
    fn look_at(&mut self, place: usize, looks: &mut Vec<MemberId>) -> Result<(), AllocError>
        ensures { AreSame self.old self.new }
    {
        if place == self.place() || self.is_busy(place) {
            return Ok(());
        }
        let Some(to) = id_at(place) else {
            return Ok(());
        };
        looks.push(to)?;
        self.begin_asking(to);
        Ok(())
    }

    /// Asks the others how far they are, but for those that are busy.
    pub fn look(&mut self, looks: &mut Vec<MemberId>) -> Result<(), AllocError>
        ensures { AreSame self.old self.new }
    {
        for place in 0..self.count() {
            self.look_at(place, looks)?;
        }
        Ok(())
    }

    /// Whether many looks and questions are still on their way to the member at a place: it gets no
    /// more for now, so that they don't pile up in front of its other messages.
    pub fn is_busy(&self, place: usize) -> bool {
        match self.all.get(place) {
            Some(peer) => peer.asked >= MOST_ASKED,
            None => false,
        }
    }

    /// Whether the member at a place counts other members or runs another kit, by its last report.
    pub fn is_foreign(&self, place: usize) -> bool {
        match self.all.get(place) {
            Some(peer) => peer.is_foreign,
            None => false,
        }
    }

    // Whether so many of the members are a majority.
    fn is_majority(&self, count: usize) -> bool
        ensures { result ≡ is_majority (length self.now.all.items) count }
    {
        count > self.all.len() / 2
    }

    // How many others say that at least so many slots are chosen.
    fn count_saying(&self, least: u64, now: u64) -> usize
        ensures { result ≡ others (says now least) self.now }
    {
        let own = self.place();
        let mut others: usize = 0;
        for (place, peer) in self.all.iter().enumerate() {
            let is_counted = (place != own) & peer.says(least, now);
            others = others.saturating_add(usize::from(is_counted));
        }
        others
    }

    /// Whether a majority, this member among it, said lately how far it is.
    pub fn has_told(&self, now: u64) -> bool
        ensures { result ≡ is_majority (length self.now.all.items)
            (others (says now 0) self.now + 1) }
    {
        let others = self.count_saying(0, now);
        self.is_majority(others.saturating_add(1))
    }

    /// Whether a majority, this member among it, was heard lately.
    pub fn is_majority_near(&self, now: u64) -> bool
        ensures { result ≡ is_majority (length self.now.all.items)
            (others (is_heard now) self.now + 1) }
    {
        let own = self.place();
        let mut others: usize = 0;
        for (place, peer) in self.all.iter().enumerate() {
            let is_counted = (place != own) & peer.is_heard(now);
            others = others.saturating_add(usize::from(is_counted));
        }
        self.is_majority(others.saturating_add(1))
    }

    /// Whether the member at a place was heard lately, or is this one.
    pub fn is_near(&self, place: usize, now: u64) -> bool {
        match self.all.get(place) {
            Some(peer) => place == self.place() || peer.is_heard(now),
            None => false,
        }
    }

    /// The most slots that another says lately are chosen.
    pub fn claim(&self, now: u64) -> u64 {
        let own = self.place();
        let mut most: u64 = 0;
        for (place, peer) in self.all.iter().enumerate() {
            if place != own {
                most = most.max(peer.claim(now).unwrap_or(0));
            }
        }
        most
    }

    // So many slots, if a majority says that they are chosen; else none.
    fn if_borne(&self, chosen: u64, own_count: u64, now: u64) -> u64
        ensures { result ≡ if_borne self.now own_count now chosen }
    {
        let others = self.count_saying(chosen, now);
        if self.is_majority(others.saturating_add(usize::from(chosen <= own_count))) {
            chosen
        } else {
            0
        }
    }

    /// The most slots of which a majority says lately that they are chosen, this member saying so
    /// up to its own count.
    pub fn borne_out(&self, own_count: u64, now: u64) -> u64
        ensures { result ≡ borne_out self.now own_count now }
    {
        let mut most = self.if_borne(own_count, own_count, now);
        for peer in &self.all {
            let chosen = peer.claim(now).unwrap_or(0);
            most = most.max(self.if_borne(chosen, own_count, now));
        }
        most
    }
}

fn place_of(member: MemberId) -> usize
    ensures { result ≡ member - 1 }
{
    usize::from(member.number()).saturating_sub(1)
}

/// The member of that place.
pub fn id_at(place: usize) -> Option<MemberId>
    ensures { IfSome result (λ id. id ≡ place + 1) }
{
    match u8::try_from(place.saturating_add(1)) {
        Ok(number) => MemberId::new(number),
        Err(_) => None,
    }
}
