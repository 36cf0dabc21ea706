//! The network: what is on its way, and how bad it is.

use crate::dice::Dice;
use crate::parcel::{Parcel, Reply, Request, Wheel};
use crate::scenario::Wire;
use std::alloc::{AllocError, Global};

/// What goes between members, and what of it is left to chance.
pub struct Network<L> {
    dice: Dice,
    wire: Wire,
    // What goes from one to another is lost, where its bit is set.
    cuts: u64,
    wheel: Wheel<L>,
    // Until when something is under way that was lost, by the bits of the ways.
    waits: Vec<u64>,
    lost: u64,
    twice: u64,
}

impl<L: Drop> Drop for Network<L> {
    fn drop(self) {
        let Network {
            dice: _,
            wire: _,
            cuts: _,
            wheel: _,
            waits: _,
            lost: _,
            twice: _,
        } = self;
    }
}

// The number of a way from one member to another.
fn way_of(from: usize, to: usize) -> usize {
    from.saturating_mul(8).saturating_add(to).min(63)
}

// The bit of a way from one member to another.
fn bit_of(from: usize, to: usize) -> u64 {
    1u64.checked_shl(way_of(from, to).min(63) as u32)
        .unwrap_or(0)
}

fn is_in(side: u64, place: usize) -> bool {
    side & 1u64.checked_shl(place.min(63) as u32).unwrap_or(0) != 0
}

impl<L: Drop> Network<L> {
    /// One that is so bad, in which nothing is on its way. Of the seed comes what is left to
    /// chance.
    pub fn new(alloc: Global, seed: u64, wire: Wire) -> Result<Network<L>, AllocError> {
        let mut waits = Vec::new(alloc);
        for _ in 0..64 {
            waits.push(0)?;
        }
        Ok(Network {
            dice: Dice::new(seed.wrapping_add(0x5eed)),
            wire,
            cuts: 0,
            wheel: Wheel::new(alloc)?,
            waits,
            lost: 0,
            twice: 0,
        })
    }

    /// A number by chance, from the one to the other.
    pub fn draw(&mut self, least: u64, most: u64) -> u64 {
        self.dice.between(least, most)
    }

    /// Whether it happens, as it does once of so many times; never for 0.
    pub fn happens(&mut self, often: u64) -> bool {
        often > 0 && self.dice.below(often) == 0
    }

    /// It is as bad as that from now on, and nothing is cut.
    pub fn be(&mut self, wire: Wire) {
        self.wire = wire;
        self.cuts = 0;
    }

    /// Nothing goes from the one to the other.
    pub fn cut(&mut self, from: usize, to: usize) {
        self.cuts |= bit_of(from, to);
    }

    pub fn heal(&mut self) {
        self.cuts = 0;
    }

    // Nothing goes from a member to those on the other side.
    fn part_one(&mut self, side: u64, from: usize, members: usize) {
        for to in 0..members {
            if is_in(side, from) != is_in(side, to) {
                self.cut(from, to);
            }
        }
    }

    /// The members with these bits are cut off from the others.
    pub fn part(&mut self, side: u64, members: usize) {
        self.cuts = 0;
        for from in 0..members {
            self.part_one(side, from, members);
        }
    }

    /// How many requests were lost, and how many came twice.
    pub fn counts(&self) -> (u64, u64) {
        (self.lost, self.twice)
    }

    fn delay(&mut self) -> u64 {
        self.dice.between(self.wire.least, self.wire.most)
    }

    // Whether what goes from the one to the other is lost.
    fn loses(&mut self, from: usize, to: usize) -> bool {
        self.cuts & bit_of(from, to) != 0 || self.dice.is_in_thousand(self.wire.lost)
    }

    // Something is lost between two, which its sender learns then.
    fn note_lost(&mut self, from: usize, to: usize, until: u64) {
        if let Some(wait) = self.waits.get_mut(way_of(from, to)) {
            *wait = (*wait).max(until);
        }
    }

    /// Whether all goes from the one to the other, and nothing that was lost is waited for.
    pub fn is_open(&self, from: usize, to: usize, now: u64) -> bool {
        let waits = self.waits.get(way_of(from, to)).copied().unwrap_or(0);
        self.cuts & bit_of(from, to) == 0 && waits <= now
    }

    /// Whether a request is lost. Its sender learns that after a while.
    pub fn loses_request(&mut self, now: u64, request: &Request<L>) -> Result<bool, AllocError> {
        let label = request.label;
        if !self.loses(label.from, label.to) {
            return Ok(false);
        }
        self.lost = self.lost.saturating_add(1);
        let after = self.dice.between(50, 2_000);
        self.note_lost(label.from, label.to, now.saturating_add(after));
        self.wheel
            .put(now, after, Parcel::Reply(Reply::nothing(label)))?;
        Ok(true)
    }

    /// Whether a request comes twice.
    pub fn repeats(&mut self) -> bool {
        let repeats = self.dice.is_in_thousand(self.wire.repeated);
        self.twice = self.twice.saturating_add(u64::from(repeats));
        repeats
    }

    /// A request goes on its way.
    pub fn send(&mut self, now: u64, request: Request<L>) -> Result<(), AllocError> {
        let delay = self.delay();
        self.wheel.put(now, delay, Parcel::Request(request))
    }

    /// A request that went out comes once more, later.
    pub fn send_again(&mut self, now: u64, request: Request<L>) -> Result<(), AllocError> {
        let delay = self.delay();
        let more = self.dice.below(1_000);
        self.wheel
            .put(now, delay.saturating_add(more), Parcel::Request(request))
    }

    /// A reply goes back, perhaps lost.
    pub fn reply(&mut self, now: u64, reply: Reply) -> Result<(), AllocError> {
        let label = reply.label;
        if self.loses(label.to, label.from) {
            let after = self.dice.between(50, 2_000);
            self.note_lost(label.from, label.to, now.saturating_add(after));
            return self
                .wheel
                .put(now, after, Parcel::Reply(Reply::nothing(label)));
        }
        let delay = self.delay();
        self.wheel.put(now, delay, Parcel::Reply(reply))
    }

    /// It comes so much later.
    pub fn hold(&mut self, now: u64, wait: u64, parcel: Parcel<L>) -> Result<(), AllocError> {
        self.wheel.put(now, wait, parcel)
    }

    /// What comes now.
    pub fn take(&mut self, now: u64) -> Vec<Parcel<L>> {
        self.wheel.take(now)
    }
}
