//! Since when each two members have been connected, and when each heard the other last.

use std::alloc::{AllocError, Global};

// Room for each two of more members than a cluster has, which are seven at most.
const MEMBERS: usize = 8;

#[derive(Clone, Copy, Drop)]
struct Link {
    since: u64,
    heard: u64,
}

/// Since when each two have been connected.
#[derive(Drop)]
pub struct Links {
    all: Vec<Link>,
}

fn number_of(place: usize, other: usize) -> usize {
    place.saturating_mul(MEMBERS).saturating_add(other)
}

impl Links {
    /// All have been connected since the begin.
    pub fn new(alloc: Global) -> Result<Links, AllocError> {
        let mut all = Vec::new(alloc);
        for _ in 0..MEMBERS * MEMBERS {
            all.push(Link { since: 0, heard: 0 })?;
        }
        Ok(Links { all })
    }

    /// Two aren't connected.
    pub fn part(&mut self, place: usize, other: usize, now: u64) {
        if let Some(link) = self.all.get_mut(number_of(place, other)) {
            link.since = now;
        }
    }

    /// A member starts anew.
    pub fn begin(&mut self, place: usize, now: u64) {
        for other in 0..MEMBERS {
            self.part(place, other, now);
            self.part(other, place, now);
        }
    }

    /// A member hears all that another tells.
    pub fn hear(&mut self, place: usize, other: usize, now: u64) {
        if let Some(link) = self.all.get_mut(number_of(place, other)) {
            link.heard = now;
        }
    }

    /// For how long two have been connected.
    pub fn age(&self, place: usize, other: usize, now: u64) -> u64 {
        match self.all.get(number_of(place, other)) {
            Some(link) => now.saturating_sub(link.since),
            None => 0,
        }
    }

    /// For how long they have been, and the one has heard nothing of the other.
    pub fn silence(&self, place: usize, other: usize, now: u64) -> u64 {
        match self.all.get(number_of(place, other)) {
            Some(link) => now.saturating_sub(link.since.max(link.heard)),
            None => 0,
        }
    }
}
