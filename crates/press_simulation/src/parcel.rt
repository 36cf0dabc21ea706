//! What is on its way between members, by the millisecond in which it comes.

use crate::actor::Report;
use crate::recall::Told;
use std::alloc::{AllocError, Global};
use std::mem;

/// From whom to whom, and of which start of the member that sent a request.
#[derive(Clone, Copy, Drop)]
pub struct Label {
    pub from: usize,
    pub to: usize,
    pub life: u64,
    /// How many looks and questions are in it.
    pub asked: u32,
}

/// What waited for one member at one moment.
pub struct Request<L> {
    pub label: Label,
    pub cluster: u64,
    pub told: Told,
    pub letters: Vec<L>,
    pub looks: u32,
    /// A request that comes twice is answered once.
    pub is_copy: bool,
}

impl<L: Drop> Drop for Request<L> {
    fn drop(self) {
        let Request {
            label: _,
            cluster: _,
            told: _,
            letters: _,
            looks: _,
            is_copy: _,
        } = self;
    }
}

impl<L: Drop> Request<L> {
    /// Its letters.
    pub fn into_letters(self) -> Vec<L> {
        let Request {
            label: _,
            cluster: _,
            told: _,
            letters,
            looks: _,
            is_copy: _,
        } = self;
        letters
    }
}

/// What a request came to, by the request's label.
#[derive(Clone, Copy, Drop)]
pub struct Reply {
    pub label: Label,
    pub is_taken: bool,
    pub report: Option<Report>,
    /// What who answers tells with it. None where nobody answers.
    pub told: Option<Told>,
}

impl Reply {
    /// Nobody answers.
    pub fn nothing(label: Label) -> Reply {
        Reply {
            label,
            is_taken: false,
            report: None,
            told: None,
        }
    }
}

#[derive(Drop)]
pub enum Parcel<L> {
    Request(Request<L>),
    Reply(Reply),
}

impl<L: Drop> Parcel<L> {
    /// To whom it goes.
    pub fn to(&self) -> usize {
        match self {
            Parcel::Request(request) => request.label.to,
            Parcel::Reply(reply) => reply.label.from,
        }
    }
}

// More milliseconds than anything is on its way.
const ROUND: u64 = 4_096;

/// What comes in each of the next milliseconds.
pub struct Wheel<L> {
    alloc: Global,
    places: Vec<Vec<Parcel<L>>>,
}

impl<L: Drop> Drop for Wheel<L> {
    fn drop(self) {
        let Wheel {
            alloc: _,
            places: _,
        } = self;
    }
}

impl<L: Drop> Wheel<L> {
    /// Nothing is on its way.
    pub fn new(alloc: Global) -> Result<Wheel<L>, AllocError> {
        let mut places = Vec::new(alloc);
        for _ in 0..ROUND {
            places.push(Vec::new(alloc))?;
        }
        Ok(Wheel { alloc, places })
    }

    /// It comes after so many milliseconds, at least in the next one.
    pub fn put(&mut self, now: u64, delay: u64, parcel: Parcel<L>) -> Result<(), AllocError> {
        let delay = delay.clamp(1, 4_000);
        let place = (now.saturating_add(delay) % ROUND) as usize;
        if let Some(all) = self.places.get_mut(place) {
            all.push(parcel)?;
        }
        Ok(())
    }

    /// What comes now.
    pub fn take(&mut self, now: u64) -> Vec<Parcel<L>> {
        let place = (now % ROUND) as usize;
        let none = Vec::new(self.alloc);
        match self.places.get_mut(place) {
            Some(all) => mem::replace(all, none),
            None => none,
        }
    }
}
