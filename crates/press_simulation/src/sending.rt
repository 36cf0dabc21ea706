//! What goes from member to member.

use crate::actor::Actor;
use crate::lanes::Lane;
use crate::parcel::{Label, Request};
use crate::recall::Told;
use crate::world::World;
use std::alloc::{AllocError, Global};

fn copies<A: Actor>(alloc: Global, letters: &[A::Letter]) -> Result<Vec<A::Letter>, AllocError> {
    let mut all = Vec::new(alloc);
    for letter in letters.iter() {
        all.push(A::copy(alloc, letter)?)?;
    }
    Ok(all)
}

// The same request once more.
fn again<A: Actor>(
    alloc: Global,
    request: &Request<A::Letter>,
) -> Result<Request<A::Letter>, AllocError> {
    Ok(Request {
        label: request.label,
        cluster: request.cluster,
        told: request.told,
        letters: copies::<A>(alloc, request.letters.as_slice())?,
        looks: 0,
        is_copy: true,
    })
}

impl<A: Actor> World<A> {
    // Counts what a member sends.
    fn count_request(&mut self, from: usize, request: &Request<A::Letter>) {
        let letters = request.letters.len() as u64;
        let looks = u64::from(request.looks);
        let questions = u64::from(request.label.asked).saturating_sub(looks);
        if let Some(seat) = self.seats.get_mut(from) {
            seat.count(letters, questions, looks);
        }
    }

    // The request that carries what waits.
    fn request_of(
        &self,
        from: usize,
        to: usize,
        lane: Lane<A::Letter>,
        told: Told,
    ) -> Request<A::Letter> {
        let (letters, looks, questions) = lane.into_parts();
        Request {
            label: Label {
                from,
                to,
                life: self.life(from),
                asked: looks.saturating_add(questions),
            },
            cluster: self.cluster(from),
            told,
            letters,
            looks,
            is_copy: false,
        }
    }

    // It goes on its way, perhaps twice.
    fn post(&mut self, request: Request<A::Letter>) -> Result<(), AllocError> {
        if self.network.loses_request(self.now, &request)? {
            return Ok(());
        }
        if self.network.repeats() {
            let copy = again::<A>(self.alloc, &request)?;
            self.network.send_again(self.now, copy)?;
        }
        self.network.send(self.now, request)
    }

    // What waits at a member for another goes out.
    fn flush_to(&mut self, from: usize, to: usize) -> Result<(), AllocError> {
        let waiting = match self.seats.get_mut(from) {
            Some(seat) => seat.take_telling(to),
            None => None,
        };
        match waiting {
            Some((lane, told)) => {
                let request = self.request_of(from, to, lane, told);
                self.count_request(from, &request);
                self.post(request)
            }
            None => Ok(()),
        }
    }

    /// What waits at a member goes out, to each other as one request.
    pub fn flush(&mut self, from: usize) -> Result<(), AllocError> {
        for to in 0..self.count() {
            self.flush_to(from, to)?;
        }
        Ok(())
    }
}
