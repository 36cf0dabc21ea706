//! What has to hold of what a member says of itself, in each millisecond.

use crate::actor::{Actor, Answer, Input, Standing};
use crate::world::World;
use std::alloc::AllocError;

// A member that is ready is at most so many slots behind what a majority told it.
const NEAR: u64 = 64;

impl<A: Actor> World<A> {
    fn is_foreign(&self, place: usize) -> bool {
        match self.seats.get(place) {
            Some(seat) => seat.is_foreign() && self.count() > 1,
            None => false,
        }
    }

    // A member opens only once a majority has told it how far it is, and it has applied what a
    // majority said is chosen. One whose store failed right behind it shows no longer what it had
    // applied.
    fn check_opening(&mut self, place: usize, standing: Standing) -> Result<(), AllocError> {
        if !self.heard.is_told(place) {
            self.complain(place, "opens, and no majority has told how far it is")?;
        }
        let told = self.heard.borne_out(place, standing.applied, self.now);
        if told > standing.applied && !standing.is_down {
            self.complain(place, "opens, and lacks what a majority says is chosen")?;
        }
        if self.is_foreign(place) {
            self.complain(place, "opens under other digests")?;
        }
        Ok(())
    }

    /// Looks at what a member says of how many are chosen, and whether it opens.
    pub fn check(&mut self, place: usize, standing: Standing) -> Result<(), AllocError> {
        if standing.chosen > self.judge.chosen_count() {
            let (said, chosen) = (standing.chosen, self.judge.chosen_count());
            let text = format!(in self.alloc; "says {said}, and {chosen} are chosen")?;
            self.complain(place, text.as_str())?;
        }
        if self.heard.opens(place, standing.is_open) {
            self.check_opening(place, standing)?;
        }
        Ok(())
    }

    /// Whether a member is ready.
    pub fn is_ready(&self, place: usize) -> bool {
        match self.seats.get(place) {
            Some(seat) => seat.is_ready(),
            None => false,
        }
    }

    /// A member is ready only by what it heard, and near what a majority told it.
    pub fn check_ready(&mut self, place: usize, standing: Standing) -> Result<(), AllocError> {
        if !self.is_ready(place) {
            return Ok(());
        }
        if !self.heard.has_majority(place, self.now) {
            self.complain(place, "is ready and has heard no majority")?;
        }
        let told = self.heard.borne_out(place, standing.chosen, self.now);
        if told > standing.applied.saturating_add(NEAR) {
            self.complain(place, "is ready, and far behind what a majority says")?;
        }
        if self.is_foreign(place) || standing.is_down || !standing.is_open {
            self.complain(place, "is ready, and foreign, down or not open")?;
        }
        Ok(())
    }

    // What a page is answered with.
    fn right_answer(&self, place: usize) -> Answer {
        let standing = self.standing(place);
        if !standing.is_open {
            Answer::NotYet
        } else if standing.is_down {
            Answer::Refused
        } else {
            Answer::Page
        }
    }

    /// A page is asked for.
    pub fn show(&mut self, place: usize) -> Result<(), AllocError>
        requires always { Unit {0} }
    {
        if !self.is_awake(place) {
            return Ok(());
        }
        let right = self.right_answer(place);
        if self.on(place, Input::Page)? != right {
            self.complain(place, "shows a page, or none, wrongly")?;
        }
        Ok(())
    }
}
