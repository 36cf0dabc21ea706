//! What a member may send in a second.

use crate::actor::Actor;
use crate::tally::Second;
use crate::world::World;
use std::alloc::AllocError;

// How many looks at each other a member may take in a second.
const MOST_LOOKS: u64 = 45;

// How many questions a member may ask each other in a second, beside four for each slot that it
// applied.
const MOST_QUESTIONS: u64 = 330;

impl<A: Actor> World<A> {
    fn others(&self) -> u64 {
        (self.count() as u64).saturating_sub(1).max(1)
    }

    fn complain_of_questions(
        &mut self,
        place: usize,
        second: Second,
        progress: u64,
    ) -> Result<(), AllocError> {
        let (questions, looks) = (second.questions, second.looks);
        let text = format!(in self.alloc;
            "asked {questions} questions and {looks} looks in a second, and applied {progress}"
        )?;
        self.complain(place, text.as_str())
    }

    fn check_second(
        &mut self,
        place: usize,
        second: Second,
        progress: u64,
    ) -> Result<(), AllocError> {
        let others = self.others();
        let may_ask = progress.saturating_mul(4).saturating_add(MOST_QUESTIONS);
        let is_much = second.questions > may_ask.saturating_mul(others);
        if is_much || second.looks > others.saturating_mul(MOST_LOOKS) {
            self.complain_of_questions(place, second, progress)?;
        }
        Ok(())
    }

    /// A second ends for a member: it must not have asked without end.
    pub fn end_second(&mut self, place: usize) -> Result<(), AllocError> {
        let is_down = self.standing(place).is_down;
        let Some(seat) = self.seats.get_mut(place) else {
            return Ok(());
        };
        let applied = seat.applied();
        let second = seat.end_second(is_down);
        let others = self.others();
        let asked = second.questions.checked_div(others).unwrap_or(0);
        self.tally.note_second(second.letters, asked);
        let is_silent = second.letters == 0 && second.looks == 0;
        if second.was_down && is_down && !is_silent {
            self.complain(place, "sends though its store has failed")?;
        }
        self.check_second(place, second, applied.saturating_sub(second.applied))
    }
}
