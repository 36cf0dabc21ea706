//! The learner of Paxos Made Simple for many slots at once: it keeps the members' votes for the
//! next slots, and says which value is chosen for the next one. It asks nobody and stores nothing.
#![tactic(auto)]

mod laws;
mod learner;
mod ring;

pub use laws::{chosen_by_majority, none_is_chosen_after_64, only_votes_that_came_are_kept};
pub use learner::Learner;
pub use ring::WINDOW;
