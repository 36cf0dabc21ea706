//! Scheduled events: which hook is to run when, and what is due.
//!
//! They are ordered by time, and those of one time in the order in which they were scheduled.
#![tactic(auto)]

mod event;
mod events;
mod fault;
mod laws;
mod marks;
mod shift;

pub use event::Event;
pub use events::Events;
pub use fault::EventFault;
pub use laws::{
    are_made_by_scheduling, comes_again_first, schedules_each_once, schedules_few, schedules_such,
    takes_each_once,
};
pub use shift::Shift;
