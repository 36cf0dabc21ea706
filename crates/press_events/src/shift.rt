use crate::event::Event;
use crate::events::Events;
use press_text::{Every, Moment};

/// What takes a change of events back.
#[derive(Debug, Drop)]
pub enum Shift {
    /// An event came in at that place.
    Came {
        place: usize,
    },
    /// The event at the place `to` stood at `from`, with that time and recurrence.
    Moved {
        to: usize,
        from: usize,
        time: Moment,
        every: Every,
    },
    /// The event at that place went; with room for it and all others, and for the numbers of their
    /// arguments.
    Went {
        place: usize,
        event: Event,
        room: Vec<Event>,
        marks: Vec<u64>,
    },
    /// All these stood.
    All(Events),
}
