use press_events::Event;
use press_posts::{Draft, Move};
use press_text::{Name, OptName, Text};

/// A change of a site.
#[derive(Debug, Drop)]
pub enum Effect {
    Insert(Draft),
    Edit { id: u64, draft: Draft },
    Move { id: u64, to: Move },
    Delete { id: u64 },
    SetOption { name: OptName, value: Text },
    Schedule(Event),
    /// Removes the event if it is scheduled once, and else moves it to its first time after the
    /// site's moment.
    Take(Event),
    Activate { plugin: Name },
    Deactivate { plugin: Name },
    /// Switches to that profile.
    Profile(u8),
}
