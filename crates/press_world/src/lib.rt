//! A cluster of nodes under any schedule: every message that was ever sent may come at any time,
//! again, or never, and nodes may stop and start.
//!
//! What a schedule chooses is chosen once, and pages are those of the chosen values. Schedules are
//! read from files, and transcripts show their steps.
#![tactic(auto)]

mod cluster;
mod cluster_events;
mod entry;
mod fault;
mod laws;
mod new;
mod play;
mod played;
mod reading;
mod replay_fault;
mod replaying;
mod schedule_file;
mod seat;
mod seats;
mod seen;
mod step;
mod step_kind;
mod transcript;
mod world;

pub use fault::WorldFault;
pub use laws::{
    a_wake_prepares_legally, each_step_agrees, entries_stand_for_facts, every_schedule,
    what_is_learned_is_chosen, what_is_proposed_is_allowed,
};
pub use played::Played;
pub use reading::{read_schedule, read_site};
pub use replay_fault::ReplayFault;
pub use replaying::{replay, write_end, write_step};
pub use step::{Cut, Step};
pub use world::World;
