//! Members on one simulated clock: a network that delays, loses, repeats and parts, faults of
//! members and of their disks, and what has to hold of a run.
//!
//! It knows no member: whatever meets `Actor` can be played.
#![tactic(auto)]

mod actor;
mod checking;
mod counting;
mod dice;
mod faulting;
mod forms;
mod heard;
mod hearing;
mod history;
mod judge;
mod lanes;
mod links;
mod memory;
mod network;
mod note;
mod outcome;
mod parcel;
mod passing;
mod reading;
mod recall;
mod remembering;
mod running;
mod scenario;
mod seat;
mod sending;
mod settling;
mod tally;
mod telling;
mod world;
mod writing;

pub use actor::{Actor, Answer, Begins, Condition, Input, Report, Standing};
pub use lanes::{Envelope, Lanes};
pub use note::{Note, digest_of};
pub use outcome::{Outcome, play};
pub use reading::read;
pub use recall::{Hearing, Mark, Recall};
pub use scenario::{Scenario, draw};
pub use telling::Telling;
pub use writing::text_of;
