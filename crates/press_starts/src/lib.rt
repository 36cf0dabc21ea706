//! Whether a member's file has all that others heard of the member: its starts, and how many saves
//! each of them made.
//!
//! A member that is told of a start or of saves that its file lacks has forgotten.
#![tactic(auto)]

mod hearing;
mod laws;
mod mark;
mod peer;
mod recall;
mod sighting;
mod starts;
mod witness;

pub use hearing::Hearing;
pub use laws::{
    a_forgetful_member_is_not_heard, a_forgetful_member_is_told,
    a_new_start_is_heard_once_it_answers, a_stale_recall_changes_nothing,
    an_honest_member_is_never_refused, what_is_known_of_a_start_rises,
};
pub use mark::Mark;
pub use peer::Peer;
pub use recall::Recall;
pub use sighting::Sighting;
pub use starts::Starts;
pub use witness::Witness;
