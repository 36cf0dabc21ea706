//! A member of a cluster: a node with what it has beside it, as one value that inputs change.
#![tactic(auto)]

mod beginning;
mod example;
mod input;
mod laws;
mod letters;
mod member;
mod methods;
mod output;
mod pace;
mod peers;
mod player;
mod signs;

pub use beginning::Beginning;
pub use example::start_and_play;
pub use input::Input;
pub use laws::{any_moves, any_store_acts, any_store_stays_open, lives_among, turns_interleave};
pub use member::Member;
pub use output::{Answer, Outputs};
