//! Schedules whose steps come over sockets of the loopback: each command, message and request for a
//! page by a request of its own.
#![tactic(auto)]

mod alike;
mod answering;
mod asking;
mod carrying;
mod front;
mod looping;

pub use looping::loop_over;
