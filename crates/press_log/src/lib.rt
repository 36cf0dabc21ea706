//! The commands that a node has applied, as a site file has them.
#![tactic(auto)]

mod commands;
mod log;

pub use log::show_log;
