//! The program `press` but for its streams: what its arguments ask for, and one run over any reader
//! and writers.
#![tactic(auto)]

mod boxing;
mod commands;
mod ending;
mod exporting;
mod hosting;
mod kitting;
mod mailing;
mod nexting;
mod over;
mod reasons;
mod running;
mod serves;
mod several;
mod sites;
mod task;
mod telling;
mod wanted;
mod words;

pub use running::{Program, run};
pub use serves::{Serves, Sockets};
pub use telling::{fail, refuse};
