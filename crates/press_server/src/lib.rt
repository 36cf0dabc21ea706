//! Nodes behind sockets: a turn of a server, a node by itself, and a node of a cluster whose
//! messages go out as requests.
#![tactic(auto)]

mod alone;
mod files;
mod joining;
mod serve_fault;
mod serving;
mod setup;
mod start_name;
mod store_file;
mod turn;

pub use serve_fault::{Foreign, ServeFault};
pub use serving::begin;
pub use setup::{Role, Setup};
pub use turn::{serve_turn, wake};
