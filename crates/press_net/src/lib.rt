//! A server over readiness: connections that come, and requests that go out, none of which is
//! waited for.
#![tactic(auto)]

mod addresses;
mod answers;
mod connection;
mod connections;
mod dial;
mod lines;
mod outgoing_connection;
mod outgoing_connections;
mod outlet;
mod reply;
mod request_buffer;
mod server;
mod write_buffer;

pub use addresses::{AddressBook, Listed};
pub use answers::{Answers, Errand, Outgoing, Time, Traffic};
pub use lines::{Lines, Log};
pub use request_buffer::method_and_target_of;
pub use server::{Server, Task};
