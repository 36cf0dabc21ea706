//! One node of a cluster: a kit, a store, and what it has in memory. It answers events with
//! messages and requests with pages.
#![tactic(auto)]

mod earlier;
mod event;
mod fault;
mod fixed;
mod laws;
mod methods;
mod node;
mod serve;
mod start_fault;
mod state;
mod up;

pub use earlier::shows_as_before;
pub use event::Event;
pub use fault::NodeFault;
pub use laws::{few_messages_go_out, what_is_said_is_stored, what_is_sent_is_in_form};
pub use node::Node;
pub use serve::{Served, queued_reply, serve_one, taken_reply};
pub use start_fault::StartFault;
pub use state::State;
