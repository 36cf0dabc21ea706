//! The type of a cluster's parts; its calls are in `cluster_events.rt`.

use crate::entry::Entry;
use crate::seat::Seat;
use press_wire::Message;

/// The nodes of a cluster, every message that was ever sent, and the trace.
#[derive(Drop)]
pub struct Cluster {
    pub(crate) seats: Vec<Seat>,
    pub(crate) sent: Vec<Message>,
    pub(crate) trace: Vec<Entry>,
}
