use press_apply::Stamped;
use press_wire::Message;

/// What happens to a node.
#[derive(Debug, Drop)]
pub enum Event {
    /// An editor's command comes.
    Submit(Stamped),
    /// The node is to work on the next slot.
    Wake,
    /// A message comes, from the node itself or from another.
    Deliver(Message),
}
