use crate::head::Head;
use press_wire::Message;

/// What one member sends another in one request.
#[derive(Debug, Drop)]
pub struct Batch {
    pub head: Head,
    /// In the order of sending.
    pub messages: Vec<Message>,
}
