/// What a file holds, by the beginning of its name.
#[derive(Clone, Copy, PartialEq, Eq)]
pub enum Kind {
    /// `cmd-`: a command as bytes.
    Command,
    /// `msg-`: a message as bytes.
    Message,
    /// `batch-`: what one member sends another in one request, as bytes.
    Batch,
    /// Any other: a request.
    Request,
}

impl Kind {
    pub fn of(name: &str) -> Kind {
        if name.starts_with("cmd-") {
            Kind::Command
        } else if name.starts_with("msg-") {
            Kind::Message
        } else if name.starts_with("batch-") {
            Kind::Batch
        } else {
            Kind::Request
        }
    }
}
