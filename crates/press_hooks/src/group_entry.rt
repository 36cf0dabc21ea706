use press_text::CallbackId;

/// One of a group: a callback, and how many arguments it accepts.
#[derive(Clone, Copy, Debug)]
pub struct GroupEntry {
    pub callback: CallbackId,
    pub accepted: u32,
}
