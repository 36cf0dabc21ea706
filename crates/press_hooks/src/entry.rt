use press_text::CallbackId;

/// What a run returns: a callback, and how many arguments it accepts.
#[derive(Clone, Copy, Debug)]
pub struct Entry {
    pub priority: i64,
    pub callback: CallbackId,
    pub accepted: u32,
}
