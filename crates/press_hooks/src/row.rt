use press_text::{CallbackId, HookName};

/// One entry of a hook, as contracts see the rows of a table.
#[derive(Debug)]
pub struct Row {
    pub hook: HookName,
    pub priority: i64,
    pub callback: CallbackId,
    pub accepted: u32,
}

impl Drop for Row {
    fn drop(self) {
        let Row {
            hook: _,
            priority: _,
            callback: _,
            accepted: _,
        } = self;
    }
}
