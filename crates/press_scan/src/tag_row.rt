ghost use Rattle.std.specs.Prelude.{◌≡◌};
ghost use Rattle.press_scan.specs.Tags.{is_tag, answered_by};

use press_text::{CallbackId, Copied, Text};
use std::alloc::{AllocError, Global};

/// A tag, and the callback that answers its shortcodes.
#[derive(Debug)]
pub struct TagRow {
    pub name: Text,
    pub callback: CallbackId,
}

impl Drop for TagRow {
    fn drop(self) {
        let TagRow {
            name: _,
            callback: _,
        } = self;
    }
}

impl TagRow {
    /// Whether this is the tag of that name.
    pub fn is(&self, name: &[u8]) -> bool
        ensures { result ≡ is_tag name.now self.now }
    {
        name == self.name.as_bytes()
    }

    /// Sets the callback where this is the tag of that name.
    pub fn answer_by(&mut self, name: &[u8], callback: CallbackId)
        ensures { self.new ≡ answered_by name.now callback self.old }
    {
        if self.is(name) {
            self.callback = callback;
        }
    }
}

impl Copied for TagRow {
    fn copy_in(&self, alloc: Global) -> Result<TagRow, AllocError> {
        Ok(TagRow {
            name: self.name.copy(alloc)?,
            callback: self.callback,
        })
    }
}
