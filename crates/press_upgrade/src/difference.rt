ghost use Rattle.std.specs.Prelude.{◌≡◌, IfOk, string_bytes};
ghost use Rattle.press_upgrade.specs.Differences.{difference_text};

use std::alloc::{AllocError, Global};

/// The first thing, by its name, by which a kit doesn't extend another.
#[derive(Clone, Copy, Debug)]
pub enum Difference<'k> {
    CallbackIsGone(&'k str),
    CallbackIsOther(&'k str),
    PluginIsGone(&'k str),
    PluginIsOther(&'k str),
}

impl<'k> Difference<'k> {
    /// What differs, in words.
    pub fn text(self, alloc: Global) -> Result<String, AllocError>
        ensures { IfOk result (λ t. string_bytes t ≡ difference_text self.entry) }
    {
        match self {
            Difference::CallbackIsGone(name) => format!(in alloc; "callback \"{name}\" is gone"),
            Difference::CallbackIsOther(name) => {
                format!(in alloc; "callback \"{name}\" has another script")
            }
            Difference::PluginIsGone(name) => format!(in alloc; "plugin \"{name}\" is gone"),
            Difference::PluginIsOther(name) => {
                format!(in alloc; "plugin \"{name}\" has another load")
            }
        }
    }
}
