ghost use Rattle.std.specs.Prelude.{◌≡◌, IfOk};
ghost use Rattle.press_hooks.specs.NextEntry.{no_rows, with_rows};

use press_hooks::HookTable;
use press_scan::TagTable;
use std::alloc::AllocError;

/// What callbacks edit: the hooks, and the tags of shortcodes.
#[derive(Debug)]
pub struct Tables {
    pub hooks: HookTable,
    pub tags: TagTable,
}

impl Drop for Tables {
    fn drop(self) {
        let Tables { hooks: _, tags: _ } = self;
    }
}

impl Tables {
    /// Tables with the same rows and tags, and no open run.
    pub fn copy(&self) -> Result<Tables, AllocError>
        ensures { IfOk result (λ t. t ≡ record {
          hooks = with_rows self.now.hooks.rows no_rows;
          tags = self.now.tags;
        }) }
    {
        Ok(Tables {
            hooks: self.hooks.copy()?,
            tags: self.tags.copy()?,
        })
    }
}
