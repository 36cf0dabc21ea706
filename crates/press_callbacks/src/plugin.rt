use press_text::{CallbackId, HookName, Items, Name, Tag};

/// What a plugin puts into the tables at a boot.
#[derive(Debug, Drop)]
pub enum Load {
    /// A callback on a hook, with its priority and the count of arguments that it accepts.
    Hook {
        hook: HookName,
        priority: i64,
        callback: CallbackId,
        accepted: u32,
    },
    /// A tag of shortcodes, with the callback that answers it.
    Tag {
        tag: Tag,
        callback: CallbackId,
    },
}

/// What a load goes into.
#[derive(Clone, Copy, Debug, PartialEq, Eq)]
pub(crate) enum LoadKind {
    Hooks,
    Tags,
}

/// A plugin: its name and its loads, in order.
#[derive(Debug)]
pub struct Plugin {
    pub name: Name,
    pub load: Items<Load>,
}

impl Drop for Plugin {
    fn drop(self) {
        let Plugin { name: _, load: _ } = self;
    }
}
