use press_posts::Fire;
use press_text::{HookName, Items, Texts};

/// What a page or a command has a machine do.
#[derive(Debug, Drop)]
pub enum Job {
    /// The actions, one after the other.
    Fires(Items<Fire>),
    /// A filter over its first argument; the others are passed on as they are.
    Apply { hook: HookName, args: Texts },
}
