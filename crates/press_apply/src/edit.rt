use press_posts::Draft;
use press_text::{OptName, Text};

/// A draft for a post that is there.
#[derive(Clone, Copy, Debug)]
pub struct Edit<'a> {
    pub id: u64,
    pub draft: &'a Draft,
}

/// A value for an option.
#[derive(Clone, Copy, Debug)]
pub struct Setting<'a> {
    pub name: &'a OptName,
    pub value: &'a Text,
}
