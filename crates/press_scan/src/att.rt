use crate::att_key::AttKey;
use press_text::Text;

/// An attribute: a key and its value.
#[derive(Debug)]
pub struct Att {
    pub key: AttKey,
    pub value: Text,
}

impl Drop for Att {
    fn drop(self) {
        let Att { key: _, value: _ } = self;
    }
}
