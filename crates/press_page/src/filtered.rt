use press_text::Text;

/// A post's title and content, each by its filter.
#[derive(Debug)]
pub struct Filtered {
    pub title: Text,
    pub content: Text,
}

impl Drop for Filtered {
    fn drop(self) {
        let Filtered {
            title: _,
            content: _,
        } = self;
    }
}
