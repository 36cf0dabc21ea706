ghost use Rattle.std.specs.Prelude.{◌≡◌, IsTrue, ◌↔◌, true};

use crate::span::Span;

/// A shortcode of a text, by its places there.
#[derive(Clone, Copy, Debug, PartialEq, Eq)]
pub struct Shortcode {
    /// Its first bracket, and the place after its last.
    pub start: usize,
    pub end: usize,
    /// The second `[` is there.
    pub lead: bool,
    /// The name.
    pub tag: Span,
    /// The text from the name to the `]`, or to the `/` before it.
    pub atts: Span,
    /// The text up to the closing tag, where there is one.
    pub content: Option<Span>,
    /// The second `]` is there.
    pub tail: bool,
}

impl Shortcode {
    /// Whether both second brackets are there.
    pub fn is_escape(self) -> bool
        ensures { IsTrue result ↔ (self.lead ≡ true) × (self.tail ≡ true) }
    {
        self.lead && self.tail
    }
}
