//! A text of parts, read piece by piece and made nowhere.

ghost use Rattle.std.specs.Prelude.{◌≡◌, [], bytes_eq};
ghost use Rattle.press_callbacks.specs.UnreadText.{unread};
ghost use Rattle.press_callbacks.specs.Turns.{text_of};

use crate::script::{CallIn, Part};
use crate::sources::source_text;
use press_text::escape_of;

/// What is still to be read of a text: a piece, what is to be escaped behind it, and further parts.
#[derive(Drop)]
pub(crate) struct UnreadText<'a> {
    call: &'a CallIn,
    piece: &'a [u8],
    to_escape: &'a [u8],
    parts: &'a [Part],
}

impl<'a> UnreadText<'a> {
    /// The text of these parts, of which nothing is read.
    pub(crate) fn new(call: &'a CallIn, parts: &'a [Part]) -> UnreadText<'a>
        ensures { unread result ≡ text_of call.now parts.now }
    {
        UnreadText {
            call,
            piece: &[],
            to_escape: &[],
            parts,
        }
    }

    // A piece with a byte at least, but where all is read.
    fn fill(&mut self)
        ensures unread { unread self.new ≡ unread self.old }
        ensures some { self.new.piece.now ≡ [] → unread self.new ≡ [] }
    {
        while self.piece.is_empty() {
            if let [first, rest @ ..] = self.to_escape {
                self.piece = escape_of(first);
                self.to_escape = rest;
                return;
            }
            let [part, rest @ ..] = self.parts else {
                return;
            };
            self.parts = rest;
            match part {
                Part::Lit(text) => self.piece = text.as_bytes(),
                Part::Raw(source) => self.piece = source_text(source, self.call).as_bytes(),
                Part::Escaped(source) => {
                    self.to_escape = source_text(source, self.call).as_bytes();
                }
            }
        }
    }
}

/// Whether two texts are the same, byte by byte.
pub(crate) fn are_same(mut left: UnreadText, mut right: UnreadText) -> bool
    ensures { result ≡ bytes_eq (unread left.entry) (unread right.entry) }
{
    loop {
        left.fill();
        right.fill();
        let both = left.piece.len().min(right.piece.len());
        if both == 0 {
            return left.piece.is_empty() && right.piece.is_empty();
        }
        let (one, behind_one) = left.piece.split_at(both);
        let (other, behind_other) = right.piece.split_at(both);
        if one != other {
            return false;
        }
        left.piece = behind_one;
        right.piece = behind_other;
    }
}
