//! What the parts of a text are read from.

ghost use Rattle.std.specs.Prelude.{◌≡◌};
ghost use Rattle.press_callbacks.specs.Turns.{source_text};

use crate::script::{CallIn, Source};

/// The text that is read there; a missing argument or attribute is the empty one.
pub(crate) fn source_text<'a>(source: &Source, call: &'a CallIn) -> &'a str
    ensures { result.now ≡ source_text call.now source.now }
{
    match source {
        Source::Arg(n) => match call.args.as_slice().get(*n) {
            None => "",
            Some(t) => t.as_str(),
        },
        Source::Att(key) => match call.atts.get(key) {
            None => "",
            Some(value) => value,
        },
        Source::Content => call.content.as_str(),
        Source::Tag => call.tag.as_str(),
        Source::Value => call.value.as_str(),
        Source::Last => call.last.as_str(),
    }
}
