//! Shortcodes of a text: their calls, and the steps of a scan.

ghost use Rattle.std.specs.Prelude.{◌≡◌, ◌<◌, ◌≤◌, ◌^◌, [], IfOk, length, Some, None, Option};
ghost use Rattle.press_scan.specs.AttributesOf.{attributes_of};
ghost use Rattle.press_scan.specs.Shortcodes.{IsShortcode, cut};
ghost use Rattle.press_scan.specs.Parts.{IsPart};
ghost use Rattle.press_scan.specs.Tags.{names_of};
ghost use Rattle.press_scan.specs.declared.span.Span.{Span};
ghost use Rattle.press_run.specs.Run.{shortcode_call, content_of, do_shortcode_tag, is_short};

use crate::out::MOST_BYTES;
use press_callbacks::CallIn;
use press_scan::{
    Atts, Scan, Shortcode, Span, TagTable, attributes, computes_attributes, has_parts,
};
use press_text::{HookName, Text, Texts};
use std::alloc::{AllocError, Global};

/// The call of the callback of a shortcode's tag.
pub fn shortcode_call(
    alloc: Global,
    text: &str,
    tags: &TagTable,
    shortcode: Shortcode,
) -> Result<CallIn, AllocError>
    requires stands { IsShortcode text.now (names_of tags.now) shortcode.start shortcode }
    requires short { length text.now ≤ 1048576 }
    ensures { IfOk result (λ c. c ≡ shortcode_call text.now shortcode) }
{
    has_parts(text, tags, shortcode);
    Ok(CallIn {
        args: Texts::new(alloc),
        atts: attributes_of(alloc, part(text, shortcode.atts))?,
        content: content_of(alloc, text, shortcode.content)?,
        tag: Text::from_str(alloc, part(text, shortcode.tag))?,
        value: Text::new(alloc),
        last: Text::new(alloc),
        turn: 0,
    })
}

/// Its tag.
pub fn tag_of(
    alloc: Global,
    text: &str,
    tags: &TagTable,
    shortcode: Shortcode,
) -> Result<Text, AllocError>
    requires stands { IsShortcode text.now (names_of tags.now) shortcode.start shortcode }
    ensures { IfOk result (λ t. t ≡ cut text.now shortcode.tag) }
{
    has_parts(text, tags, shortcode);
    Text::from_str(alloc, part(text, shortcode.tag))
}

/// The hook that filters the answers to shortcodes.
pub fn do_shortcode_tag(alloc: Global) -> Result<HookName, AllocError>
    ensures { IfOk result (λ h. h ≡ do_shortcode_tag) }
{
    HookName::from_valid(alloc, "do_shortcode_tag")
}

/// Whether the output of a scan is within the bytes.
pub fn is_short(scan: &Scan) -> bool
    ensures { result ≡ is_short scan.now.output }
{
    scan.len() <= MOST_BYTES
}

fn attributes_of(alloc: Global, text: &str) -> Result<Atts, AllocError>
    requires { length text.now < 2 ^ 32 }
    ensures { IfOk result (λ a. a ≡ attributes_of text.now) }
{
    computes_attributes();
    attributes(alloc, text)
}

fn content_of(alloc: Global, text: &str, content: Option<Span>) -> Result<Text, AllocError>
    requires { (span : Span) → content ≡ Some span → IsPart text.now span }
    ensures { IfOk result (λ t. t ≡ content_of text.now content) }
{
    match content {
        None => Ok(Text::new(alloc)),
        Some(span) => Text::from_str(alloc, part(text, span)),
    }
}

fn part(text: &str, span: Span) -> &str
    requires { IsPart text.now span }
    ensures part { result.now ≡ cut text.now span }
    ensures within { length result.now ≤ length text.now }
{
    &text[span.start..span.end]
}
